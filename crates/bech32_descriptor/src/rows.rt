//! The words of all elements times powers of x.

ghost use Rattle.std.specs.Prelude.{◌≡◌, ◌<◌, ◌≤◌, ◌/◌, ℕ, List, ◌∷◌, [], length, IfOk};
ghost use Rattle.bech32_gf.specs.Fe32 as fe32;
ghost use Rattle.bech32_gf.specs.declared.gf32.Fe32.{Fe32 as Element};
ghost use Rattle.bech32_descriptor.specs.Walks.{AreRows, rows_for, times_power_of_x};
ghost use Rattle.bech32_descriptor.specs.Words.{IsWordOfSymbols};

use crate::code::Descriptor;
use bech32_checksum::{Checksum, Engine};
use bech32_gf::gf32::Fe32;
use std::alloc::{AllocError, Allocator};

// The word of an element.
fn first_word(x: usize) -> u64
    requires { x < 32 }
    ensures { IsWordOfSymbols result (fe32.element x ∷ []) }
{
    let mut engine = Engine::<Descriptor>::zero();
    engine.input_fe(Fe32::from_low_bits(x as u8));
    *engine.residue()
}

// The word of a polynomial times x.
#[inline]
fn raised(word: u64) -> u64
    requires { (p : List Element) × IsWordOfSymbols word p }
    ensures { (p : List Element) → IsWordOfSymbols word p → IsWordOfSymbols result (fe32.zero ∷ p) }
{
    Descriptor::after_one(word, Fe32::Q)
}

// The next word of some.
#[inline]
fn next_word(rows: &[u64]) -> u64
    requires { AreRows rows.now }
    ensures { IsWordOfSymbols result
        (times_power_of_x (length rows.now / 32) (fe32.element (length rows.now) ∷ [])) }
{
    let x = rows.len();
    if x < 32 {
        return first_word(x);
    }
    raised(rows[x - 32])
}

// The words of all elements times as many powers of x as a text of this length needs.
pub(crate) fn rows_of<A: Allocator>(alloc: A, n: usize) -> Result<Vec<u64, A>, AllocError>
    requires { n ≤ 7501 }
    ensures { IfOk result (λ rows.
        AreRows rows.items × (length rows.items ≡ rows_for n)) }
{
    let size = 32 * (n + n / 3 + 8);
    let mut rows = Vec::with_capacity(alloc, size)?;
    for _x in 0..size {
        let word = next_word(&rows);
        rows.push(word)?;
    }
    Ok(rows)
}
