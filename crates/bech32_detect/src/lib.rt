//! Whether a checksum detects each error in up to four elements.
//!
//! Below it: `bech32_decode`, `bech32_bch`.
//! Standard: BIP-173, Checksum design.
#![tactic(auto)]

ghost use Rattle.std.specs.Prelude.{◌<◌, IsTrue, IfErr, IfOk};
ghost use Rattle.bech32_gf.specs.Fe32 as fe32;
ghost use Rattle.bech32_poly.specs.Polynomial.{coefficient};
ghost use Rattle.bech32_detect.specs.Texts.{AreTextsFar, SaysWhetherFour};

mod bursts;
mod distance;
mod four;
mod rows;
mod search;

pub use self::bursts::bursts_are_detected;
pub use self::distance::accepted_texts_are_far;
pub use self::four::four_errors_are_detected;
use bech32_checksum::{Checksum, Engine};
use rows::{row_of, term_rows};
use search::has_three;
use std::alloc::{AllocError, Allocator};

// Whether four errors are detected.
fn decided_in<Ck: Checksum, A: Allocator>(alloc: A, n: usize) -> Result<bool, AllocError>
    requires { 0 < (coefficient fe32.ops Ck.code.generator 0).value }
    ensures value { IfOk result (SaysWhetherFour Ck.code n) }
    ensures memory { IfErr result (λ _. 0 < n) }
{
    if n == 0 {
        return Ok(true);
    }
    let mut rows = term_rows::<Ck, A>(alloc, n)?;
    rows.sort_unstable();
    // What a pattern leaves is zero or not whatever its values are multiplied by and wherever it
    // begins: its lowest location may be taken as 0, and the value there as 1.
    let one = Engine::<Ck>::new();
    Ok(!has_three(&rows, row_of::<Ck>(one.residue())))
}

/// Whether no pattern of one to four errors, at different locations below `n`, has the remainder
/// zero (BIP-173, Checksum design; true of Bech32 and Bech32m at 89), with memory from `alloc`.
///
/// Where it is true, two texts that the checksum accepts, of the same human-readable part and
/// length and with data parts of at most `n` characters, have the same elements or differ in at
/// least five. The caller has seen to it that the constant coefficient of the generator is not
/// zero, and so that the degree is above 0. Memory and time grow with `n` and, but for a logarithm,
/// with its square.
///
/// # Errors
///
/// If memory runs out, and never at `n` = 0.
pub fn detects_four<Ck: Checksum>(alloc: impl Allocator, n: usize) -> Result<bool, AllocError>
    requires { 0 < (coefficient fe32.ops Ck.code.generator 0).value }
    ensures value { IfOk result (SaysWhetherFour Ck.code n) }
    ensures texts { IfOk result (λ answer. IsTrue answer → AreTextsFar Ck.code n 4) }
    ensures memory { IfErr result (λ _. 0 < n) }
{
    decided_in::<Ck, _>(alloc, n)
}
