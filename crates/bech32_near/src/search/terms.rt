//! Sketches of residues, and of the remainders of single errors.

ghost use Rattle.std.specs.Prelude.{◌≡◌, ◌≤◌, ◌<◌, ◌++◌, ℕ, List, min, IfOk, OnOk};
ghost use Rattle.bech32_checksum.specs.Code.{IsResidueOf};
ghost use Rattle.bech32_checksum.specs.Packed.{HasDigits, digit_of, tabulate};
ghost use Rattle.bech32_gf.specs.Fe32 as fe32;
ghost use Rattle.bech32_gf.specs.declared.gf32.Fe32.{Fe32 as Element};
ghost use Rattle.bech32_poly.specs.Division.{remainder_of};
ghost use Rattle.bech32_poly.specs.Polynomial.{coefficient};
ghost use Rattle.bech32_near.specs.search.Sketch.{AreColumns, AreForgotten, IsErasureForgotten};
ghost use Rattle.bech32_near.specs.search.Sketch.{packed_by, sketch, sketch_at};

use crate::search::sketch::{Row, cleared_by, push_row};
use bech32_checksum::{Checksum, Engine, PackedFe32};
use bech32_gf::gf32::Fe32;
use bech32_lookup::listed_engine;
use std::alloc::{AllocError, Allocator};

// A sketch is made of this many coefficients: those that a number of 64 bits packs.
#[inline(always)]
fn sketch_size<Ck: Checksum>() -> usize
    ensures { result ≡ min Ck.CHECKSUM_LENGTH 12 }
{
    Ck::CHECKSUM_LENGTH.min(12)
}

// The lowest coefficients of a packed remainder as a number.
#[inline]
fn number_of<Ck: Checksum>(row: &Ck::MidstateRepr) -> u64
    ensures { result ≡ packed_by (min Ck.CHECKSUM_LENGTH 12)
        (λ n. (digit_of (Ck.MidstateRepr.number row.now) n).value) (min Ck.CHECKSUM_LENGTH 12) }
{
    let size = sketch_size::<Ck>();
    let mut number = 0;
    for i in 0..size {
        number = number * 32 + u64::from(row.unpack(size - 1 - i));
    }
    number
}

// The value of the coefficient that a list has at a place.
#[inline]
fn value_at(list: &[Fe32], place: usize) -> u8
    ensures { result ≡ (coefficient fe32.ops list.now place).value }
{
    if place >= list.len() {
        return 0;
    }
    list[place].to_u8()
}

// The lowest coefficients of a list as a number.
#[inline]
fn packed(list: &[Fe32], size: usize) -> u64
    requires { size ≤ 12 }
    ensures { result ≡ packed_by size (λ n. (coefficient fe32.ops list.now n).value) size }
{
    let mut number = 0;
    for i in 0..size {
        number = number * 32 + u64::from(value_at(list, size - 1 - i));
    }
    number
}

/// The sketch of a residue.
pub(crate) fn sketch_of<Ck: Checksum>(rows: &[Row], residue: &[Fe32]) -> u64
    ensures { result ≡ sketch rows.now (min Ck.CHECKSUM_LENGTH 12) residue.now }
{
    cleared_by(rows, packed(residue, sketch_size::<Ck>()))
}

// Goes on with the rows so that nothing is left of any error at a location.
fn push_erasure<Ck: Checksum, A: Allocator>(
    rows: &mut Vec<Row, A>,
    location: usize,
) -> Result<(), AllocError>
    ensures { OnOk result (IsErasureForgotten (min Ck.CHECKSUM_LENGTH 12) Ck.code.generator location
        rows.old.items rows.new.items) }
{
    for value in 1..32u8 {
        let engine = listed_engine::<Ck>(&[(location, Fe32::from_low_bits(value))]);
        push_row(rows, number_of::<Ck>(engine.residue()))?;
    }
    Ok(())
}

/// Rows that leave nothing of any error at the erasures.
pub(crate) fn rows_of<Ck: Checksum, A: Allocator>(
    alloc: A,
    erasures: &[usize],
) -> Result<Vec<Row, A>, AllocError>
    ensures { IfOk result (λ rows. AreForgotten rows.items (min Ck.CHECKSUM_LENGTH 12)
        Ck.code.generator erasures.now) }
{
    let mut rows = Vec::with_capacity(alloc, erasures.len().saturating_mul(5))?;
    for location in erasures {
        push_erasure::<Ck, A>(&mut rows, *location)?;
    }
    Ok(rows)
}

// Puts in the sketches of a value at each location below the window.
fn push_column<Ck: Checksum, A: Allocator>(
    columns: &mut Vec<u64, A>,
    rows: &[Row],
    value: Fe32,
    window: usize,
) -> Result<(), AllocError>
    ensures { OnOk result (columns.new.items ≡ columns.old.items
        ++ tabulate window (λ location. sketch_at rows.now (min Ck.CHECKSUM_LENGTH 12)
        Ck.code.generator location value)) }
{
    let mut engine = Engine::<Ck>::zero();
    engine.input_fe(value);
    for _ in 0..window {
        columns.push(cleared_by(rows, number_of::<Ck>(engine.residue())))?;
        engine.input_fe(Fe32::Q);
    }
    Ok(())
}

/// The sketches of the values 1, 2, 4, 8 and 16 at each location below the window.
pub(crate) fn columns_of<Ck: Checksum, A: Allocator>(
    alloc: A,
    rows: &[Row],
    window: usize,
) -> Result<Vec<u64, A>, AllocError>
    ensures { IfOk result (λ columns. AreColumns rows.now (min Ck.CHECKSUM_LENGTH 12)
        Ck.code.generator window columns.items) }
{
    let mut columns = Vec::with_capacity(alloc, window.saturating_mul(5))?;
    for i in 0..5u8 {
        let value = Fe32::from_low_bits(1 << i);
        push_column::<Ck, A>(&mut columns, rows, value, window)?;
    }
    Ok(columns)
}
