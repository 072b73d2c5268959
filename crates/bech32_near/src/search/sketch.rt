//! What is left of packed remainders where those of the erasures are forgotten.

ghost use Rattle.std.specs.Prelude.{◌≡◌, ◌↔◌, ◌/◌, ◌%◌, ◌^◌, IsTrue, OnOk};
ghost use Rattle.bech32_near.specs.search.Sketch.{IsForgotten, cleared, cleared_by};

use std::alloc::{AllocError, Allocator};

/// A bit, and a number that has it: it is added to each number that has the bit, which is then
/// without it.
pub(crate) type Row = (u32, u64);

// Whether a number has a bit.
#[inline(always)]
fn has_bit(number: u64, bit: u32) -> bool
    ensures { IsTrue result ↔ (number / 2 ^ (bit % 64) % 2 ≡ 1) }
{
    (number >> (bit % 64)) % 2 == 1
}

// The number without the row's bit.
#[inline(always)]
fn cleared(row: Row, number: u64) -> u64
    ensures { result ≡ cleared row number }
{
    if has_bit(number, row.0) {
        return number ^ row.1;
    }
    number
}

/// The number without the bits of the rows.
pub(crate) fn cleared_by(rows: &[Row], number: u64) -> u64
    ensures { result ≡ cleared_by rows.now number }
{
    let mut left = number;
    for row in rows {
        left = cleared(*row, left);
    }
    left
}

/// Goes on with the rows so that nothing is left of a further number.
pub(crate) fn push_row<A: Allocator>(rows: &mut Vec<Row, A>, number: u64) -> Result<(), AllocError>
    ensures { OnOk result (IsForgotten number rows.old.items rows.new.items) }
{
    let left = cleared_by(rows, number);
    if left == 0 {
        return Ok(());
    }
    rows.push((left.trailing_zeros(), left))?;
    Ok(())
}
