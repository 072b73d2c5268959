//! Tests the rows of a column by a checksum.

ghost use Rattle.std.specs.Prelude.{◌≡◌, ◌≢◌, ◌+◌, ◌<◌, ◌≤◌, ◌↔◌, IsTrue, length};
ghost use Rattle.bech32_more_calls.specs.columns.Checked.{CanCheck, IsCheckedRow, IsCheckedText, PutsNumbers};
ghost use Rattle.bech32_more_calls.specs.columns.Rows.{row_of};

use crate::columns::column::Column;
use bech32_calls::decode::checked_by_either;
use bech32_calls::fault::number_of;

// The number of a text by the checksum of a number, and with 0 by Bech32m and Bech32.
#[inline]
fn check_text(checksum: u32, text: &[u8]) -> u8
    ensures { IsCheckedText checksum text.now result }
{
    if checksum != 0 {
        return number_of(checksum, text) as u8;
    }
    match checked_by_either(text) {
        Ok(()) => 0,
        Err(refusal) => refusal.number() as u8,
    }
}

// The same of a row.
#[inline]
fn check_row(checksum: u32, column: &Column<'_>, i: usize) -> u8
    requires { i < usize.MAX }
    ensures { IsCheckedRow checksum (row_of column.now i) result }
{
    match column.row(i) {
        Ok(text) => check_text(checksum, text),
        Err(number) => number,
    }
}

// Puts the numbers of all rows from one on.
fn put_numbers(checksum: u32, column: &Column<'_>, first: usize, numbers: &mut [u8])
    requires { first + length numbers.old ≤ column.now.rows }
    ensures { PutsNumbers checksum column.now first numbers.new }
{
    for i in 0..numbers.len() {
        numbers[i] = check_row(checksum, column, first + i);
    }
}

/// Puts the number of each row from one on, as many as there are numbers, by the checksum of a
/// number, or with 0 by Bech32m and Bech32: one that accepts the text suffices. Returns whether
/// there is such a checksum, and there are such rows; otherwise it puts nothing.
pub fn check_many(checksum: u32, column: &Column<'_>, first: usize, numbers: &mut [u8]) -> bool
    ensures can { IsTrue result ↔ CanCheck checksum column.now first (length numbers.old) }
    ensures value { IsTrue result → PutsNumbers checksum column.now first numbers.new }
    ensures same { ¬ (IsTrue result) → numbers.new ≡ numbers.old }
{
    if checksum > 4 || !column.has_rows(first, numbers.len()) {
        return false;
    }
    put_numbers(checksum, column, first, numbers);
    true
}
