//! Encodes the rows of a column of programs as segwit addresses.

ghost use Rattle.std.specs.Prelude.{◌≡◌, ◌≢◌, ◌<◌, ◌≤◌, ◌⊎◌, ◌+◌, ℕ, List, IfNone, IfSome, MatchOption, length, slice_index};
ghost use Rattle.bech32_encode.specs.Buffers.{IsPut};
ghost use Rattle.bech32_calls.specs.Numbers.{number_of};
ghost use Rattle.bech32_more_calls.specs.columns.Encoded.{IsEncodedProgram, IsEncodedRow, PutsTexts};
ghost use Rattle.bech32_more_calls.specs.columns.Rows.{HasRows, row_of};

use crate::columns::column::Column;
use crate::columns::put::{put_item, room_in};
use bech32_calls::refusal::Refusal;
use bech32_calls::segwit::encoded;

/// Rows of a column of programs, and what they are encoded with.
#[derive(Clone, Copy)]
pub struct ProgramRows<'a> {
    /// The column.
    pub column: Column<'a>,
    /// The first row.
    pub first: usize,
    /// The human-readable part of all addresses.
    pub hrp: &'a [u8],
    /// The witness version of each row, from the first on.
    pub versions: &'a [u8],
}

// What is put of a row: its number, and the length of its address.
#[derive(Clone, Copy)]
struct Text {
    number: u8,
    count: usize,
}

// What is put of a row that is refused, unless it is for want of room.
#[inline]
fn refused(refusal: Refusal) -> Option<Text>
    ensures { MatchOption result (refusal ≡ Refusal.NoRoom) (λ t. (refusal ≢ Refusal.NoRoom)
        × (t.number ≡ number_of refusal) × (t.number ≢ 0) × (t.count ≡ 0)) }
{
    match refusal {
        Refusal::NoRoom => None,
        _ => Some(Text {
            number: refusal.number() as u8,
            count: 0,
        }),
    }
}

// Puts the address of a program at the front of a buffer; nothing, where it does not fit.
#[inline]
fn encode_program(hrp: &[u8], version: u8, program: &[u8], text: &mut [u8]) -> Option<Text>
    ensures value { IfSome result (λ t. (written : List ℕ)
        × IsEncodedProgram hrp.now version program.now
        (record { number = t.number; text = written })
        × IsPut written text.old text.new t.count) }
    ensures full { IfNone result ((written : List ℕ)
        × IsEncodedProgram hrp.now version program.now (record { number = 0; text = written })
        × (length text.old < length written)) }
    ensures same { IfNone result (text.new ≡ text.old) }
{
    match encoded(hrp, u32::from(version), program, text) {
        Ok(count) => Some(Text { number: 0, count }),
        Err(refusal) => refused(refusal),
    }
}

// The same of a row.
#[inline]
fn encode_row(
    column: &Column<'_>,
    i: usize,
    hrp: &[u8],
    version: u8,
    text: &mut [u8],
) -> Option<Text>
    requires { i < usize.MAX }
    ensures value { IfSome result (λ t. (written : List ℕ)
        × IsEncodedRow hrp.now version (row_of column.now i)
        (record { number = t.number; text = written })
        × IsPut written text.old text.new t.count) }
    ensures full { IfNone result ((written : List ℕ)
        × IsEncodedRow hrp.now version (row_of column.now i)
        (record { number = 0; text = written })
        × (length text.old < length written)) }
    ensures same { IfNone result (text.new ≡ text.old) }
{
    match column.row(i) {
        Ok(program) => encode_program(hrp, version, program, text),
        Err(number) => Some(Text { number, count: 0 }),
    }
}

// How many rows the buffers have items for: of offsets it takes one more.
#[inline]
fn most_rows(count: usize, offsets: usize) -> usize
    ensures less { result ≤ count }
    ensures room { (result ≡ 0) ⊎ (result < offsets) }
    ensures full { result ≢ count → offsets ≤ result + 1 }
{
    count.min(offsets.saturating_sub(1))
}

/// Encodes the rows, as many as there are numbers, as segwit addresses: row `first + i` by the
/// witness version `versions[i]`. Of each its number is put, and its address, in lower case: they
/// stand in `texts` one behind another, from `offsets[i]` up to `offsets[i + 1]`. Where the number
/// is not 0, the address is empty.
///
/// Returns how many rows are put: all, or as many as there is room for in all buffers, and as have
/// less than 2^31 characters. Nothing, where there are no such rows, fewer versions, or the column
/// has no layout: then it puts nothing.
pub fn encode_many(
    rows: &ProgramRows<'_>,
    numbers: &mut [u8],
    offsets: &mut [u32],
    texts: &mut [u8],
) -> Option<usize>
    ensures value { IfSome result (λ done. PutsTexts
        rows.now.column rows.now.first rows.now.hrp.now rows.now.versions.now
        numbers.old numbers.new offsets.old offsets.new texts.old texts.new done) }
    ensures refused { IfNone result (HasRows rows.now.column rows.now.first (length numbers.old)
        → length rows.now.versions.now < length numbers.old) }
    ensures accepts { IfSome result
        (λ _. HasRows rows.now.column rows.now.first (length numbers.old)
        × (length numbers.old ≤ length rows.now.versions.now)) }
    ensures same { IfNone result ((numbers.new ≡ numbers.old) × (offsets.new ≡ offsets.old)
        × (texts.new ≡ texts.old)) }
{
    if !rows.column.has_rows(rows.first, numbers.len()) || rows.versions.len() < numbers.len() {
        return None;
    }
    let most = most_rows(numbers.len(), offsets.len());
    let room = room_in(texts);
    let mut end = 0;
    put_item(offsets, 0, 0);
    for i in 0..most {
        let text = &mut texts[end..room];
        let version = rows.versions[i];
        let Some(row) = encode_row(&rows.column, rows.first + i, rows.hrp, version, text) else {
            return Some(i);
        };
        end += row.count;
        put_item(offsets, i + 1, end as u32);
        put_item(numbers, i, row.number);
    }
    Some(most)
}
