//! Decodes the rows of a column of segwit addresses.

ghost use Rattle.std.specs.Prelude.{◌≡◌, ◌≢◌, ◌<◌, ◌≤◌, ◌+◌, ◌↔◌, IfErr, IfOk, IsTrue, List, MatchResult, [], ℕ, if◌then◌else◌, ◌==◌, true, length};
ghost use Rattle.bech32_bits.specs.Bits.{to_bytes};
ghost use Rattle.bech32_gf.specs.Alphabet.{is_data};
ghost use Rattle.bech32_gf.specs.Fe32.{elements_of};
ghost use Rattle.bech32_calls.specs.Faults.{IsPartFault};
ghost use Rattle.bech32_more_calls.specs.columns.Arrays.{HoldsArray};
ghost use Rattle.bech32_more_calls.specs.columns.Decoded.{CanBeWanted, CanDecodeMany, IsDecodeManyFault, IsDecodedRow, IsDecodedText, IsWanted, LacksItems, PutsAddresses};
ghost use Rattle.bech32_more_calls.specs.columns.Rows.{row_of};

use crate::columns::column::Column;
use crate::columns::put::{put_data, put_item, room_in};
use bech32_calls::input::test_part;
use bech32_calls::refusal::Refusal;
use bech32_calls::segwit::address_in;
use bech32_decode::data_bytes_count;

/// The number of an address that has another human-readable part than is wanted.
pub const OTHER_HRP: u8 = 49;

/// Rows of a column of addresses, and the human-readable part that is wanted of them.
#[derive(Clone, Copy)]
pub struct Addresses<'a> {
    /// The column.
    pub column: Column<'a>,
    /// The first row.
    pub first: usize,
    /// The human-readable part, in either case; any is wanted, where it is empty.
    pub hrp: &'a [u8],
}

// What is said of a row, and the characters of its program.
#[derive(Clone, Copy)]
struct Address<'a> {
    number: u8,
    version: u8,
    hrp_length: u8,
    characters: &'a [u8],
    ghost of_alphabet: { is_data characters.now ≡ true },
}

// What is said of a row that is not accepted.
#[inline(always)]
fn refused<'a>(number: u8) -> Address<'a>
    ensures number { result.number ≡ number }
    ensures version { result.version ≡ 0 }
    ensures hrp_length { result.hrp_length ≡ 0 }
    ensures characters { result.characters.now ≡ [] }
{
    Address {
        number,
        version: 0,
        hrp_length: 0,
        characters: &[],
    }
}

// Whether a human-readable part is wanted: any is where none is given.
#[inline]
fn is_wanted(hrp: &[u8], part: &[u8]) -> bool
    ensures { IsTrue result ↔ IsWanted hrp.now part.now }
{
    hrp.is_empty() || part.eq_ignore_ascii_case(hrp)
}

// Decodes a text.
#[inline(always)]
fn decode_text<'a>(text: &'a [u8], hrp: &[u8]) -> Address<'a>
    ensures { IsDecodedText hrp.now text.now (record {
      number = result.number;
      version = result.version;
      hrp_length = result.hrp_length;
      program = to_bytes (elements_of result.characters.now);
    }) }
{
    let (part, address) = match address_in(text) {
        Ok(found) => found,
        Err(refusal) => return refused(refusal.number() as u8),
    };
    if !is_wanted(hrp, part) {
        return refused(OTHER_HRP);
    }
    Address {
        number: 0,
        version: address.version.to_u8(),
        hrp_length: part.len() as u8,
        characters: address.program,
    }
}

// The same of a row.
#[inline(always)]
fn decode_row<'a>(column: &Column<'a>, i: usize, hrp: &[u8]) -> Address<'a>
    requires { i < usize.MAX }
    ensures { IsDecodedRow hrp.now (row_of column.now i) (record {
      number = result.number;
      version = result.version;
      hrp_length = result.hrp_length;
      program = to_bytes (elements_of result.characters.now);
    }) }
{
    match column.row(i) {
        Ok(text) => decode_text(text, hrp),
        Err(number) => refused(number),
    }
}

// The lesser of a number of rows and of items that there is room for, where there is any.
#[inline(always)]
fn within(most: usize, room: usize) -> usize
    ensures less { result ≤ most }
    ensures room { room ≢ 0 → result ≤ room }
    ensures full { result ≢ most → (room ≢ 0) × (result ≡ room) }
{
    if room == 0 || most <= room {
        most
    } else {
        room
    }
}

// How many rows the buffers have items for.
#[inline]
fn most_rows(count: usize, versions: usize, hrp_lengths: usize, offsets: usize) -> usize
    ensures less { result ≤ count }
    ensures room { ¬ (LacksItems versions hrp_lengths offsets result) }
    ensures full { result ≢ count → LacksItems versions hrp_lengths offsets (result + 1) }
{
    let most = within(within(count, versions), hrp_lengths);
    if offsets == 0 || most < offsets {
        most
    } else {
        offsets - 1
    }
}

// The characters of a program, where there is room for offsets.
#[inline(always)]
fn kept(characters: &[u8], places: usize) -> &[u8]
    requires { is_data characters.now ≡ true }
    ensures value { result.now ≡ (if places == 0 then [] else characters.now) }
    ensures of_alphabet { is_data result.now ≡ true }
{
    if places == 0 {
        return &characters[..0];
    }
    characters
}

// Puts what is said of this many rows, and returns how many are put: fewer where a program does not
// fit.
fn put_rows(
    rows: &Addresses<'_>,
    most: usize,
    numbers: &mut [u8],
    versions: &mut [u8],
    hrp_lengths: &mut [u8],
    offsets: &mut [u32],
    programs: &mut [u8],
) -> usize
    requires rows { rows.now.first + most ≤ rows.now.column.rows }
    requires most { most ≤ length numbers.old }
    requires room { ¬ (LacksItems (length versions.old) (length hrp_lengths.old)
        (length offsets.old) most) }
    requires full { most ≢ length numbers.old → LacksItems (length versions.old)
        (length hrp_lengths.old) (length offsets.old) (most + 1) }
    ensures { PutsAddresses rows.now.column rows.now.first rows.now.hrp.now
        numbers.old numbers.new versions.old versions.new hrp_lengths.old hrp_lengths.new
        offsets.old offsets.new programs.old programs.new result }
{
    let places = offsets.len();
    let room = room_in(programs);
    let mut end = 0;
    put_item(offsets, 0, 0);
    for i in 0..most {
        let row = decode_row(&rows.column, rows.first + i, rows.hrp);
        let characters = kept(row.characters, places);
        let count = data_bytes_count(characters);
        if count > room - end {
            return i;
        }
        put_data(programs, end, characters);
        end += count;
        put_item(offsets, i + 1, end as u32);
        put_item(numbers, i, row.number);
        put_item(versions, i, row.version);
        put_item(hrp_lengths, i, row.hrp_length);
    }
    most
}

// Tests that a human-readable part may be wanted: any is, where none is given.
fn test_wanted(hrp: &[u8]) -> Result<(), Refusal>
    ensures { MatchResult result
        (λ _. CanBeWanted hrp.now)
        (λ e. (hrp.now ≢ []) × IsPartFault hrp.now e) }
{
    if hrp.is_empty() {
        return Ok(());
    }
    test_part(hrp)
}

/// Decodes the rows, as many as there are numbers. Of each its number is put, its witness version,
/// the length of its human-readable part, with which the text begins, and its program: they stand
/// in `programs` one behind another, from `offsets[i]` up to `offsets[i + 1]`. Where the number is
/// not 0, there are no others: they are 0, and the program is empty. What has a room of 0 is not
/// put; and no program is where there is none for offsets. An address whose human-readable part is
/// not the wanted one is refused.
///
/// Returns how many rows are put: all, or as many as there is room for in all buffers, and as have
/// less than 2^31 bytes of programs.
///
/// # Errors
///
/// The first of: the column has no layout, or there are no such rows ([`Refusal::BadNumber`]); the
/// wanted human-readable part is not UTF-8, or is none. Then nothing is put.
pub fn decode_many(
    rows: &Addresses<'_>,
    numbers: &mut [u8],
    versions: &mut [u8],
    hrp_lengths: &mut [u8],
    offsets: &mut [u32],
    programs: &mut [u8],
) -> Result<usize, Refusal>
    ensures value { IfOk result (λ done. PutsAddresses
        rows.now.column rows.now.first rows.now.hrp.now numbers.old numbers.new
        versions.old versions.new hrp_lengths.old hrp_lengths.new
        offsets.old offsets.new programs.old programs.new done) }
    ensures refused { IfErr result (λ e. IsDecodeManyFault
        rows.now.column rows.now.first (length numbers.old) rows.now.hrp.now e) }
    ensures accepts { IfOk result (λ _. CanDecodeMany
        rows.now.column rows.now.first (length numbers.old) rows.now.hrp.now) }
    ensures same { IfErr result (λ _. (numbers.new ≡ numbers.old) × (versions.new ≡ versions.old)
        × (hrp_lengths.new ≡ hrp_lengths.old) × (offsets.new ≡ offsets.old)
        × (programs.new ≡ programs.old)) }
{
    if !rows.column.has_rows(rows.first, numbers.len()) {
        return Err(Refusal::BadNumber);
    }
    test_wanted(rows.hrp)?;
    let most = most_rows(
        numbers.len(),
        versions.len(),
        hrp_lengths.len(),
        offsets.len(),
    );
    Ok(put_rows(
        rows,
        most,
        numbers,
        versions,
        hrp_lengths,
        offsets,
        programs,
    ))
}
