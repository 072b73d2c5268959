//! What another character at one place adds to the remainder of a text.

ghost use Rattle.std.specs.Prelude.{◌≡◌, ◌<◌, ◌≤◌, ◌+◌, ◌*◌, ℕ, List, get_or, length, slice_set};
ghost use Rattle.bech32_gf.specs.declared.gf32.Fe32.{Fe32 as Element};
ghost use Rattle.bech32_descriptor.specs.Marks.{KeepsMarks};
ghost use Rattle.bech32_descriptor.specs.PairWalks.{AreBases, MarksChanges, group_power, symbol_power};
ghost use Rattle.bech32_descriptor.specs.Walks.{change_in, group_from, payload_change, rows_for, word_in};

use crate::alphabet::{checksum_place, place};
use crate::marks::mark_sums;
use bech32_gf::gf32::Fe32;

// The byte at a place, where another one stands at one place.
#[inline]
fn byte_with(payload: &[u8], i: usize, b: u8, k: usize) -> u8
    requires { k < length payload.now }
    ensures { result ≡ get_or (slice_set payload.now i b) k 0 }
{
    if k == i {
        return b;
    }
    payload[k]
}

// The number that the groups of the characters from a place on make, where another one stands at
// one place.
#[inline]
fn group_with(payload: &[u8], i: usize, b: u8, start: usize) -> u8
    requires { start < length payload.now }
    ensures { result ≡ group_from (slice_set payload.now i b) start }
{
    let left = payload.len() - start;
    let first = place(byte_with(payload, i, b, start)) / 32;
    if left == 1 {
        return first;
    }
    let second = place(byte_with(payload, i, b, start + 1)) / 32;
    if left == 2 {
        return 3 * first + second;
    }
    let third = place(byte_with(payload, i, b, start + 2)) / 32;
    9 * first + 3 * second + third
}

// The word of an element times a power of x.
#[inline]
fn word_at(rows: &[u64], power: usize, x: Fe32) -> u64
    requires { 32 * power + 32 ≤ length rows.now }
    ensures { result ≡ word_in rows.now power x }
{
    rows[32 * power + x.to_u8() as usize]
}

// What another byte adds before the mark.
#[inline]
fn change_of_payload(rows: &[u64], payload: &[u8], i: usize, b: u8) -> u64
    requires within { i < length payload.now }
    requires few { length payload.now ≤ 7501 }
    requires enough { rows_for (length payload.now + 9) ≤ length rows.now }
    ensures { result ≡ payload_change rows.now payload.now i b }
{
    let n = payload.len();
    let start = 3 * (i / 3);
    let end = (start + 3).min(n);
    let left = n - end;
    let behind_group = left + (left + 2) / 3;
    let symbols = Fe32::from_low_bits(place(b)) + Fe32::from_low_bits(place(payload[i]));
    let group = Fe32::from_low_bits(group_with(payload, i, b, start));
    let groups = group + Fe32::from_low_bits(group_with(payload, i, payload[i], start));
    word_at(rows, 8 + behind_group + (end - i), symbols) ^ word_at(rows, 8 + behind_group, groups)
}

// What another byte at a place adds to the remainder of a text.
#[inline]
pub(crate) fn change_of(rows: &[u64], text: &[u8], i: usize, b: u8) -> u64
    requires long { 9 ≤ length text.now }
    requires few { length text.now ≤ 7501 }
    requires within { i < length text.now }
    requires enough { rows_for (length text.now) ≤ length rows.now }
    ensures { result ≡ change_in rows.now text.now i b }
{
    let n = text.len();
    if i + 9 < n {
        return change_of_payload(rows, &text[..n - 9], i, b);
    }
    if i + 9 == n {
        return 0;
    }
    let element = Fe32::from_low_bits(checksum_place(b));
    word_at(
        rows,
        n - 1 - i,
        element + Fe32::from_low_bits(checksum_place(text[i])),
    )
}

// The powers of x at which a change at a place of a text of a length adds to the symbol, and to the
// number of the groups.
#[inline]
fn powers_at(n: usize, i: usize) -> (usize, usize)
    requires long { 9 ≤ n }
    requires few { n ≤ 7501 }
    requires within { i < n }
    ensures symbol { result.0 ≡ symbol_power n i }
    ensures group { result.1 ≡ group_power n i }
    ensures fits { (32 * result.0 + 32 ≤ rows_for n) × (32 * result.1 + 32 ≤ rows_for n) }
{
    if n <= i + 9 {
        return (n - 1 - i, n - 1 - i);
    }
    let end = (3 * (i / 3) + 3).min(n - 9);
    let left = n - 9 - end;
    let behind_group = 8 + left + (left + 2) / 3;
    (behind_group + (end - i), behind_group)
}

// What the number of the groups adds with a byte of each group at a place before the mark.
pub(crate) fn bases_of(rows: &[u64], text: &[u8], i: usize) -> [u64; 3]
    requires long { 9 ≤ length text.now }
    requires few { length text.now ≤ 7501 }
    requires within { i < length text.now }
    requires enough { rows_for (length text.now) ≤ length rows.now }
    ensures { AreBases rows.now text.now i result }
{
    let n = text.len();
    if n <= i + 9 {
        return [0; 3];
    }
    let payload = &text[..n - 9];
    let start = 3 * (i / 3);
    let (_, power) = powers_at(n, i);
    let old = Fe32::from_low_bits(group_with(payload, i, payload[i], start));
    let zero = Fe32::from_low_bits(group_with(payload, i, b'0', start));
    let one = Fe32::from_low_bits(group_with(payload, i, b'I', start));
    let two = Fe32::from_low_bits(group_with(payload, i, b'i', start));
    [
        word_at(rows, power, zero + old),
        word_at(rows, power, one + old),
        word_at(rows, power, two + old),
    ]
}

// What another byte at a place adds to the remainder of a text, by the bases of the place.
#[inline]
pub(crate) fn change_by(rows: &[u64], text: &[u8], bases: &[u64; 3], i: usize, b: u8) -> u64
    requires long { 9 ≤ length text.now }
    requires few { length text.now ≤ 7501 }
    requires within { i < length text.now }
    requires enough { rows_for (length text.now) ≤ length rows.now }
    requires bases { AreBases rows.now text.now i bases.now }
    ensures { result ≡ change_in rows.now text.now i b }
{
    let n = text.len();
    if n <= i + 9 {
        return change_of(rows, text, i, b);
    }
    let (power, _) = powers_at(n, i);
    let new = place(b);
    let symbols = Fe32::from_low_bits(new) + Fe32::from_low_bits(place(text[i]));
    word_at(rows, power, symbols) ^ bases[(new / 32) as usize]
}

// Puts what any byte at a place of any text of a length adds into a set.
pub(crate) fn mark_place(cells: &mut [u64], rows: &[u64], n: usize, i: usize)
    requires some { 0 < length cells.old }
    requires few { (n ≤ 7501) × (i < n) }
    requires long { 9 ≤ n }
    requires enough { rows_for n ≤ length rows.now }
    ensures size { length cells.new ≡ length cells.old }
    ensures kept { KeepsMarks cells.old cells.new }
    ensures changes { MarksChanges cells.new rows.now n i }
{
    let (symbol, group) = powers_at(n, i);
    let row = &rows[32 * group..32 * group + 32];
    for x in 0..32 {
        mark_sums(cells, rows[32 * symbol + x], row);
    }
}
