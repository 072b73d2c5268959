//! The sketches of all single errors, in order, so that those of one sketch are found.

ghost use Rattle.std.specs.Prelude.{◌≡◌, ◌≢◌, ◌<◌, ◌≤◌, ◌*◌, ◌+◌, ℕ, List, [], ◌∷◌, false};
ghost use Rattle.std.specs.Prelude.{get_or, length, IfOk, OnOk};
ghost use Rattle.std.specs.List.{Contains};
ghost use Rattle.std.specs.List.Sorted.{IsSorted};
ghost use Rattle.std.specs.Ordering.{nat_cmp};
ghost use Rattle.bech32_near.specs.search.Sketch.{AreEntries, entry_number, five_of, key_of};

use std::alloc::{AllocError, Allocator};

/// The sketch of a value at a location, by those of 1, 2, 4, 8 and 16.
#[inline]
pub(crate) fn key_of(five: [u64; 5], value: u8) -> u64
    ensures { result ≡ key_of five value }
{
    let mut key = 0;
    for i in 0..5usize {
        if (value >> i) % 2 == 1 {
            key = key ^ five[i];
        }
    }
    key
}

/// The sketches of 1, 2, 4, 8 and 16 at a location: the columns are those of 1 at each location,
/// and behind them those of 2, and so on.
#[inline]
pub(crate) fn five_at(columns: &[u64], location: usize) -> [u64; 5]
    ensures { (window : ℕ) → length columns.now ≡ 5 * window → location < window
        → result ≡ five_of columns.now window location }
{
    let window = columns.len() / 5;
    if location >= window {
        return [0; 5];
    }
    [
        columns[location],
        columns[window + location],
        columns[2 * window + location],
        columns[3 * window + location],
        columns[4 * window + location],
    ]
}

/// The entry of an error, by its sketch, its location and its value: 35 bits, 24 and 5.
#[inline]
pub(crate) fn entry_of(key: u64, location: usize, value: u8) -> u64
    ensures { result ≡ entry_number key location value }
{
    let error = location as u64 % 0x100_0000 * 32 + value as u64 % 32;
    key % 0x8_0000_0000 * 0x2000_0000 + error
}

// Puts in the entries of a location.
fn push_entries<A: Allocator>(
    entries: &mut Vec<u64, A>,
    five: [u64; 5],
    location: usize,
) -> Result<(), AllocError>
    ensures kept { OnOk result ((number : ℕ)
        → Contains entries.old.items number → Contains entries.new.items number) }
    ensures new { OnOk result ((value : ℕ) → 0 < value → value < 32
        → Contains entries.new.items (entry_number (key_of five value) location value)) }
{
    for value in 1..32u8 {
        entries.push(entry_of(key_of(five, value), location, value))?;
    }
    Ok(())
}

/// The entries of all single errors, in order.
pub(crate) fn entries_of<A: Allocator>(alloc: A, columns: &[u64]) -> Result<Vec<u64, A>, AllocError>
    ensures { IfOk result (λ entries. (window : ℕ) → length columns.now ≡ 5 * window
        → AreEntries columns.now window entries.items) }
{
    let window = columns.len() / 5;
    let mut entries = Vec::with_capacity(alloc, window.saturating_mul(31))?;
    for location in 0..window {
        push_entries(&mut entries, five_at(columns, location), location)?;
    }
    entries.sort_unstable();
    Ok(entries)
}

/// The entry at an index; zero behind the last.
#[inline]
pub(crate) fn entry_at(entries: &[u64], i: usize) -> u64
    ensures { result ≡ get_or entries.now i 0 }
{
    if i >= entries.len() {
        return 0;
    }
    entries[i]
}

/// Where the entries of a sketch begin.
pub(crate) fn first_of(entries: &[u64], key: u64) -> usize
    ensures { IsSorted nat_cmp entries.now → (k : ℕ) → k < result
        → get_or entries.now k 0 ≤ entry_number key 0 0 }
{
    match entries.binary_search(&entry_of(key, 0, 0)) {
        Ok(place) => place,
        Err(place) => place,
    }
}

/// Whether an error of a sketch can stand below a location, or none is needed.
pub(crate) fn can_explain(entries: &[u64], key: u64, location: usize) -> bool
    ensures none { result ≡ false → key ≢ 0 }
    ensures above { IsSorted nat_cmp entries.now → result ≡ false
        → (number : ℕ) → Contains entries.now number → entry_number key 0 0 < number
        → entry_number key location 0 ≤ number }
{
    if key == 0 {
        return true;
    }
    let first = first_of(entries, key);
    if first >= entries.len() {
        return false;
    }
    entry_at(entries, first) < entry_of(key, location, 0)
}
