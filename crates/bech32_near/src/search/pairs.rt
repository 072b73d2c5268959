//! Gathers all patterns of one or two errors beside erasures: the sketches tell which errors can
//! stand alone, and which together.

ghost use Rattle.std.specs.Prelude.{◌≡◌, ◌≤◌, ◌<◌, ◌/◌, ◌%◌, ◌^◌, ℕ, List};
ghost use Rattle.std.specs.Prelude.{bit_xor, length, min, OnOk};
ghost use Rattle.bech32_gf.specs.Fe32 as fe32;
ghost use Rattle.bech32_near.specs.search.Added.{AddsGathered, AddsHighest, AddsHighestAt};
ghost use Rattle.bech32_near.specs.search.Added.{IsBareKey, IsSketched, IsTableFor, StandsBeside};
ghost use Rattle.bech32_near.specs.search.Sketch.{AreForgotten, sketch, sketch_at};

use crate::search::gathering::{Few, Listings, add_errorless, gather_with, is_erasure, push_with};
use crate::search::sketch::Row;
use crate::search::table::{
    can_explain, entries_of, entry_at, entry_of, first_of, five_at, key_of,
};
use crate::search::terms::{columns_of, rows_of, sketch_of};
use bech32_checksum::Checksum;
use bech32_correction::Corrector;
use bech32_gf::gf32::Fe32;
use std::alloc::{AllocError, Allocator};

// The sketches of all single errors.
#[derive(Drop)]
struct Table<'a> {
    rows: &'a [Row],
    columns: &'a [u64],
    entries: &'a [u64],
}

// Puts the listings with the error of an entry, and no other, behind those that were found.
fn add_entry<Ck: Checksum, A: Allocator + Copy>(
    corrector: &Corrector<Ck, A>,
    number: u64,
    found: &mut Listings<A>,
) -> Result<(), AllocError>
    ensures { length corrector.now.erasures ≤ Ck.bound
        → number / 32 % 2 ^ 24 < corrector.now.window
        → OnOk result (AddsHighest Ck.code corrector.now
        (number / 32 % 2 ^ 24, fe32.element number) 0
        found.old.items found.new.items) }
{
    let location = (number / 32 % 0x100_0000) as usize;
    let value = (number % 32) as u8;
    if value == 0 {
        return Ok(());
    }
    if is_erasure(corrector, location) {
        return Ok(());
    }
    gather_with(corrector, (location, Fe32::from_low_bits(value)), 0, found)
}

// Puts the listing without errors behind those that were found, where nothing is left in the
// sketch: else there is none.
fn add_bare<Ck: Checksum, A: Allocator + Copy>(
    corrector: &Corrector<Ck, A>,
    key: u64,
    found: &mut Listings<A>,
) -> Result<(), AllocError>
    ensures { length corrector.now.erasures ≤ Ck.bound → IsBareKey Ck.code corrector.now key
        → OnOk result (AddsGathered Ck.code corrector.now 0 0 found.old.items found.new.items) }
{
    if key != 0 {
        return Ok(());
    }
    add_errorless(corrector, found)
}

// Puts all listings with at most one error, below the limit, behind those that were found.
fn add_single<Ck: Checksum, A: Allocator + Copy>(
    corrector: &Corrector<Ck, A>,
    rows: &[Row],
    entries: &[u64],
    limit: usize,
    found: &mut Listings<A>,
) -> Result<(), AllocError>
    ensures { (columns : List ℕ) → limit ≤ corrector.now.window
        → IsTableFor Ck.code Ck.bound Ck.CHECKSUM_LENGTH corrector.now rows.now columns entries.now
        → OnOk result (AddsGathered Ck.code corrector.now limit 1 found.old.items found.new.items) }
{
    let key = sketch_of::<Ck>(rows, corrector.residue());
    add_bare(corrector, key, found)?;
    let end = entry_of(key, limit, 0);
    let mut next = entry_of(key, 0, 0);
    for i in first_of(entries, key)..entries.len() {
        let entry = entry_at(entries, i);
        if entry >= end {
            return Ok(());
        }
        if entry >= next {
            add_entry(corrector, entry, found)?;
            next = entry + 1;
        }
    }
    Ok(())
}

// Puts all listings with this highest error and at most one other behind those that were found.
fn add_with<Ck: Checksum, A: Allocator + Copy>(
    corrector: &Corrector<Ck, A>,
    table: &Table<'_>,
    error: (usize, Fe32),
    found: &mut Listings<A>,
) -> Result<(), AllocError>
    ensures { IsSketched Ck.code Ck.bound Ck.CHECKSUM_LENGTH corrector.now table.now
        → StandsBeside corrector.now error
        → OnOk result (AddsHighest Ck.code corrector.now error 1 found.old.items found.new.items) }
{
    // Room beforehand: an arena gets back what is gathered below it.
    let mut lower = Vec::with_capacity(corrector.allocator(), 4)?;
    let left = corrector.without_error(error)?;
    let gathered = add_single(&left, table.rows, table.entries, error.0, &mut lower);
    push_with(corrector, gathered, lower, error, found)?;
    Ok(())
}

// The same, where the key is the sketch of what the error leaves of the residue.
fn try_with<Ck: Checksum, A: Allocator + Copy>(
    corrector: &Corrector<Ck, A>,
    table: &Table<'_>,
    key: u64,
    error: (usize, Fe32),
    found: &mut Listings<A>,
) -> Result<(), AllocError>
    ensures { IsSketched Ck.code Ck.bound Ck.CHECKSUM_LENGTH corrector.now table.now
        → StandsBeside corrector.now error
        → key ≡ bit_xor
        (sketch table.now.rows.now (min Ck.CHECKSUM_LENGTH 12) corrector.now.residue)
        (sketch_at table.now.rows.now (min Ck.CHECKSUM_LENGTH 12) Ck.code.generator error.0 error.1)
        → OnOk result (AddsHighest Ck.code corrector.now error 1 found.old.items found.new.items) }
{
    if !can_explain(table.entries, key, error.0) {
        return Ok(());
    }
    add_with(corrector, table, error, found)
}

// Puts all listings whose highest error is at this location, with at most one other, behind those
// that were found.
fn add_at<Ck: Checksum, A: Allocator + Copy>(
    corrector: &Corrector<Ck, A>,
    table: &Table<'_>,
    whole: u64,
    location: usize,
    found: &mut Listings<A>,
) -> Result<(), AllocError>
    ensures { IsSketched Ck.code Ck.bound Ck.CHECKSUM_LENGTH corrector.now table.now
        → location < corrector.now.window
        → whole ≡ sketch table.now.rows.now (min Ck.CHECKSUM_LENGTH 12) corrector.now.residue
        → OnOk result (AddsHighestAt Ck.code corrector.now location 1
        found.old.items found.new.items) }
{
    if is_erasure(corrector, location) {
        return Ok(());
    }
    let five = five_at(table.columns, location);
    for value in 1..32u8 {
        let error = (location, Fe32::from_low_bits(value));
        try_with(corrector, table, whole ^ key_of(five, value), error, found)?;
    }
    Ok(())
}

// Puts all listings with at most two errors, below the limit, behind those that were found.
fn add_all<Ck: Checksum, A: Allocator + Copy>(
    corrector: &Corrector<Ck, A>,
    table: &Table<'_>,
    limit: usize,
    found: &mut Listings<A>,
) -> Result<(), AllocError>
    ensures { IsSketched Ck.code Ck.bound Ck.CHECKSUM_LENGTH corrector.now table.now
        → limit ≤ corrector.now.window
        → OnOk result (AddsGathered Ck.code corrector.now limit 2 found.old.items found.new.items) }
{
    add_errorless(corrector, found)?;
    let whole = sketch_of::<Ck>(table.rows, corrector.residue());
    for location in 0..limit {
        add_at(corrector, table, whole, location, found)?;
    }
    Ok(())
}

// Puts all listings with so few errors, one or two, behind those that were found: by rows that
// forget the erasures.
fn add_by_rows<Ck: Checksum, A: Allocator + Copy>(
    corrector: &Corrector<Ck, A>,
    rows: &[Row],
    few: Few,
    found: &mut Listings<A>,
) -> Result<(), AllocError>
    ensures { length corrector.now.erasures ≤ Ck.bound → few.limit ≤ corrector.now.window
        → corrector.now.window < 2 ^ 24
        → AreForgotten rows.now (min Ck.CHECKSUM_LENGTH 12) Ck.code.generator
        corrector.now.erasures
        → 0 < few.errors → few.errors ≤ 2
        → OnOk result (AddsGathered Ck.code corrector.now few.limit few.errors
        found.old.items found.new.items) }
{
    let columns = columns_of::<Ck, A>(corrector.allocator(), rows, corrector.window())?;
    let entries = entries_of(corrector.allocator(), &columns)?;
    if few.errors == 1 {
        return add_single(corrector, rows, &entries, few.limit, found);
    }
    let table = Table {
        rows,
        columns: &columns,
        entries: &entries,
    };
    add_all(corrector, &table, few.limit, found)
}

/// Puts all listings with so few errors, one or two, behind those that were found.
pub(crate) fn gather_sketched<Ck: Checksum, A: Allocator + Copy>(
    corrector: &Corrector<Ck, A>,
    few: Few,
    found: &mut Listings<A>,
) -> Result<(), AllocError>
    ensures { length corrector.now.erasures ≤ Ck.bound → few.limit ≤ corrector.now.window
        → corrector.now.window < 2 ^ 24
        → 0 < few.errors → few.errors ≤ 2
        → OnOk result (AddsGathered Ck.code corrector.now few.limit few.errors
        found.old.items found.new.items) }
{
    let rows = rows_of::<Ck, A>(corrector.allocator(), corrector.erasures())?;
    add_by_rows(corrector, &rows, few, found)
}
