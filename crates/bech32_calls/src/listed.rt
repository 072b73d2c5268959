//! Texts that are put into buffers: how they are put there, and what is told of them.

ghost use Rattle.std.specs.Prelude.{◌≡◌, ◌==◌, ◌≤◌, ℕ, flat_map, length, map, take, MatchResult};
ghost use Rattle.bech32_encode.specs.Buffers.{IsPut};
ghost use Rattle.caller_memory.specs.Lent.{lent_memory};
ghost use Rattle.caller_memory.specs.Memory.{memory_size};
ghost use Rattle.bech32_calls.specs.Fitting.{FirstFit, IsMost, PutsRows, RowsFit};
ghost use Rattle.bech32_calls.specs.Listing.{EndsWell, EndsWith, LacksMemory, ListsRows, ListsTexts};

use crate::refusal::Refusal;
use bech32_encode::put_at_front;
use bech32_suggest::AsText;
use caller_memory::{Lent, Memory};
use std::alloc::Allocator;

/// How many texts there are, and whether all of them were put into the buffers.
#[derive(Clone, Copy)]
pub struct Listed {
    /// How many there are.
    pub count: usize,
    /// Whether all were put: else as many whole ones as fit, the first.
    pub fit: bool,
}

/// A text that is listed with a number of its kind and a place.
pub trait Row: AsText {
    ghost kind_of: { Self → ℕ };

    ghost place_of: { Self → ℕ };

    /// The number of its kind.
    fn kind(&self) -> u8
        ensures { result ≡ kind_of self.now };

    /// Its place.
    fn place(&self) -> usize
        ensures { result ≡ place_of self.now };
}

// Puts texts, one behind another, at the front of a buffer, as many whole ones as fit, and returns
// how many.
fn put_texts<T: AsText>(rows: &[T], texts: &mut [u8]) -> usize
    ensures most { IsMost
        (FirstFit T.text_of rows.now (length texts.old)) (length rows.now) result }
    ensures put { IsPut (flat_map T.text_of (take result rows.now)) texts.old texts.new
        (length (flat_map T.text_of (take result rows.now))) }
{
    let mut end = 0;
    for i in 0..rows.len() {
        let text = rows[i].as_text().as_bytes();
        if text.len() > texts.len() - end {
            return i;
        }
        put_at_front(&mut texts[end..], text);
        end += text.len();
    }
    rows.len()
}

// Puts the numbers of rows' kinds, and their places, at the fronts of buffers that have room for
// them.
fn put_kinds_and_places<R: Row>(rows: &[R], kinds: &mut [u8], places: &mut [usize])
    requires kinds { length rows.now ≤ length kinds.old }
    requires places { length rows.now ≤ length places.old }
    ensures kinds { IsPut (map R.kind_of rows.now) kinds.old kinds.new (length rows.now) }
    ensures places { IsPut (map R.place_of rows.now) places.old places.new (length rows.now) }
{
    for i in 0..rows.len() {
        kinds[i] = rows[i].kind();
        places[i] = rows[i].place();
    }
}

// Puts rows at the fronts of buffers, as many as fit in each, and returns how many.
fn put_rows<R: Row>(rows: &[R], kinds: &mut [u8], places: &mut [usize], texts: &mut [u8]) -> usize
    ensures most { IsMost (RowsFit R.text_of rows.now
        (length kinds.old) (length places.old) (length texts.old)) (length rows.now) result }
    ensures put { PutsRows R.kind_of R.place_of R.text_of (take result rows.now)
        kinds.old kinds.new places.old places.new texts.old texts.new }
{
    let most = rows.len().min(kinds.len()).min(places.len());
    let put = put_texts(&rows[..most], texts);
    put_kinds_and_places(&rows[..put], kinds, places);
    put
}

// What is told of `count` texts, of which the first `put` are put.
fn listed_of(count: usize, put: usize) -> Listed
    ensures count { result.count ≡ count }
    ensures fit { result.fit ≡ (put == count) }
{
    Listed {
        count,
        fit: put == count,
    }
}

/// Lists the texts that were found, where memory sufficed to find them.
///
/// # Errors
///
/// [`Refusal::Memory`] where it did not: nothing is put then.
pub fn list_texts<T: AsText + Drop, A: Allocator, E: Drop>(
    found: Result<Vec<T, A>, E>,
    texts: &mut [u8],
) -> Result<Listed, Refusal>
    ensures { MatchResult found
        (λ list. EndsWell result (ListsTexts T.text_of list.items texts.old texts.new))
        (λ _. LacksMemory result × (texts.new ≡ texts.old)) }
{
    match found {
        Ok(list) => {
            let rows = list.as_slice();
            let put = put_texts(rows, texts);
            Ok(listed_of(rows.len(), put))
        }
        Err(_) => Err(Refusal::Memory),
    }
}

/// Lists the rows that were found, where memory sufficed to find them.
///
/// # Errors
///
/// [`Refusal::Memory`] where it did not: nothing is put then.
pub fn list_rows<R: Row + Drop, A: Allocator, E: Drop>(
    found: Result<Vec<R, A>, E>,
    kinds: &mut [u8],
    places: &mut [usize],
    texts: &mut [u8],
) -> Result<Listed, Refusal>
    ensures { MatchResult found
        (λ list. EndsWell result (ListsRows R.kind_of R.place_of R.text_of list.items
        kinds.old kinds.new places.old places.new texts.old texts.new))
        (λ _. LacksMemory result × ((kinds.new ≡ kinds.old)
        × (places.new ≡ places.old) × (texts.new ≡ texts.old))) }
{
    match found {
        Ok(list) => {
            let rows = list.as_slice();
            let put = put_rows(rows, kinds, places, texts);
            Ok(listed_of(rows.len(), put))
        }
        Err(_) => Err(Refusal::Memory),
    }
}

/// Ends a call as it did, once lent memory is back: memory that does not come back did not suffice.
///
/// # Errors
///
/// [`Refusal::Memory`] where it does not come back; else that of the call.
pub fn give_memory_back(
    lent: Lent,
    memory: &mut Memory,
    listed: Result<Listed, Refusal>,
) -> Result<Listed, Refusal>
    requires none { memory_size memory.old ≡ 0 }
    requires same { memory_size (lent_memory lent) ≡ 0 → memory.old ≡ lent_memory lent }
    ensures { EndsWith (lent_memory lent) memory.new listed result }
{
    if !lent.put_back(memory) {
        return Err(Refusal::Memory);
    }
    listed
}
