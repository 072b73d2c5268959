//! Lists the descriptors that one edit makes of a text.

ghost use Rattle.std.specs.Prelude.{◌≡◌, ◌<◌, ◌≤◌, ◌⊎◌, ◌+◌, ◌-◌, ◌++◌, length, map, take, drop, true, false, IfErr, IfOk, MatchOption, MatchResult};
ghost use Rattle.std.specs.List.{AllByRecursion};
ghost use Rattle.bech32_calls.specs.Fitting.{IsMost};
ghost use Rattle.caller_memory.specs.Memory.{IsKept, LeavesMemory, memory_size};
ghost use Rattle.bech32_more_calls.specs.descriptor.Mends.{IsMendFault, ListsMends, MendsFit, PutsEachMend, PutsFirstMends, PutsMends, number_of_mend_change, number_of_mend, second_place};

use bech32_calls::listed::Listed;
use bech32_descriptor::{Change, Edit, Mended, mend};
use bech32_encode::put_at_front;
use caller_memory::{Lent, Memory};
use std::alloc::Allocator;

/// Why descriptors are not listed.
#[derive(Clone, Copy)]
pub enum MendRefusal {
    /// More characters may be changed than are tried.
    BadNumber,
    /// The text is too long.
    TooLong,
    /// Lent memory does not suffice.
    Memory,
}

impl MendRefusal {
    /// The number that a call returns.
    pub fn number(self) -> u32
        ensures value { result ≡ number_of_mend self }
        ensures some { 0 < result }
    {
        match self {
            MendRefusal::BadNumber => 4,
            MendRefusal::TooLong => 89,
            MendRefusal::Memory => 91,
        }
    }
}

// The number of what is done to a text.
fn change_number(change: Change) -> u8
    ensures { result ≡ number_of_mend_change change }
{
    match change {
        Change::Swapped => 1,
        Change::LeftOut => 2,
        Change::PutIn(_) => 3,
        Change::Changed(_) => 4,
    }
}

// The second place of an edit: behind the first of two that are swapped, else the same.
fn second(edit: Edit) -> usize
    ensures { edit.place ≤ 7500 → result ≡ second_place edit }
{
    match edit.change {
        Change::Swapped => edit.place.saturating_add(1),
        _ => edit.place,
    }
}

/// What is told of no texts.
pub(crate) fn nothing() -> Listed
    ensures { (result.count ≡ 0) × (result.fit ≡ true) }
{
    Listed {
        count: 0,
        fit: true,
    }
}

/// Puts a text behind others, where there is room for it, and returns where it ends.
pub(crate) fn put_behind(text: &[u8], end: usize, texts: &mut [u8]) -> Option<usize>
    requires { end ≤ length texts.old }
    ensures { MatchOption result
        ((length texts.old - end < length text.now) × (texts.new ≡ texts.old))
        (λ next. (next ≡ end + length text.now) × (next ≤ length texts.old)
        × (texts.new
        ≡ take end texts.old ++ (text.now ++ drop (length text.now) (drop end texts.old)))) }
{
    if text.len() > texts.len() - end {
        return None;
    }
    put_at_front(&mut texts[end..], text);
    Some(end + text.len())
}

// Puts edits and their texts at the fronts of buffers, as many as fit, and returns how many.
fn put_each<A: Allocator + Copy>(
    found: &[Mended<Vec<u8, A>>],
    kinds: &mut [u8],
    places: &mut [usize],
    texts: &mut [u8],
) -> usize
    requires { AllByRecursion (λ m. m.edit.place ≤ 7500) found.now }
    ensures most { IsMost (MendsFit (map (λ m. (m.edit, m.text.items)) found.now)
        (length kinds.old) (length places.old) (length texts.old)) (length found.now) result }
    ensures put { PutsEachMend (take result (map (λ m. (m.edit, m.text.items)) found.now))
        kinds.old kinds.new places.old places.new texts.old texts.new }
{
    let most = found.len().min(kinds.len()).min(places.len() / 2);
    let mut end = 0;
    for i in 0..most {
        let text = found[i].text.as_slice();
        let Some(next) = put_behind(text, end, texts) else {
            return i;
        };
        kinds[i] = change_number(found[i].edit.change);
        places[2 * i] = found[i].edit.place;
        places[2 * i + 1] = second(found[i].edit);
        end = next;
    }
    most
}

// Puts the descriptors that one edit makes of a text into buffers, if memory suffices.
fn put_found(
    lent: &Lent,
    text: &[u8],
    most: usize,
    kinds: &mut [u8],
    places: &mut [usize],
    texts: &mut [u8],
) -> Option<Listed>
    requires { length text.now ≤ 7500 }
    ensures { MatchOption result
        ((kinds.new ≡ kinds.old) × (places.new ≡ places.old) × (texts.new ≡ texts.old))
        (λ listed. ListsMends most text.now
        kinds.old kinds.new places.old places.new texts.old texts.new listed) }
{
    let arena = lent.arena();
    let Ok(found) = mend(&arena, text, most) else {
        return None;
    };
    let mends = found.as_slice();
    let put = put_each(mends, kinds, places, texts);
    Some(Listed {
        count: mends.len(),
        fit: put == mends.len(),
    })
}

/// Puts all descriptors other than this text that one edit makes of it, and that change at most
/// `most` of its characters, at the front of a buffer, one behind another, in the order of
/// [`mend`](bech32_descriptor::mend), and tells how many they are. Of each the kind is put into
/// `kinds`: 1 where two neighbours are swapped, 2 where one is left out, 3 where one is put in, 4
/// where one is changed; and two places into `places`: those of two that are swapped, else the
/// place twice. Where they do not fit in all three buffers, as many as do are put, the first. They
/// are worked out in `memory`, which comes back whole.
///
/// # Errors
///
/// The first of: more than one character to be changed; a text of more than 7,500 bytes;
/// [`MendRefusal::Memory`] where the text has at least eight bytes and `memory` does not suffice:
/// then `memory` and the buffers are as they were; or `memory` had bytes and has none, and the
/// buffers may have changed.
pub fn put_mends(
    memory: &mut Memory,
    text: &[u8],
    most: usize,
    kinds: &mut [u8],
    places: &mut [usize],
    texts: &mut [u8],
) -> Result<Listed, MendRefusal>
    ensures all { IfOk result (λ listed. listed.fit ≡ true
        → PutsMends most text.now kinds.old kinds.new places.old places.new
        texts.old texts.new listed.count) }
    ensures first { IfOk result (λ listed. listed.fit ≡ false
        → PutsFirstMends most text.now kinds.old kinds.new places.old places.new
        texts.old texts.new listed.count) }
    ensures accepts { most ≤ 1 → length text.now ≤ 7500
        → IfErr result (λ e. e ≡ MendRefusal.Memory) }
    ensures refused { IfErr result (λ e. IsMendFault most text.now e) }
    ensures same { IfErr result (λ e. ((kinds.new ≡ kinds.old) × (places.new ≡ places.old)
        × (texts.new ≡ texts.old)) ⊎ ((e ≡ MendRefusal.Memory) × IsKept memory.old memory.new)) }
    ensures memory { MatchResult result
        (λ _. memory.new ≡ memory.old)
        (λ e. LeavesMemory memory.old memory.new
        ((e ≡ MendRefusal.Memory) × (0 < memory_size memory.old))) }
{
    if most > 1 {
        return Err(MendRefusal::BadNumber);
    }
    if text.len() > 7500 {
        return Err(MendRefusal::TooLong);
    }
    if text.len() < 8 {
        return Ok(nothing());
    }
    let lent = Lent::new(memory.take());
    let listed = put_found(&lent, text, most, kinds, places, texts);
    // Memory that does not come back did not suffice.
    if !lent.put_back(memory) {
        return Err(MendRefusal::Memory);
    }
    match listed {
        Some(listed) => Ok(listed),
        None => Err(MendRefusal::Memory),
    }
}
