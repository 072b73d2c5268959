//! The descriptors that two changed characters make of a text.
//!
//! A first character beside a second one adds to the remainder what the second leaves wrong. What
//! any first one may add is in a set, so that few second ones are tried with all first ones.

ghost use Rattle.std.specs.Prelude.{◌≡◌, ◌≢◌, ◌<◌, ◌≤◌, ◌++◌, false, get_or, length, map, IfOk, IsTrue, MatchResult};
ghost use Rattle.std.specs.List.{AllByRecursion};
ghost use Rattle.bech32_descriptor.specs.Edits.{IsToldAt};
ghost use Rattle.bech32_descriptor.specs.Mends.{IsMendRefusal};
ghost use Rattle.bech32_descriptor.specs.PairWalks.{IsTwoAt, IsTwoBy, MarksChangesBelow, beside};
ghost use Rattle.bech32_descriptor.specs.Pairs.{AddsAllByTwo, AreAllByTwo, AreTwoMends, IsMendByTwo, made_by_two, max_length_for_two};
ghost use Rattle.bech32_descriptor.specs.Walks.{IsReady, SufficeFor};
ghost use Rattle.bech32_descriptor.specs.declared.edits.Change.TheVariants.{Changed};
ghost use Rattle.bech32_descriptor.specs.declared.edits.TwoEdits.{TwoEdits as TheTwo};

use crate::edits::{Change, Edit, MendedTwice, TwoEdits};
use crate::error::MendError;
use crate::marks::{cells_for, may_be_marked};
use crate::mends::made_text;
use crate::places::{change_of, mark_place};
use crate::residue::residue_of;
use crate::rows::rows_of;
use crate::scratch::set_byte;
use crate::walks::changed_below;
use std::alloc::{AllocError, Allocator};

/// The most characters of a text of which two are changed ([`mend_two`]): 8,574,612,720 texts at
/// most are tried for one of this length, and a checksum accepts one in 2^40. So of 100 texts that
/// are no mistyped descriptors at most one is expected to get an answer.
pub const MAX_LENGTH_FOR_TWO: usize = 1400;

// Adds each of some edits beside another one.
fn push_beside<A: Allocator>(
    firsts: &[Edit],
    second: Edit,
    found: &mut Vec<TwoEdits, A>,
) -> Result<(), AllocError>
    ensures { IfOk result (λ _.
        found.new.items ≡ found.old.items ++ map (beside second) firsts.now) }
{
    for first in firsts {
        found.push(TwoEdits {
            first: *first,
            second,
        })?;
    }
    Ok(())
}

// Adds all that make a descriptor and change the character at a place to this one, and another
// before it.
fn push_two_with<A: Allocator + Copy>(
    alloc: A,
    rows: &[u64],
    text: &mut [u8],
    word: u64,
    place: usize,
    byte: u8,
    found: &mut Vec<TwoEdits, A>,
) -> Result<(), AllocError>
    requires ready { IsReady rows.now text.old word }
    requires told { IsToldAt place (Changed byte) text.old }
    ensures { IfOk result (λ _. (text.new ≡ text.old)
        × AddsAllByTwo (IsTwoBy text.old place byte) found.old.items found.new.items) }
{
    let old = text[place];
    let changed = set_byte(rows, text, word, place, byte);
    let firsts = changed_below(alloc, rows, text, changed, place)?;
    text[place] = old;
    let second = Edit {
        place,
        change: Change::Changed(byte),
    };
    push_beside(&firsts, second, found)
}

// Whether a byte other than that at a place may leave what a character before adds: of most bytes
// it is known that they do not.
#[inline]
fn may_be_second(
    rows: &[u64],
    cells: &[u64],
    text: &[u8],
    word: u64,
    place: usize,
    byte: u8,
) -> bool
    requires ready { IsReady rows.now text.now word }
    requires within { place < length text.now }
    requires some { 0 < length cells.now }
    requires marks { MarksChangesBelow cells.now rows.now (length text.now) place }
    ensures other { IsTrue result → get_or text.now place 0 ≢ byte }
    ensures none { result ≡ false → (edits : TheTwo) → ¬ IsTwoBy text.now place byte edits }
{
    if text[place] == byte {
        return false;
    }
    may_be_marked(cells, word ^ change_of(rows, text, place, byte) ^ 1)
}

// Adds all that make a descriptor and change the character at a place, and another before it.
fn push_two_at<A: Allocator + Copy>(
    alloc: A,
    rows: &[u64],
    cells: &[u64],
    text: &mut [u8],
    word: u64,
    place: usize,
    found: &mut Vec<TwoEdits, A>,
) -> Result<(), AllocError>
    requires ready { IsReady rows.now text.old word }
    requires within { place < length text.old }
    requires some { 0 < length cells.now }
    requires marks { MarksChangesBelow cells.now rows.now (length text.old) place }
    ensures { IfOk result (λ _. (text.new ≡ text.old)
        × AddsAllByTwo (IsTwoAt text.old place) found.old.items found.new.items) }
{
    for byte in 32..127 {
        if !may_be_second(rows, cells, text, word, place, byte) {
            continue;
        }
        push_two_with(alloc, rows, text, word, place, byte, found)?;
    }
    Ok(())
}

// Adds all changes of two characters that make a descriptor: of the cells all is used.
fn push_two<A: Allocator + Copy>(
    alloc: A,
    rows: &[u64],
    cells: &mut [u64],
    text: &mut [u8],
    word: u64,
    found: &mut Vec<TwoEdits, A>,
) -> Result<(), AllocError>
    requires ready { IsReady rows.now text.old word }
    requires some { 0 < length cells.old }
    ensures { IfOk result
        (λ _. AddsAllByTwo (IsMendByTwo text.old) found.old.items found.new.items) }
{
    for place in 0..text.len() {
        push_two_at(alloc, rows, cells, text, word, place, found)?;
        mark_place(cells, rows, text.len(), place);
    }
    Ok(())
}

// All changes of two characters that make a descriptor of a text, of which this is a copy.
fn two_on_copy<A: Allocator + Copy>(
    alloc: A,
    rows: &[u64],
    text: &mut [u8],
) -> Result<Vec<TwoEdits, A>, AllocError>
    requires long { 9 ≤ length text.old }
    requires rows { SufficeFor rows.now (length text.old) }
    ensures { IfOk result (λ edits. AreAllByTwo (IsMendByTwo text.old) edits.items) }
{
    let word = residue_of(text);
    let mut found = Vec::new(alloc);
    let mut cells = vec![in alloc; 0u64; cells_for(text.len())]?;
    push_two(alloc, rows, &mut cells, text, word, &mut found)?;
    Ok(found)
}

// The same of the text itself.
fn two_of<A: Allocator + Copy>(alloc: A, text: &[u8]) -> Result<Vec<TwoEdits, A>, AllocError>
    requires long { 9 ≤ length text.now }
    requires few { length text.now ≤ max_length_for_two }
    ensures { IfOk result (λ edits. AreAllByTwo (IsMendByTwo text.now) edits.items) }
{
    let mut copy = Vec::from_slice(alloc, text)?;
    let rows = rows_of(alloc, text.len())?;
    two_on_copy(alloc, &rows, &mut copy)
}

// Each two edits with the text that they make.
fn texts_by_two<A: Allocator + Copy>(
    alloc: A,
    text: &[u8],
    found: Vec<TwoEdits, A>,
) -> Result<Vec<MendedTwice<Vec<u8, A>>, A>, AllocError>
    requires few { length text.now ≤ max_length_for_two }
    requires mends { AllByRecursion (IsMendByTwo text.now) found.items }
    ensures same { IfOk result (λ all. map (λ m. m.edits) all.items ≡ found.items) }
    ensures each { IfOk result (λ all.
        AllByRecursion (λ m. m.text.items ≡ made_by_two m.edits text.now) all.items) }
{
    let mut all = Vec::new(alloc);
    for edits in found {
        let half = made_text(alloc, text, edits.second)?;
        let text = made_text(alloc, &half, edits.first)?;
        all.push(MendedTwice { edits, text })?;
    }
    Ok(all)
}

// All changes of two characters that make a descriptor of a text, with the texts.
fn mended_by_two<A: Allocator + Copy>(
    alloc: A,
    text: &[u8],
) -> Result<Vec<MendedTwice<Vec<u8, A>>, A>, AllocError>
    requires long { 9 ≤ length text.now }
    requires few { length text.now ≤ max_length_for_two }
    ensures { IfOk result (λ found.
        AreTwoMends text.now (map (λ m. (m.edits, m.text.items)) found.items)) }
{
    let found = two_of(alloc, text)?;
    Ok(texts_by_two(alloc, text, found)?)
}

/// All descriptors with a right checksum that come from a text by two of its characters changed,
/// with memory from `alloc`. Either may be in the checksum, or be the `#`. A character is a byte
/// here: any byte of the text may be a wrong one. Each descriptor stands once, with both edits.
///
/// They are in the order of the second edits, those further back: by their places, and at one place
/// by the codes of the characters put there. With one second edit they are in that order of the
/// first ones. Texts that one edit makes are told by [`mend`](crate::mend), and take much less
/// memory and time: try that first.
///
/// A text that is found is a guess: compare what it describes with the wallet's addresses before it
/// is used.
///
/// # Errors
///
/// [`MendError::TooLong`] where the text has more than [`MAX_LENGTH_FOR_TWO`] characters; else
/// [`MendError::Memory`] alone, and only where it has at least nine: from fewer no descriptor
/// comes.
pub fn mend_two<A: Allocator + Copy>(
    alloc: A,
    text: &[u8],
) -> Result<Vec<MendedTwice<Vec<u8, A>>, A>, MendError>
    ensures { MatchResult result
        (λ found. AreTwoMends text.now (map (λ m. (m.edits, m.text.items)) found.items))
        (λ e. IsMendRefusal 9 max_length_for_two text.now e) }
{
    if text.len() > MAX_LENGTH_FOR_TWO {
        return Err(MendError::TooLong);
    }
    if text.len() < 9 {
        return Ok(Vec::new(alloc));
    }
    match mended_by_two(alloc, text) {
        Ok(found) => Ok(found),
        Err(_) => Err(MendError::Memory),
    }
}
