//! The descriptors that one edit makes of a text.

ghost use Rattle.std.specs.Prelude.{◌≡◌, ◌<◌, ◌≤◌, ◌+◌, ◌++◌, [], drop, length, map, take, IfOk, MatchResult};
ghost use Rattle.std.specs.List.{AllByRecursion};
ghost use Rattle.bech32_descriptor.specs.Edits.{AddsTwoKinds, AreAllMends, IsMendWithin, IsToldMend, made};
ghost use Rattle.bech32_descriptor.specs.Mends.{AreMends, IsMendRefusal};
ghost use Rattle.bech32_descriptor.specs.Walks.{IsMendOfKind, IsWithinOfKind, SufficeFor};

use crate::edits::{Change, Edit, Mended};
use crate::error::MendError;
use crate::residue::residue_of;
use crate::rows::rows_of;
use crate::walks::{changed_below, push_left_out, push_put_in, push_swapped};
use std::alloc::{AllocError, Allocator};

// A text with other bytes in place of those from one place to another.
pub(crate) fn text_with<A: Allocator>(
    alloc: A,
    text: &[u8],
    start: usize,
    middle: &[u8],
    end: usize,
) -> Result<Vec<u8, A>, AllocError>
    requires within { (start ≤ length text.now) × (end ≤ length text.now) }
    requires few { (length text.now ≤ 7500) × (length middle.now ≤ 2) }
    ensures { IfOk result (λ new.
        new.items ≡ take start text.now ++ middle.now ++ drop end text.now) }
{
    let mut new = Vec::with_capacity(alloc, start + middle.len() + (text.len() - end))?;
    new.extend_from_slice(&text[..start])?;
    new.extend_from_slice(middle)?;
    new.extend_from_slice(&text[end..])?;
    Ok(new)
}

// Before which place a character is changed: before none, where none is to be changed.
fn end_of_changes(n: usize, most: usize) -> usize
    ensures none { most ≡ 0 → result ≡ 0 }
    ensures all { 0 < most → result ≡ n }
    ensures within { result ≤ n }
{
    if most == 0 {
        return 0;
    }
    n
}

// The edits that keep the length of a text, of which this is a copy.
fn edits_on_copy<A: Allocator>(
    alloc: A,
    rows: &[u64],
    text: &mut [u8],
    most: usize,
) -> Result<Vec<Edit, A>, AllocError>
    requires { SufficeFor rows.now (length text.old) }
    ensures { IfOk result (λ edits.
        AddsTwoKinds (IsWithinOfKind 0 most text.old) (IsMendOfKind 1 text.old) [] edits.items) }
{
    if text.len() < 9 {
        return Ok(Vec::new(alloc));
    }
    let word = residue_of(text);
    let end = end_of_changes(text.len(), most);
    let mut found = changed_below(alloc, rows, text, word, end)?;
    push_swapped(rows, text, word, &mut found)?;
    Ok(found)
}

// Adds the edits that leave a character out, and those that put one in.
fn push_other_length<A: Allocator + Copy>(
    alloc: A,
    rows: &[u64],
    text: &[u8],
    found: &mut Vec<Edit, A>,
) -> Result<(), AllocError>
    requires long { 8 ≤ length text.now }
    requires rows { SufficeFor rows.now (length text.now + 1) }
    ensures { IfOk result (λ _. AddsTwoKinds (IsMendOfKind 2 text.now) (IsMendOfKind 3 text.now)
        found.old.items found.new.items) }
{
    let mut rest = text_with(alloc, text, 0, &[], 1)?;
    push_left_out(rows, text, &mut rest, found)?;
    let mut new = text_with(alloc, text, 0, &[b'0'], 0)?;
    push_put_in(rows, &mut new, found)
}

// All edits that make a descriptor of a text.
fn edits_of<A: Allocator + Copy>(
    alloc: A,
    rows: &[u64],
    text: &[u8],
    most: usize,
) -> Result<Vec<Edit, A>, AllocError>
    requires long { 8 ≤ length text.now }
    requires rows { SufficeFor rows.now (length text.now + 1) }
    ensures { IfOk result (λ edits. AreAllMends (IsMendWithin most text.now) edits.items) }
{
    let mut copy = Vec::from_slice(alloc, text)?;
    let mut found = edits_on_copy(alloc, rows, &mut copy, most)?;
    push_other_length(alloc, rows, text, &mut found)?;
    Ok(found)
}

// The same, with rows of their own.
fn edits_for<A: Allocator + Copy>(
    alloc: A,
    text: &[u8],
    most: usize,
) -> Result<Vec<Edit, A>, AllocError>
    requires long { 8 ≤ length text.now }
    requires few { length text.now ≤ 7500 }
    ensures { IfOk result (λ edits. AreAllMends (IsMendWithin most text.now) edits.items) }
{
    let rows = rows_of(alloc, text.len() + 1)?;
    edits_of(alloc, &rows, text, most)
}

// The text that an edit makes.
pub(crate) fn made_text<A: Allocator>(
    alloc: A,
    text: &[u8],
    edit: Edit,
) -> Result<Vec<u8, A>, AllocError>
    requires few { length text.now ≤ 7500 }
    requires told { IsToldMend edit text.now }
    ensures { IfOk result (λ new. new.items ≡ made edit text.now) }
{
    let i = edit.place;
    match edit.change {
        Change::Changed(b) => text_with(alloc, text, i, &[b], i + 1),
        Change::Swapped => text_with(alloc, text, i, &[text[i + 1], text[i]], i + 2),
        Change::LeftOut => text_with(alloc, text, i, &[], i + 1),
        Change::PutIn(b) => text_with(alloc, text, i, &[b], i),
    }
}

// Each edit with the text that it makes.
fn made_all<A: Allocator + Copy>(
    alloc: A,
    text: &[u8],
    edits: Vec<Edit, A>,
) -> Result<Vec<Mended<Vec<u8, A>>, A>, AllocError>
    requires { (length text.now ≤ 7500)
        × AllByRecursion (λ e. IsToldMend e text.now) edits.items }
    ensures same { IfOk result (λ found. map (λ m. m.edit) found.items ≡ edits.items) }
    ensures each { IfOk result (λ found.
        AllByRecursion (λ m. m.text.items ≡ made m.edit text.now) found.items) }
{
    let mut found = Vec::new(alloc);
    for edit in edits {
        let text = made_text(alloc, text, edit)?;
        found.push(Mended { edit, text })?;
    }
    Ok(found)
}

/// All descriptors with a right checksum, other than this text, that one edit makes of it, with
/// memory from `alloc`: one character is changed, where `most` is not 0, or two neighbours are
/// swapped, or a character is left out, or one is put in. The edit may be in the checksum, or be
/// the `#`. A character is a byte here: any byte of the text may be the wrong one. Each descriptor
/// stands once, with its edit.
///
/// Texts with one character changed come first, then two swapped, one left out, one put in. In each
/// kind the places rise, and at one place the codes of the characters put there. Of a run of equal
/// characters the last is left out, and a character is put in behind a run of the same.
///
/// A text that is found is a guess: compare what it describes with the wallet's addresses before it
/// is used.
///
/// # Errors
///
/// [`MendError::TooLong`] where the text has more than 7,500 characters; else [`MendError::Memory`]
/// alone, and only where it has at least eight: from fewer no descriptor comes.
pub fn mend<A: Allocator + Copy>(
    alloc: A,
    text: &[u8],
    most: usize,
) -> Result<Vec<Mended<Vec<u8, A>>, A>, MendError>
    ensures { MatchResult result
        (λ found. AreMends most text.now (map (λ m. (m.edit, m.text.items)) found.items))
        (λ e. IsMendRefusal 8 7500 text.now e) }
{
    if text.len() > 7500 {
        return Err(MendError::TooLong);
    }
    if text.len() < 8 {
        return Ok(Vec::new(alloc));
    }
    let edits = edits_for(alloc, text, most)?;
    Ok(made_all(alloc, text, edits)?)
}
