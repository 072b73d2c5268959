//! All edits of one kind that make a descriptor of a text.

ghost use Rattle.std.specs.Prelude.{◌≡◌, ◌<◌, ◌≤◌, ◌+◌, ◌++◌, ◌↔◌, drop, get_or, length, option_to_list, slice_set, take, IfOk, IsTrue};
ghost use Rattle.bech32_descriptor.specs.Descriptor.{polynomial_of};
ghost use Rattle.bech32_descriptor.specs.Edits.{AddsAllMends, AreAllMends, IsAt, IsPrinted};
ghost use Rattle.bech32_descriptor.specs.PairWalks.{AreBases, IsMendBelow};
ghost use Rattle.bech32_descriptor.specs.Walks.{IsMendAt, IsMendOfKind, IsPutAt, IsPutBy, IsReady, SufficeFor, change_that};
ghost use Rattle.bech32_descriptor.specs.Words.{IsWordOfSymbols};

use crate::edits::{Change, Edit};
use crate::places::{bases_of, change_by};
use crate::residue::{is_target, residue_of};
use crate::scratch::{is_right, is_right_with, set_byte};
use std::alloc::{AllocError, Allocator};

// Adds an edit, if there is one.
#[inline]
fn push_some<A: Allocator>(found: &mut Vec<Edit, A>, edit: Option<Edit>) -> Result<(), AllocError>
    ensures { IfOk result (λ _. found.new.items ≡ found.old.items ++ option_to_list edit) }
{
    if let Some(edit) = edit {
        found.push(edit)?;
    }
    Ok(())
}

// The byte at a place, or 0 where there is none.
#[inline]
fn byte_at(text: &[u8], place: usize) -> u8
    ensures { result ≡ get_or text.now place 0 }
{
    if text.len() <= place {
        return 0;
    }
    text[place]
}

// What puts a byte somewhere.
#[inline]
fn change_to(byte: u8, put_in: bool) -> Change
    ensures { result ≡ change_that put_in byte }
{
    if put_in {
        return Change::PutIn(byte);
    }
    Change::Changed(byte)
}

// Where bytes are put in a text with this remainder: those other than `kept` are put in, or are
// changed to.
#[derive(Clone, Copy)]
struct Put {
    word: u64,
    place: usize,
    kept: u8,
    put_in: bool,
}

// The edit that puts a byte at a place, if it makes a descriptor.
#[inline]
fn put_at(rows: &[u64], text: &mut [u8], bases: &[u64; 3], put: Put, byte: u8) -> Option<Edit>
    requires ready { IsReady rows.now text.old put.word }
    requires within { put.place < length text.old }
    requires printed { IsPrinted byte }
    requires bases { AreBases rows.now text.old put.place bases.now }
    ensures text { text.new ≡ text.old }
    ensures all { AreAllMends (IsPutBy put.put_in put.kept put.place text.old byte)
        (option_to_list result) }
{
    if byte == put.kept {
        return None;
    }
    if !is_target(put.word ^ change_by(rows, text, bases, put.place, byte)) {
        return None;
    }
    if !is_right_with(rows, text, put.word, put.place, byte) {
        return None;
    }
    Some(Edit {
        place: put.place,
        change: change_to(byte, put.put_in),
    })
}

// Adds all edits that put a byte at one place.
fn push_put_at<A: Allocator>(
    rows: &[u64],
    text: &mut [u8],
    put: Put,
    found: &mut Vec<Edit, A>,
) -> Result<(), AllocError>
    requires ready { IsReady rows.now text.old put.word }
    requires within { put.place < length text.old }
    ensures { IfOk result (λ _. (text.new ≡ text.old)
        × AddsAllMends (IsPutAt put.put_in put.kept put.place text.old)
        found.old.items found.new.items) }
{
    let bases = bases_of(rows, text, put.place);
    for byte in 32..127 {
        let edit = put_at(rows, text, &bases, put, byte);
        push_some(found, edit)?;
    }
    Ok(())
}

// All changes of one character before a place.
pub(crate) fn changed_below<A: Allocator>(
    alloc: A,
    rows: &[u64],
    text: &mut [u8],
    word: u64,
    end: usize,
) -> Result<Vec<Edit, A>, AllocError>
    requires ready { IsReady rows.now text.old word }
    requires within { end ≤ length text.old }
    ensures { IfOk result (λ edits. (text.new ≡ text.old)
        × AreAllMends (IsMendBelow text.old end) edits.items) }
{
    let mut found = Vec::new(alloc);
    for place in 0..end {
        let kept = text[place];
        let put = Put {
            word,
            place,
            kept,
            put_in: false,
        };
        push_put_at(rows, text, put, &mut found)?;
    }
    Ok(found)
}

// The swap of the characters at a place and behind it, if it makes a descriptor.
#[inline]
fn swapped_at(rows: &[u64], text: &mut [u8], word: u64, place: usize) -> Option<Edit>
    requires ready { IsReady rows.now text.old word }
    requires within { place < length text.old }
    ensures text { text.new ≡ text.old }
    ensures all { AreAllMends (IsMendAt 1 text.old place) (option_to_list result) }
{
    if place + 1 == text.len() {
        return None;
    }
    let first = text[place];
    let second = text[place + 1];
    if first == second {
        return None;
    }
    let half = set_byte(rows, text, word, place, second);
    let right = is_right_with(rows, text, half, place + 1, first);
    text[place] = first;
    if !right {
        return None;
    }
    Some(Edit {
        place,
        change: Change::Swapped,
    })
}

// Adds all swaps.
pub(crate) fn push_swapped<A: Allocator>(
    rows: &[u64],
    text: &mut [u8],
    word: u64,
    found: &mut Vec<Edit, A>,
) -> Result<(), AllocError>
    requires { IsReady rows.now text.old word }
    ensures { IfOk result (λ _. (text.new ≡ text.old)
        × AddsAllMends (IsMendOfKind 1 text.old) found.old.items found.new.items) }
{
    for place in 0..text.len() {
        let edit = swapped_at(rows, text, word, place);
        push_some(found, edit)?;
    }
    Ok(())
}

// Whether a byte stands at a place.
#[inline]
fn is_at(text: &[u8], place: usize, byte: u8) -> bool
    ensures { IsTrue result ↔ IsAt text.now place byte }
{
    if text.len() <= place {
        return false;
    }
    text[place] == byte
}

// What leaves out the character at a place, if it makes a descriptor: `rest` is the text without
// the character.
#[inline]
fn left_out_at(text: &[u8], rest: &[u8], word: u64, place: usize) -> Option<Edit>
    requires within { place < length text.now }
    requires rest { rest.now ≡ take place text.now ++ drop (place + 1) text.now }
    requires word { IsWordOfSymbols word (polynomial_of rest.now) }
    ensures { AreAllMends (IsMendAt 2 text.now place) (option_to_list result) }
{
    if is_at(text, place + 1, text[place]) {
        return None;
    }
    if !is_right(rest, word) {
        return None;
    }
    Some(Edit {
        place,
        change: Change::LeftOut,
    })
}

// Puts the character at a place in place of the next one: `rest` is the text without the one, and
// then without the other.
#[inline]
fn next_left_out(rows: &[u64], text: &[u8], rest: &mut [u8], word: u64, place: usize) -> u64
    requires ready { IsReady rows.now rest.old word }
    requires within { place < length text.now }
    requires rest { rest.old ≡ take place text.now ++ drop (place + 1) text.now }
    ensures rest { place + 1 < length text.now
        → rest.new ≡ take (place + 1) text.now ++ drop (place + 1 + 1) text.now }
    ensures ready { IsReady rows.now rest.new result }
{
    if place + 1 == text.len() {
        return word;
    }
    set_byte(rows, rest, word, place, text[place])
}

// Adds all that leave a character out: `rest` is the text without its first character.
pub(crate) fn push_left_out<A: Allocator>(
    rows: &[u64],
    text: &[u8],
    rest: &mut [u8],
    found: &mut Vec<Edit, A>,
) -> Result<(), AllocError>
    requires rows { SufficeFor rows.now (length text.now + 1) }
    requires rest { rest.old ≡ drop 1 text.now }
    ensures { IfOk result
        (λ _. AddsAllMends (IsMendOfKind 2 text.now) found.old.items found.new.items) }
{
    if text.len() < 10 {
        return Ok(());
    }
    let mut word = residue_of(rest);
    for place in 0..text.len() {
        let edit = left_out_at(text, rest, word, place);
        push_some(found, edit)?;
        word = next_left_out(rows, text, rest, word, place);
    }
    Ok(())
}

// Puts the next character at a place, if there is one.
#[inline]
fn next_put_in(rows: &[u64], new: &mut [u8], word: u64, place: usize) -> u64
    requires ready { IsReady rows.now new.old word }
    requires within { place < length new.old }
    ensures new { place + 1 < length new.old
        → new.new ≡ slice_set new.old place (get_or new.old (place + 1) 0) }
    ensures ready { IsReady rows.now new.new result }
{
    if place + 1 == new.len() {
        return word;
    }
    let next = new[place + 1];
    set_byte(rows, new, word, place, next)
}

// Adds all that put a character in: `new` is the text with some character put in before it, and
// then behind one character after another.
pub(crate) fn push_put_in<A: Allocator>(
    rows: &[u64],
    new: &mut [u8],
    found: &mut Vec<Edit, A>,
) -> Result<(), AllocError>
    requires long { 9 ≤ length new.old }
    requires rows { SufficeFor rows.now (length new.old) }
    ensures { IfOk result
        (λ _. AddsAllMends (IsMendOfKind 3 (drop 1 new.old)) found.old.items found.new.items) }
{
    let mut word = residue_of(new);
    for place in 0..new.len() {
        let kept = byte_at(new, place + 1);
        let put = Put {
            word,
            place,
            kept,
            put_in: true,
        };
        push_put_at(rows, new, put, found)?;
        word = next_put_in(rows, new, word, place);
    }
    Ok(())
}
