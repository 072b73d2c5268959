//! What stands for the human-readable part and the separator of a typed text.

ghost use Rattle.std.specs.Prelude.{◌≡◌, ◌<◌, ◌≤◌, ◌+◌, ◌++◌, ◌∷◌, [], IfOk, MatchOption, OnOk, false, length, map};
ghost use Rattle.std.specs.List.{list_any};
ghost use Rattle.bech32_typed.specs.Frames.{longest_with_slips};
ghost use Rattle.bech32_typed.specs.Fronts.{are_close, begins_with, fronts, fronts_by, is_by_one, is_by_two, is_end, is_or_unread, scheme, slips_of_front, stands_for};
ghost use Rattle.bech32_typed.specs.Slips.{after_slips};

use crate::slips::{Slip, places_of, undone};
use std::alloc::{AllocError, Allocator};

/// What stands for the human-readable part and the separator at the beginning of a typed text.
#[derive(Clone, Copy, Debug, PartialEq, Eq, Drop)]
pub struct Front {
    /// How many slips it takes.
    pub slips: usize,
    /// How many characters it has.
    pub size: usize,
}

// Whether a character of a frame is this one, or cannot be read.
fn fits(x: u8, y: u8) -> bool
    ensures { result ≡ is_or_unread x y }
{
    x == b'?' || x == y
}

// Whether a frame has the characters of a text, or `?` for them.
fn stands(frame: &[u8], text: &[u8]) -> bool
    ensures { result ≡ stands_for frame.now text.now }
{
    if frame.len() != text.len() {
        return false;
    }
    for i in 0..frame.len() {
        if !fits(frame[i], text[i]) {
            return false;
        }
    }
    true
}

// Whether a slip of this kind makes the right front of a typed one.
fn is_by_slip_of(slip: Slip, right: &[u8], front: &[u8]) -> bool
    requires { length front.now ≤ longest_with_slips }
    ensures { result ≡ list_any (λ frame. stands_for frame right.now) (after_slips slip front.now) }
{
    for i in 0..places_of(slip, front.len()) {
        let frame = undone(slip, front, i);
        if stands(frame.as_slice(), right) {
            return true;
        }
    }
    false
}

// Whether one slip makes the right front of a typed one.
fn by_one(right: &[u8], front: &[u8]) -> bool
    requires { length front.now ≤ longest_with_slips }
    ensures { result ≡ is_by_one right.now front.now }
{
    is_by_slip_of(Slip::Wrong, right, front)
        || is_by_slip_of(Slip::Swapped, right, front)
        || is_by_slip_of(Slip::TooMany, right, front)
        || is_by_slip_of(Slip::Missing, right, front)
}

// Whether two slips make the right front of a typed one, the first of this kind.
fn is_by_two_of(slip: Slip, right: &[u8], front: &[u8]) -> bool
    requires { length front.now < longest_with_slips }
    ensures { result ≡ list_any (is_by_one right.now) (after_slips slip front.now) }
{
    for i in 0..places_of(slip, front.len()) {
        let frame = undone(slip, front, i);
        if by_one(right, frame.as_slice()) {
            return true;
        }
    }
    false
}

// Whether two slips make the right front of a typed one.
fn by_two(right: &[u8], front: &[u8]) -> bool
    requires { length front.now < longest_with_slips }
    ensures { result ≡ is_by_two right.now front.now }
{
    is_by_two_of(Slip::Wrong, right, front)
        || is_by_two_of(Slip::Swapped, right, front)
        || is_by_two_of(Slip::TooMany, right, front)
        || is_by_two_of(Slip::Missing, right, front)
}

// Whether the lengths of two fronts differ by two at most.
fn close(right: &[u8], front: &[u8]) -> bool
    requires { length right.now ≤ 84 }
    ensures { result ≡ are_close right.now front.now }
{
    let size = front.len();
    size <= right.len() + 2 && right.len() <= size.saturating_add(2) && size < 61
}

// Whether the second text ends with the first.
fn ends(end: &[u8], text: &[u8]) -> bool
    ensures { result ≡ is_end end.now text.now }
{
    end.len() <= text.len() && &text[text.len() - end.len()..] == end
}

// How many slips make the right front of a typed one, 3 where it is none.
fn slips_to(right: &[u8], front: &[u8]) -> usize
    requires { length right.now ≤ 84 }
    ensures { result ≡ slips_of_front right.now front.now }
{
    if ends(front, right) || ends(right, front) {
        return 1;
    }
    if !close(right, front) {
        return 3;
    }
    if by_one(right, front) {
        return 1;
    }
    if by_two(right, front) { 2 } else { 3 }
}

// Adds the lengths of the fronts that take so many slips.
fn push_fronts<A: Allocator>(
    right: &[u8],
    text: &[u8],
    slips: usize,
    found: &mut Vec<Front, A>,
) -> Result<(), AllocError>
    requires { length right.now ≤ 84 }
    ensures { OnOk result (found.new.items
        ≡ found.old.items ++ fronts_by right.now text.now slips) }
{
    for size in 0..text.len() + 1 {
        if slips_to(right, &text[..size]) == slips {
            found.push(Front { slips, size })?;
        }
    }
    Ok(())
}

// Whether a text begins with a front.
fn begins(front: &[u8], text: &[u8]) -> bool
    ensures { result ≡ begins_with front.now text.now }
{
    front.len() <= text.len() && &text[..front.len()] == front
}

// The fronts of a typed text that begins with the right one, or with the scheme of a payment
// request and the right one.
fn whole_front(right: &[u8], text: &[u8]) -> Option<Front>
    ensures { MatchOption result
        ((begins_with right.now text.now ≡ false)
        × (begins_with (scheme ++ right.now) text.now ≡ false))
        (λ front. fronts right.now text.now ≡ front ∷ []) }
{
    if begins(right, text) {
        return Some(Front {
            slips: 0,
            size: right.len(),
        });
    }
    if begins(b"bitcoin", text) && begins(right, &text[7..]) {
        return Some(Front {
            slips: 0,
            size: right.len().saturating_add(7),
        });
    }
    None
}

/// What may stand for the human-readable part and the separator of a typed text: the front itself,
/// where the text begins with it, or with `bitcoin` and it; else each front that one slip makes it
/// of, or that has lost its beginning, or that something stands before, short ones first, and then
/// each that two slips make it of.
///
/// # Errors
///
/// If memory runs out.
pub fn fronts_of<A: Allocator>(
    alloc: A,
    right: &[u8],
    text: &[u8],
) -> Result<Vec<Front, A>, AllocError>
    requires { length right.now ≤ 84 }
    ensures { IfOk result (λ v. v.items ≡ fronts right.now text.now) }
{
    let mut found = Vec::new(alloc);
    if let Some(front) = whole_front(right, text) {
        found.push(front)?;
        return Ok(found);
    }
    push_fronts(right, text, 1, &mut found)?;
    push_fronts(right, text, 2, &mut found)?;
    Ok(found)
}
