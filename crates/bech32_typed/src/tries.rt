//! How many texts are tried for a typed text, and so with how many slips.

ghost use Rattle.std.specs.Prelude.{◌≡◌, ◌<◌, ◌≤◌, ◌+◌, ◌⊎◌, ◌^◌, IfOk, MatchOption, drop, get_or, length, map, true};
ghost use Rattle.std.specs.List.{flat_map, list_all, range_with_len};
ghost use Rattle.bech32_typed.specs.Frames.{frames_by, is_frame};
ghost use Rattle.bech32_typed.specs.Fronts.{front_of};
ghost use Rattle.bech32_typed.specs.Readings.{twos};
ghost use Rattle.bech32_typed.specs.declared.tries.Pass.TheVariants.{AsItLooks, Unread};
ghost use Rattle.bech32_typed.specs.Tries.{IsTaken, choices, covered, left_after, level, levels, levels_of, readings_of, texts_of_try, tries_of_front, tries_of_numbered, tries_of_reading, with_errors};

use crate::frames::{Frames, add_next, count_unread, since};
use crate::fronts::Front;
use crate::readings::{count_twos, has_looks, plain, reading};
use crate::slips::Frame;
use std::alloc::{AllocError, Allocator};

/// How a typed text is read.
#[derive(Clone, Copy, Debug, PartialEq, Eq, Drop)]
pub enum Pass {
    /// Characters that are not of the alphabet as those that they look like.
    AsItLooks,
    /// These characters as unread, where there are any.
    Unread,
}

/// The most texts that are tried: of 100 texts that are no mistyped addresses, one answer is
/// expected at most.
pub const MAX_TEXTS: u64 = 10_737_418;

/// The most tries that are made.
pub const MAX_TRIES: u64 = 65_536;

/// The most characters that look like two: 1,024 readings.
pub const MAX_TWOS: usize = 10;

// In how many ways so many places are chosen, of two at most.
fn ways(places: u64, errors: usize) -> u64
    requires { places ≤ 59 }
    ensures value { result ≡ choices places errors }
    ensures small { result ≤ 1711 }
{
    match errors {
        0 => 1,
        1 => places,
        _ => places * (places.saturating_sub(1)) / 2,
    }
}

// 32 to the power of a number of characters.
fn all_of(unread: usize) -> u64
    requires { unread ≤ 4 }
    ensures value { result ≡ 32 ^ unread }
    ensures small { result ≤ 1048576 }
{
    match unread {
        0 => 1,
        1 => 32,
        2 => 1_024,
        3 => 32_768,
        _ => 1_048_576,
    }
}

// 31 to the power of a number of errors.
fn others_of(errors: usize) -> u64
    requires { errors ≤ 2 }
    ensures value { result ≡ 31 ^ errors }
    ensures small { result ≤ 961 }
{
    match errors {
        0 => 1,
        1 => 31,
        _ => 961,
    }
}

// How many texts a frame stands for, with so many wrong characters.
fn texts(frame: &[u8], errors: usize) -> u64
    requires frame { is_frame frame.now ≡ true }
    requires few { errors ≤ 2 }
    ensures { result ≡ texts_of_try (with_errors errors frame.now) }
{
    let unread = count_unread(frame);
    let read = frame.len().saturating_sub(unread) as u64;
    2 * (all_of(unread) * (ways(read, errors) * others_of(errors)))
}

/// How many texts may be tried, and how many tries may be made.
#[derive(Clone, Copy, Debug, PartialEq, Eq, Drop)]
pub struct Budget {
    /// The number of texts.
    pub texts: u64,
    /// The number of tries.
    pub tries: u64,
}

// What is left of a budget after one try; None where it is not enough.
fn take_one(left: Budget, texts: u64) -> Option<Budget>
    ensures { MatchOption result ((left.texts < texts) ⊎ (left.tries < 1))
        (λ rest. (rest.texts + texts ≡ left.texts) × (rest.tries + 1 ≡ left.tries)) }
{
    let texts = left.texts.checked_sub(texts)?;
    let tries = left.tries.checked_sub(1)?;
    Some(Budget { texts, tries })
}

// What is left of a budget after frames are tried, each with so many wrong characters.
fn take_frames(frames: &[Frame], errors: usize, mut left: Budget) -> Option<Budget>
    requires frames { list_all is_frame (map (λ f. f.items) frames.now) ≡ true }
    requires few { errors ≤ 2 }
    ensures { IsTaken left (map (with_errors errors) (map (λ f. f.items) frames.now)) result }
{
    for frame in frames {
        left = take_one(left, texts(frame.as_slice(), errors))?;
    }
    Some(left)
}

// Takes what is tried for a reading of a data part, where so many slips are left.
fn take_reading<A: Allocator + Copy>(
    alloc: A,
    part: &[u8],
    slips: usize,
    mut left: Budget,
) -> Result<Option<Budget>, AllocError>
    requires { slips ≤ 2 }
    ensures { IfOk result (IsTaken left (tries_of_reading slips part.now)) }
{
    let mut frames = Frames::new(alloc);
    for made in 0..slips + 1 {
        let before = add_next(part, made, &mut frames)?;
        let new = since(frames.as_slice(), before);
        let Some(rest) = take_frames(new, slips - made, left) else {
            return Ok(None);
        };
        left = rest;
    }
    Ok(Some(left))
}

/// In how many ways a part is read in which so many characters look like two.
pub fn ways_to_read(twos: usize) -> usize
    requires { twos ≤ 10 }
    ensures { result ≡ 2 ^ twos }
{
    1 << twos
}

// Takes what is tried for the first readings of a data part as it looks.
fn take_readings<A: Allocator + Copy>(
    alloc: A,
    part: &[u8],
    count: usize,
    slips: usize,
    mut left: Budget,
) -> Result<Option<Budget>, AllocError>
    requires few { twos part.now < 64 }
    requires slips { slips ≤ 2 }
    ensures { IfOk result (IsTaken left
        (flat_map (tries_of_numbered slips part.now) (range_with_len 0 count))) }
{
    for i in 0..count {
        let read = reading(alloc, part, i)?;
        let Some(rest) = take_reading(alloc, read.as_slice(), slips, left)? else {
            return Ok(None);
        };
        left = rest;
    }
    Ok(Some(left))
}

// Takes what is tried for a data part as it looks.
fn take_looks<A: Allocator + Copy>(
    alloc: A,
    part: &[u8],
    slips: usize,
    left: Budget,
) -> Result<Option<Budget>, AllocError>
    requires { slips ≤ 2 }
    ensures { IfOk result (IsTaken left
        (flat_map (tries_of_reading slips) (readings_of AsItLooks part.now))) }
{
    let twos = count_twos(part);
    if twos > MAX_TWOS {
        return Ok(Some(left));
    }
    take_readings(alloc, part, ways_to_read(twos), slips, left)
}

// Takes what is tried for a data part with characters unread.
fn take_unread<A: Allocator + Copy>(
    alloc: A,
    part: &[u8],
    slips: usize,
    left: Budget,
) -> Result<Option<Budget>, AllocError>
    requires { slips ≤ 2 }
    ensures { IfOk result (IsTaken left
        (flat_map (tries_of_reading slips) (readings_of Unread part.now))) }
{
    if !has_looks(part) {
        return Ok(Some(left));
    }
    let read = plain(alloc, part)?;
    take_reading(alloc, read.as_slice(), slips, left)
}

/// What comes after a front.
pub fn after(text: &[u8], size: usize) -> &[u8]
    ensures { result.now ≡ drop size text.now }
{
    if size > text.len() {
        return &[];
    }
    &text[size..]
}

// Takes what is tried for a front, with so many slips in all.
fn take_front<A: Allocator + Copy>(
    alloc: A,
    pass: Pass,
    text: &[u8],
    slips: usize,
    front: Front,
    left: Budget,
) -> Result<Option<Budget>, AllocError>
    requires { slips ≤ 2 }
    ensures { IfOk result (IsTaken left (tries_of_front pass text.now slips front)) }
{
    if front.slips > slips {
        return Ok(Some(left));
    }
    let part = after(text, front.size);
    match pass {
        Pass::AsItLooks => take_looks(alloc, part, slips - front.slips, left),
        Pass::Unread => take_unread(alloc, part, slips - front.slips, left),
    }
}

/// One of some fronts.
pub fn front_at(fronts: &[Front], i: usize) -> Front
    requires { i < length fronts.now }
    ensures { result ≡ get_or fronts.now i (front_of 0 0) }
{
    fronts[i]
}

// Takes what is tried with so many slips.
fn take_level<A: Allocator + Copy>(
    alloc: A,
    pass: Pass,
    text: &[u8],
    fronts: &[Front],
    slips: usize,
    mut left: Budget,
) -> Result<Option<Budget>, AllocError>
    requires { slips ≤ 2 }
    ensures { IfOk result (IsTaken left (level pass text.now fronts.now slips)) }
{
    for i in 0..fronts.len() {
        let front = front_at(fronts, i);
        let Some(rest) = take_front(alloc, pass, text, slips, front, left)? else {
            return Ok(None);
        };
        left = rest;
    }
    Ok(Some(left))
}

// For how many levels a budget is enough, and what is left of it.
fn cover<A: Allocator + Copy>(
    alloc: A,
    pass: Pass,
    text: &[u8],
    fronts: &[Front],
    left: Budget,
) -> Result<(usize, Budget), AllocError>
    ensures { IfOk result (λ found. (found.0 ≡ covered left (levels pass text.now fronts.now))
        × (found.1 ≡ left_after left (levels pass text.now fronts.now))) }
{
    let Some(one) = take_level(alloc, pass, text, fronts, 0, left)? else {
        return Ok((0, left));
    };
    let Some(two) = take_level(alloc, pass, text, fronts, 1, one)? else {
        return Ok((1, one));
    };
    match take_level(alloc, pass, text, fronts, 2, two)? {
        Some(rest) => Ok((3, rest)),
        None => Ok((2, two)),
    }
}

/// With how many slips a typed text is tried: for no slip 1, for one 2, for two 3, and 0 where
/// nothing is tried; as it looks, and with characters unread.
///
/// # Errors
///
/// If memory runs out.
pub fn levels_tried<A: Allocator + Copy>(
    alloc: A,
    text: &[u8],
    fronts: &[Front],
) -> Result<(usize, usize), AllocError>
    ensures { IfOk result (λ found. (found.0 ≡ levels_of AsItLooks text.now fronts.now)
        × (found.1 ≡ levels_of Unread text.now fronts.now)) }
{
    let whole = Budget {
        texts: MAX_TEXTS,
        tries: MAX_TRIES,
    };
    let (looks, left) = cover(alloc, Pass::AsItLooks, text, fronts, whole)?;
    let (unread, _) = cover(alloc, Pass::Unread, text, fronts, left)?;
    Ok((looks, unread))
}
