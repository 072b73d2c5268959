//! The frames of a typed data part.

ghost use Rattle.std.specs.Prelude.{◌≡◌, ◌<◌, ◌≤◌, ◌+◌, ◌-◌, ◌++◌, ◌∷◌, [], IfOk, IsTrue, OnOk, drop, length, map, true};
ghost use Rattle.bech32_typed.specs.Frames.{blocks_once, cut_to, deeper, frames_before, frames_by, is_doubled, is_frame, is_near_size, is_size, four_missing, long_size, longest_with_slips, made_by, shortened, slipped, three_missing, unread_in, with_frames, with_three_unread_at, without_block};
ghost use Rattle.bech32_typed.specs.Slips.{after_slips};

use crate::slips::{Frame, Slip, joined, places_of, undone};
use indexmap::IndexSet;
use std::alloc::{AllocError, Allocator};
use std::hash::{BuildHasherDefault, FoldHasher};

/// Frames, each once, in the order in which they were added.
pub type Frames<A> = IndexSet<Frame, BuildHasherDefault<FoldHasher>, A>;

// The kinds of slips, in their order.
const SLIPS: [Slip; 3] = [Slip::Swapped, Slip::TooMany, Slip::Missing];

// The lengths of the data parts of addresses in use.
const SHORT: usize = 39;

const LONG: usize = 59;

// The most characters of a frame that cannot be read.
const MAX_UNREAD: usize = 4;

// Whether an address in use has so many characters after its separator.
fn has_size(size: usize) -> bool
    ensures { result ≡ is_size size }
{
    size == SHORT || size == LONG
}

// Whether two slips can make a frame of a text of this size.
fn is_near(size: usize) -> bool
    ensures value { result ≡ is_near_size size }
    ensures short { IsTrue result → size ≤ longest_with_slips }
{
    (size >= SHORT - 2 && size <= SHORT + 2) || (size >= LONG - 2 && size <= LONG + 2)
}

/// How many characters cannot be read.
pub fn count_unread(text: &[u8]) -> usize
    ensures { result ≡ unread_in text.now }
{
    let mut count = 0;
    for c in text {
        if *c == b'?' {
            count += 1;
        }
    }
    count
}

// Adds a text if it is a frame.
fn add_frame<A: Allocator + Copy>(frame: Frame, frames: &mut Frames<A>) -> Result<(), AllocError>
    ensures { OnOk result (map (λ f. f.items) frames.new.keys
        ≡ with_frames (map (λ f. f.items) frames.old.keys) (frame.items ∷ [])) }
{
    if !has_size(frame.as_slice().len()) || count_unread(frame.as_slice()) > MAX_UNREAD {
        return Ok(());
    }
    frames.insert(frame)?;
    Ok(())
}

// Adds the frames that slips of one kind make of a text.
fn add_slips_of<A: Allocator + Copy>(
    slip: Slip,
    text: &[u8],
    frames: &mut Frames<A>,
) -> Result<(), AllocError>
    requires { length text.now ≤ longest_with_slips }
    ensures { OnOk result (map (λ f. f.items) frames.new.keys
        ≡ with_frames (map (λ f. f.items) frames.old.keys) (after_slips slip text.now)) }
{
    for i in 0..places_of(slip, text.len()) {
        add_frame(undone(slip, text, i), frames)?;
    }
    Ok(())
}

// Adds the frames that one slip makes of a text.
fn add_slips<A: Allocator + Copy>(text: &[u8], frames: &mut Frames<A>) -> Result<(), AllocError>
    ensures { OnOk result (map (λ f. f.items) frames.new.keys
        ≡ with_frames (map (λ f. f.items) frames.old.keys) (slipped text.now)) }
{
    if !is_near(text.len()) {
        return Ok(());
    }
    add_slips_of(Slip::Swapped, text, frames)?;
    add_slips_of(Slip::TooMany, text, frames)?;
    add_slips_of(Slip::Missing, text, frames)
}

// Adds the frames that one more slip makes of each text that slips of one kind make.
fn add_second_slips_of<A: Allocator + Copy>(
    slip: Slip,
    text: &[u8],
    frames: &mut Frames<A>,
) -> Result<(), AllocError>
    requires { length text.now ≤ longest_with_slips }
    ensures { OnOk result (map (λ f. f.items) frames.new.keys
        ≡ with_frames (map (λ f. f.items) frames.old.keys)
        (deeper true (after_slips slip text.now))) }
{
    for i in 0..places_of(slip, text.len()) {
        let one = undone(slip, text, i);
        add_slips(one.as_slice(), frames)?;
    }
    Ok(())
}

// Adds the frames that two slips make of a text.
fn add_second_slips<A: Allocator + Copy>(
    text: &[u8],
    frames: &mut Frames<A>,
) -> Result<(), AllocError>
    ensures { OnOk result (map (λ f. f.items) frames.new.keys
        ≡ with_frames (map (λ f. f.items) frames.old.keys) (deeper true (slipped text.now))) }
{
    if !is_near(text.len()) {
        return Ok(());
    }
    add_second_slips_of(Slip::Swapped, text, frames)?;
    add_second_slips_of(Slip::TooMany, text, frames)?;
    add_second_slips_of(Slip::Missing, text, frames)
}

// Adds a text, or what one more slip makes of it.
fn add_made<A: Allocator + Copy>(
    frame: Frame,
    is_deeper: bool,
    frames: &mut Frames<A>,
) -> Result<(), AllocError>
    ensures { OnOk result (map (λ f. f.items) frames.new.keys
        ≡ with_frames (map (λ f. f.items) frames.old.keys)
        (deeper is_deeper (frame.items ∷ []))) }
{
    if is_deeper {
        return add_slips(frame.as_slice(), frames);
    }
    add_frame(frame, frames)
}

// Whether the characters from a place on stand twice, so many of them.
fn stand_twice(text: &[u8], size: usize, i: usize) -> bool
    requires { i + (size + size) ≤ length text.now }
    ensures { result ≡ is_doubled text.now size i }
{
    text[i..i + size] == text[i + size..i + size + size]
}

// The text without as many characters from a place on.
fn without(text: &[u8], size: usize, i: usize) -> Frame
    requires short { length text.now ≤ size + long_size }
    requires place { i + size ≤ length text.now }
    ensures { result.items ≡ without_block text.now size i }
{
    joined(&text[..i], &[], &text[i + size..])
}

// Adds what becomes of a text if a block of this size that stands twice is made once.
fn add_blocks<A: Allocator + Copy>(
    text: &[u8],
    size: usize,
    is_deeper: bool,
    frames: &mut Frames<A>,
) -> Result<(), AllocError>
    requires { length text.now ≤ size + long_size }
    ensures { OnOk result (map (λ f. f.items) frames.new.keys
        ≡ with_frames (map (λ f. f.items) frames.old.keys)
        (deeper is_deeper (blocks_once text.now size))) }
{
    if size < 2 || size > text.len() / 2 {
        return Ok(());
    }
    for i in 0..text.len() - (size + size) + 1 {
        if stand_twice(text, size, i) {
            add_made(without(text, size, i), is_deeper, frames)?;
        }
    }
    Ok(())
}

// Adds the front of a text that is longer than an address in use.
fn add_front<A: Allocator + Copy>(
    text: &[u8],
    size: usize,
    is_deeper: bool,
    frames: &mut Frames<A>,
) -> Result<(), AllocError>
    requires { size ≤ long_size }
    ensures { OnOk result (map (λ f. f.items) frames.new.keys
        ≡ with_frames (map (λ f. f.items) frames.old.keys)
        (deeper is_deeper (cut_to text.now size))) }
{
    if text.len() <= size {
        return Ok(());
    }
    add_made(joined(&text[..size], &[], &[]), is_deeper, frames)
}

// Adds what becomes of a text if a block that stands twice is made once, or what comes after an
// address is cut off.
fn add_shortened<A: Allocator + Copy>(
    text: &[u8],
    is_deeper: bool,
    frames: &mut Frames<A>,
) -> Result<(), AllocError>
    ensures { OnOk result (map (λ f. f.items) frames.new.keys
        ≡ with_frames (map (λ f. f.items) frames.old.keys)
        (deeper is_deeper (shortened text.now))) }
{
    add_blocks_to(text, SHORT, is_deeper, frames)?;
    add_blocks_to(text, LONG, is_deeper, frames)?;
    add_front(text, SHORT, is_deeper, frames)?;
    add_front(text, LONG, is_deeper, frames)
}

// Adds what becomes of a text if it gets this size by a block that is made once.
fn add_blocks_to<A: Allocator + Copy>(
    text: &[u8],
    size: usize,
    is_deeper: bool,
    frames: &mut Frames<A>,
) -> Result<(), AllocError>
    requires { size ≤ long_size }
    ensures { OnOk result (map (λ f. f.items) frames.new.keys
        ≡ with_frames (map (λ f. f.items) frames.old.keys)
        (deeper is_deeper (blocks_once text.now (length text.now - size)))) }
{
    add_blocks(text, text.len().saturating_sub(size), is_deeper, frames)
}

// The text with three neighbours that are missing, before a place.
fn with_three_unread(text: &[u8], i: usize) -> Frame
    requires short { length text.now ≤ long_size }
    requires place { i ≤ length text.now }
    ensures { result.items ≡ with_three_unread_at text.now i }
{
    joined(&text[..i], b"???", &text[i..])
}

// Adds the text with three neighbours that are missing, at any place.
fn add_three_missing<A: Allocator + Copy>(
    text: &[u8],
    frames: &mut Frames<A>,
) -> Result<(), AllocError>
    ensures { OnOk result (map (λ f. f.items) frames.new.keys
        ≡ with_frames (map (λ f. f.items) frames.old.keys) (three_missing text.now)) }
{
    if text.len() > LONG || !has_size(text.len() + 3) {
        return Ok(());
    }
    for i in 0..text.len() + 1 {
        add_frame(with_three_unread(text, i), frames)?;
    }
    Ok(())
}

// Adds the text with four characters that are missing at the end.
fn add_four_missing<A: Allocator + Copy>(
    text: &[u8],
    frames: &mut Frames<A>,
) -> Result<(), AllocError>
    ensures { OnOk result (map (λ f. f.items) frames.new.keys
        ≡ with_frames (map (λ f. f.items) frames.old.keys) (four_missing text.now)) }
{
    if text.len() > LONG || !has_size(text.len() + 4) {
        return Ok(());
    }
    add_frame(joined(text, b"????", &[]), frames)
}

/// Adds the frames that exactly this many slips make of a typed data part, of which two at most are
/// looked for: where they are more than one, as for two.
///
/// # Errors
///
/// If memory runs out. The frames that were added until then stay.
pub fn add_frames<A: Allocator + Copy>(
    text: &[u8],
    slips: usize,
    frames: &mut Frames<A>,
) -> Result<(), AllocError>
    ensures { OnOk result (map (λ f. f.items) frames.new.keys
        ≡ with_frames (map (λ f. f.items) frames.old.keys) (made_by slips text.now)) }
{
    match slips {
        0 => add_itself(text, frames),
        1 => {
            add_slips(text, frames)?;
            add_shortened(text, false, frames)
        }
        _ => {
            add_second_slips(text, frames)?;
            add_shortened(text, true, frames)?;
            add_three_missing(text, frames)?;
            add_four_missing(text, frames)
        }
    }
}

// Adds the text itself, if it is a frame.
fn add_itself<A: Allocator + Copy>(text: &[u8], frames: &mut Frames<A>) -> Result<(), AllocError>
    ensures { OnOk result (map (λ f. f.items) frames.new.keys
        ≡ with_frames (map (λ f. f.items) frames.old.keys) (text.now ∷ [])) }
{
    if !has_size(text.len()) {
        return Ok(());
    }
    add_frame(joined(text, &[], &[]), frames)
}

/// Adds the frames that this many slips make of a typed data part, and no fewer, to those that
/// fewer make. Returns how many were there before.
///
/// # Errors
///
/// If memory runs out.
pub fn add_next<A: Allocator + Copy>(
    text: &[u8],
    slips: usize,
    frames: &mut Frames<A>,
) -> Result<usize, AllocError>
    requires { map (λ f. f.items) frames.old.keys ≡ frames_before slips text.now }
    ensures all { OnOk result (map (λ f. f.items) frames.new.keys
        ≡ frames_before (slips + 1) text.now) }
    ensures new { IfOk result (λ before.
        map (λ f. f.items) (drop before frames.new.keys) ≡ frames_by slips text.now) }
{
    let before = frames.len();
    add_frames(text, slips, frames)?;
    Ok(before)
}

/// The frames from a place on.
pub fn since(frames: &[Frame], before: usize) -> &[Frame]
    ensures { result.now ≡ drop before frames.now }
{
    if before > frames.len() {
        return &[];
    }
    &frames[before..]
}
