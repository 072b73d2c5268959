//! What is tried for a typed text.

ghost use Rattle.std.specs.Prelude.{◌≡◌, ◌≤◌, ◌<◌, ℕ, IfOk, OnOk, length, map, string_bytes, true};
ghost use Rattle.std.specs.List.{flat_map, range_with_len};
ghost use Rattle.bech32_hrp.specs.HrpBytes.{hrp_bytes};
ghost use Rattle.bech32_typed.specs.Readings.{twos};
ghost use Rattle.bech32_typed.specs.Tries.{level, readings_of, tries_of_front, tries_of_numbered, tries_of_reading, with_errors};
ghost use Rattle.bech32_typed.specs.declared.tries.Pass.TheVariants.{AsItLooks, Unread};
ghost use Rattle.bech32_meant.specs.Added.{AddsAll, AddsFrame, AddsTry, filled, front_for, with_first_read};

use crate::added::{Asked, Meant, push_frame};
use bech32_typed::{
    Frame, Frames, Front, MAX_TWOS, Pass, add_next, after, count_twos, count_unread, front_at,
    has_looks, joined, plain, reading, since, ways_to_read,
};
use std::alloc::{AllocError, Allocator};

// The characters of the alphabet, by their values.
const ALPHABET: [u8; 32] = *b"qpzry9x8gf2tvdw0s3jn54khce6mua7l";

// A frame whose first character that cannot be read is this one.
fn with_first_unread(frame: &[u8], c: u8) -> Frame
    requires { length frame.now ≤ 62 }
    ensures { result.items ≡ with_first_read frame.now c }
{
    for i in 0..frame.len() {
        if frame[i] == b'?' {
            return joined(&frame[..i], &[c], &frame[i + 1..]);
        }
    }
    joined(frame, &[], &[])
}

// Adds what a frame finds with each of these characters for the first that cannot be read.
fn push_with_each<A: Allocator + Copy>(
    alloc: &A,
    front: &[u8],
    frame: &[u8],
    characters: &[u8],
    errors: usize,
    asked: &Asked<'_>,
    found: &mut Vec<Meant<String<A>>, A>,
) -> Result<(), AllocError>
    requires short { length frame.now ≤ 62 }
    requires front { front.now ≡ front_for (hrp_bytes asked.now.hrp.now) }
    ensures { OnOk result (AddsAll
        (AddsFrame (hrp_bytes asked.now.hrp.now) asked.now.slips errors)
        (map (λ s. (string_bytes s.text, s.slips)) found.old.items)
        (map (with_first_read frame.now) characters.now)
        (map (λ s. (string_bytes s.text, s.slips)) found.new.items)) }
{
    for i in 0..characters.len() {
        let one = with_first_unread(frame, characters[i]);
        push_frame(alloc, front, one.as_slice(), errors, asked, found)?;
    }
    Ok(())
}

// Adds what a frame finds: by the checksums, or, where four characters cannot be read, with each
// character of the alphabet for the first of them.
fn push_filled<A: Allocator + Copy>(
    alloc: &A,
    front: &[u8],
    frame: &[u8],
    errors: usize,
    asked: &Asked<'_>,
    found: &mut Vec<Meant<String<A>>, A>,
) -> Result<(), AllocError>
    requires short { length frame.now ≤ 62 }
    requires front { front.now ≡ front_for (hrp_bytes asked.now.hrp.now) }
    ensures { OnOk result (AddsAll
        (AddsFrame (hrp_bytes asked.now.hrp.now) asked.now.slips errors)
        (map (λ s. (string_bytes s.text, s.slips)) found.old.items) (filled frame.now)
        (map (λ s. (string_bytes s.text, s.slips)) found.new.items)) }
{
    if count_unread(frame) == 4 {
        push_with_each(alloc, front, frame, &ALPHABET, errors, asked, found)?;
        return Ok(());
    }
    push_frame(alloc, front, frame, errors, asked, found)?;
    Ok(())
}

// Adds what frames find, each with so many wrong characters.
fn push_frames<A: Allocator + Copy>(
    alloc: &A,
    front: &[u8],
    frames: &[Frame],
    errors: usize,
    asked: &Asked<'_>,
    found: &mut Vec<Meant<String<A>>, A>,
) -> Result<(), AllocError>
    requires { front.now ≡ front_for (hrp_bytes asked.now.hrp.now) }
    ensures { OnOk result (AddsAll (AddsTry (hrp_bytes asked.now.hrp.now) asked.now.slips)
        (map (λ s. (string_bytes s.text, s.slips)) found.old.items)
        (map (with_errors errors) (map (λ f. f.items) frames.now))
        (map (λ s. (string_bytes s.text, s.slips)) found.new.items)) }
{
    for frame in frames {
        push_filled(alloc, front, frame.as_slice(), errors, asked, found)?;
    }
    Ok(())
}

// Adds what is found for a reading of a data part, where so many slips are left.
fn push_reading<A: Allocator + Copy>(
    alloc: &A,
    front: &[u8],
    part: &[u8],
    left: usize,
    asked: &Asked<'_>,
    found: &mut Vec<Meant<String<A>>, A>,
) -> Result<(), AllocError>
    requires few { left ≤ 2 }
    requires front { front.now ≡ front_for (hrp_bytes asked.now.hrp.now) }
    ensures { OnOk result (AddsAll (AddsTry (hrp_bytes asked.now.hrp.now) asked.now.slips)
        (map (λ s. (string_bytes s.text, s.slips)) found.old.items)
        (tries_of_reading left part.now)
        (map (λ s. (string_bytes s.text, s.slips)) found.new.items)) }
{
    let mut frames = Frames::new(*alloc);
    for made in 0..left + 1 {
        let before = add_next(part, made, &mut frames)?;
        let new = since(frames.as_slice(), before);
        push_frames(alloc, front, new, left - made, asked, found)?;
    }
    Ok(())
}

// Adds what is found for the first readings of a data part as it looks.
fn push_readings<A: Allocator + Copy>(
    alloc: &A,
    front: &[u8],
    part: &[u8],
    count: usize,
    left: usize,
    asked: &Asked<'_>,
    found: &mut Vec<Meant<String<A>>, A>,
) -> Result<(), AllocError>
    requires twos { twos part.now < 64 }
    requires few { left ≤ 2 }
    requires front { front.now ≡ front_for (hrp_bytes asked.now.hrp.now) }
    ensures { OnOk result (AddsAll (AddsTry (hrp_bytes asked.now.hrp.now) asked.now.slips)
        (map (λ s. (string_bytes s.text, s.slips)) found.old.items)
        (flat_map (tries_of_numbered left part.now) (range_with_len 0 count))
        (map (λ s. (string_bytes s.text, s.slips)) found.new.items)) }
{
    for i in 0..count {
        let read = reading(*alloc, part, i)?;
        push_reading(alloc, front, read.as_slice(), left, asked, found)?;
    }
    Ok(())
}

// Adds what is found for a data part as it looks.
fn push_looks<A: Allocator + Copy>(
    alloc: &A,
    front: &[u8],
    part: &[u8],
    left: usize,
    asked: &Asked<'_>,
    found: &mut Vec<Meant<String<A>>, A>,
) -> Result<(), AllocError>
    requires few { left ≤ 2 }
    requires front { front.now ≡ front_for (hrp_bytes asked.now.hrp.now) }
    ensures { OnOk result (AddsAll (AddsTry (hrp_bytes asked.now.hrp.now) asked.now.slips)
        (map (λ s. (string_bytes s.text, s.slips)) found.old.items)
        (flat_map (tries_of_reading left) (readings_of AsItLooks part.now))
        (map (λ s. (string_bytes s.text, s.slips)) found.new.items)) }
{
    let twos = count_twos(part);
    if twos > MAX_TWOS {
        return Ok(());
    }
    push_readings(alloc, front, part, ways_to_read(twos), left, asked, found)?;
    Ok(())
}

// Adds what is found for a data part with characters unread.
fn push_unread<A: Allocator + Copy>(
    alloc: &A,
    front: &[u8],
    part: &[u8],
    left: usize,
    asked: &Asked<'_>,
    found: &mut Vec<Meant<String<A>>, A>,
) -> Result<(), AllocError>
    requires few { left ≤ 2 }
    requires front { front.now ≡ front_for (hrp_bytes asked.now.hrp.now) }
    ensures { OnOk result (AddsAll (AddsTry (hrp_bytes asked.now.hrp.now) asked.now.slips)
        (map (λ s. (string_bytes s.text, s.slips)) found.old.items)
        (flat_map (tries_of_reading left) (readings_of Unread part.now))
        (map (λ s. (string_bytes s.text, s.slips)) found.new.items)) }
{
    if !has_looks(part) {
        return Ok(());
    }
    let read = plain(*alloc, part)?;
    push_reading(alloc, front, read.as_slice(), left, asked, found)?;
    Ok(())
}

// Adds what is found for a front, with so many slips in all.
fn push_front<A: Allocator + Copy>(
    alloc: &A,
    pass: Pass,
    right: &[u8],
    text: &[u8],
    front: Front,
    asked: &Asked<'_>,
    found: &mut Vec<Meant<String<A>>, A>,
) -> Result<(), AllocError>
    requires few { asked.now.slips ≤ 2 }
    requires right { right.now ≡ front_for (hrp_bytes asked.now.hrp.now) }
    ensures { OnOk result (AddsAll (AddsTry (hrp_bytes asked.now.hrp.now) asked.now.slips)
        (map (λ s. (string_bytes s.text, s.slips)) found.old.items)
        (tries_of_front pass text.now asked.now.slips front)
        (map (λ s. (string_bytes s.text, s.slips)) found.new.items)) }
{
    if front.slips > asked.slips {
        return Ok(());
    }
    let (part, left) = (after(text, front.size), asked.slips - front.slips);
    match pass {
        Pass::AsItLooks => push_looks(alloc, right, part, left, asked, found)?,
        Pass::Unread => push_unread(alloc, right, part, left, asked, found)?,
    }
    Ok(())
}

// Adds what is found with so many slips.
pub(crate) fn push_level<A: Allocator + Copy>(
    alloc: &A,
    pass: Pass,
    right: &[u8],
    text: &[u8],
    fronts: &[Front],
    asked: &Asked<'_>,
    found: &mut Vec<Meant<String<A>>, A>,
) -> Result<(), AllocError>
    requires few { asked.now.slips ≤ 2 }
    requires right { right.now ≡ front_for (hrp_bytes asked.now.hrp.now) }
    ensures { OnOk result (AddsAll (AddsTry (hrp_bytes asked.now.hrp.now) asked.now.slips)
        (map (λ s. (string_bytes s.text, s.slips)) found.old.items)
        (level pass text.now fronts.now asked.now.slips)
        (map (λ s. (string_bytes s.text, s.slips)) found.new.items)) }
{
    for i in 0..fronts.len() {
        let front = front_at(fronts, i);
        push_front(alloc, pass, right, text, front, asked, found)?;
    }
    Ok(())
}
