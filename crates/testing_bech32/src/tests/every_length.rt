//! Calls that take memory, at every length of a text, with ample memory: none is out of memory.

use crate::tests::compare::same;
use bech32::{
    Bech32, CorrectError, Correction, Hrp, Mended, NearEdit, NearTexts, correct, decode, encode,
    near_edits, nearest,
};
use linked_list_allocator::LocalHeap;
use std::alloc::{AllocError, Global};

// Bytes of which the first ones are in a text.
fn bytes() -> [u8; 80] {
    [0xa5; 80]
}

/// The text of bytes under a human-readable part.
pub fn text_of(alloc: Global, part: &str, bytes: &[u8]) -> Option<String> {
    encode::<Bech32>(alloc, Hrp::parse(part).ok()?, bytes).ok()
}

/// The text without its last character.
pub fn front_of(text: &str) -> &str {
    text.get(..text.len().saturating_sub(1)).unwrap_or("")
}

/// The text with another character at its end.
pub fn mistyped(alloc: Global, text: &str) -> Result<String, AllocError> {
    let last = if text.ends_with('q') { 'p' } else { 'q' };
    let front = front_of(text);
    format!(in alloc; "{front}{last}")
}

// Whether a text has these bytes under this part.
fn is_decoded(alloc: Global, text: &str, part: &str, bytes: &[u8]) -> bool {
    match decode(alloc, text) {
        Ok((hrp, found)) => hrp.as_str() == part && found.as_slice() == bytes,
        Err(_) => false,
    }
}

// Whether a call mended a text to this one.
fn mends<C>(said: &Result<Correction<Mended<&LocalHeap>, C>, CorrectError>, text: &str) -> bool {
    match said {
        Ok(Correction::Mended(mended)) => mended.text.as_str() == text,
        _ => false,
    }
}

/// Whether a mistyped text is corrected to this one, with the memory of a heap.
pub fn is_corrected(heap: &LocalHeap, mistyped: &str, text: &str) -> bool {
    mends(&correct::<Bech32, &LocalHeap>(heap, mistyped, &[]), text)
}

// Whether this text is among mended ones.
fn is_among(found: &[Mended<&LocalHeap>], text: &str) -> bool {
    for mended in found {
        if mended.text.as_str() == text {
            return true;
        }
    }
    false
}

// Whether a call lists this text.
fn lists<C: Drop>(
    said: Result<NearTexts<Vec<Mended<&LocalHeap>, &LocalHeap>, C>, CorrectError>,
    text: &str,
) -> bool {
    match said {
        Ok(near) => is_among(near.texts.as_slice(), text),
        Err(_) => false,
    }
}

/// Whether this text is among those within this many errors of a mistyped one, outside erasures.
pub fn is_near(
    heap: &LocalHeap,
    mistyped: &str,
    text: &str,
    erasures: &[usize],
    errors: usize,
) -> bool {
    let near = nearest::<Bech32, &LocalHeap>(heap, mistyped, erasures, errors);
    lists(near, text)
}

// Whether this text is among those that edits make.
fn is_made(found: &[NearEdit<String<&LocalHeap>>], text: &str) -> bool {
    for near in found {
        if near.text.as_str() == text {
            return true;
        }
    }
    false
}

/// Whether one edit makes this text of another.
pub fn is_edited(heap: &LocalHeap, edited: &str, text: &str) -> bool {
    match near_edits::<Bech32, &LocalHeap>(heap, edited) {
        Ok(near) => is_made(near.as_slice(), text),
        Err(_) => false,
    }
}

// Whether a text is found by each call that takes memory.
fn is_found_by(heap: &LocalHeap, mistyped: &str, text: &str) -> bool {
    is_corrected(heap, mistyped, text)
        && is_near(heap, mistyped, text, &[], 1)
        && is_edited(heap, front_of(text), text)
}

// The same of a text mistyped at its end.
fn is_found_in(alloc: Global, heap: &LocalHeap, text: &str) -> bool {
    match mistyped(alloc, text) {
        Ok(mistyped) => is_found_by(heap, &mistyped, text),
        Err(_) => false,
    }
}

// The same with ample memory.
fn is_found(alloc: Global, text: &str) -> bool {
    match LocalHeap::new(alloc, 1 << 16) {
        Ok(heap) => is_found_in(alloc, &heap, text),
        Err(_) => false,
    }
}

/// The length of a text, if all is right with it.
pub fn length_if(is_right: bool, text: &str) -> Option<usize> {
    if is_right { Some(text.len()) } else { None }
}

// The length of the text of bytes, if each call that takes memory gives what it should.
fn length_of(alloc: Global, part: &str, bytes: &[u8]) -> Option<usize> {
    match text_of(alloc, part, bytes) {
        Some(text) => length_if(
            is_decoded(alloc, &text, part, bytes) && is_found(alloc, &text),
            &text,
        ),
        None => None,
    }
}

// At how many numbers of bytes, from none on, that is so, and the length of the longest text.
fn lengths(alloc: Global, part: &str, bytes: &[u8]) -> (usize, Option<usize>) {
    let mut longest = None;
    for count in 0..bytes.len() {
        let Some(length) = length_of(alloc, part, &bytes[..count]) else {
            return (count, longest);
        };
        longest = Some(length);
    }
    (bytes.len(), longest)
}

// With parts of one and two characters each length from 8 to 136 occurs.
#[test]
fn texts_of_every_length(rt: HostRuntime) {
    let bytes = bytes();
    same(&rt, &lengths(rt.alloc(), "a", &bytes), &(80, Some(135)));
    same(&rt, &lengths(rt.alloc(), "bc", &bytes), &(80, Some(136)));
}
