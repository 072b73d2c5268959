//! The bytes and characters of a human-readable part, from either end.

use crate::of_parts::turns::hint_shown;
use bech32_hrp::{ByteIter, CharIter, Hrp, LowercaseByteIter, LowercaseCharIter};
use std::alloc::{AllocError, Global};
use testing_tools::rows::{no_row, word};

// The four iterators over a part.
#[derive(Drop)]
struct Four<'b> {
    bytes: ByteIter<'b>,
    chars: CharIter<'b>,
    lower_bytes: LowercaseByteIter<'b>,
    lower_chars: LowercaseCharIter<'b>,
}

// What the four give in one turn.
type Items = (Option<u8>, Option<char>, Option<u8>, Option<char>);

fn four_of(hrp: &Hrp) -> Four<'_> {
    Four {
        bytes: hrp.byte_iter(),
        chars: hrp.char_iter(),
        lower_bytes: hrp.lowercase_byte_iter(),
        lower_chars: hrp.lowercase_char_iter(),
    }
}

fn front(four: &mut Four<'_>) -> Items {
    (
        four.bytes.next(),
        four.chars.next(),
        four.lower_bytes.next(),
        four.lower_chars.next(),
    )
}

fn back(four: &mut Four<'_>) -> Items {
    (
        four.bytes.next_back(),
        four.chars.next_back(),
        four.lower_bytes.next_back(),
        four.lower_chars.next_back(),
    )
}

// How many items each of the four has left.
fn lengths(alloc: Global, four: &Four<'_>) -> Result<String, AllocError> {
    let (bytes, chars) = (four.bytes.len(), four.chars.len());
    let (lower_bytes, lower_chars) = (four.lower_bytes.len(), four.lower_chars.len());
    format!(in alloc; "{bytes} {chars} {lower_bytes} {lower_chars}")
}

// The same by their size hints.
fn hints(alloc: Global, four: &Four<'_>) -> Result<String, AllocError> {
    let bytes = hint_shown(alloc, four.bytes.size_hint())?;
    let chars = hint_shown(alloc, four.chars.size_hint())?;
    let lower_bytes = hint_shown(alloc, four.lower_bytes.size_hint())?;
    let lower_chars = hint_shown(alloc, four.lower_chars.size_hint())?;
    format!(in alloc; "{bytes} {chars} {lower_bytes} {lower_chars}")
}

// What the four give where there is an item, as texts.
fn items_shown(alloc: Global, items: Items) -> Result<String, AllocError> {
    match items {
        (Some(byte), Some(c), Some(lower_byte), Some(lower_c)) => {
            format!(in alloc; "{byte:x} {c} {lower_byte:x} {lower_c}")
        }
        (None, None, None, None) => String::from_str(alloc, "none"),
        _ => String::from_str(alloc, "some"),
    }
}

// What the four have left, and what they give in a turn at the back or at the front.
fn turn(alloc: Global, four: &mut Four<'_>, side: char) -> Result<String, AllocError> {
    let lengths = lengths(alloc, four)?;
    let hints = hints(alloc, four)?;
    let found = if side == 'b' { back(four) } else { front(four) };
    let items = items_shown(alloc, found)?;
    format!(in alloc; "|{lengths} {hints} {items}")
}

// What the four give in turns at these sides.
fn walked(alloc: Global, hrp: &Hrp, sides: &str) -> Result<String, AllocError> {
    let mut four = four_of(hrp);
    let mut text = String::new(alloc);
    for side in sides.chars() {
        let piece = turn(alloc, &mut four, side)?;
        text.push_str(&piece)?;
    }
    Ok(text)
}

/// What a row of a part and sides gives: for each side what the four iterators over the part have
/// left, and what they give there. A part of no characters is kept without a test.
pub fn reply(alloc: Global, words: &[&str]) -> Result<String, AllocError> {
    let text = word(words, 1);
    if text.len() > 83 {
        return no_row(alloc);
    }
    walked(alloc, &Hrp::parse_unchecked(text), word(words, 2))
}
