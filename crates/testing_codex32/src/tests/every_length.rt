//! The nearest codex32 string, at every length, with ample memory: never out of memory.

use crate::tests::compare::same;
use bech32::{Checksum, Hrp, encode_elements};
use codex32::{Codex32, LongCodex32, propose, propose_long};
use std::alloc::{AllocError, Global};
use std::process::Abort;

// The first of these are the elements of a string, in front of its checksum: each is an `x`.
const ELEMENTS: &[u8] = &[6; 109];

// The string of these elements.
fn string_of<Ck: Checksum>(rt: &impl Abort, alloc: Global, elements: &[u8]) -> String {
    let hrp = Hrp::parse("ms").expect(rt, "a human-readable part");
    encode_elements::<Ck, _>(alloc, hrp, elements).expect(rt, "a string")
}

// The same with an `x` in place of its last character, or a `q`.
fn mistyped(alloc: Global, text: &str) -> Result<String, AllocError> {
    let last = if text.ends_with('x') { 'q' } else { 'x' };
    let front = text.get(..text.len().saturating_sub(1)).unwrap_or("");
    format!(in alloc; "{front}{last}")
}

// The text that is proposed for a mistyped one.
fn proposed(rt: &impl Abort, alloc: Global, mistyped: &str, is_long: bool) -> String {
    let nearest = if is_long {
        propose_long(alloc, mistyped)
    } else {
        propose(alloc, mistyped)
    };
    nearest
        .expect(rt, "it is refused")
        .expect(rt, "nothing is proposed")
}

// Fails where the string of some number of elements in a range is not proposed for a mistyped one,
// or has another length.
fn each_is_proposed<Ck: Checksum>(
    rt: &impl Abort,
    alloc: Global,
    (least, most): (usize, usize),
    beside: usize,
    is_long: bool,
) {
    for count in least..=most {
        let elements = ELEMENTS.get(..count).expect(rt, "elements");
        let text = string_of::<Ck>(rt, alloc, elements);
        let mistyped = mistyped(alloc, &text).expect(rt, "memory");
        let nearest = proposed(rt, alloc, &mistyped, is_long);
        let found = (text.len(), nearest.as_str());
        same(rt, &found, &(count.saturating_add(beside), text.as_str()));
    }
}

// 48 to 93 characters, and 125 to 127.
#[test]
fn strings_of_every_length(rt: HostRuntime) {
    each_is_proposed::<Codex32>(&rt, rt.alloc(), (32, 77), 16, false);
    each_is_proposed::<LongCodex32>(&rt, rt.alloc(), (107, 109), 18, true);
}
