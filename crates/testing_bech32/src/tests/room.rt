//! How much memory calls need: figures that were found by trying, and a little more.

use crate::tests::compare::same;
use crate::tests::every_length::{
    front_of, is_corrected, is_edited, is_near, length_if, mistyped, text_of,
};
use linked_list_allocator::LocalHeap;
use std::alloc::Global;

// A call that takes memory.
#[derive(Clone, Copy)]
enum Call {
    // Corrects a text with one wrong character.
    Correct,
    // Finds the text from which the last character is left out.
    Edits,
    // Finds the texts that differ in two characters.
    Nearest,
    // The same beside two erasures.
    NearestBesideErasures,
}

// Whether a call finds a text by the same with another character at its end.
fn finds(heap: &LocalHeap, call: Call, mistyped: &str, text: &str) -> bool {
    match call {
        Call::Correct => is_corrected(heap, mistyped, text),
        Call::Edits => is_edited(heap, front_of(text), text),
        Call::Nearest => is_near(heap, mistyped, text, &[], 2),
        Call::NearestBesideErasures => is_near(heap, mistyped, text, &[1, 2], 2),
    }
}

// Whether so much memory suffices.
fn suffices(alloc: Global, (call, bytes): (Call, usize), mistyped: &str, text: &str) -> bool {
    match LocalHeap::new(alloc, bytes) {
        Ok(heap) => finds(&heap, call, mistyped, text),
        Err(_) => false,
    }
}

// Whether the memory of each row suffices to find a text by the same with another last character.
fn each_suffices(alloc: Global, rows: &[(Call, usize)], mistyped: &str, text: &str) -> bool {
    for row in rows {
        if !suffices(alloc, *row, mistyped, text) {
            return false;
        }
    }
    true
}

// The same of a text alone.
fn all_suffice(alloc: Global, text: &str, rows: &[(Call, usize)]) -> bool {
    match mistyped(alloc, text) {
        Ok(mistyped) => each_suffices(alloc, rows, &mistyped, text),
        Err(_) => false,
    }
}

// Bytes of which the first ones are in a text.
fn bytes() -> [u8; 640] {
    [0xa5; 640]
}

// The length of the text of this many bytes under a part, if the memory of each row suffices for
// it.
fn length_of(alloc: Global, part: &str, count: usize, rows: &[(Call, usize)]) -> Option<usize> {
    match text_of(alloc, part, bytes().get(..count)?) {
        Some(text) => length_if(all_suffice(alloc, &text, rows), &text),
        None => None,
    }
}

// The memory of each call: the least that was found to suffice, and 64 bytes more.
fn rows(
    correct: usize,
    edits: usize,
    nearest: usize,
    beside_erasures: usize,
) -> [(Call, usize); 4] {
    [
        (Call::Correct, correct.saturating_add(64)),
        (Call::Edits, edits.saturating_add(64)),
        (Call::Nearest, nearest.saturating_add(64)),
        (
            Call::NearestBesideErasures,
            beside_erasures.saturating_add(64),
        ),
    ]
}

#[test]
fn little_memory_suffices(rt: HostRuntime) {
    let alloc = rt.alloc();
    let found = [
        length_of(alloc, "a", 21, &rows(48, 304, 768, 12768)),
        length_of(alloc, "bc", 33, &rows(64, 320, 784, 18256)),
        length_of(alloc, "a", 51, &rows(96, 352, 816, 27680)),
        // Beside erasures this would take long.
        length_of(alloc, "a", 620, &rows(1008, 1264, 1728, 0)[..3]),
    ];
    same(&rt, &found, &[Some(42), Some(62), Some(90), Some(1000)]);
}
