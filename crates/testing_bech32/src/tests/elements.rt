use crate::tests::compare::is_right_or_wants_memory;
use bech32::{
    Bech32, Bech32m, Checksum, ElementsError, Hrp, TextError, decode_elements, decode_strict,
    encode_elements,
};
use linked_list_allocator::LocalHeap;
use std::alloc::Global;
use testing_tools::heaps::InHeap;

// A text by Bech32m, its elements, and one by Bech32 that is the only one of its bytes.
const TEXT: &str = "abcdef1l7aum6echk45nj3s0wdvt2fg8x9yrzpqzd3ryx";

const ELEMENTS: &[u8] = &[
    31, 30, 29, 28, 27, 26, 25, 24, 23, 22, 21, 20, 19, 18, 17, 16, 15, 14, 13, 12, 11, 10, 9, 8,
    7, 6, 5, 4, 3, 2, 1, 0,
];

const KEY: &str = "npub10elfcs4fr0l0r8af98jlmgdh9c8tcxjvz9qkw038js35mp4dma8qzvjptg";

// Calls on a heap: what is decoded of the only text of its bytes, and of elements, and the text of
// these.
enum OnHeap {
    OnlyText,
    Elements,
    TextOfElements,
}

// What is right of a refusal: nothing, unless there was too little memory.
fn unless_memory(error: TextError) -> Option<bool> {
    match error {
        TextError::Memory => None,
        _ => Some(false),
    }
}

// Whether this part and so many items were decoded.
fn has_items(
    found: Result<(Hrp, Vec<u8, &LocalHeap>), TextError>,
    part: &str,
    count: usize,
) -> Option<bool> {
    match found {
        Ok((hrp, items)) => Some(hrp.as_str() == part && items.len() == count),
        Err(error) => unless_memory(error),
    }
}

// Whether the text was written.
fn is_text(made: Result<String<&LocalHeap>, ElementsError>) -> Option<bool> {
    match made {
        Ok(text) => Some(text.as_str() == TEXT),
        Err(ElementsError::Memory) => None,
        Err(_) => Some(false),
    }
}

// Whether a call by a checksum is right.
fn is_right_by<Ck: Checksum>(call: &OnHeap, heap: &LocalHeap, hrp: Hrp) -> Option<bool> {
    match call {
        OnHeap::OnlyText => has_items(decode_strict::<Ck, &LocalHeap>(heap, KEY), "npub", 32),
        OnHeap::Elements => {
            has_items(decode_elements::<Ck, &LocalHeap>(heap, TEXT), "abcdef", 32)
        }
        OnHeap::TextOfElements => {
            is_text(encode_elements::<Ck, &LocalHeap>(heap, hrp, ELEMENTS))
        }
    }
}

impl InHeap for OnHeap {
    fn is_right(&self, _alloc: Global, heap: &LocalHeap) -> Option<bool> {
        let Ok(hrp) = Hrp::parse("abcdef") else {
            return Some(false);
        };
        match self {
            OnHeap::OnlyText => is_right_by::<Bech32>(self, heap, hrp),
            _ => is_right_by::<Bech32m>(self, heap, hrp),
        }
    }
}

const CALLS: &[OnHeap] = &[OnHeap::OnlyText, OnHeap::Elements, OnHeap::TextOfElements];

#[test]
fn elements_or_wants_memory(rt: HostRuntime) {
    for call in CALLS {
        is_right_or_wants_memory(&rt, rt.alloc(), call);
    }
}
