use crate::tests::compare::{is_right_or_wants_memory, same};
use bech32::{Bech32, Bech32m, Checksum, DecodeError, Hrp, decode, decode_in, encode};
use linked_list_allocator::LocalHeap;
use std::alloc::Global;
use testing_tools::heaps::InHeap;

// A known text has the part `test` and 20 bytes. A text that is not accepted is refused on a heap
// as elsewhere.
struct KnownParts;

const TEXT: &str = "test1lu08d6qejxtdg4y5r3zarvary0c5xw7kmz4lky";

impl InHeap for KnownParts {
    fn is_right(&self, alloc: Global, heap: &LocalHeap) -> Option<bool> {
        if decode_in(heap, "a12uel5q").err() != decode(alloc, "a12uel5q").err() {
            return Some(false);
        }
        match decode_in(heap, TEXT) {
            Ok((hrp, bytes)) => Some(hrp.as_str() == "test" && bytes.len() == 20),
            Err(DecodeError::Memory) => None,
            Err(_) => Some(false),
        }
    }
}

#[test]
fn decodes_or_wants_memory(rt: HostRuntime) {
    is_right_or_wants_memory(&rt, rt.alloc(), &KnownParts);
}

// Whether a text is decoded to these bytes under `a`.
fn is_decoded(alloc: Global, text: &str, data: &[u8]) -> bool {
    match decode(alloc, text) {
        Ok((hrp, bytes)) => hrp.as_str() == "a" && bytes.as_slice() == data,
        Err(_) => false,
    }
}

// Whether the text of bytes by a checksum is decoded to them.
fn comes_back<Ck: Checksum>(alloc: Global, hrp: Hrp, data: &[u8]) -> bool {
    match encode::<Ck>(alloc, hrp, data) {
        Ok(text) => is_decoded(alloc, &text, data),
        Err(_) => false,
    }
}

// How many numbers of these bytes, from none on, have texts by a checksum that are decoded to them.
fn come_back<Ck: Checksum>(alloc: Global, hrp: Hrp, bytes: &[u8]) -> usize {
    for size in 0..=bytes.len() {
        if !comes_back::<Ck>(alloc, hrp, &bytes[..size]) {
            return size;
        }
    }
    bytes.len().saturating_add(1)
}

// As many bytes as fit the code after a part of one character.
#[test]
fn decodes_every_length(rt: HostRuntime) {
    let hrp = Hrp::parse("a").expect(&rt, "a human-readable part");
    let bytes = [0xa5u8; 634];
    let found = [
        come_back::<Bech32>(rt.alloc(), hrp, &bytes),
        come_back::<Bech32m>(rt.alloc(), hrp, &bytes),
    ];
    same(&rt, &found, &[635; 2]);
}
