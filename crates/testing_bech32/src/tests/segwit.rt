use crate::tests::compare::{is_right_or_wants_memory, same};
use bech32_decode::SegwitHrpstringError;
use bech32_gf::gf32::Fe32;
use bech32_hrp as hrp;
use bech32_segwit::{
    DecodeError, EncodeError, VERSION_0, VERSION_1, decode, decode_in, encode, encode_in,
    encode_v0_in, encode_v1_in,
};
use linked_list_allocator::LocalHeap;
use std::alloc::Global;
use testing_tools::heaps::InHeap;

// Addresses of 20 bytes (BIP-173, BIP-350).
const PROGRAM: [u8; 20] = [
    0x75, 0x1e, 0x76, 0xe8, 0x19, 0x91, 0x96, 0xd4, 0x54, 0x94, 0x1c, 0x45, 0xd1, 0xb3, 0xa3, 0x23,
    0xf1, 0x43, 0x3b, 0xd6,
];

const ADDRESS: &str = "bc1qw508d6qejxtdg4y5r3zarvary0c5xw7kv8f3t4";

const TAPROOT: &str = "bc1p4w46h2at4w46h2at4w46h2at4w46h2at5kreae";

// Whether this text was made; `None` where there is too little memory.
fn is_text(made: Result<String<&LocalHeap>, EncodeError>, want: &str) -> Option<bool> {
    match made {
        Ok(text) => Some(text.as_str() == want),
        Err(EncodeError::Memory) => None,
        Err(_) => Some(false),
    }
}

// Whether the parts of a known address are decoded. What is not an address is refused on a heap as
// elsewhere.
fn has_parts(alloc: Global, heap: &LocalHeap) -> Option<bool> {
    if decode_in(heap, "a1").err() != decode(alloc, "a1").err() {
        return Some(false);
    }
    match decode_in(heap, ADDRESS) {
        Ok((hrp, version, program)) => {
            let front = (hrp.as_str(), version);
            Some(front == ("bc", VERSION_0) && program.as_slice() == PROGRAM.as_slice())
        }
        Err(DecodeError(SegwitHrpstringError::Memory)) => None,
        Err(_) => Some(false),
    }
}

// Known addresses, each by another call.
enum Known {
    OfAnyVersion,
    OfVersion0,
    OfVersion1,
    Parts,
}

impl InHeap for Known {
    fn is_right(&self, alloc: Global, heap: &LocalHeap) -> Option<bool> {
        match self {
            Known::OfAnyVersion => is_text(encode_in(heap, hrp::BC, VERSION_0, &PROGRAM), ADDRESS),
            Known::OfVersion0 => is_text(encode_v0_in(heap, hrp::BC, &PROGRAM), ADDRESS),
            Known::OfVersion1 => is_text(encode_v1_in(heap, hrp::BC, &[0xab; 20]), TAPROOT),
            Known::Parts => has_parts(alloc, heap),
        }
    }
}

const CALLS: &[Known] = &[
    Known::OfAnyVersion,
    Known::OfVersion0,
    Known::OfVersion1,
    Known::Parts,
];

#[test]
fn addresses_or_out_of_memory(rt: HostRuntime) {
    for call in CALLS {
        is_right_or_wants_memory(&rt, rt.alloc(), call);
    }
}

// Whether an address is decoded to this version and program.
fn is_decoded(alloc: Global, text: &str, version: Fe32, program: &[u8]) -> bool {
    match decode(alloc, text) {
        Ok((_, found, bytes)) => found == version && bytes.as_slice() == program,
        Err(_) => false,
    }
}

// Whether the address of a program is decoded to it.
fn comes_back(alloc: Global, version: Fe32, program: &[u8]) -> bool {
    match encode(alloc, hrp::BC, version, program) {
        Ok(text) => is_decoded(alloc, &text, version, program),
        Err(_) => false,
    }
}

// How many bytes have an address of a version that is decoded to them, the first so many of these.
fn come_back(alloc: Global, version: Fe32, bytes: &[u8]) -> usize {
    let mut count = 0usize;
    for size in 0..=bytes.len() {
        if comes_back(alloc, version, &bytes[..size]) {
            count = count.saturating_add(1);
        }
    }
    count
}

// Two lengths have addresses of version 0, those from 2 to 40 of the others.
#[test]
fn decodes_programs_of_every_length(rt: HostRuntime) {
    let bytes = [0xa5u8; 41];
    let found = [
        come_back(rt.alloc(), VERSION_0, &bytes),
        come_back(rt.alloc(), VERSION_1, &bytes),
        come_back(rt.alloc(), Fe32::S, &bytes),
    ];
    same(&rt, &found, &[2, 39, 39]);
}
