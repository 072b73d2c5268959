//! One character at a time, without memory.

use crate::tests::compare::{same_items, same_text};
use bech32::{Bech32, ByteIterExt, Fe32, Fe32IterExt, Hrp};
use std::alloc::{AllocError, Global};
use std::process::Abort;

const WITNESS_PROG: [u8; 20] = [
    0x75, 0x1e, 0x76, 0xe8, 0x19, 0x91, 0x96, 0xd4, 0x54, 0x94, 0x1c, 0x45, 0xd1, 0xb3, 0xa3, 0x23,
    0xf1, 0x43, 0x3b, 0xd6,
];

// The characters of an address of version 0.
fn characters(alloc: Global, hrp: &Hrp) -> Result<Vec<char>, AllocError> {
    let chars = WITNESS_PROG
        .iter()
        .copied()
        .bytes_to_fes()
        .with_checksum::<Bech32>(hrp)
        .with_witness_version(Fe32::Q)
        .chars();
    chars.collect(alloc)
}

fn characters_of_an_address(rt: &impl Abort, alloc: Global) {
    let hrp = Hrp::parse("bc").expect(rt, "a human-readable part");
    let addr = characters(alloc, &hrp).expect(rt, "memory");
    let want = "bc1qw508d6qejxtdg4y5r3zarvary0c5xw7kv8f3t4";
    same_text(rt, alloc, &addr, want);
}

// Bytes as elements, and these as bytes again.
fn there_and_back(alloc: Global, bytes: &[u8]) -> Result<Vec<u8>, AllocError> {
    let fe_iter = bytes.iter().copied().bytes_to_fes();
    fe_iter.fes_to_bytes().collect(alloc)
}

fn bytes_to_elements_and_back(rt: &impl Abort, alloc: Global) {
    let data = there_and_back(alloc, &WITNESS_PROG).expect(rt, "memory");
    same_items(rt, &data, &WITNESS_PROG);
}

#[test]
fn one_character_at_a_time(rt: HostRuntime) {
    characters_of_an_address(&rt, rt.alloc());
    bytes_to_elements_and_back(&rt, rt.alloc());
}
