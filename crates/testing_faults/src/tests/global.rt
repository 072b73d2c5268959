//! Calls that take memory from `Global` alone. The test holds whichever request is refused:
//! `tools/refused` runs it so.

use crate::tests::compare::{same, same_items};
use bech32::primitives::iter::plain::{plain_to_bytes, plain_to_fes};
use bech32::{Fe32, Hrp};
use std::alloc::{AllocError, Global};
use std::process::Abort;
use testing_tools::plain::{PlainChecksum, accepts, encoded_text};

fn regroups(rt: &impl Abort, alloc: Global) {
    match plain_to_fes(alloc, &[0xab]) {
        Ok(fes) => same_items(rt, fes.as_slice(), &[Fe32::_4, Fe32::V]),
        Err(AllocError) => {}
    }
    match plain_to_bytes(alloc, &[Fe32::_4, Fe32::V]) {
        Ok(bytes) => same_items(rt, bytes.as_slice(), &[0xab]),
        Err(AllocError) => {}
    }
}

fn encodes_and_accepts(rt: &impl Abort, alloc: Global) {
    let hrp = Hrp::parse("a").expect(rt, "a human-readable part");
    match encoded_text(alloc, PlainChecksum::Bech32, &hrp, &[]) {
        Ok(text) => same_items(rt, text.as_slice(), b"a12uel5l"),
        Err(AllocError) => {}
    }
    for (text, want) in [("A12UEL5L", true), ("a12uel5q", false)] {
        match accepts(alloc, PlainChecksum::Bech32, text) {
            Ok(answer) => same(rt, &(text, answer), &(text, want)),
            Err(AllocError) => {}
        }
    }
}

#[test]
fn plain_definitions(rt: HostRuntime) {
    regroups(&rt, rt.alloc());
    encodes_and_accepts(&rt, rt.alloc());
}
