//! Human-readable parts.

use crate::tests::compare::{same, same_items};
use bech32::primitives::hrp::{BC, Error, Hrp};
use std::alloc::{AllocError, Global};
use std::process::Abort;

// The characters of a part, in lower case.
fn lowered(alloc: Global, hrp: &Hrp) -> Result<Vec<char>, AllocError> {
    hrp.lowercase_char_iter().collect(alloc)
}

fn human_readable_parts(rt: &impl Abort, alloc: Global) {
    let upper = Hrp::parse("BC").expect(rt, "a human-readable part");
    // Two that differ in case alone are equal; each keeps its own.
    same(rt, &(upper, upper.as_str()), &(BC, "BC"));
    let lower = lowered(alloc, &upper).expect(rt, "memory");
    same_items(rt, &lower, &['b', 'c']);
    let networks = [upper.is_valid_on_mainnet(), upper.is_valid_on_testnet()];
    same(rt, &networks, &[true, false]);
}

#[test]
fn parts_of_texts(rt: HostRuntime) {
    human_readable_parts(&rt, rt.alloc());
    let refusals = ["", "a b", "aB"].map(|text| Hrp::parse(text).err());
    let want = [
        Some(Error::Empty),
        Some(Error::InvalidAsciiByte(0x20)),
        Some(Error::MixedCase),
    ];
    same(&rt, &refusals, &want);
}
