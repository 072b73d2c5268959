//! Texts and addresses of every length, behind every human-readable part, of each version, and cut.

use super::bytes::is_taken;
use super::forms::{FORMS, Given};
use super::given::{long_address, part};
use super::known::{LONGEST_PART, PROGRAM, data};
use super::texts::each_call_fails;
use bech32::Fe32;
use bech32::hrp::BC;
use bech32::segwit::{VERSION_0, VERSION_1};
use std::alloc::Global;
use std::process::Abort;

// Fails where a form does not write all that it is given to a writer with room for it, byte by byte
// and at once, or goes on or tells otherwise where a call fails.
fn each_form_writes(rt: &impl Abort, alloc: Global, given: &Given<'_>) {
    for form in FORMS {
        is_taken(rt, alloc, form, given);
        each_call_fails(rt, alloc, form, given);
    }
}

// The same of so many bytes, from none to as many as have room.
fn at_each_length(rt: &impl Abort, alloc: Global) {
    let (hrp, data) = (part(rt, "abcd"), data());
    for size in 0..=data.len() {
        let given = Given {
            hrp,
            version: VERSION_1,
            data: &data[..size],
        };
        each_form_writes(rt, alloc, &given);
    }
}

// The same behind a human-readable part of each length.
fn behind_each_part(rt: &impl Abort, alloc: Global) {
    for size in 1..=LONGEST_PART.len() {
        let front = LONGEST_PART.get(..size).expect(rt, "so many characters");
        let given = Given {
            hrp: part(rt, front),
            version: VERSION_0,
            data: &PROGRAM,
        };
        each_form_writes(rt, alloc, &given);
    }
}

// The same of each version.
fn at_each_version(rt: &impl Abort, alloc: Global) {
    for version in Fe32::iter_alpha() {
        let given = Given {
            hrp: BC,
            version,
            data: &PROGRAM,
        };
        each_form_writes(rt, alloc, &given);
    }
}

#[test]
fn every_piece_may_fail(rt: HostRuntime) {
    let alloc = rt.alloc();
    at_each_length(&rt, alloc);
    behind_each_part(&rt, alloc);
    at_each_version(&rt, alloc);
    each_form_writes(&rt, alloc, &long_address(&rt));
}
