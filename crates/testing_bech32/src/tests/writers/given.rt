//! What calls that write a text are given, one after another.

use super::forms::Given;
use super::known::{ADDRESS_PROGRAM, LONG_PART};
use bech32::Hrp;
use bech32::hrp::BC;
use bech32::segwit::{VERSION_0, VERSION_1};
use std::process::Abort;

/// The human-readable part of a text.
pub fn part(rt: &impl Abort, text: &str) -> Hrp {
    Hrp::parse(text).expect(rt, "a human-readable part")
}

/// What an address of 42 characters is of.
pub fn known_address() -> Given<'static> {
    Given {
        hrp: BC,
        version: VERSION_0,
        data: &ADDRESS_PROGRAM,
    }
}

/// What an address is of that is too long for any.
pub fn long_address(rt: &impl Abort) -> Given<'static> {
    Given {
        hrp: part(rt, LONG_PART),
        version: VERSION_1,
        data: &[0; 40],
    }
}
