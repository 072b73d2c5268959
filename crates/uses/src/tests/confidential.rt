//! Confidential addresses of Liquid.

use crate::tests::compare::{each_prints, same};
use bech32::primitives::decode::{CharError, ChecksumError, PaddingError, UncheckedHrpstringError};
use bech32::primitives::segwit::WitnessLengthError;
use bech32::{Correction, Fe32, Mended, correct};
use liquid::{Blech32, DecodeError, EncodeError, KEY_LENGTH, decode, encode};
use std::alloc::Global;
use std::process::Abort;

// An address, its blinding key, and its program.
const ADDRESS: &str =
    "lq1qqf8er278e6nyvuwtgf39e6ewvdcnjupn9a86rzpx655y5lhkt0walu3djf9cklkxd3ryld97hu8h3xepw7sh2rlu7q45dcew5";

const PROGRAM: [u8; 20] = [
    0xf2, 0x2d, 0x92, 0x4b, 0x8b, 0x7e, 0xc6, 0x6c, 0x46, 0x4f, 0xb4, 0xbe, 0xbf, 0x0f, 0x78, 0x9b,
    0x21, 0x77, 0xa1, 0x75,
];

fn an_address_both_ways(rt: &impl Abort, alloc: Global) {
    let address = decode(ADDRESS).expect(rt, "an address");
    let hrp = address.hrp();
    let found = (hrp.as_str(), address.witness_version(), address.program());
    same(rt, &found, &("lq", Fe32::Q, PROGRAM.as_slice()));
    let mut key = [0u8; 33];
    same(rt, &address.blinding_key().len(), &KEY_LENGTH);
    key.copy_from_slice(address.blinding_key());
    let text = encode(alloc, hrp, Fe32::Q, &key, &PROGRAM).expect(rt, "memory");
    same(rt, &text.as_str(), &ADDRESS);
}

// How Blech32 corrects a text.
fn corrected(alloc: Global, text: &str) -> Option<Mended> {
    match correct::<Blech32, _>(alloc, text, &[]) {
        Ok(Correction::Mended(mended)) => Some(mended),
        _ => None,
    }
}

fn an_address_mended(rt: &impl Abort, alloc: Global) {
    let mistyped =
        "lq1qqf8er278e6nyvuwtgf39e6ewvdcnjupn9a86rzpx655y5lhkt0wajuqdjf9cklkxd3ryld97hu8h3xepw7sh2rlu7q45dcewq";
    let mended = corrected(alloc, mistyped).expect(rt, "a correction");
    same(rt, &mended.text.as_str(), &ADDRESS);
}

// What is wrong with a text, and how it is told.
const NOT_DECODED: [(DecodeError, &str); 8] = [
    (
        DecodeError::Unchecked(UncheckedHrpstringError::Char(CharError::MissingSeparator)),
        "character error: missing human-readable separator, \"1\"",
    ),
    (DecodeError::NoData, "no witness version"),
    (
        DecodeError::InvalidWitnessVersion(Fe32::_3),
        "invalid witness version: 17",
    ),
    (
        DecodeError::UnsupportedVersion(Fe32::P),
        "witness version not supported: 1",
    ),
    (
        DecodeError::Checksum(ChecksumError::InvalidLength),
        "the checksummed string is not a valid length",
    ),
    (
        DecodeError::Padding(PaddingError::TooMuch),
        "the data payload has too many bits of padding",
    ),
    (DecodeError::NoBlindingKey, "no blinding key"),
    (
        DecodeError::WitnessLength(WitnessLengthError::TooShort),
        "witness program is less than 2 bytes long",
    ),
];

// The same of what an address is to be made of.
const NOT_ENCODED: [(EncodeError, &str); 4] = [
    (
        EncodeError::WitnessVersion(Fe32::_3),
        "invalid witness version: 17",
    ),
    (
        EncodeError::UnsupportedVersion(Fe32::P),
        "witness version not supported: 1",
    ),
    (
        EncodeError::WitnessLength(WitnessLengthError::TooShort),
        "witness program is less than 2 bytes long",
    ),
    (EncodeError::Memory, "out of memory"),
];

fn what_is_wrong_with_an_address(rt: &impl Abort, alloc: Global) {
    each_prints(rt, alloc, &NOT_DECODED);
    each_prints(rt, alloc, &NOT_ENCODED);
}

#[test]
fn confidential_addresses(rt: HostRuntime) {
    an_address_both_ways(&rt, rt.alloc());
    an_address_mended(&rt, rt.alloc());
    what_is_wrong_with_an_address(&rt, rt.alloc());
}
