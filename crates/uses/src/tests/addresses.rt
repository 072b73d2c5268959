//! Segwit addresses.

use crate::callers::in_lower_case;
use crate::tests::compare::same;
use bech32::{Fe32, hrp, segwit};
use std::alloc::Global;
use std::process::Abort;

// A program of BIP-173 with its addresses in the main network and in the test network.
const WITNESS_PROG: [u8; 20] = [
    0x75, 0x1e, 0x76, 0xe8, 0x19, 0x91, 0x96, 0xd4, 0x54, 0x94, 0x1c, 0x45, 0xd1, 0xb3, 0xa3, 0x23,
    0xf1, 0x43, 0x3b, 0xd6,
];

const MAIN: &str = "bc1qw508d6qejxtdg4y5r3zarvary0c5xw7kv8f3t4";

const TEST: &str = "tb1qw508d6qejxtdg4y5r3zarvary0c5xw7kxpjzsx";

const TAPROOT: &str = "bc1p4w46h2at4w46h2at4w46h2at4w46h2at5kreae";

// Fails where there is no address, or another one.
fn is_address(rt: &impl Abort, made: Result<String, segwit::EncodeError>, want: &str) {
    same(rt, &made.expect(rt, "an address").as_str(), &want);
}

fn addresses_of_each_version(rt: &impl Abort, alloc: Global) {
    let taproot = segwit::encode_v1(alloc, hrp::BC, &[0xab; 20]);
    is_address(rt, taproot, TAPROOT);
    let test = segwit::encode_v0(alloc, hrp::TB, &WITNESS_PROG);
    is_address(rt, test, TEST);
    let main = segwit::encode(alloc, hrp::BC, segwit::VERSION_0, &WITNESS_PROG);
    is_address(rt, main, MAIN);
}

fn an_address_in_lower_case(rt: &impl Abort, alloc: Global) {
    let again = in_lower_case(alloc, "BC1QW508D6QEJXTDG4Y5R3ZARVARY0C5XW7KV8F3T4");
    same(rt, &again.expect(rt, "an address").as_str(), &MAIN);
}

// Addresses of the main network with a program of 32 bytes, each with its version.
const ADDRESSES: [(&str, Fe32); 2] = [
    (
        "bc1q2s3rjwvam9dt2ftt4sqxqjf3twav0gdx0k0q2etxflx38c3x8tnssdmnjq",
        segwit::VERSION_0,
    ),
    (
        "bc1py3m7vwnghyne9gnvcjw82j7gqt2rafgdmlmwmqnn3hvcmdm09rjqcgrtxs",
        segwit::VERSION_1,
    ),
];

fn parts_of_addresses(rt: &impl Abort, alloc: Global) {
    for &(address, version) in ADDRESSES.iter() {
        let (hrp, witness_version, witness_program) = segwit::decode(alloc, address).expect(
            rt,
            "an address",
        );
        let found = (hrp, witness_version, witness_program.len());
        same(rt, &found, &(hrp::BC, version, 32));
    }
}

#[test]
fn segwit_addresses(rt: HostRuntime) {
    addresses_of_each_version(&rt, rt.alloc());
    an_address_in_lower_case(&rt, rt.alloc());
    parts_of_addresses(&rt, rt.alloc());
}
