//! Encoding and decoding, and texts of a stated checksum.

use crate::tests::compare::{same, same_items};
use bech32::primitives::decode::{CheckedHrpstring, SegwitHrpstring, UncheckedHrpstring};
use bech32::{
    Bech32, Bech32m, Checksum, Hrp, NoChecksum, decode, encode, encode_to_fmt, hrp, segwit,
};
use std::alloc::Global;
use std::process::Abort;

const DATA: [u8; 20] = [0xab; 20];

const STRING: &str = "abc14w46h2at4w46h2at4w46h2at4w46h2at958ngu";

const TAP_ADDR: &str = "bc1p4w46h2at4w46h2at4w46h2at4w46h2at5kreae";

// The human-readable part `abc`.
fn abc(rt: &impl Abort) -> Hrp {
    Hrp::parse("abc").expect(rt, "part")
}

fn encoding(rt: &impl Abort, alloc: Global) {
    let string = encode::<Bech32m>(alloc, abc(rt), &DATA);
    same(rt, &string.expect(rt, "text").as_str(), &STRING);
    let mut buf = String::new(alloc);
    let outcome = encode_to_fmt::<Bech32m, String>(&mut buf, abc(rt), &DATA);
    same(rt, &(outcome, buf.as_str()), &(Ok(()), STRING));
}

fn decoding(rt: &impl Abort, alloc: Global) {
    let p = CheckedHrpstring::new::<Bech32m>(STRING).expect(rt, "text");
    let of_reader: Vec<u8> = p.byte_iter().collect(alloc).expect(rt, "memory");
    same_items(rt, of_reader.as_slice(), DATA.as_slice());
    let (hrp, data) = decode(alloc, STRING).expect(rt, "text");
    same_items(rt, &[hrp, p.hrp()], &[abc(rt); 2]);
    same_items(rt, data.as_slice(), DATA.as_slice());
}

fn encoding_and_decoding_addresses(rt: &impl Abort, alloc: Global) {
    let taproot_address = segwit::encode(alloc, hrp::BC, segwit::VERSION_1, &DATA);
    same(
        rt,
        &taproot_address.expect(rt, "address").as_str(),
        &TAP_ADDR,
    );
    let (_hrp, _version, program) = segwit::decode(alloc, TAP_ADDR).expect(rt, "address");
    same_items(rt, program.as_slice(), DATA.as_slice());
    let taproot = SegwitHrpstring::new(TAP_ADDR).expect(rt, "address");
    let of_address: Vec<u8> = taproot.byte_iter().collect(alloc).expect(rt, "memory");
    same_items(rt, of_address.as_slice(), DATA.as_slice());
}

// Whether a checksum accepts a text.
fn is_accepted_by<Ck: Checksum>(text: &str) -> bool {
    CheckedHrpstring::new::<Ck>(text).is_ok()
}

// Whether the characters of a text may stand so, and who accepts it: `decode`, for which Bech32m or
// Bech32 has to; Bech32; Bech32m; the absence of a checksum; the reader of addresses.
fn accepted(alloc: Global, text: &str) -> [bool; 6] {
    [
        UncheckedHrpstring::new(text).is_ok(),
        decode(alloc, text).is_ok(),
        is_accepted_by::<Bech32>(text),
        is_accepted_by::<Bech32m>(text),
        is_accepted_by::<NoChecksum>(text),
        SegwitHrpstring::new(text).is_ok(),
    ]
}

// A text by Bech32, one by Bech32m, and one without a checksum; one whose checksum is wrong, one by
// Bech32 with other data, and an address.
const TEXTS: &[(&str, [bool; 6])] = &[
    (
        "abc14w46h2at4w46h2at4w46h2at4w46h2atsghld7",
        [true, true, true, false, true, false],
    ),
    (STRING, [true, true, false, true, true, false]),
    (
        "abc14w46h2at4w46h2at4w46h2at4w46h2at",
        [true, false, false, false, true, false],
    ),
    (
        "abcd143hj65vxw49rts6kcw35u6r6tgzguyr03vvveeewjqpn05efzq444444",
        [true, false, false, false, true, false],
    ),
    (
        "abcd14g08d6qejxtdg4y5r3zarvary0c5xw7kxugcx9",
        [true, true, true, false, true, false],
    ),
    (
        "bc1pdp43hj65vxw49rts6kcw35u6r6tgzguyr03vvveeewjqpn05efzq7un9w0",
        [true, true, false, true, true, true],
    ),
];

fn what_accepts_each_text(rt: &impl Abort, alloc: Global) {
    for &(text, want) in TEXTS {
        same(rt, &(text, accepted(alloc, text)), &(text, want));
    }
}

#[test]
fn texts_and_addresses(rt: HostRuntime) {
    encoding(&rt, rt.alloc());
    decoding(&rt, rt.alloc());
    encoding_and_decoding_addresses(&rt, rt.alloc());
    what_accepts_each_text(&rt, rt.alloc());
}
