//! The calls on strings and their parts, each once. The stored run of `c32` has their values.

use crate::tests::compare::same;
use bech32_gf::gf32::Fe32;
use codex32::{DeriveError, Header, Identifier, Share, Threshold, derive, encode, recover};
use std::alloc::Global;
use std::process::Abort;

// Two shares of BIP-93, one that they give, and their secret.
const A: &str = "MS12NAMEA320ZYXWVUTSRQPNMLKJHGFEDCAXRPP870HKKQRM";

const C: &str = "MS12NAMECACDEFGHJKLMNPQRSTUVWXYZ023FTR2GDZMPY6PN";

const D: &str = "ms12namedll4f8jlh4e5vdvuldlfxu2jhdnlsm97xvenrxeg";

const SECRET: &str = "ms12names6xqguzttxkeqnjsjzv4jv3nz5k3kwgsphuh6evw";

// The bytes of the secret, and their string, in which the bits behind the bytes are zero.
const BYTES: [u8; 16] = [
    0xd1, 0x80, 0x8e, 0x09, 0x6b, 0x35, 0xb2, 0x09, 0xca, 0x12, 0x13, 0x2b, 0x26, 0x46, 0x62, 0xa5,
];

const STRING: &str = "ms12names6xqguzttxkeqnjsjzv4jv3nz552f9cs6v8q9q98";

/// The share that a text is.
pub fn share<'s>(rt: &impl Abort, text: &'s str) -> Share<'s> {
    Share::parse(text).expect(rt, text)
}

// The header of a secret that two shares give.
fn header(rt: &impl Abort) -> Header {
    let threshold = Threshold::new(2).expect(rt, "a threshold");
    let identifier = Identifier::parse("name").expect(rt, "an identifier");
    Header::new(threshold, identifier, Fe32::S).expect(rt, "a header")
}

// The bytes of a payload that has 16 at most, and how many were put.
fn bytes_of(share: &Share<'_>) -> Option<(usize, [u8; 16])> {
    let Ok(count) = share.byte_count() else {
        return None;
    };
    if count > 16 {
        return None;
    }
    let mut bytes = [0u8; 16];
    let put = share.put_bytes(&mut bytes);
    Some((put, bytes))
}

// Fails where a share has another header, by any call.
fn has_header(rt: &impl Abort, share: &Share<'_>, header: Header) {
    let read = (share.threshold(), share.identifier(), share.share_index());
    let want = (
        header.threshold(),
        header.identifier(),
        header.share_index(),
    );
    same(rt, &(share.header(), read), &(header, want));
    same(
        rt,
        &(want.0.number(), want.0.to_char(), want.1.elements()),
        &(2, '2', [Fe32::N, Fe32::A, Fe32::M, Fe32::E]),
    );
    same(rt, &[Threshold::new(1), Threshold::new(10)], &[None; 2]);
}

// Fails where two shares give another string, or another secret, or where none gives one.
fn are_given(rt: &impl Abort, alloc: Global) {
    let shares = [share(rt, A), share(rt, C)];
    let derived = derive(alloc, &shares, Fe32::D).expect(rt, "refused");
    let recovered = recover(alloc, &shares).expect(rt, "refused");
    same(rt, &[derived.as_str(), recovered.as_str()], &[D, SECRET]);
    let of_none = recover(alloc, &[]).err();
    same(rt, &of_none, &Some(DeriveError::TooFew));
}

#[test]
fn parts_of_a_share(rt: HostRuntime) {
    let share = share(&rt, SECRET);
    same(
        &rt,
        &(share.payload(), bytes_of(&share)),
        &("6xqguzttxkeqnjsjzv4jv3nz5k", Some((16, BYTES))),
    );
    has_header(&rt, &share, header(&rt));
    let text = encode(rt.alloc(), &share.header(), &BYTES).expect(&rt, "refused");
    same(&rt, &text.as_str(), &STRING);
    are_given(&rt, rt.alloc());
}
