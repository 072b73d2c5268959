//! Splits of secrets into a buffer: a known one, whose shares were made by another program and
//! give the secret's own string; and refusals. Others stand in the stored run of `c32`.

use crate::tests::compare::same;
use crate::tests::shares::share;
use bech32_gf::gf32::Fe32;
use codex32::{Identifier, SplitError, Threshold, derive_into, random_count, split_into};
use std::process::Abort;

// The shares of two of three, one behind another, and the secret.
const OF_TWO: &str =
    "ms12nameats46lyfwncaz8v3kmq9205e7rgq72vs4nnmvvtnms12namecdgav0dwhmdn9cgxcpj58ldzavtm3gnshqvx877vms12namedvvxjs6rlq8fg335za48fq9jf6lt8s6s0t9hge59";

const BYTES: [u8; 16] = [
    0xd1, 0x80, 0x8e, 0x09, 0x6b, 0x35, 0xb2, 0x09, 0xca, 0x12, 0x13, 0x2b, 0x26, 0x46, 0x62, 0xa5,
];

// The secret's own string.
const OWN: &str = "ms12names6xqguzttxkeqnjsjzv4jv3nz552f9cs6v8q9q98";

// Bytes that rise by a step, modulo 256.
fn rising_bytes(first: u8, step: u8) -> [u8; 72] {
    let mut bytes = [0u8; 72];
    for i in 0..72 {
        bytes[i] = (i as u8).wrapping_mul(step).wrapping_add(first);
    }
    bytes
}

// What a split gives, of a threshold that is one.
fn split_by(
    rt: &impl Abort,
    buffer: &mut [u8],
    threshold: u8,
    secret: &[u8],
    count: usize,
    random: &[u8],
) -> Result<usize, SplitError> {
    let threshold = Threshold::new(threshold).expect(rt, "a threshold");
    let identifier = Identifier::parse("name").expect(rt, "an identifier");
    split_into(buffer, threshold, identifier, secret, count, random)
}

// Fails where the first of three shares and the third do not put the secret's own string at the
// front of a buffer, or where what stands behind it changes.
fn do_recover(rt: &impl Abort, texts: &[u8]) {
    let texts = str::from_utf8(texts).expect(rt, "texts");
    let first = texts.get(..48).expect(rt, "a share");
    let third = texts.get(96..144).expect(rt, "a share");
    let shares = [share(rt, first), share(rt, third)];
    let mut buffer = [7u8; 130];
    let count = derive_into(&mut buffer, &shares, Fe32::S);
    let behind = [7u8; 82];
    same(
        rt,
        &(count, buffer.get(..48), buffer.get(48..)),
        &(Ok(48), Some(OWN.as_bytes()), Some(behind.as_slice())),
    );
}

// The shares stand at the front of a buffer, and what stands behind them is as it was.
#[test]
fn two_of_three(rt: HostRuntime) {
    let random = rising_bytes(11, 37);
    let random = random.get(..26).expect(&rt, "random bytes");
    let mut buffer = [7u8; 146];
    let split = split_by(&rt, &mut buffer, 2, &BYTES, 3, random);
    let behind = [7u8; 2];
    same(
        &rt,
        &(split, buffer.get(..144), buffer.get(144..)),
        &(Ok(48), Some(OF_TWO.as_bytes()), Some(behind.as_slice())),
    );
    do_recover(&rt, &buffer);
}

// The numbers of a secret's bytes, of shares, of random bytes, and of bytes in the buffer.
type Numbers = (usize, usize, usize, usize);

// Fails where a secret is split, or not for another reason than this, or where a refused split
// changes the buffer.
fn refuses(rt: &impl Abort, threshold: u8, numbers: Numbers, want: Option<SplitError>) {
    let (size, count, random, room) = numbers;
    let secret = rising_bytes(0, 1);
    let secret = secret.get(..size).expect(rt, "a secret");
    let bytes = rising_bytes(11, 37);
    let random = bytes.get(..random).expect(rt, "random bytes");
    let mut buffer = [0u8; 200];
    let room = buffer.get_mut(..room).expect(rt, "a buffer");
    let found = split_by(rt, room, threshold, secret, count, random).err();
    let is_kept = buffer.as_slice() == [0u8; 200].as_slice();
    same(
        rt,
        &(threshold, numbers, found, is_kept),
        &(threshold, numbers, want, want.is_some()),
    );
}

// Splits, each with why it is refused.
const REFUSALS: &[(u8, Numbers, Option<SplitError>)] = &[
    (0, (15, 1, 0, 0), Some(SplitError::Unshared)),
    (0, (16, 3, 0, 200), Some(SplitError::Unshared)),
    (2, (15, 1, 0, 0), Some(SplitError::Size)),
    (2, (45, 3, 72, 200), Some(SplitError::Size)),
    (2, (16, 1, 0, 0), Some(SplitError::Count)),
    (2, (16, 32, 26, 200), Some(SplitError::Count)),
    (2, (16, 3, 25, 0), Some(SplitError::Random)),
    (2, (16, 3, 27, 200), Some(SplitError::Random)),
    (2, (16, 3, 26, 143), Some(SplitError::NoRoom)),
    (2, (16, 3, 26, 144), None),
];

// Fails where random bytes that are all equal are not refused, or change the buffer.
fn refuses_equal_bytes(rt: &impl Abort) {
    let mut buffer = [7u8; 144];
    let found = split_by(rt, &mut buffer, 2, &BYTES, 3, &[0x5a; 26]);
    let is_kept = buffer.as_slice() == [7u8; 144].as_slice();
    same(rt, &(found, is_kept), &(Err(SplitError::EqualRandom), true));
}

// How many random bytes a split takes of a threshold and a number of bytes.
const RANDOM: &[(u8, usize, Option<usize>)] = &[
    (2, 16, Some(26)),
    (3, 17, Some(56)),
    (9, 64, Some(824)),
    (0, 16, Some(0)),
    (2, 15, None),
    (2, 45, None),
    (2, 62, None),
    (2, usize::MAX, None),
];

// Fails where a split takes another number of random bytes.
fn take_random_bytes(rt: &impl Abort) {
    for &(number, size, want) in RANDOM {
        let threshold = Threshold::new(number).expect(rt, "a threshold");
        let found = random_count(threshold, size);
        same(rt, &(number, size, found), &(number, size, want));
    }
}

#[test]
fn refusals_of_splits(rt: HostRuntime) {
    take_random_bytes(&rt);
    refuses_equal_bytes(&rt);
    for &(threshold, numbers, want) in REFUSALS {
        refuses(&rt, threshold, numbers, want);
    }
}
