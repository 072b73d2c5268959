//! Iterators over one that gives two items, `None`, and then items again.

use crate::tests::compare::same;
use bech32::primitives::encode::WitnessVersionIter;
use bech32::primitives::iter::Checksummed;
use bech32::{Bech32, Checksum, Fe32, Fe32IterExt, Hrp};
use std::fmt::Debug;
use std::process::Abort;
use testing_tools::iterators::TwoItems;

// The text of the two under `a`, which does not depend on how often they are asked for.
const TEXT: &str = "a144mh9z97";

// The character, the byte and the element at a place of a text: none after its end.
fn char_at(text: &str, place: usize) -> Option<char> {
    Some(char::from(byte_at(text, place)?))
}

fn byte_at(text: &str, place: usize) -> Option<u8> {
    text.as_bytes().get(place).copied()
}

fn element_at(text: &str, place: usize) -> Option<Fe32> {
    Fe32::from_char(char_at(text, place)?).ok()
}

// Fails where the item of a place is another one.
fn is_at<T>(rt: &impl Abort, place: usize, item: Option<T>, want: Option<T>)
where
    T: Copy + PartialEq + Debug,
{
    same(rt, &(place, item), &(place, want));
}

fn chars_stay_ended<Ck: Checksum>(rt: &impl Abort, hrp: &Hrp) {
    let encoder = TwoItems::new(Fe32::_4, None).with_checksum::<Ck>(hrp);
    let mut chars = encoder.chars();
    for place in 0..13usize {
        is_at(rt, place, chars.next(), char_at(TEXT, place));
    }
}

fn bytes_stay_ended<Ck: Checksum>(rt: &impl Abort, hrp: &Hrp) {
    let encoder = TwoItems::new(Fe32::_4, Some(usize::MAX)).with_checksum::<Ck>(hrp);
    let mut bytes = encoder.bytes();
    for place in 0..13usize {
        is_at(rt, place, bytes.next(), byte_at(TEXT, place));
    }
}

fn elements_stay_ended<Ck: Checksum>(rt: &impl Abort, hrp: &Hrp) {
    let encoder = TwoItems::new(Fe32::_4, None).with_checksum::<Ck>(hrp);
    let mut fes = encoder.fes();
    for place in 0..14usize {
        is_at(rt, place, fes.next(), element_at("rqp44mh9z97", place));
    }
}

// The two elements and their checksum, after a human-readable part.
fn checksum_behind_part<Ck: Checksum>(rt: &impl Abort, hrp: &Hrp) {
    let mut fes = Checksummed::<_, Ck>::new_hrp(*hrp, TwoItems::new(Fe32::_4, None));
    for place in 0..11usize {
        is_at(rt, place, fes.next(), element_at("44mh9z97", place));
    }
}

// The same without a part.
fn checksum_alone<Ck: Checksum>(rt: &impl Abort) {
    let mut fes = Checksummed::<_, Ck>::new(TwoItems::new(Fe32::_4, None));
    for place in 0..11usize {
        is_at(rt, place, fes.next(), element_at("44ectty8", place));
    }
}

fn version_stays_ended(rt: &impl Abort) {
    let mut fes = WitnessVersionIter::new(Some(Fe32::P), TwoItems::new(Fe32::_4, None));
    let given = [fes.next(), fes.next(), fes.next()];
    let after = [fes.next(), fes.next(), fes.next()];
    let want = [Some(Fe32::P), Some(Fe32::_4), Some(Fe32::_4)];
    same(rt, &(given, after), &(want, [None; 3]));
}

#[test]
fn adaptors_stay_ended(rt: HostRuntime) {
    let hrp = Hrp::parse("a").expect(&rt, "a human-readable part");
    chars_stay_ended::<Bech32>(&rt, &hrp);
    bytes_stay_ended::<Bech32>(&rt, &hrp);
    elements_stay_ended::<Bech32>(&rt, &hrp);
    checksum_behind_part::<Bech32>(&rt, &hrp);
    checksum_alone::<Bech32>(&rt);
    version_stays_ended(&rt);
}
