//! Elements with their checksum, as elements, as characters and as bytes, of iterators that
//! misbehave or do not end.

use crate::tests::adaptors::{
    bytes_are, characters_are, checksummed_are, elements_are, encoder_behind, hint_of_checksummed,
};
use crate::tests::compare::{begins, exactly, same, same_items, step};
use bech32_checksum::{Bech32, Bech32m, Checksum, NoChecksum};
use bech32_encode::{Checksummed, Fe32IterExt, WitnessVersionIter};
use bech32_gf::gf32::Fe32;
use bech32_hrp::Hrp;
use std::alloc::Global;
use std::iter;
use std::process::Abort;
use testing_tools::compare::first_difference;
use testing_tools::iterators::{Many, TwoItems, TwoOfFive};

// A human-readable part; fails where the text is none.
fn part(rt: &impl Abort, text: &str) -> Hrp {
    Hrp::parse(text).expect(rt, "it is a human-readable part")
}

// The elements of characters.
fn elements_of(rt: &impl Abort, alloc: Global, characters: &[u8]) -> Vec<Fe32> {
    let mut fes = Vec::new(alloc);
    for c in characters {
        let element = Fe32::from_char(*c as char).expect(rt, "an element");
        fes.push(element).expect(rt, "memory");
    }
    fes
}

fn version_before_two_elements(rt: &impl Abort) {
    let want = [Fe32::Q, Fe32::_4, Fe32::_4];
    let two = TwoItems::new(Fe32::_4, None);
    same(
        rt,
        &first_difference(WitnessVersionIter::new(Some(Fe32::Q), two), &want),
        &None,
    );
    let two = TwoOfFive::new(Fe32::_4);
    same(
        rt,
        &first_difference(WitnessVersionIter::new(Some(Fe32::Q), two), &want),
        &None,
    );
    let two = TwoItems::new(Fe32::_4, Some(usize::MAX));
    let want = [Fe32::_4, Fe32::_4];
    same(
        rt,
        &first_difference(WitnessVersionIter::new(None, two), &want),
        &None,
    );
}

// Fails where texts of two elements are other ones, as characters, as bytes, or as elements with
// those of the human-readable part.
fn two_in_each_form<Ck: Checksum>(rt: &impl Abort, elements: &[Fe32]) {
    let hrp = part(rt, "a");
    let (front, of_version) = ((&hrp, None), (&hrp, Some(Fe32::Q)));
    let want = ['a', '1', '4', '4', 'm', 'h', '9', 'z', '9', '7'];
    characters_are::<_, Ck>(rt, front, TwoItems::new(Fe32::_4, None), &want);
    characters_are::<_, Ck>(rt, front, TwoOfFive::new(Fe32::_4), &want);
    let two = TwoItems::new(Fe32::_4, Some(usize::MAX));
    let want = ['a', '1', 'q', '4', '4', 'k', 'a', 'u', 'y', 'u', 'l'];
    characters_are::<_, Ck>(rt, of_version, two, &want);

    elements_are::<_, Ck>(rt, front, TwoItems::new(Fe32::_4, None), elements);
    let two = TwoItems::new(Fe32::_4, Some(usize::MAX));
    elements_are::<_, Ck>(rt, front, two, elements);
    elements_are::<_, Ck>(rt, front, TwoOfFive::new(Fe32::_4), elements);

    let hrp = part(rt, "A");
    let (front, of_version) = ((&hrp, None), (&hrp, Some(Fe32::Q)));
    bytes_are::<_, Ck>(rt, front, TwoItems::new(Fe32::_4, None), b"a144mh9z97");
    bytes_are::<_, Ck>(rt, front, TwoOfFive::new(Fe32::_4), b"a144mh9z97");
    let two = TwoItems::new(Fe32::_4, Some(usize::MAX));
    bytes_are::<_, Ck>(rt, of_version, two, b"a1q44kauyul");
}

// Fails where two elements, with their checksum behind them, are not the first ones, or under a
// human-readable part the second ones.
fn two_and_a_checksum<Ck: Checksum>(rt: &impl Abort, alone: &[Fe32], under: &[Fe32]) {
    let two = TwoItems::new(Fe32::_4, None);
    checksummed_are::<_, Ck>(rt, two, alone);
    let two = TwoOfFive::new(Fe32::_4);
    checksummed_are::<_, Ck>(rt, two, alone);
    let two = TwoItems::new(Fe32::_4, Some(usize::MAX));
    let fes = Checksummed::<_, Ck>::new_hrp(part(rt, "a"), two);
    same(rt, &first_difference(fes, under), &None);
}

// Fails where texts of two elements by Bech32 are other ones.
fn two_by_bech32<Ck: Checksum>(rt: &impl Abort, alloc: Global) {
    two_in_each_form::<Ck>(rt, &elements_of(rt, alloc, b"rqp44mh9z97"));
    let alone = elements_of(rt, alloc, b"44ectty8");
    let under = elements_of(rt, alloc, b"44mh9z97");
    two_and_a_checksum::<Ck>(rt, &alone, &under);
}

// The same behind a version by Bech32m, and the bounds on two elements and their checksum.
fn two_by_bech32m<Ck: Checksum>(rt: &impl Abort, alloc: Global) {
    let hrp = part(rt, "a");
    let want = elements_of(rt, alloc, b"rqpp44pr9lq9");
    let two = TwoItems::new(Fe32::_4, None);
    elements_are::<_, Ck>(rt, (&hrp, Some(Fe32::P)), two, &want);
    hint_of_checksummed::<_, Ck>(rt, TwoOfFive::new(Fe32::_4), exactly(11));
}

// The same without a checksum, and the bounds on very many elements.
fn two_without_checksum<Ck: Checksum>(rt: &impl Abort, hrp: &Hrp) {
    let two = TwoItems::new(Fe32::_4, None);
    characters_are::<_, Ck>(rt, (hrp, None), two, &['a', '1', '4', '4']);
    let two = TwoItems::new(Fe32::_4, None);
    checksummed_are::<_, Ck>(rt, two, &[Fe32::_4, Fe32::_4]);
    let many = Many::new(Fe32::_4, usize::MAX);
    hint_of_checksummed::<_, Ck>(rt, many, exactly(usize::MAX));
}

fn texts_of_two_elements(rt: &impl Abort, alloc: Global) {
    two_by_bech32::<Bech32>(rt, alloc);
    two_by_bech32m::<Bech32m>(rt, alloc);
    two_without_checksum::<NoChecksum>(rt, &part(rt, "a"));
}

// Fails where an iterator gives other characters than these, or miscounts what is to come.
fn steps_are<I: Iterator<Item = char>>(rt: &impl Abort, items: &mut I, rows: &[(usize, char)])
    requires always { (s : I) → I.can_next s }
{
    for &(left, c) in rows {
        same(rt, &step(items), &(exactly(left), Some(c)));
    }
}

const FEWER: &[(usize, char)] = &[
    (13, 'a'),
    (12, '1'),
    (11, '4'),
    (10, '4'),
    (9, 'm'),
    (5, 'h'),
];

// Fails where the bounds on two elements and their checksum are other ones.
fn bounds_of_two_and_a_checksum<Ck: Checksum>(rt: &impl Abort) {
    let mut fes = Checksummed::<_, Ck>::new(TwoItems::new(Fe32::_4, None));
    let bounds = fes.size_hint();
    let first = [fes.next().is_some(), fes.next().is_some()];
    let behind = fes.size_hint();
    let third = fes.next().is_some();
    let found = [bounds, behind, fes.size_hint()];
    let want = [(6, None), (6, None), exactly(5)];
    same(rt, &((first, third), found), &(([true, true], true), want));
    let two = TwoItems::new(Fe32::_4, Some(usize::MAX));
    hint_of_checksummed::<_, Ck>(rt, two, (6, None));
}

// Fails where the bounds on texts are other ones, or how many characters of fewer elements than
// said are left.
fn bounds_of_texts<Ck: Checksum>(rt: &impl Abort) {
    let hrp = part(rt, "ab");
    let front = (&hrp, None);
    let two = TwoItems::new(Fe32::_4, None);
    let most = TwoItems::new(Fe32::_4, Some(usize::MAX));
    let fewer = TwoOfFive::new(Fe32::_4);
    let found = [
        encoder_behind::<_, Ck>(front, two).chars().size_hint(),
        encoder_behind::<_, Ck>(front, most).bytes().size_hint(),
        encoder_behind::<_, Ck>(front, fewer).fes().size_hint(),
    ];
    same_items(rt, &found, &[(9, None), (9, None), exactly(16)]);
    let hrp = part(rt, "a");
    let mut chars = TwoOfFive::new(Fe32::_4).with_checksum::<Ck>(&hrp).chars();
    steps_are(rt, &mut chars, FEWER);
    bounds_of_two_and_a_checksum::<Ck>(rt);
}

fn bounds_that_are_not_exact(rt: &impl Abort) {
    let two = TwoItems::new(Fe32::_4, None);
    let many = Many::new(Fe32::_4, usize::MAX);
    let found = [
        WitnessVersionIter::new(Some(Fe32::Q), two).size_hint(),
        WitnessVersionIter::new(Some(Fe32::Q), many).size_hint(),
    ];
    same_items(rt, &found, &[(1, None), (usize::MAX, None)]);
    bounds_of_texts::<Bech32>(rt);
}

// Fails where the bounds on texts without an end are other ones, or how they begin.
fn endless_begin<Ck: Checksum>(rt: &impl Abort, hrp: &Hrp, want: &[Fe32]) {
    let front = (hrp, None);
    let endless = (usize::MAX, None);
    let encoder = encoder_behind::<_, Ck>(front, iter::repeat(Fe32::_4));
    begins(rt, encoder.fes(), endless, want);
    let encoder = encoder_behind::<_, Ck>(front, iter::repeat(Fe32::_4));
    let want = ['a', 'b', '1', '4', '4', '4', '4', '4'];
    begins(rt, encoder.chars(), endless, &want);
    let fes = Checksummed::<_, Ck>::new(iter::repeat(Fe32::_4));
    begins(rt, fes, endless, &[Fe32::_4; 6]);
}

fn endless_elements(rt: &impl Abort, alloc: Global) {
    let want = elements_of(rt, alloc, b"rrqpz44");
    endless_begin::<Bech32>(rt, &part(rt, "ab"), &want);
}

#[test]
fn texts_of_odd_iterators(rt: HostRuntime) {
    version_before_two_elements(&rt);
    texts_of_two_elements(&rt, rt.alloc());
    bounds_that_are_not_exact(&rt);
    endless_elements(&rt, rt.alloc());
}
