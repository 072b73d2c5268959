//! Bytes as elements, and elements as bytes, of iterators that misbehave or do not end.

ghost use Rattle.std.specs.Iterator.{IsFinite};

use crate::tests::compare::{exactly, same, same_items, step};
use bech32_bits::{ByteIterExt, BytesToFes, FesToBytes};
use bech32_gf::gf32::Fe32;
use std::alloc::Global;
use std::iter;
use std::process::Abort;
use testing_tools::compare::first_difference;
use testing_tools::iterators::{Many, TwoItems, TwoOfFive};

// Fails where other elements come, or more after `None`, however often one asks.
fn all_fes<I: Iterator<Item = u8>>(
    rt: &impl Abort,
    alloc: Global,
    mut fes: BytesToFes<I>,
    want: &[Fe32],
)
    requires can { ⟦<BytesToFes<I> as Iterator>⟧.can_next fes }
    requires finite { IsFinite (⟦<BytesToFes<I> as Iterator>⟧.remaining fes) }
{
    let mut all = Vec::new(alloc);
    while let Some(fe) = fes.next() {
        all.push(fe).expect(rt, "memory");
    }
    let again = [fes.next(), fes.next(), fes.next()];
    same(rt, &again, &[None; 3]);
    same_items(rt, &all, want);
}

// Fails where other bytes come, or more after `None`, however often one asks.
fn all_bytes<I: Iterator<Item = Fe32>>(
    rt: &impl Abort,
    alloc: Global,
    mut bytes: FesToBytes<I>,
    want: &[u8],
)
    requires can { ⟦<FesToBytes<I> as Iterator>⟧.can_next bytes }
    requires finite { IsFinite (⟦<FesToBytes<I> as Iterator>⟧.remaining bytes) }
{
    let mut all = Vec::new(alloc);
    while let Some(byte) = bytes.next() {
        all.push(byte).expect(rt, "memory");
    }
    let again = [bytes.next(), bytes.next(), bytes.next()];
    same(rt, &again, &[None; 3]);
    same_items(rt, &all, want);
}

// Fails where the elements of two bytes are other ones.
fn elements_of_two_bytes(rt: &impl Abort, alloc: Global) {
    let want = [Fe32::_4, Fe32::W, Fe32::_4, Fe32::S];
    for upper in [None, Some(2), Some(usize::MAX)] {
        let fes = TwoItems::new(0xab, upper).bytes_to_fes();
        all_fes(rt, alloc, fes, &want);
    }
    all_fes(rt, alloc, TwoOfFive::new(0xab).bytes_to_fes(), &want);
}

// Fails where the bytes of two elements are other ones.
fn bytes_of_two_elements(rt: &impl Abort, alloc: Global, padded: bool, want: &[u8]) {
    for upper in [None, Some(usize::MAX)] {
        let bytes = FesToBytes::new(TwoItems::new(Fe32::_4, upper), padded);
        all_bytes(rt, alloc, bytes, want);
    }
    let bytes = FesToBytes::new(TwoOfFive::new(Fe32::_4), padded);
    all_bytes(rt, alloc, bytes, want);
}

fn two_items(rt: &impl Abort, alloc: Global) {
    elements_of_two_bytes(rt, alloc);
    bytes_of_two_elements(rt, alloc, false, &[0xad]);
    bytes_of_two_elements(rt, alloc, true, &[0xad, 0x40]);
}

fn size_hints_of_elements(rt: &impl Abort) {
    let mut fes = TwoItems::new(0xab, None).bytes_to_fes();
    let found = (fes.size_hint(), fes.next().is_some(), fes.size_hint());
    same(rt, &found, &((0, None), true, (1, None)));
    // Below a great number.
    let mut fes = TwoItems::new(0xab, Some(usize::MAX)).bytes_to_fes();
    let first = (fes.size_hint(), fes.next().is_some());
    let others = [fes.next().is_some(), fes.next().is_some()];
    let last = (fes.size_hint(), fes.next().is_some(), fes.size_hint());
    same(rt, &first, &((0, None), true));
    same(rt, &others, &[true; 2]);
    same(rt, &last, &((1, None), true, (0, Some(0))));
    // Of fewer than said.
    let mut fes = TwoOfFive::new(0xab).bytes_to_fes();
    let first = (fes.size_hint(), fes.next().is_some());
    let others = [fes.next().is_some(), fes.next().is_some()];
    let last = (fes.next().is_some(), fes.size_hint());
    same(rt, &first, &((8, Some(8)), true));
    same(rt, &others, &[true; 2]);
    same(rt, &last, &(true, (0, Some(0))));
}

fn size_hints_of_bytes(rt: &impl Abort) {
    let rows = [
        (None, false, None),
        (Some(usize::MAX), false, Some(11529215046068469759)),
        (Some(usize::MAX), true, Some(11529215046068469760)),
    ];
    for (upper, padded, want) in rows {
        let bytes = FesToBytes::new(TwoItems::new(Fe32::_4, upper), padded);
        same(rt, &bytes.size_hint(), &(0, want));
    }

    let mut bytes = FesToBytes::new(TwoOfFive::new(Fe32::_4), false);
    let found = [step(&mut bytes), step(&mut bytes), step(&mut bytes)];
    let want = [
        (exactly(3), Some(0xad)),
        (exactly(2), None),
        (exactly(0), None),
    ];
    same_items(rt, &found, &want);
}

fn very_many_items(rt: &impl Abort) {
    let fes = Many::new(0xab, usize::MAX).bytes_to_fes();
    same(rt, &fes.len(), &18446744073709551615);
    let bytes = FesToBytes::new(Many::new(Fe32::_4, usize::MAX), false);
    same(rt, &bytes.len(), &11529215046068469759);
    let bytes = FesToBytes::new(Many::new(Fe32::_4, usize::MAX), true);
    same(rt, &bytes.len(), &11529215046068469760);
    // The greatest number of bytes whose elements fit, and one more.
    let mut fes = Many::new(0xab, 11529215046068469759).bytes_to_fes();
    let most = 18446744073709551615;
    same(
        rt,
        &(fes.len(), fes.size_hint(), fes.next()),
        &(most, (most, Some(most)), Some(Fe32::_4)),
    );
    same(rt, &fes.len(), &18446744073709551614);
    let fes = Many::new(0xab, 11529215046068469760).bytes_to_fes();
    same(rt, &(fes.len(), fes.size_hint()), &(most, (most, None)));
}

fn endless_items(rt: &impl Abort) {
    let mut fes = iter::repeat(0xab).bytes_to_fes();
    same(rt, &fes.next(), &Some(Fe32::_4));
    same(rt, &fes.size_hint(), &(usize::MAX, None));
    let fes = iter::repeat(0xab).bytes_to_fes();
    let want = [Fe32::_4, Fe32::W, Fe32::_4, Fe32::_6, Fe32::H, Fe32::_2];
    same(rt, &first_difference(fes.take(6), &want), &None);
    // Five eighths of the greatest number, since the lower bound of `repeat` is no greater.
    for row in [(false, 11529215046068469759), (true, 11529215046068469760)].iter() {
        let (padded, least) = *row;
        let bytes = FesToBytes::new(iter::repeat(Fe32::_4), padded);
        same(rt, &bytes.size_hint(), &(least, None));
        let want = [0xad, 0x6b, 0x5a, 0xd6, 0xb5, 0xad];
        let found = first_difference(bytes.take(6), &want);
        same(rt, &(padded, found), &(padded, None));
    }
}

#[test]
fn groups_of_odd_iterators(rt: HostRuntime) {
    two_items(&rt, rt.alloc());
    size_hints_of_elements(&rt);
    size_hints_of_bytes(&rt);
    very_many_items(&rt);
    endless_items(&rt);
}
