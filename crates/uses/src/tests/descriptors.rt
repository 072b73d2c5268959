//! Output descriptors.

use crate::tests::compare::{each_prints, same};
use bech32_descriptor::{
    Change, CheckError, InvalidCharacter, MendError, check, checksum, mend, mend_two,
};
use std::alloc::Global;
use std::process::Abort;

fn a_descriptor_and_its_checksum(rt: &impl Abort) {
    same(rt, &checksum(b"raw(deadbeef)"), &Ok(*b"89f8spxm"));
    same(rt, &check(b"raw(deadbeef)#89f8spxm"), &Ok(()));
    same(
        rt,
        &check(b"raw(deedbeef)#89f8spxm"),
        &Err(CheckError::WrongChecksum),
    );
}

// One descriptor, of which one character is changed.
fn a_descriptor_mended(rt: &impl Abort, alloc: Global) {
    let found = mend(alloc, b"raw(deedbeef)#89f8spxm", 1).expect(rt, "memory");
    let first = found.first().expect(rt, "a descriptor").edit;
    same(
        rt,
        &(found.len(), first.place, first.change),
        &(1, 6, Change::Changed(b'a')),
    );
}

// How many descriptors two changed characters make of a text, and where the first two are changed.
fn mended_by_two(rt: &impl Abort, alloc: Global, text: &[u8]) -> Option<(usize, usize, usize)> {
    let found = mend_two(alloc, text).expect(rt, "memory");
    let edits = found.first()?.edits;
    Some((found.len(), edits.first.place, edits.second.place))
}

// Two before the mark, one there and one in the checksum, two in the checksum, and the mark. A
// descriptor itself has none.
const TWO_CHANGED: &[(&[u8], Option<(usize, usize, usize)>)] = &[
    (b"raw(deedbeaf)#89f8spxm", Some((1, 6, 10))),
    (b"raw(dezebeef)#89f8spxm", Some((1, 6, 7))),
    (b"raw(deedbeef)#89f8spxn", Some((1, 6, 21))),
    (b"raw(deadbeef)#98f8spxm", Some((1, 14, 15))),
    (b"Raw(deadbeef)?89f8spxm", Some((1, 0, 13))),
    (b"raw(deadbeef)#89f8spxm", None),
];

fn a_descriptor_with_two_changed(rt: &impl Abort, alloc: Global) {
    for &(text, want) in TWO_CHANGED {
        let found = mended_by_two(rt, alloc, text);
        same(rt, &(text, found), &(text, want));
    }
}

const NO_DESCRIPTOR: &[(CheckError, &str)] = &[
    (
        CheckError::NoChecksum,
        "the text does not end in `#` and eight characters",
    ),
    (
        CheckError::InvalidCharacter(0),
        "a character may not stand in a descriptor, or not in its checksum",
    ),
    (CheckError::WrongChecksum, "the checksum is wrong"),
];

const NOT_MENDED: &[(MendError, &str)] = &[
    (
        MendError::TooLong,
        "the text has more than 7500 characters (1400 for two changes), too many to be mended",
    ),
    (MendError::Memory, "out of memory"),
];

fn what_is_wrong_with_a_descriptor(rt: &impl Abort, alloc: Global) {
    let message = "a character may not stand in a descriptor";
    each_prints(rt, alloc, &[(InvalidCharacter { place: 0 }, message)]);
    each_prints(rt, alloc, NO_DESCRIPTOR);
    each_prints(rt, alloc, NOT_MENDED);
}

#[test]
fn output_descriptors(rt: HostRuntime) {
    a_descriptor_and_its_checksum(&rt);
    a_descriptor_mended(&rt, rt.alloc());
    a_descriptor_with_two_changed(&rt, rt.alloc());
    what_is_wrong_with_a_descriptor(&rt, rt.alloc());
}
