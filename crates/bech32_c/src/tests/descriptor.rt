use crate::descriptor::{bech32_descriptor_check, bech32_descriptor_checksum};
use crate::tests::searches::{AMPLE, NONE, NOT_PUT, Refused, Row, Search, list_each, refuse_each};
use crate::tests::{BEFORE, LENGTH_BEFORE, answers, same};

// The checksum of each text, in a buffer of so many bytes, and the place of a fault.
const CHECKSUM_ROWS: &[(&[u8], usize, (u32, &[u8]), usize)] = &[
    (b"raw(deadbeef)", 9, (0, b"89f8spxm"), LENGTH_BEFORE),
    (b"raw(deadbeef)", 8, (0, b"89f8spxm"), LENGTH_BEFORE),
    (
        b"wpkh(02f9308a019258c31049344f85f89d5229b531c845836f99b08601f113bce036f9)",
        9,
        (0, b"8zl0zxma"),
        LENGTH_BEFORE,
    ),
    (b"raw(deadbeef)", 7, (92, b""), LENGTH_BEFORE),
    (b"raw(\xc3\x9ceadbeef)", 9, (80, b""), 4),
    (b"raw(deadbeef)\x7f", 0, (80, b""), 13),
    (b"\x1f", 9, (80, b""), 0),
];

// A descriptor of BIP-380, and texts that are none: the number, and the place of a fault.
const CHECK_ROWS: &[(&[u8], u32, usize)] = &[
    (b"raw(deadbeef)#89f8spxm", 0, LENGTH_BEFORE),
    (b"raw(deadbeef)#89f8spxn", 33, LENGTH_BEFORE),
    (b"raw(deedbeef)#89f8spxm", 33, LENGTH_BEFORE),
    (b"raw(deadbeef)#89f8spxM", 80, 21),
    (b"raw(deadbeef)#b9f8spxm", 80, 14),
    (b"raw(dea\xe4beef)#b9f8spxm", 80, 7),
    (b"raw(deadbeef)", 88, LENGTH_BEFORE),
    (b"raw(deadbeef)#89f8spx", 88, LENGTH_BEFORE),
    (b"#89f8spx", 88, LENGTH_BEFORE),
    (b"", 88, LENGTH_BEFORE),
];

#[test]
fn checks_descriptors(rt: HostRuntime) {
    for &(text, room, want, fault) in CHECKSUM_ROWS {
        let (mut buffer, mut length, mut place) = ([BEFORE; 9], LENGTH_BEFORE, LENGTH_BEFORE);
        let (front, _) = buffer.split_at_mut(room.min(9));
        let number = bech32_descriptor_checksum(text, front, &mut length, &mut place);
        same(&rt, &place, &fault);
        answers(&rt, number, (length, &buffer), want);
    }
    for &(text, want, fault) in CHECK_ROWS {
        let mut place = LENGTH_BEFORE;
        let number = bech32_descriptor_check(text, &mut place);
        same(&rt, &(number, place), &(want, fault));
    }
}

// A descriptor of BIP-380, and its checksum; and the same with one character changed, with two
// changed, and with two swapped.
const RAW: &[u8] = b"raw(deadbeef)#89f8spxm";

const CHANGED_RAW: &[u8] = b"raw(deedbeef)#89f8spxm";

const CHANGED: (Search, &[u8]) = (Search::Descriptors(1), CHANGED_RAW);

const TWO_CHANGED: (Search, &[u8]) = (Search::DescriptorsOfTwo, b"raw(deedbeaf)#89f8spxm");

const SWAPPED_RAW: &[u8] = b"raw(daedbeef)#89f8spxm";

// Of two changed: two before the mark, one there and one behind it, two behind it, and the mark
// itself. Where the text does not fit in one of the buffers, none is put.
const DESCRIPTOR_ROWS: &[Row<'static>] = &[
    (
        (Search::Descriptors(1), b"raw(deadbeef)#89f8spxn"),
        AMPLE,
        0,
        (1, &[4], &[21, 21], RAW),
    ),
    (
        (Search::Descriptors(1), b"raw(deadbeef)?89f8spxm"),
        AMPLE,
        0,
        (1, &[4], &[13, 13], RAW),
    ),
    (
        (Search::Descriptors(1), b"raw(dea\xe4beef)#89f8spxm"),
        AMPLE,
        0,
        (1, &[4], &[7, 7], RAW),
    ),
    (
        (Search::Descriptors(1), b"raw(deadbeef#)89f8spxm"),
        AMPLE,
        0,
        (1, &[1], &[12, 13], RAW),
    ),
    (
        (Search::Descriptors(1), b"raw(deadbeeff)#89f8spxm"),
        AMPLE,
        0,
        (1, &[2], &[12, 12], RAW),
    ),
    (
        (Search::Descriptors(1), b"raw(deadbeef)#89f8spxmm"),
        AMPLE,
        0,
        (1, &[2], &[22, 22], RAW),
    ),
    (
        (Search::Descriptors(1), b"raw(deadbef)#89f8spxm"),
        AMPLE,
        0,
        (1, &[3], &[10, 10], RAW),
    ),
    (
        (Search::Descriptors(1), b"raw(deadbeef)89f8spxm"),
        AMPLE,
        0,
        (1, &[3], &[13, 13], RAW),
    ),
    (
        (Search::Descriptors(1), SWAPPED_RAW),
        AMPLE,
        0,
        (1, &[1], &[5, 6], RAW),
    ),
    (
        (Search::Descriptors(0), SWAPPED_RAW),
        AMPLE,
        0,
        (1, &[1], &[5, 6], RAW),
    ),
    ((Search::Descriptors(0), CHANGED_RAW), AMPLE, 0, NONE),
    ((Search::Descriptors(1), RAW), AMPLE, 0, NONE),
    ((Search::Descriptors(1), b""), AMPLE, 0, NONE),
    (CHANGED, AMPLE, 0, (1, &[4], &[6, 6], RAW)),
    (CHANGED, (1, 2, 22), 0, (1, &[4], &[6, 6], RAW)),
    (CHANGED, (0, 4, 64), 92, NOT_PUT),
    (CHANGED, (2, 1, 64), 92, NOT_PUT),
    (CHANGED, (2, 0, 64), 92, NOT_PUT),
    (CHANGED, (2, 4, 21), 92, NOT_PUT),
    (TWO_CHANGED, AMPLE, 0, (1, b"", &[6, 10], RAW)),
    (TWO_CHANGED, (0, 2, 22), 0, (1, b"", &[6, 10], RAW)),
    (TWO_CHANGED, (0, 1, 64), 92, NOT_PUT),
    (TWO_CHANGED, (0, 4, 21), 92, NOT_PUT),
    (
        (Search::DescriptorsOfTwo, b"raw(dezebeef)#89f8spxm"),
        AMPLE,
        0,
        (1, b"", &[6, 7], RAW),
    ),
    (
        (Search::DescriptorsOfTwo, b"raw(deedbeef)#89f8spxn"),
        AMPLE,
        0,
        (1, b"", &[6, 21], RAW),
    ),
    (
        (Search::DescriptorsOfTwo, b"raw(deadbeef)#98f8spxm"),
        AMPLE,
        0,
        (1, b"", &[14, 15], RAW),
    ),
    (
        (Search::DescriptorsOfTwo, b"Raw(deadbeef)?89f8spxm"),
        AMPLE,
        0,
        (1, b"", &[0, 13], RAW),
    ),
    (
        (Search::DescriptorsOfTwo, b"raw(dea\xe4beef)#89f8spx\xff"),
        AMPLE,
        0,
        (1, b"", &[7, 21], RAW),
    ),
    ((Search::DescriptorsOfTwo, RAW), AMPLE, 0, NONE),
    ((Search::DescriptorsOfTwo, b""), AMPLE, 0, NONE),
];

// A refusal needs no memory, and where there is none, it says so. From seven bytes no descriptor
// comes, from eight none by two of them changed.
#[test]
fn mends_descriptors(rt: HostRuntime) {
    list_each(&rt, rt.alloc(), DESCRIPTOR_ROWS);
    let long = [b'a'; 7501];
    let (too_long, _) = long.split_at(1401);
    let (longest, _) = long.split_at(1400);
    let rows: [Refused<'_>; 12] = [
        ((Search::Descriptors(2), RAW), 4),
        ((Search::Descriptors(2), &long), 4),
        ((Search::Descriptors(1), &long), 89),
        ((Search::Descriptors(1), RAW), 91),
        ((Search::Descriptors(1), b""), 0),
        ((Search::Descriptors(1), b"#89f8sp"), 0),
        ((Search::DescriptorsOfTwo, &long), 89),
        ((Search::DescriptorsOfTwo, too_long), 89),
        ((Search::DescriptorsOfTwo, longest), 91),
        ((Search::DescriptorsOfTwo, RAW), 91),
        ((Search::DescriptorsOfTwo, b""), 0),
        ((Search::DescriptorsOfTwo, b"#89f8spx"), 0),
    ];
    refuse_each(&rt, rt.alloc(), &rows);
}
