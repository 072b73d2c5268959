mod columns;
mod confidential;
mod descriptor;
mod elements;
mod messages;
mod searches;

use crate::correct::bech32_correct;
use crate::decode::{bech32_check, bech32_decode};
use crate::encode::bech32_encode;
use crate::engine::bech32_residue;
use crate::fault::bech32_fault;
use crate::segwit::{bech32_segwit_decode, bech32_segwit_encode};
use std::fmt::Debug;
use std::process::Abort;

// What buffers and numbers hold before a call.
const BEFORE: u8 = 0xee;

const LENGTH_BEFORE: usize = 7777;

// The program of the addresses of BIP-173, and some bytes that begin with ff.
const PROGRAM: [u8; 20] = [
    0x75, 0x1e, 0x76, 0xe8, 0x19, 0x91, 0x96, 0xd4, 0x54, 0x94, 0x1c, 0x45, 0xd1, 0xb3, 0xa3, 0x23,
    0xf1, 0x43, 0x3b, 0xd6,
];

const BYTES: [u8; 20] = [
    0xff, 0x1e, 0x76, 0xe8, 0x19, 0x91, 0x96, 0xd4, 0x54, 0x94, 0x1c, 0x45, 0xd1, 0xb3, 0xa3, 0x23,
    0xf1, 0x43, 0x3b, 0xd6,
];

// The program of the addresses of version 1 in BIP-350.
const TAPROOT: [u8; 32] = [
    0x79, 0xbe, 0x66, 0x7e, 0xf9, 0xdc, 0xbb, 0xac, 0x55, 0xa0, 0x62, 0x95, 0xce, 0x87, 0x0b, 0x07,
    0x02, 0x9b, 0xfc, 0xdb, 0x2d, 0xce, 0x28, 0xd9, 0x59, 0xf2, 0x81, 0x5b, 0x16, 0xf8, 0x17, 0x98,
];

// Addresses of these, and that of forty zeros by version 1.
const ADDRESS: &[u8] = b"bc1qw508d6qejxtdg4y5r3zarvary0c5xw7kv8f3t4";

const TAPROOT_ADDRESS: &[u8] = b"bc1p0xlxvlhemja6c4dqv22uapctqupfhlxm9h8z3k2e72q4k9hcz7vqzk5jj0";

const LONGEST_ADDRESS: &[u8] =
    b"bc1pqqqqqqqqqqqqqqqqqqqqqqqqqqqqqqqqqqqqqqqqqqqqqqqqqqqqqqqqqqqqqqqq2f6xj9";

// Fails where the two differ.
fn same<T: PartialEq + Debug>(rt: &impl Abort, got: &T, want: &T) {
    assert_eq!(rt; got, want);
}

// Whether the bytes stand at the front of the buffer, and behind them it is as it was.
fn has_front(buffer: &[u8], bytes: &[u8]) -> bool {
    for byte in buffer.iter().skip(bytes.len()) {
        if *byte != BEFORE {
            return false;
        }
    }
    buffer.starts_with(bytes)
}

// The same of places.
fn has_places(buffer: &[usize], places: &[usize]) -> bool {
    for place in buffer.iter().skip(places.len()) {
        if *place != LENGTH_BEFORE {
            return false;
        }
    }
    buffer.starts_with(places)
}

// Fails where another number is the answer, or where a length and a buffer are not what they are to
// be then: on 0 that of these bytes, which stand at its front, and else as they were.
fn answers(
    rt: &impl Abort,
    number: u32,
    (length, buffer): (usize, &[u8]),
    (want, bytes): (u32, &[u8]),
) {
    let (count, front): (usize, &[u8]) = if want == 0 {
        (bytes.len(), bytes)
    } else {
        (LENGTH_BEFORE, b"")
    };
    let found = (number, length, has_front(buffer, front));
    same(rt, &found, &(want, count, true));
}

// What encoding bytes into a buffer returns, and the length that it leaves.
fn encoded(row: (u32, &[u8], &[u8]), buffer: &mut [u8]) -> (u32, usize) {
    let mut count = LENGTH_BEFORE;
    let number = bech32_encode(row.0, row.1, row.2, buffer, &mut count);
    (number, count)
}

// Encodes into a buffer of so many bytes.
fn encodes(rt: &impl Abort, row: (u32, &[u8], &[u8]), room: usize, want: (u32, &[u8])) {
    let mut buffer = [BEFORE; 128];
    let (front, _) = buffer.split_at_mut(room.min(128));
    let (number, count) = encoded(row, front);
    answers(rt, number, (count, &buffer), want);
}

// The checksum, the human-readable part and the bytes; the room; and the number and the text.
const ENCODE_ROWS: &[((u32, &[u8], &[u8]), usize, (u32, &[u8]))] = &[
    ((1, b"a", b""), 64, (0, b"a12uel5l")),
    ((1, b"a", b""), 7, (92, b"")),
    ((2, b"A", b""), 8, (0, b"a1lqfn3a")),
    ((2, b"a", b"\x88\0\0"), 64, (0, b"a13qqqq9qz88s")),
    ((2, b"a", b"\x88\0\0"), 13, (0, b"a13qqqq9qz88s")),
    ((2, b"a", b"\x88\0\0"), 12, (92, b"")),
    (
        (1, b"test", &BYTES),
        43,
        (0, b"test1lu08d6qejxtdg4y5r3zarvary0c5xw7kw79nnx"),
    ),
    (
        (2, b"test", &BYTES),
        43,
        (0, b"test1lu08d6qejxtdg4y5r3zarvary0c5xw7kmz4lky"),
    ),
    ((2, b"test", &BYTES), 42, (92, b"")),
    ((0, b"", b""), 128, (4, b"")),
    ((5, b"\xff", b""), 128, (4, b"")),
    ((u32::MAX, b"a", b""), 128, (4, b"")),
    ((1, b"a\xff", b""), 128, (2, b"")),
    ((1, b"", b""), 128, (11, b"")),
    ((1, &[b'a'; 84], b""), 128, (12, b"")),
    ((2, b"\xc3\xa9", b""), 128, (13, b"")),
    ((1, b"a b", b""), 128, (14, b"")),
    ((2, b"aB", b""), 0, (15, b"")),
];

#[test]
fn encodes_known_texts(rt: HostRuntime) {
    for &(row, room, want) in ENCODE_ROWS {
        encodes(&rt, row, room, want);
    }
}

// What a text is decoded to: the number, and on 0 the human-readable part and the bytes.
type Parts<'a> = (u32, &'a [u8], &'a [u8]);

// Decodes into buffers of so many bytes.
fn decodes(rt: &impl Abort, text: &[u8], rooms: (usize, usize), want: Parts<'_>) {
    let (mut hrp, mut bytes) = ([BEFORE; 83], [BEFORE; 634]);
    let (mut hrp_count, mut count) = (LENGTH_BEFORE, LENGTH_BEFORE);
    let (part, _) = hrp.split_at_mut(rooms.0.min(83));
    let (found, _) = bytes.split_at_mut(rooms.1.min(634));
    let number = bech32_decode(text, part, &mut hrp_count, found, &mut count);
    answers(rt, number, (hrp_count, &hrp), (want.0, want.1));
    answers(rt, number, (count, &bytes), (want.0, want.2));
}

// Fails where the test of a text gives another number, or where the lengths are not what they are
// to be then: on 0 those of a human-readable part of so many bytes and of the data part, and else
// as they were.
fn checks(rt: &impl Abort, checksum: u32, text: &[u8], (want, part): (u32, usize)) {
    let (mut hrp_count, mut count) = (LENGTH_BEFORE, LENGTH_BEFORE);
    let number = bech32_check(checksum, text, &mut hrp_count, &mut count);
    let (hrp_length, length) = if want == 0 {
        (part, text.len().saturating_sub(part.saturating_add(7)))
    } else {
        (LENGTH_BEFORE, LENGTH_BEFORE)
    };
    same(rt, &(number, hrp_count, count), &(want, hrp_length, length));
}

// A text, the rooms for its parts, what it is decoded to, and the numbers by which Bech32 and
// Bech32m accept or refuse it.
const DECODE_ROWS: &[(&[u8], (usize, usize), Parts<'static>, (u32, u32))] = &[
    (b"A12UEL5L", (83, 634), (0, b"A", b""), (0, 33)),
    (b"a1lqfn3a", (1, 0), (0, b"a", b""), (33, 0)),
    (b"?1v759aa", (83, 0), (0, b"?", b""), (33, 0)),
    (b"a13qqqq9qz88s", (83, 634), (0, b"a", b"\x88\0\0"), (33, 0)),
    (
        b"test1lu08d6qejxtdg4y5r3zarvary0c5xw7kw79nnx",
        (4, 20),
        (0, b"test", &BYTES),
        (0, 33),
    ),
    (LOWER_TEXT, (83, 634), (0, b"test", &BYTES), (33, 0)),
    (LOWER_TEXT, (3, 20), (92, b"test", b""), (33, 0)),
    (LOWER_TEXT, (4, 19), (92, b"test", b""), (33, 0)),
    (LOWER_TEXT, (0, 0), (92, b"test", b""), (33, 0)),
    (b"\xff", (83, 634), (2, b"", b""), (2, 2)),
    (b"1qqqqqq", (83, 634), (11, b"", b""), (11, 11)),
    (
        b"an84characterslonghumanreadablepartthatcontainsthetheexcludedcharactersbioandnumber11d6pts4",
        (83, 634),
        (12, b"", b""),
        (12, 12),
    ),
    (b"\xc3\xa91qqqqqq", (83, 634), (13, b"", b""), (13, 13)),
    (b" 1nwldj5", (83, 634), (14, b"", b""), (14, 14)),
    (b"a12uel5l\r", (83, 634), (21, b"", b""), (21, 21)),
    (b"Q1q", (83, 634), (22, b"", b""), (22, 22)),
    (b"qpzry", (83, 634), (23, b"", b""), (23, 23)),
    (&[b'q'; 1024], (83, 634), (23, b"", b""), (23, 23)),
    (b"a1", (83, 634), (32, b"", b""), (32, 32)),
    (b"b12uel5l", (0, 0), (33, b"", b""), (33, 33)),
];

const LOWER_TEXT: &[u8] = b"test1lu08d6qejxtdg4y5r3zarvary0c5xw7kmz4lky";

#[test]
fn decodes_into_buffers(rt: HostRuntime) {
    for &(text, rooms, want, (by_bech32, by_bech32m)) in DECODE_ROWS {
        decodes(&rt, text, rooms, want);
        checks(&rt, 1, text, (by_bech32, want.1.len()));
        checks(&rt, 2, text, (by_bech32m, want.1.len()));
    }
    checks(&rt, 0, b"\xff", (4, 0));
}

// As many zeros as fit a text, and one more; as many as fit one by the checksum for long texts; and
// texts of more characters than a checksum allows.
#[test]
fn long_texts(rt: HostRuntime) {
    const ROWS: &[(u32, usize, usize, (u32, usize))] = &[
        (1, 634, 1100, (0, 1023)),
        (1, 635, 1100, (51, LENGTH_BEFORE)),
        (1, 4425, 7089, (51, LENGTH_BEFORE)),
        (3, 4425, 7089, (0, 7088)),
    ];
    let (zeros, mut text) = ([0; 4425], [BEFORE; 7089]);
    for &(checksum, count, room, want) in ROWS {
        let (bytes, _) = zeros.split_at(count.min(4425));
        let (front, _) = text.split_at_mut(room.min(7089));
        same(&rt, &encoded((checksum, b"a", bytes), front), &want);
    }
    let (front, _) = text.split_at(7088);
    checks(&rt, 3, front, (0, 1));
    checks(&rt, 4, front, (33, 1));
    checks(&rt, 1, front, (31, 1));
    let mut longer = [b'q'; 7090];
    longer[1] = b'1';
    checks(&rt, 4, &longer, (31, 1));
    let (above, _) = longer.split_at(1024);
    checks(&rt, 2, above, (31, 1));
    decodes(&rt, above, (83, 634), (31, b"", b""));
    mends(&rt, (2, above, &[]), (4, 4, 64), (31, &[], b"", b""));
}

// What an address is read as: the number, and on 0 the human-readable part, the version and the
// program.
type Address<'a> = (u32, &'a [u8], u32, &'a [u8]);

// Reads an address into buffers of so many bytes. Where it is refused, the version is as it was.
fn reads(rt: &impl Abort, text: &[u8], rooms: (usize, usize), want: Address<'_>) {
    let (mut hrp, mut program) = ([BEFORE; 83], [BEFORE; 40]);
    let (mut hrp_count, mut version, mut count) = (LENGTH_BEFORE, u32::MAX, LENGTH_BEFORE);
    let (part, _) = hrp.split_at_mut(rooms.0.min(83));
    let (front, _) = program.split_at_mut(rooms.1.min(40));
    let number = bech32_segwit_decode(text, part, &mut hrp_count, &mut version, front, &mut count);
    same(rt, &version, &want.2);
    answers(rt, number, (hrp_count, &hrp), (want.0, want.1));
    answers(rt, number, (count, &program), (want.0, want.3));
}

// Writes an address into a buffer of so many bytes.
fn writes(rt: &impl Abort, row: (&[u8], u32, &[u8]), room: usize, want: (u32, &[u8])) {
    let (mut count, mut buffer) = (LENGTH_BEFORE, [BEFORE; 90]);
    let (front, _) = buffer.split_at_mut(room.min(90));
    let number = bech32_segwit_encode(row.0, row.1, row.2, front, &mut count);
    answers(rt, number, (count, &buffer), want);
}

// Each address is read into buffers with more room or with as much. The last has the longest
// program there is: it is of a reference model.
const READ_ROWS: &[(&[u8], (usize, usize), Address<'static>)] = &[
    (
        b"BC1QW508D6QEJXTDG4Y5R3ZARVARY0C5XW7KV8F3T4",
        (83, 40),
        (0, b"BC", 0, &PROGRAM),
    ),
    (ADDRESS, (2, 20), (0, b"bc", 0, &PROGRAM)),
    (ADDRESS, (1, 20), (92, b"", u32::MAX, b"")),
    (ADDRESS, (2, 19), (92, b"", u32::MAX, b"")),
    (ADDRESS, (0, 0), (92, b"", u32::MAX, b"")),
    (TAPROOT_ADDRESS, (2, 32), (0, b"bc", 1, &TAPROOT)),
    (b"BC1SW50QGDZ25J", (83, 40), (0, b"BC", 16, b"\x75\x1e")),
    (LONGEST_ADDRESS, (83, 40), (0, b"bc", 1, &[0; 40])),
];

// Texts that are no addresses, of BIP-173 and BIP-350.
const REFUSED_ROWS: &[(&[u8], u32)] = &[
    (b"\xff", 2),
    (b"1pzry9x0s0muk", 11),
    (
        b"bc1p38j9r5y49hruaue7wxjce0updqjuyyx0kh56v8s25huc6995vvpql3jow4",
        21,
    ),
    (
        b"tb1p0xlxvlhemja6c4dqv22uapctqupfhlxm9h8z3k2e72q4k9hcz7vq47Zagq",
        22,
    ),
    (b"pzry9x0s0muk", 23),
    (
        b"tb1q0xlxvlhemja6c4dqv22uapctqupfhlxm9h8z3k2e72q4k9hcz7vq24jc47",
        33,
    ),
    (
        b"anhrpthatistwentycha1pqyqszqgpqyqszqgpqyqszqgpqyqszqgpqyqszqgpqyqszqgpqyqszqgpqyqszqgqfrwjz",
        41,
    ),
    (b"a1", 42),
    (
        b"BC130XLXVLHEMJA6C4DQV22UAPCTQUPFHLXM9H8Z3K2E72Q4K9HCZ7VQ7ZWS8R",
        43,
    ),
    (
        b"bc1p0xlxvlhemja6c4dqv22uapctqupfhlxm9h8z3k2e72q4k9hcz7v07qwwzcrf",
        44,
    ),
    (
        b"tb1p0xlxvlhemja6c4dqv22uapctqupfhlxm9h8z3k2e72q4k9hcz7vpggkg4j",
        45,
    ),
    (b"bc1pw5dgrnzv", 46),
    (
        b"bc1p0xlxvlhemja6c4dqv22uapctqupfhlxm9h8z3k2e72q4k9hcz7v8n0nx0muaewav253zgeav",
        47,
    ),
    (b"BC1QR508D6QEJXTDG4Y5R3ZARVARYV98GJ9P", 48),
    (b"BC1SW50QGDZ25K", 33),
];

// The human-readable part, the version and the program; the room; and the number and the address.
const WRITE_ROWS: &[((&[u8], u32, &[u8]), usize, (u32, &[u8]))] = &[
    ((b"BC", 0, &PROGRAM), 90, (0, ADDRESS)),
    ((b"bc", 0, &PROGRAM), 42, (0, ADDRESS)),
    ((b"bc", 0, &PROGRAM), 41, (92, b"")),
    ((b"bc", 1, &TAPROOT), 62, (0, TAPROOT_ADDRESS)),
    ((b"BC", 16, b"\x75\x1e"), 14, (0, b"bc1sw50qgdz25j")),
    ((b"BC", 16, b"\x75\x1e"), 13, (92, b"")),
    ((b"bc", 1, &[0; 40]), 90, (0, LONGEST_ADDRESS)),
    ((b"\xff", 32, b"\0"), 90, (4, b"")),
    ((b"bc", u32::MAX, &[0; 20]), 90, (4, b"")),
    ((b"\xff", 17, b"\0"), 90, (2, b"")),
    ((b"", 17, b"\0"), 90, (11, b"")),
    ((b"aB", 17, b"\0"), 90, (15, b"")),
    ((b"bc", 31, b"\0"), 90, (52, b"")),
    ((b"bc", 17, &[0; 41]), 90, (52, b"")),
    ((b"bc", 1, b"\0"), 90, (46, b"")),
    ((b"bc", 1, &[0; 41]), 90, (47, b"")),
    ((b"bc", 0, &[0; 21]), 90, (48, b"")),
    ((b"anhrpthatis19charsx", 1, &[0; 40]), 0, (53, b"")),
];

#[test]
fn known_addresses(rt: HostRuntime) {
    for &(text, rooms, want) in READ_ROWS {
        reads(&rt, text, rooms, want);
    }
    for &(text, want) in REFUSED_ROWS {
        reads(&rt, text, (83, 40), (want, b"", u32::MAX, b""));
    }
    for &(row, room, want) in WRITE_ROWS {
        writes(&rt, row, room, want);
    }
}

// Texts of BIP-173, and some with characters of two bytes: the checksum, the text, and the number
// and the place.
const FAULT_ROWS: &[(u32, &[u8], (u32, usize))] = &[
    (0, b"x1b4n0q5v", (4, LENGTH_BEFORE)),
    (1, b"x1\xff", (2, LENGTH_BEFORE)),
    (1, b"A12UEL5L", (0, LENGTH_BEFORE)),
    (2, b"A12UEL5L", (33, 8)),
    (1, b"1qzzfhee", (11, 0)),
    (
        1,
        b"an84characterslonghumanreadablepartthatcontainsthenumber1andtheexcludedcharactersbio1569pvx",
        (12, 84),
    ),
    (1, b"ab\xc3\xa9 1qqqqqq", (13, 2)),
    (2, b"\x7f1axkwrx", (14, 0)),
    (2, b"x1b4\xc3\xa90q5v", (21, 4)),
    (1, b"x1b4n0q5v", (21, 2)),
    (1, b"a!1qqQqqqq", (22, 5)),
    (1, b"pzry9x0s0muk", (23, 12)),
    (2, b"in1muywd", (32, 8)),
];

// The elements of `a` as a human-readable part, and of what stands behind the separator of
// `a12uel5l` and of `a1lqfn3a`.
const REMAINDER_ROWS: &[(u32, &[u8], (u32, u32))] = &[
    (1, &[3, 0, 1, 10, 28, 25, 31, 20, 31], (0, 1)),
    (2, &[3, 0, 1, 31, 0, 9, 19, 17, 29], (0, 0x2bc830a3)),
    (2, &[3, 0, 1, 10, 28, 25, 31, 20, 31], (0, 1)),
    (1, &[], (0, 1)),
    (1, &[31], (0, 63)),
    (0, &[], (4, u32::MAX)),
    (3, &[1], (4, u32::MAX)),
    (1, &[0, 32], (4, u32::MAX)),
    (2, &[255, 1], (4, u32::MAX)),
];

#[test]
fn places_and_remainders(rt: HostRuntime) {
    for &(checksum, text, want) in FAULT_ROWS {
        let mut place = LENGTH_BEFORE;
        let number = bech32_fault(checksum, text, &mut place);
        same(&rt, &(number, place), &want);
    }
    for &(checksum, values, want) in REMAINDER_ROWS {
        let mut residue = u32::MAX;
        let number = bech32_residue(checksum, values, &mut residue);
        same(&rt, &(number, residue), &want);
    }
}

// What a text is mended to: the number, and on 0 the locations, the elements and the mended text.
type Mended<'a> = (u32, &'a [usize], &'a [u8], &'a [u8]);

// A checksum, a text and its erasures.
type Mistyped<'a> = (u32, &'a [u8], &'a [usize]);

// Mends a text by buffers of so many items.
fn mends(
    rt: &impl Abort,
    (checksum, text, erasures): Mistyped<'_>,
    rooms: (usize, usize, usize),
    want: Mended<'_>,
) {
    let (mut count, mut length) = (LENGTH_BEFORE, LENGTH_BEFORE);
    let (mut locations, mut values, mut mended) = ([LENGTH_BEFORE; 4], [BEFORE; 4], [BEFORE; 64]);
    let (places, _) = locations.split_at_mut(rooms.0.min(4));
    let (elements, _) = values.split_at_mut(rooms.1.min(4));
    let (characters, _) = mended.split_at_mut(rooms.2.min(64));
    let number = bech32_correct(
        checksum,
        text,
        erasures,
        places,
        elements,
        &mut count,
        characters,
        &mut length,
    );
    same(rt, &has_places(&locations, want.1), &true);
    answers(rt, number, (count, &values), (want.0, want.2));
    answers(rt, number, (length, &mended), (want.0, want.3));
}

const THREE_ERASED: Mistyped<'static> = (
    1,
    b"bc1q9r0srrr7xfkvy5l64qlydnw9re59gtzzwf5mdx",
    &[37, 0, 20],
);

// What is mended, the rooms, and what it is mended to. Made twice over and equal: by a reference
// model written from the definitions alone, and by the Rust crate bech32 0.12.0 with the
// differences of docs/rust/DIFFERENCES.md.
const MEND_ROWS: &[(Mistyped<'static>, (usize, usize, usize), Mended<'static>)] = &[
    (
        (1, b"a12uel5l", &[6]),
        (0, 0, 8),
        (0, &[], b"", b"a12uel5l"),
    ),
    (
        (1, b"A12UEL5L", &[]),
        (4, 4, 64),
        (0, &[], b"", b"a12uel5l"),
    ),
    ((1, b"A12UEL5L", &[]), (4, 4, 7), (92, &[], b"", b"")),
    (
        (1, b"a12uel5q", &[]),
        (1, 1, 8),
        (0, &[0], &[31], b"a12uel5l"),
    ),
    ((1, b"a12uel5q", &[]), (0, 1, 8), (92, &[], b"", b"")),
    (
        (1, b"a12uel5q", &[3, 0, 3, 0]),
        (4, 4, 64),
        (0, &[3, 0], &[0, 31], b"a12uel5l"),
    ),
    (
        (1, b"a12uel5q", &[0, 1, 2]),
        (3, 3, 8),
        (0, &[0, 1, 2], &[31, 0, 0], b"a12uel5l"),
    ),
    (
        THREE_ERASED,
        (4, 4, 64),
        (
            0,
            &[37, 0, 20],
            &[24, 6, 17],
            b"bc1qar0srrr7xfkvy5l643lydnw9re59gtzzwf5mdq",
        ),
    ),
    (THREE_ERASED, (2, 3, 42), (92, &[], b"", b"")),
    (THREE_ERASED, (3, 2, 42), (92, &[], b"", b"")),
    (THREE_ERASED, (3, 3, 41), (92, &[], b"", b"")),
    (
        (2, b"1118GLKZVV", &[6, 2, 5]),
        (3, 3, 10),
        (0, &[6, 2, 5], &[20, 0, 0], b"111nglkzvv"),
    ),
    (
        (2, b"1~12el7n3ndp4klznfk", &[]),
        (4, 4, 64),
        (0, &[4], &[5], b"1~12el7n3ndp4k6znfk"),
    ),
];

// What is not mended, with buffers of no room.
const REFUSED_MEND_ROWS: &[(Mistyped<'static>, u32)] = &[
    ((0, b"\xff", &[]), 4),
    ((3, b"a12uel5q", &[]), 4),
    ((1, b"\xff", &[usize::MAX]), 2),
    ((1, b"1qqqqqq", &[]), 11),
    ((1, b" 1nwldj5", &[]), 14),
    ((1, b"a12uel5l\r", &[]), 21),
    ((2, b"pQ", &[]), 22),
    ((2, b"qpzry", &[]), 23),
    ((1, b"a1", &[0]), 32),
    ((1, b"b12uel5l", &[]), 34),
    ((2, b"a12uel5q", &[]), 34),
    ((1, b"a12uel5q", &[1, 2]), 34),
    ((1, b"a12uel5q", &[0, 1, 2, 3]), 34),
    ((1, b"a12uel5q", &[6]), 34),
    ((1, b"a12uel5q", &[0, 7]), 34),
    ((1, b"a12uel5q", &[usize::MAX]), 34),
    ((2, b"111pxa7d3mwg", &[11, 0, 1]), 34),
];

#[test]
fn mends_known_texts(rt: HostRuntime) {
    for &(mistyped, rooms, want) in MEND_ROWS {
        mends(&rt, mistyped, rooms, want);
    }
    for &(mistyped, want) in REFUSED_MEND_ROWS {
        mends(&rt, mistyped, (0, 0, 0), (want, &[], b"", b""));
    }
}
