use crate::columns::{
    bech32_check_many, bech32_segwit_decode_many, bech32_segwit_encode_many, bech32_validity_of,
};
use crate::tests::{BEFORE, LENGTH_BEFORE, same};
use bech32_more_calls::columns::column::Column;

// An address in upper case, a text of Bech32, an address with a wrong character, and one of another
// version, human-readable part and length.
const TEXTS: &[u8] = b"BC1SW50QGDZ25JA12UEL5Lbc1sw50qgdz25kabc1z0puh55nhnfn";

// Where these begin, and two rows that are not there.
const OFFSETS: [u8; 28] = [
    0, 0, 0, 0, 14, 0, 0, 0, 22, 0, 0, 0, 36, 0, 0, 0, 52, 0, 0, 0, 56, 0, 0, 0, 255, 255, 255, 255,
];

// Those rows; the second is null where there is validity.
fn texts(validity: &[u8]) -> Column<'_> {
    Column {
        bytes: TEXTS,
        offsets: &OFFSETS,
        validity,
        rows: 6,
        width: 0,
        layout: 1,
    }
}

// The checksum, the validity, the first row, and what is returned and put. Behind the first row
// there are no six.
const CHECK_ROWS: &[(u32, &[u8], usize, (u32, [u8; 6]))] = &[
    (0, &[], 0, (0, [0, 0, 33, 0, 4, 4])),
    (1, &[], 0, (0, [33, 0, 33, 33, 4, 4])),
    (2, &[0b101101], 0, (0, [0, 1, 33, 0, 1, 4])),
    (0, &[], 1, (4, [BEFORE; 6])),
];

// What is returned and put of six rows: the number and how many there are; the numbers, versions
// and lengths of parts; and the offsets and the programs.
type Put = ((u32, usize), [[u8; 6]; 3], ([u32; 7], [u8; 6]));

// Decodes the rows from the first of them on with this much room for programs.
fn decoded(first: usize, hrp: &[u8], room: usize) -> Put {
    let (mut numbers, mut versions, mut lengths) = ([BEFORE; 6], [BEFORE; 6], [BEFORE; 6]);
    let (mut offsets, mut programs, mut done) = ([9u32; 7], [BEFORE; 6], LENGTH_BEFORE);
    let (front, _) = programs.split_at_mut(room.min(6));
    let number = bech32_segwit_decode_many(
        &texts(&[]),
        first,
        hrp,
        &mut numbers,
        &mut versions,
        &mut lengths,
        &mut offsets,
        front,
        &mut done,
    );
    (
        (number, done),
        [numbers, versions, lengths],
        (offsets, programs),
    )
}

const DECODE_ROWS: &[(&[u8], usize, Put)] = &[
    (
        b"bc",
        2,
        (
            (0, 6),
            [
                [0, 33, 33, 49, 4, 4],
                [16, 0, 0, 0, 0, 0],
                [2, 0, 0, 0, 0, 0],
            ],
            ([0, 2, 2, 2, 2, 2, 2], *b"\x75\x1e\xee\xee\xee\xee"),
        ),
    ),
    (
        b"ABC",
        6,
        (
            (0, 6),
            [
                [49, 33, 33, 0, 4, 4],
                [0, 0, 0, 2, 0, 0],
                [0, 0, 0, 3, 0, 0],
            ],
            ([0, 0, 0, 0, 3, 3, 3], *b"xyz\xee\xee\xee"),
        ),
    ),
    (
        b"",
        5,
        (
            (0, 6),
            [
                [0, 33, 33, 0, 4, 4],
                [16, 0, 0, 2, 0, 0],
                [2, 0, 0, 3, 0, 0],
            ],
            ([0, 2, 2, 2, 5, 5, 5], *b"\x75\x1exyz\xee"),
        ),
    ),
    (
        b"",
        4,
        (
            (92, 3),
            [
                [0, 33, 33, BEFORE, BEFORE, BEFORE],
                [16, 0, 0, BEFORE, BEFORE, BEFORE],
                [2, 0, 0, BEFORE, BEFORE, BEFORE],
            ],
            ([0, 2, 2, 2, 9, 9, 9], *b"\x75\x1e\xee\xee\xee\xee"),
        ),
    ),
];

// Bytes that are no human-readable part are refused before anything is written, after the rows:
// there are not six from the third on.
const REFUSED_ROWS: &[(usize, &[u8], u32)] = &[
    (0, b"\xff", 2),
    (0, b" bc", 14),
    (0, b"bc\x7f", 14),
    (0, b"b\xc3\xa9", 13),
    (0, b"Bc", 15),
    (0, &[b'q'; 84], 12),
    (2, b"\xff", 4),
];

#[test]
fn reads_rows_of_a_column(rt: HostRuntime) {
    for &(checksum, validity, first, want) in CHECK_ROWS {
        let mut numbers = [BEFORE; 6];
        let number = bech32_check_many(checksum, &texts(validity), first, &mut numbers);
        same(&rt, &(number, numbers), &want);
    }
    for &(hrp, room, want) in DECODE_ROWS {
        same(&rt, &decoded(0, hrp, room), &want);
    }
    for &(first, hrp, want) in REFUSED_ROWS {
        let want: Put = (
            (want, LENGTH_BEFORE),
            [[BEFORE; 6]; 3],
            ([9; 7], [BEFORE; 6]),
        );
        same(&rt, &decoded(first, hrp, 6), &want);
    }
}

#[test]
fn encodes_rows_of_a_column(rt: HostRuntime) {
    let programs = Column {
        bytes: &[0x75, 0x1e, 0x1e, 0x75, 0x75],
        offsets: &[],
        validity: &[],
        rows: 3,
        width: 2,
        layout: 3,
    };
    let (mut numbers, mut offsets) = ([BEFORE; 3], [9u32; 4]);
    let (mut text, mut done) = ([BEFORE; 29], LENGTH_BEFORE);
    let number = bech32_segwit_encode_many(
        b"bc",
        &[16, 1, 0],
        &programs,
        0,
        &mut numbers,
        &mut offsets,
        &mut text,
        &mut done,
    );
    same(&rt, &(number, done, numbers), &(0, 3, [0, 0, 4]));
    same(
        &rt,
        &(offsets, text),
        &([0, 14, 28, 28], *b"bc1sw50qgdz25jbc1pre6s0wamf2\xee"),
    );
    let (mut validity, mut accepted) = ([BEFORE; 2], LENGTH_BEFORE);
    let number = bech32_validity_of(&numbers, &mut validity, &mut accepted);
    same(&rt, &(number, accepted, validity), &(0, 2, [3, BEFORE]));
}
