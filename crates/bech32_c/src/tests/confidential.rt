use crate::confidential::{bech32_liquid_decode, bech32_liquid_encode};
use crate::tests::{BEFORE, LENGTH_BEFORE, answers, same};
use std::process::Abort;

// A confidential address, and its parts.
pub(crate) const ADDRESS: &[u8] =
    b"lq1qqf8er278e6nyvuwtgf39e6ewvdcnjupn9a86rzpx655y5lhkt0walu3djf9cklkxd3ryld97hu8h3xepw7sh2rlu7q45dcew5";

const KEY: [u8; 33] = [
    0x02, 0x4f, 0x91, 0xab, 0xc7, 0xce, 0xa6, 0x46, 0x71, 0xcb, 0x42, 0x62, 0x5c, 0xeb, 0x2e, 0x63,
    0x71, 0x39, 0x70, 0x33, 0x2f, 0x4f, 0xa1, 0x88, 0x26, 0xd5, 0x28, 0x4a, 0x7e, 0xf6, 0x5b, 0xdd,
    0xdf,
];

const PROGRAM: [u8; 20] = [
    0xf2, 0x2d, 0x92, 0x4b, 0x8b, 0x7e, 0xc6, 0x6c, 0x46, 0x4f, 0xb4, 0xbe, 0xbf, 0x0f, 0x78, 0x9b,
    0x21, 0x77, 0xa1, 0x75,
];

// Encodes with the key into a buffer of so many bytes.
fn encodes(rt: &impl Abort, row: (&[u8], u32, &[u8]), room: usize, want: (u32, &[u8])) {
    let (mut count, mut buffer) = (LENGTH_BEFORE, [BEFORE; 128]);
    let (front, _) = buffer.split_at_mut(room.min(128));
    let number = bech32_liquid_encode(row.0, row.1, &KEY, row.2, front, &mut count);
    answers(rt, number, (count, &buffer), want);
}

// What is told of a text: the number, the human-readable part, the version, the key, the program.
type Parts<'a> = (u32, &'a [u8], u32, [u8; 33], &'a [u8]);

// Decodes into buffers with so much room for the human-readable part and the program.
fn decodes(rt: &impl Abort, text: &[u8], (hrp_room, room): (usize, usize), want: Parts<'_>) {
    let (mut hrp, mut key, mut program) = ([BEFORE; 83], [BEFORE; 33], [BEFORE; 32]);
    let (mut hrp_count, mut version, mut count) = (LENGTH_BEFORE, 77, LENGTH_BEFORE);
    let (part, _) = hrp.split_at_mut(hrp_room.min(83));
    let (found, _) = program.split_at_mut(room.min(32));
    let number = bech32_liquid_decode(
        text,
        part,
        &mut hrp_count,
        &mut version,
        &mut key,
        found,
        &mut count,
    );
    same(rt, &(version, key), &(want.2, want.3));
    answers(rt, number, (hrp_count, &hrp), (want.0, want.1));
    answers(rt, number, (count, &program), (want.0, want.4));
}

// The human-readable part, the version and the program; the room; and the number and the address.
const ENCODE_ROWS: &[((&[u8], u32, &[u8]), usize, (u32, &[u8]))] = &[
    ((b"lq", 0, &PROGRAM), 101, (0, ADDRESS)),
    ((b"\xff", 32, &PROGRAM), 101, (4, b"")),
    ((b"\xff", 17, &PROGRAM), 101, (2, b"")),
    ((b"", 17, &PROGRAM), 101, (11, b"")),
    ((b"lq", 17, &[]), 101, (52, b"")),
    ((b"lq", 16, &[]), 101, (70, b"")),
    ((b"lq", 0, &[7]), 0, (46, b"")),
    ((b"lq", 0, &[7; 41]), 0, (47, b"")),
    ((b"lq", 0, &[7; 33]), 0, (48, b"")),
    ((b"lq", 0, &PROGRAM), 100, (92, b"")),
];

// A text, the rooms, and the number. The third begins with version 1.
const REFUSED_ROWS: &[(&[u8], (usize, usize), u32)] = &[
    (b"\xff", (83, 32), 2),
    (b"lq1b", (83, 32), 21),
    (b"lq1p8wnk3sw45mype5gtnj3ff88n9g", (83, 32), 70),
    (b"lq1", (83, 32), 42),
    (b"lq13", (83, 32), 43),
    (b"lq1q", (83, 32), 32),
    (b"lq1qqqqqqqqqqqq", (83, 32), 33),
    (
        b"lq1qqf8er278e6nyvuwtgf39e6ewvdcnjupn9a86rzpx655y5lhkt0walu3djf9cklkxd3ryld97hu8h3xepw7sh2rlu7q45dcewq",
        (83, 32),
        33,
    ),
    (ADDRESS, (1, 32), 92),
    (ADDRESS, (83, 19), 92),
    (ADDRESS, (0, 0), 92),
    (b"", (83, 32), 23),
];

#[test]
fn confidential_addresses_both_ways(rt: HostRuntime) {
    for &(row, room, want) in ENCODE_ROWS {
        encodes(&rt, row, room, want);
    }
    decodes(&rt, ADDRESS, (83, 32), (0, b"lq", 0, KEY, &PROGRAM));
    for &(text, rooms, want) in REFUSED_ROWS {
        decodes(&rt, text, rooms, (want, b"", 77, [BEFORE; 33], b""));
    }
}
