use crate::message::bech32_message;
use crate::tests::{BEFORE, LENGTH_BEFORE, answers, same};
use crate::version::bech32_version;
use std::process::Abort;

// Puts the sentence of a number into a buffer of so many bytes.
fn says(rt: &impl Abort, number: u32, room: usize, want: (u32, &[u8])) {
    let (mut length, mut buffer) = (LENGTH_BEFORE, [BEFORE; 100]);
    let (front, _) = buffer.split_at_mut(room.min(100));
    let answer = bech32_message(number, front, &mut length);
    answers(rt, answer, (length, &buffer), want);
}

// A number; the room; and the number that is returned, and the sentence. Other numbers have none.
const ROWS: &[(u32, usize, (u32, &[u8]))] = &[
    (1, 100, (0, b"the row is null")),
    (1, 14, (92, b"")),
    (2, 44, (0, b"a text or a human-readable part is not UTF-8")),
    (2, 43, (92, b"")),
    (
        4,
        100,
        (
            0,
            b"the number of no checksum, an element above 31, too many errors, or no such rows",
        ),
    ),
    (4, 79, (92, b"")),
    (23, 30, (0, b"the text has no separator, `1`")),
    (33, 100, (0, b"the checksum is wrong")),
    (
        34,
        45,
        (0, b"no correction of the data part mends the text"),
    ),
    (
        45,
        100,
        (0, b"the bits behind the last whole byte are not all zero"),
    ),
    (
        49,
        58,
        (
            0,
            b"the address has another human-readable part than is wanted",
        ),
    ),
    (91, 100, (0, b"the lent memory did not suffice")),
    (92, 21, (0, b"a buffer is too small")),
    (0, 100, (0, b"")),
    (3, 0, (0, b"")),
    (5, 100, (0, b"")),
    (16, 0, (0, b"")),
    (24, 100, (0, b"")),
    (54, 0, (0, b"")),
    (56, 100, (0, b"")),
    (81, 0, (0, b"")),
    (90, 100, (0, b"")),
    (93, 0, (0, b"")),
    (256, 100, (0, b"")),
    (u32::MAX, 0, (0, b"")),
];

// A sentence is put where there is room for it, and nowhere else.
#[test]
fn says_sentences(rt: HostRuntime) {
    for &(number, room, want) in ROWS {
        says(&rt, number, room, want);
    }
    same(&rt, &bech32_version(), &100);
}
