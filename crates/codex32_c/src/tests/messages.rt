use super::{BYTE_BEFORE, LENGTH_BEFORE, answers, same};
use crate::message::codex32_message;
use crate::version::codex32_version;
use std::process::Abort;

// Puts the sentence of a number into a buffer of so many bytes.
fn says(rt: &impl Abort, number: u32, room: usize, want: (u32, &[u8])) {
    let (mut length, mut buffer) = (LENGTH_BEFORE, [BYTE_BEFORE; 100]);
    let (front, _) = buffer.split_at_mut(room.min(100));
    let answer = codex32_message(number, front, &mut length);
    answers(rt, answer, (length, &buffer), want);
}

// A number; the room; and the number that is returned, and the sentence. Other numbers have none.
const ROWS: &[(u32, usize, (u32, &[u8]))] = &[
    (2, 100, (0, b"a text or a human-readable part is not UTF-8")),
    (2, 43, (92, b"")),
    (
        4,
        75,
        (
            0,
            b"there are more than 32 texts, or their lengths do not add up to that of all",
        ),
    ),
    (4, 74, (92, b"")),
    (33, 100, (0, b"the checksum is wrong")),
    (33, 20, (92, b"")),
    (34, 24, (0, b"there is no nearest text")),
    (77, 100, (0, b"the shares contradict each other")),
    (
        78,
        58,
        (
            0,
            b"there are fewer shares than the threshold, or more than 31",
        ),
    ),
    (68, 100, (0, b"the random bytes are all equal")),
    (81, 35, (0, b"the human-readable part is not `ms`")),
    (92, 100, (0, b"a buffer is too small")),
    (0, 100, (0, b"")),
    (1, 0, (0, b"")),
    (3, 100, (0, b"")),
    (31, 0, (0, b"")),
    (32, 100, (0, b"")),
    (41, 0, (0, b"")),
    (67, 100, (0, b"")),
    (90, 0, (0, b"")),
    (93, 100, (0, b"")),
    (256, 0, (0, b"")),
    (u32::MAX, 100, (0, b"")),
];

// A sentence is put where there is room for it, and nowhere else.
#[test]
fn says_sentences(rt: HostRuntime) {
    for &(number, room, want) in ROWS {
        says(&rt, number, room, want);
    }
    same(&rt, &codex32_version(), &100);
}
