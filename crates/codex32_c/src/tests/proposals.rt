//! Nearest strings, in lent memory.

use super::{BYTE_BEFORE, LENGTH_BEFORE, has_front, same, written};
use crate::encode::codex32_encode;
use crate::propose::{codex32_propose, codex32_propose_long};
use caller_memory::Memory;
use std::alloc::Global;
use std::process::Abort;

// The number of the answer to a damaged text, a long one or not, with this memory and a buffer of
// this many bytes. Where it is 0, this text is put, and else nothing is written.
fn proposes(
    rt: &impl Abort,
    memory: &mut Memory,
    (text, is_long): (&[u8], bool),
    room: usize,
    want: &[u8],
) -> u32 {
    let (mut length, mut buffer) = (LENGTH_BEFORE, [BYTE_BEFORE; 160]);
    let (front, _) = buffer.split_at_mut(room.min(160));
    let number = if is_long {
        codex32_propose_long(text, memory, front, &mut length)
    } else {
        codex32_propose(text, memory, front, &mut length)
    };
    let (count, put) = written(number, want);
    same(rt, &(length, has_front(&buffer, put)), &(count, true));
    number
}

// The same with `size` bytes of memory, twice; all of them come back.
fn proposes_within(
    rt: &impl Abort,
    alloc: Global,
    size: usize,
    damaged: (&[u8], bool),
    (room, want): (usize, &[u8]),
) -> u32 {
    let mut memory = Memory::leaked(alloc, size).expect(rt, "memory");
    let number = proposes(rt, &mut memory, damaged, room, want);
    let again = proposes(rt, &mut memory, damaged, room, want);
    same(rt, &(again, memory.with_size().0), &(number, size));
    number
}

// The number of bytes that `include/codex32.h` states for a text of this many.
fn memory_for(text: &[u8]) -> usize {
    16384 + 8 * text.len().min(4096)
}

const NEAREST: &[u8] = b"ms10testsxxxxxxxxxxxxxxxxxxxxxxxxxx4nzvca9cmczlw";

// The same with four other characters.
const DAMAGED: &[u8] = b"ms1qtestsqxxxxxxxxxxxxxxxxxxxxxxxxq4nzvca9cmczlq";

const LONG: &[u8] =
    b"ms19tpk7h22sclaxxuxwk0q22xjc8mt2fkl6gkffmsc4elduv887tcpkn68gvf82sxt28l0d0lqdxpmmpnt4cwcpc692rrhwr7uetnhdllmjv6xeengd0tk7sgcse";

// The same with eight unreadable characters, with four other ones, and with five.
const TORN: &[u8] =
    b"ms19tpk7h22sclaxxuxwk0q22xjc8mt2fkl6gkffmsc4elduv887tcpkn68gvf82sxt28l0d0lqdxpmmpnt4cwcpc692rrhwr7uetnhdllmjv6xeengd0????????";

const WRONG: &[u8] =
    b"ms19tpk7q22sclaxxuxwk0q22xjc8mt2fklqgkffmsc4elduv887tcpkn68gvf82sxt28l0d0lqdxpmmpnq4cwcpc692rrhwr7uetnhdllmjv6xeengd0tk7sgcsq";

const WORSE: &[u8] =
    b"ms19tpq7q22sclaxxuxwk0q22xjc8mt2fklqgkffmsc4elduv887tcpkn68gvf82sxt28l0d0lqdxpmmpnq4cwcpc692rrhwr7uetnhdllmjv6xeengd0tk7sgcsq";

const LONGER: &[u8] = b"ms13lwj58s47h5wpzp0pm9dmwl0n4084llte76ftpzr2phlsa93mxazghatx2hglr8p754666v";

// A damaged text, and whether it is a long one; at most so many bytes of the memory that is stated;
// the room; the number, and the string. The nearest string is that of BIP-93, the longer one is of
// `reads_known_strings`, and the long one of a reference model.
const ROWS: &[((&[u8], bool), usize, usize, u32, &[u8])] = &[
    ((NEAREST, false), STATED, 96, 0, NEAREST),
    ((NEAREST, false), STATED, 48, 0, NEAREST),
    ((NEAREST, false), STATED, 47, 92, b""),
    (
        (b"MS10TESTSXXXXXXXXXXXXXXXXXXXXXXXXXX4NZVC????????", false),
        STATED,
        96,
        0,
        NEAREST,
    ),
    ((DAMAGED, false), STATED, 48, 0, NEAREST),
    ((DAMAGED, false), STATED, 47, 92, b""),
    (
        (
            b"ms13lwj5?s47h5wpzp0p???mwl0n4084llte76ft?zr2phlsa93mxaz?hatx2hglr8p754?66?",
            false,
        ),
        STATED,
        74,
        0,
        LONGER,
    ),
    (
        (b"ms10testsxxxxxxxxxxxxxxxxxxxxxxxxxx4nzv?????????", false),
        STATED,
        0,
        34,
        b"",
    ),
    (
        (b"ms1qtestsxxxxxxxxxxxxxxxxxxxxxxxxxx4nzvca???????", false),
        STATED,
        96,
        34,
        b"",
    ),
    (
        (b"mt10testsxxxxxxxxxxxxxxxxxxxxxxxxxx4nzvca9cmczl?", false),
        0,
        96,
        81,
        b"",
    ),
    (
        (b"ms10testsxxxxxxxxxxxxxxxxxxxxxxxxxx4nzvca9cmcz?", false),
        0,
        96,
        82,
        b"",
    ),
    (
        (b"mt10testsxxxxxxxxxxxxxxxxxxxxxxxxxx4nzvca9cmczl", false),
        STATED,
        96,
        82,
        b"",
    ),
    (
        (b"ms10testsxxxxxxxxxxxxxxxxxxxxxxxxxx4nzvca9cmczlb", false),
        STATED,
        96,
        21,
        b"",
    ),
    ((b"ms1?b", false), 0, 96, 21, b""),
    ((b"Ms1?", false), 0, 96, 22, b""),
    ((b"msq", false), 0, 96, 23, b""),
    ((b"1?qqqqq", false), 0, 96, 11, b""),
    ((b"\xff", false), 0, 96, 2, b""),
    ((DAMAGED, false), 0, 48, 91, b""),
    ((DAMAGED, false), 47, 48, 91, b""),
    ((LONG, true), STATED, 160, 0, LONG),
    ((TORN, true), STATED, 160, 0, LONG),
    ((WRONG, true), STATED, 125, 0, LONG),
    ((WRONG, true), STATED, 124, 92, b""),
    ((WORSE, true), STATED, 160, 34, b""),
    ((WRONG, true), 47, 160, 91, b""),
    ((b"Ms1?", true), 0, 160, 22, b""),
    (
        (
            b"MS12NAMEA320ZYXWVUTSRQPNMLKJHGFEDCAXRPP870HKKQRMMS12NAMECACDEFGHJKLMNPQRSTUVWXYZ023FTR2GDZMPY6PN",
            true,
        ),
        0,
        160,
        82,
        b"",
    ),
    ((b"\xff", true), 0, 160, 2, b""),
];

const STATED: usize = usize::MAX;

// A refusal of the text needs no memory; a nearest text needs more bytes than it has.
#[test]
fn proposes_known_texts(rt: HostRuntime) {
    for &(damaged, lent, room, want, string) in ROWS {
        let size = memory_for(damaged.0).min(lent);
        let number = proposes_within(&rt, rt.alloc(), size, damaged, (room, string));
        same(&rt, &number, &want);
    }
}

const LONGEST: usize = 127;

// The string at `a` of this many bytes, and its length.
fn string_of(rt: &impl Abort, count: usize) -> ([u8; LONGEST], usize) {
    let (mut text, mut length) = ([0; LONGEST], 0);
    let bytes = [0x5a; 64];
    let (front, _) = bytes.split_at(count.min(64));
    let number = codex32_encode(2, b"test", u32::from('a'), front, &mut text, &mut length);
    same(rt, &number, &0);
    (text, length.min(LONGEST))
}

// The same with another character at each of these places: this one, or `p` where it is this one.
fn altered(text: &[u8; LONGEST], places: &[usize], other: u8) -> [u8; LONGEST] {
    let mut altered = *text;
    for place in places {
        if let Some(c) = altered.get_mut(*place) {
            *c = if *c == other { b'p' } else { other };
        }
    }
    altered
}

// Fails where fewer bytes of memory, a multiple of 16, suffice for a text of the length of this
// nearest one, or where these do not, or some more.
fn wants(rt: &impl Abort, alloc: Global, text: &[u8; LONGEST], nearest: &[u8], least: usize) {
    let (front, _) = text.split_at(nearest.len().min(LONGEST));
    let damaged = (front, front.len() > 93);
    for size in (0..least).step_by(16) {
        let number = proposes_within(rt, alloc, size, damaged, (LONGEST, nearest));
        same(rt, &(size, number), &(size, 91));
    }
    for size in (least..memory_for(front)).step_by(512) {
        let number = proposes_within(rt, alloc, size, damaged, (LONGEST, nearest));
        same(rt, &(size, number), &(size, 0));
    }
}

// A text that is far from any string, and so are its beginnings.
const FAR: &[u8; 127] =
    b"ms1qqqqqqqqqqqqqqqqqqqqqqqqqqqqqqqqqqqqqqqqqqqqqqqqqqqqqqqqqqqqqqqqqqqqqqqqqqqqqqqqqqqqqqqqqqqqqqqqqqqqqqqqqqqqqqqqqqqqqqqqqqqq";

// The numbers are those of memory with one block: an arena of 496 bytes, or of a page; for a string
// as it stands, with four wrong characters, and with eight that cannot be read. Of a text that is
// far from any string there is no nearest one, at any length.
#[test]
fn names_the_least_memory(rt: HostRuntime) {
    const ROWS: &[(usize, usize, [usize; 3])] = &[
        (16, 48, [496, 496, 496]),
        (32, 74, [496, 496, 496]),
        (44, 93, [496, 496, 496]),
        (63, 125, [496, 496, 4080]),
        (64, 127, [496, 496, 4080]),
    ];
    for &(count, long, least) in ROWS {
        let (text, length) = string_of(&rt, count);
        same(&rt, &length, &long);
        let wrong = altered(&text, &[3, 10, 20, 40], b'q');
        let unreadable = altered(&text, &[3, 10, 12, 20, 30, 31, 40, 45], b'?');
        let (nearest, _) = text.split_at(long.min(LONGEST));
        wants(&rt, rt.alloc(), &text, nearest, least[0]);
        wants(&rt, rt.alloc(), &wrong, nearest, least[1]);
        wants(&rt, rt.alloc(), &unreadable, nearest, least[2]);
    }
    for length in 48usize..128 {
        let (text, _) = FAR.split_at(length.min(127));
        let damaged = (text, length > 93);
        if length < 94 || length > 124 {
            let size = memory_for(text);
            let number = proposes_within(&rt, rt.alloc(), size, damaged, (LONGEST, b""));
            same(&rt, &(length, number), &(length, 34));
        }
    }
}
