use super::{BYTE_BEFORE, LENGTH_BEFORE, has_front, same, written};
use crate::split::codex32_split;
use std::process::Abort;

const ROOM: usize = 256;

// That of the second example of BIP-93.
const SECRET: [u8; 16] = [
    0xd1, 0x80, 0x8e, 0x09, 0x6b, 0x35, 0xb2, 0x09, 0xca, 0x12, 0x13, 0x2b, 0x26, 0x46, 0x62, 0xa5,
];

const RANDOM: [u8; 52] = [
    0x3d, 0xd3, 0x92, 0xcc, 0x02, 0xd0, 0xb2, 0x40, 0xdf, 0x95, 0x6e, 0x53, 0x06, 0x31, 0x83, 0x32,
    0xac, 0xfb, 0x90, 0x3d, 0xb2, 0xfa, 0x70, 0x31, 0x6a, 0x05, 0x93, 0xd2, 0x2f, 0xb2, 0x8d, 0xf0,
    0x1c, 0xbd, 0x74, 0x1d, 0xbc, 0xcf, 0xd5, 0x4a, 0x23, 0xa7, 0xea, 0x79, 0xe8, 0xa8, 0xfa, 0xf3,
    0x5d, 0x30, 0xd2, 0x8e,
];

// What is split: the threshold, the identifier, the secret, and random bytes.
type Split<'a> = (u32, &'a [u8], &'a [u8], &'a [u8]);

// Splits with so many of the random bytes into so many shares, with a buffer of so many bytes.
// Where the number is 0, the length is that of each text, and the texts are put, one behind
// another; else nothing is written.
fn splits(
    rt: &impl Abort,
    (threshold, identifier, secret, random): Split<'_>,
    drawn: usize,
    (count, room): (usize, usize),
    (want, each, texts): (u32, usize, &[u8]),
) {
    let (mut length, mut buffer) = (LENGTH_BEFORE, [BYTE_BEFORE; ROOM]);
    let (front, _) = buffer.split_at_mut(room.min(ROOM));
    let (drawn, _) = random.split_at(drawn.min(random.len()));
    let number = codex32_split(
        threshold,
        identifier,
        secret,
        drawn,
        count,
        front,
        &mut length,
    );
    let (_, put) = written(want, texts);
    let found = (number, length, has_front(&buffer, put));
    same(rt, &found, &(want, each, true));
}

// Shares by a reference model: three of which two suffice, and four of which three do.
const OF_TWO: &[u8] =
    b"ms12testaanjvzsjql4wnx3rjvmsaj6s329vw4xnw2zhpf2lms12testcrmyzxxgv99pjwpzje5flkkqswrs3rg7dsphgkxsms12testdxq6clc5we6h747wjnzp805luhzdcajsev4hllyx";

const OF_THREE: &[u8] =
    b"ms13testaanjvzsjql4wnx3rjvmsaj6s329mmu2u2wlyxv0nms13testcnj0jdsua5au042r82egg6nasjwd4jdk4cupvgvlms13testd7eqq992r5wsehymeaa5098cu9a4qq800zghwcaums13teste2h5xt644g5wkhg8dd5n23apcxecgz3gs4y5zkpg";

// The secret but for its first byte, and 45 random bytes.
const FIFTEEN: [u8; 15] = [
    0x80, 0x8e, 0x09, 0x6b, 0x35, 0xb2, 0x09, 0xca, 0x12, 0x13, 0x2b, 0x26, 0x46, 0x62, 0xa5,
];

const FORTY_FIVE: [u8; 45] = [
    0x3d, 0xd3, 0x92, 0xcc, 0x02, 0xd0, 0xb2, 0x40, 0xdf, 0x95, 0x6e, 0x53, 0x06, 0x31, 0x83, 0x32,
    0xac, 0xfb, 0x90, 0x3d, 0xb2, 0xfa, 0x70, 0x31, 0x6a, 0x05, 0x93, 0xd2, 0x2f, 0xb2, 0x8d, 0xf0,
    0x1c, 0xbd, 0x74, 0x1d, 0xbc, 0xcf, 0xd5, 0x4a, 0x23, 0xa7, 0xea, 0x79, 0xe8,
];

// The bytes from 0 on, and those of which each is 7 more; and the shares, of a reference model.
const LONG_SECRET: [u8; 64] = [
    0x00, 0x01, 0x02, 0x03, 0x04, 0x05, 0x06, 0x07, 0x08, 0x09, 0x0a, 0x0b, 0x0c, 0x0d, 0x0e, 0x0f,
    0x10, 0x11, 0x12, 0x13, 0x14, 0x15, 0x16, 0x17, 0x18, 0x19, 0x1a, 0x1b, 0x1c, 0x1d, 0x1e, 0x1f,
    0x20, 0x21, 0x22, 0x23, 0x24, 0x25, 0x26, 0x27, 0x28, 0x29, 0x2a, 0x2b, 0x2c, 0x2d, 0x2e, 0x2f,
    0x30, 0x31, 0x32, 0x33, 0x34, 0x35, 0x36, 0x37, 0x38, 0x39, 0x3a, 0x3b, 0x3c, 0x3d, 0x3e, 0x3f,
];

const LONG_RANDOM: [u8; 103] = [
    0x00, 0x07, 0x0e, 0x15, 0x1c, 0x23, 0x2a, 0x31, 0x38, 0x3f, 0x46, 0x4d, 0x54, 0x5b, 0x62, 0x69,
    0x70, 0x77, 0x7e, 0x85, 0x8c, 0x93, 0x9a, 0xa1, 0xa8, 0xaf, 0xb6, 0xbd, 0xc4, 0xcb, 0xd2, 0xd9,
    0xe0, 0xe7, 0xee, 0xf5, 0xfc, 0x03, 0x0a, 0x11, 0x18, 0x1f, 0x26, 0x2d, 0x34, 0x3b, 0x42, 0x49,
    0x50, 0x57, 0x5e, 0x65, 0x6c, 0x73, 0x7a, 0x81, 0x88, 0x8f, 0x96, 0x9d, 0xa4, 0xab, 0xb2, 0xb9,
    0xc0, 0xc7, 0xce, 0xd5, 0xdc, 0xe3, 0xea, 0xf1, 0xf8, 0xff, 0x06, 0x0d, 0x14, 0x1b, 0x22, 0x29,
    0x30, 0x37, 0x3e, 0x45, 0x4c, 0x53, 0x5a, 0x61, 0x68, 0x6f, 0x76, 0x7d, 0x84, 0x8b, 0x92, 0x99,
    0xa0, 0xa7, 0xae, 0xb5, 0xbc, 0xc3, 0xca,
];

const LONG_SHARES: &[u8] =
    b"ms12testaq8w4ur23clxd5mzfsh79vn6pg0kaytjeq8w4ur23clxd5mzfsh79vn6pg0kaytjeq8w4ur23clxd5mzfsh79vn6pg0kaytjeq8w4ur20el3qrftg8732vnms12testcqemv3nue4nlg7p9fkyrdnzvrrwj7df4z8gqmd2u69z2lnc9k34c27wm36lcw3vzaeeytqgt9vnq005jygyqazhmwawdeujz77gluu3u8qqvqwjusp4xurm";

// The same byte everywhere but at one place: in its highest bits, or in its lowest.
const FIRST_DIFFERS: [u8; 26] = [
    0x20, 0x00, 0x00, 0x00, 0x00, 0x00, 0x00, 0x00, 0x00, 0x00, 0x00, 0x00, 0x00, 0x00, 0x00, 0x00,
    0x00, 0x00, 0x00, 0x00, 0x00, 0x00, 0x00, 0x00, 0x00, 0x00,
];

const SECOND_DIFFERS: [u8; 26] = [
    0x00, 0x40, 0x00, 0x00, 0x00, 0x00, 0x00, 0x00, 0x00, 0x00, 0x00, 0x00, 0x00, 0x00, 0x00, 0x00,
    0x00, 0x00, 0x00, 0x00, 0x00, 0x00, 0x00, 0x00, 0x00, 0x00,
];

const LAST_DIFFERS: [u8; 26] = [
    0x07, 0x07, 0x07, 0x07, 0x07, 0x07, 0x07, 0x07, 0x07, 0x07, 0x07, 0x07, 0x07, 0x07, 0x07, 0x07,
    0x07, 0x07, 0x07, 0x07, 0x07, 0x07, 0x07, 0x07, 0x07, 0x06,
];

// What is split, with so many of the random bytes; the number of shares, and the room; and the
// number, the length of each text, and the texts.
const SPLIT_ROWS: &[(Split<'static>, usize, (usize, usize), (u32, usize, &[u8]))] = &[
    (
        (2, b"test", &SECRET, &RANDOM),
        26,
        (3, ROOM),
        (0, 48, OF_TWO),
    ),
    (
        (2, b"TEST", &SECRET, &RANDOM),
        26,
        (3, 144),
        (0, 48, OF_TWO),
    ),
    (
        (3, b"test", &SECRET, &RANDOM),
        52,
        (4, 192),
        (0, 48, OF_THREE),
    ),
    (
        (2, b"test", &LONG_SECRET, &LONG_RANDOM),
        103,
        (2, ROOM),
        (0, 127, LONG_SHARES),
    ),
];

// Each refusal, in their order: of sets, of secrets, and of numbers of shares and random bytes.
// Random bytes that nobody filled are refused, with room and without; of those whose lowest five
// bits are all the same, or of which the first or the last differs, this is not told. The number of
// random bytes is tested before, and the room last.
const REFUSED_ROWS: &[(Split<'static>, usize, (usize, usize), u32)] = &[
    ((1, b"tes", &[], &RANDOM), 0, (0, 0), 83),
    ((10, b"tes", &[], &RANDOM), 0, (0, 0), 83),
    ((0, b"tes", &[], &RANDOM), 0, (0, 0), 85),
    ((2, b"Test", &[], &RANDOM), 0, (0, 0), 85),
    ((0, b"test", &[], &RANDOM), 0, (0, 0), 84),
    ((2, b"test", &FIFTEEN, &RANDOM), 0, (0, 0), 56),
    ((2, b"test", &FORTY_FIVE, &RANDOM), 0, (0, 0), 56),
    ((2, b"test", &SECRET, &RANDOM), 0, (1, 0), 78),
    ((2, b"test", &SECRET, &RANDOM), 0, (32, 0), 78),
    ((2, b"test", &SECRET, &RANDOM), 0, (usize::MAX, 0), 78),
    ((2, b"test", &SECRET, &RANDOM), 25, (2, 0), 66),
    ((2, b"test", &SECRET, &RANDOM), 27, (2, 0), 66),
    ((2, b"test", &SECRET, &[0; 25]), 25, (3, ROOM), 66),
    ((2, b"test", &SECRET, &[0; 52]), 52, (3, ROOM), 66),
    ((2, b"test", &SECRET, &[0; 26]), 26, (3, ROOM), 68),
    ((2, b"test", &SECRET, &[0; 26]), 26, (3, 0), 68),
    ((2, b"test", &SECRET, &[0x55; 26]), 26, (3, ROOM), 68),
    ((2, b"test", &SECRET, &[255; 26]), 26, (3, 143), 68),
    ((2, b"test", &SECRET, &FIRST_DIFFERS), 26, (3, 143), 92),
    ((2, b"test", &SECRET, &SECOND_DIFFERS), 26, (3, 143), 92),
    ((2, b"test", &SECRET, &LAST_DIFFERS), 26, (3, 143), 92),
    ((2, b"test", &SECRET, &RANDOM), 26, (3, 143), 92),
    ((2, b"test", &SECRET, &RANDOM), 26, (31, 0), 92),
];

#[test]
fn splits_known_secrets(rt: HostRuntime) {
    for &(given, drawn, asked, want) in SPLIT_ROWS {
        splits(&rt, given, drawn, asked, want);
    }
    for &(given, drawn, asked, want) in REFUSED_ROWS {
        splits(&rt, given, drawn, asked, (want, LENGTH_BEFORE, b""));
    }
}
