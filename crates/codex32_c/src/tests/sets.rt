//! Strings and secrets that sets of texts give.

use super::{BYTE_BEFORE, LENGTH_BEFORE, answers};
use crate::derive::codex32_derive;
use crate::recover::codex32_recover;
use std::process::Abort;

const ROOM: usize = 160;

// That of the second example of BIP-93.
const SECRET: [u8; 16] = [
    0xd1, 0x80, 0x8e, 0x09, 0x6b, 0x35, 0xb2, 0x09, 0xca, 0x12, 0x13, 0x2b, 0x26, 0x46, 0x62, 0xa5,
];

// The string at an index that texts give, in a buffer of this many bytes.
fn derives(
    rt: &impl Abort,
    index: char,
    (texts, lengths): (&[u8], &[usize]),
    room: usize,
    want: (u32, &[u8]),
) {
    let (mut length, mut buffer) = (LENGTH_BEFORE, [BYTE_BEFORE; ROOM]);
    let (front, _) = buffer.split_at_mut(room.min(ROOM));
    let number = codex32_derive(u32::from(index), texts, lengths, front, &mut length);
    answers(rt, number, (length, &buffer), want);
}

const PAIR: &[u8] =
    b"MS12NAMEA320ZYXWVUTSRQPNMLKJHGFEDCAXRPP870HKKQRMMS12NAMECACDEFGHJKLMNPQRSTUVWXYZ023FTR2GDZMPY6PN";

// Of BIP-93: its second example.
const DERIVE_ROWS: &[(char, &[u8], usize, u32)] = &[
    (
        'd',
        b"ms12namedll4f8jlh4e5vdvuldlfxu2jhdnlsm97xvenrxeg",
        ROOM,
        0,
    ),
    (
        'S',
        b"ms12names6xqguzttxkeqnjsjzv4jv3nz5k3kwgsphuh6evw",
        48,
        0,
    ),
    (
        'a',
        b"ms12namea320zyxwvutsrqpnmlkjhgfedcaxrpp870hkkqrm",
        48,
        0,
    ),
    ('d', b"", 47, 92),
    ('b', b"", ROOM, 86),
];

// The bytes that texts give, in a buffer of so many.
fn recovers(rt: &impl Abort, texts: &[u8], lengths: &[usize], room: usize, want: u32) {
    let (mut length, mut buffer) = (LENGTH_BEFORE, [BYTE_BEFORE; ROOM]);
    let (front, _) = buffer.split_at_mut(room.min(ROOM));
    let number = codex32_recover(texts, lengths, front, &mut length);
    answers(rt, number, (length, &buffer), (want, &SECRET));
}

// Of what `splits_known_secrets` has, each two of three, all three, and three of four; and of
// BIP-93 its second example.
const RECOVER_ROWS: &[(&[u8], &[usize], usize, u32)] = &[
    (PAIR, &[48, 48], ROOM, 0),
    (PAIR, &[48, 48], 16, 0),
    (PAIR, &[48, 48], 15, 92),
    (
        b"ms12testaanjvzsjql4wnx3rjvmsaj6s329vw4xnw2zhpf2lms12testcrmyzxxgv99pjwpzje5flkkqswrs3rg7dsphgkxs",
        &[48, 48],
        16,
        0,
    ),
    (
        b"ms12testdxq6clc5we6h747wjnzp805luhzdcajsev4hllyxms12testaanjvzsjql4wnx3rjvmsaj6s329vw4xnw2zhpf2l",
        &[48, 48],
        16,
        0,
    ),
    (
        b"ms12testcrmyzxxgv99pjwpzje5flkkqswrs3rg7dsphgkxsms12testdxq6clc5we6h747wjnzp805luhzdcajsev4hllyx",
        &[48, 48],
        16,
        0,
    ),
    (
        b"ms12testaanjvzsjql4wnx3rjvmsaj6s329vw4xnw2zhpf2lms12testcrmyzxxgv99pjwpzje5flkkqswrs3rg7dsphgkxsms12testdxq6clc5we6h747wjnzp805luhzdcajsev4hllyx",
        &[48, 48, 48],
        16,
        0,
    ),
    (
        b"ms13teste2h5xt644g5wkhg8dd5n23apcxecgz3gs4y5zkpgms13testcnj0jdsua5au042r82egg6nasjwd4jdk4cupvgvlms13testd7eqq992r5wsehymeaa5098cu9a4qq800zghwcau",
        &[48, 48, 48],
        16,
        0,
    ),
];

// Each refusal of texts, in their order, and of lengths, for both calls. Some texts are those of a
// reference model.
const REFUSED_ROWS: &[(&[u8], &[usize], u32)] = &[
    (b"", &[], 74),
    (PAIR, &[], 4),
    (PAIR, &[48, 47], 4),
    (PAIR, &[48, 49], 4),
    (PAIR, &[usize::MAX, 97], 4),
    (b"", &[0; 33], 4),
    (b"", &[0; 32], 23),
    (PAIR, &[47, 49], 82),
    (PAIR, &[48, 0, 48], 23),
    (b"\xff", &[1], 2),
    (
        b"MS12NAMEA320ZYXWVUTSRQPNMLKJHGFEDCAXRPP870HKKQRM",
        &[48],
        74,
    ),
    (
        b"ms12p28uckv28dt07kx0afygy97k6gqx4dux2vfcte2u8mfkms19p28f2x3q585nh7wq0lvdw3me4ejshqn23z773udhvpzp",
        &[48, 48],
        75,
    ),
    (
        b"ms10uvxascud86jrlpantlanp8ravpa4ze65recqytmhdn87ms10uvxastkxgh5ekgtgldhf5l6cfsjxyaqym80me2rj4mgw",
        &[48, 48],
        76,
    ),
    (
        b"ms12seffkx9wjn6dmy39azwsg54lwgymk9es0zjfq0sdm7mxms12seff6yyl4ae5zfszecmx9x8q86jprh94y89zt5xstl7gms12seffdaraz23vm92qwzplun324shjge80vj7c80qy5het",
        &[48, 48, 48],
        77,
    ),
];

#[test]
fn derives_and_recovers(rt: HostRuntime) {
    for &(index, text, room, want) in DERIVE_ROWS {
        derives(&rt, index, (PAIR, &[48, 48]), room, (want, text));
    }
    for &(texts, lengths, room, want) in RECOVER_ROWS {
        recovers(&rt, texts, lengths, room, want);
    }
    for &(texts, lengths, want) in REFUSED_ROWS {
        derives(&rt, 'd', (texts, lengths), ROOM, (want, b""));
        recovers(&rt, texts, lengths, 0, want);
    }
    let unshared: &[u8] = b"ms106rqlsplce96uty4tpqekl7q3gvhjvfmtdu4fkvexl7gg";
    derives(&rt, '5', (unshared, &[48]), ROOM, (84, b""));
    let more_bits: &[u8] = b"ms10testsq3pltvct4589s7dwvy9vuyxd49xa9xlxkzesmpcdeh4";
    recovers(&rt, more_bits, &[52], 0, 87);
}
