use crate::elements::{bech32_decode_elements, bech32_encode_elements};
use crate::strict::bech32_decode_strict;
use crate::tests::{BEFORE, LENGTH_BEFORE, Parts, answers, same};
use std::process::Abort;

// The address of a silent payment (BIP-352), and its elements: a version, 0, and those of 66 bytes.
const PAYMENT: &[u8] =
    b"sp1qqgste7k9hx0qftg6qmwlkqtwuy6cycyavzmzj85c6qdfhjdpdjtdgqjuexzk6murw56suy3e0rd2cgqvycxttddwsvgxe2usfpxumr70xc9pkqwv";

const ELEMENTS: [u8; 107] = [
    0, 0, 8, 16, 11, 25, 30, 22, 5, 23, 6, 15, 0, 9, 11, 8, 26, 0, 27, 14, 31, 22, 0, 11, 14, 28,
    4, 26, 24, 4, 24, 4, 29, 12, 2, 27, 2, 18, 7, 20, 24, 26, 0, 13, 9, 23, 18, 13, 1, 13, 18, 11,
    13, 8, 0, 18, 28, 25, 6, 2, 22, 26, 27, 28, 3, 14, 20, 26, 16, 28, 4, 17, 25, 15, 3, 13, 10,
    24, 8, 0, 12, 4, 24, 6, 11, 11, 13, 13, 14, 16, 12, 8, 6, 25, 10, 28, 16, 9, 1, 6, 28, 27, 3,
    30, 15, 6, 24,
];

// A key of nostr, and the same bytes with the last bit of their padding set; an account of Cosmos
// with an element more than its bytes have.
const KEY: &[u8] = b"npub10elfcs4fr0l0r8af98jlmgdh9c8tcxjvz9qkw038js35mp4dma8qzvjptg";

const KEY_OF_OTHER_BITS: &[u8] = b"npub10elfcs4fr0l0r8af98jlmgdh9c8tcxjvz9qkw038js35mp4dma8pl6x5k6";

const ACCOUNT_OF_MORE_BITS: &[u8] = b"cosmos1vx8knpllrj7n963p9ttd80w47kpacrhuqqj5yhr";

const KEY_BYTES: [u8; 32] = [
    0x7e, 0x7e, 0x9c, 0x42, 0xa9, 0x1b, 0xfe, 0xf1, 0x9f, 0xa9, 0x29, 0xe5, 0xfd, 0xa1, 0xb7, 0x2e,
    0x0e, 0xbc, 0x1a, 0x4c, 0x11, 0x41, 0x67, 0x3e, 0x27, 0x94, 0x23, 0x4d, 0x86, 0xad, 0xdf, 0x4e,
];

// Decodes the only text of its bytes, or elements, into buffers with so much room for these.
fn decodes(
    rt: &impl Abort,
    is_strict: bool,
    (checksum, text): (u32, &[u8]),
    room: usize,
    want: Parts<'_>,
) {
    let (mut hrp, mut found) = ([BEFORE; 83], [BEFORE; 128]);
    let (mut hrp_count, mut count) = (LENGTH_BEFORE, LENGTH_BEFORE);
    let (front, _) = found.split_at_mut(room.min(128));
    let number = if is_strict {
        bech32_decode_strict(checksum, text, &mut hrp, &mut hrp_count, front, &mut count)
    } else {
        bech32_decode_elements(checksum, text, &mut hrp, &mut hrp_count, front, &mut count)
    };
    answers(rt, number, (hrp_count, &hrp), (want.0, want.1));
    answers(rt, number, (count, &found), (want.0, want.2));
}

// Whether it is the only text of its bytes; the checksum and the text; the room; and the parts.
const DECODE_ROWS: &[(bool, (u32, &[u8]), usize, Parts<'static>)] = &[
    (true, (1, KEY), 32, (0, b"npub", &KEY_BYTES)),
    (true, (2, b"A1LQFN3A"), 64, (0, b"A", b"")),
    (true, (0, KEY), 64, (4, b"", b"")),
    (true, (1, b"\xff"), 64, (2, b"", b"")),
    (true, (1, b"nqu"), 64, (23, b"", b"")),
    (true, (2, KEY), 64, (33, b"", b"")),
    (true, (1, ACCOUNT_OF_MORE_BITS), 64, (44, b"", b"")),
    (true, (1, KEY_OF_OTHER_BITS), 64, (45, b"", b"")),
    (true, (2, PAYMENT), 64, (44, b"", b"")),
    (true, (1, &[b'1'; 1024]), 64, (12, b"", b"")),
    (true, (1, KEY), 31, (92, b"", b"")),
    (false, (2, PAYMENT), 107, (0, b"sp", &ELEMENTS)),
    (false, (7, PAYMENT), 128, (4, b"", b"")),
    (false, (1, PAYMENT), 128, (33, b"", b"")),
    (false, (2, b"sp1"), 128, (32, b"", b"")),
    (false, (2, PAYMENT), 106, (92, b"", b"")),
];

// Encodes elements with so much room for the text: the number, the place, and the text.
fn encodes(
    rt: &impl Abort,
    row: (u32, &[u8], &[u8]),
    room: usize,
    (want, fault, spelled): (u32, usize, &[u8]),
) {
    let (mut place, mut count, mut text) = (LENGTH_BEFORE, LENGTH_BEFORE, [BEFORE; 128]);
    let (front, _) = text.split_at_mut(room.min(128));
    let number = bech32_encode_elements(row.0, row.1, row.2, &mut place, front, &mut count);
    same(rt, &place, &fault);
    answers(rt, number, (count, &text), (want, spelled));
}

// The checksum, the human-readable part and the elements; the room; and the number, the place and
// the text.
const ENCODE_ROWS: &[(u32, &[u8], &[u8], usize, (u32, usize, &[u8]))] = &[
    (2, b"SP", &ELEMENTS, 116, (0, LENGTH_BEFORE, PAYMENT)),
    (7, b"sp", b"\0", 128, (4, LENGTH_BEFORE, b"")),
    (1, b"\xff", b"\0", 128, (2, LENGTH_BEFORE, b"")),
    (1, b"", b"\xff", 128, (11, LENGTH_BEFORE, b"")),
    (1, b"sp", b"\x1f\0\x20\xff", 128, (67, 2, b"")),
    (1, b"a", &[32; 1016], 128, (51, LENGTH_BEFORE, b"")),
    (1, b"sp", b"\x1f\0", 10, (92, LENGTH_BEFORE, b"")),
];

#[test]
fn elements_both_ways(rt: HostRuntime) {
    for &(is_strict, asked, room, want) in DECODE_ROWS {
        decodes(&rt, is_strict, asked, room, want);
    }
    for &(checksum, hrp, elements, room, want) in ENCODE_ROWS {
        encodes(&rt, (checksum, hrp, elements), room, want);
    }
}
