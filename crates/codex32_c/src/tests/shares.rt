use super::{BEFORE, BYTE_BEFORE, LENGTH_BEFORE, answers, same};
use crate::encode::{codex32_encode, codex32_encode_payload};
use crate::share::codex32_share;
use std::process::Abort;

const ROOM: usize = 160;

// The threshold, the identifier and the index of a share; and what they are before a call.
type Header = (u32, [u8; 4], u32);

const NO_HEADER: Header = (BEFORE, [BYTE_BEFORE; 4], BEFORE);

// Tells the parts of a share, with a buffer of this many bytes.
fn tells(rt: &impl Abort, text: &[u8], room: usize, header: Header, want: (u32, &[u8])) {
    let (mut length, mut buffer) = (LENGTH_BEFORE, [BYTE_BEFORE; ROOM]);
    let (mut threshold, mut identifier, mut share_index) = NO_HEADER;
    let (front, _) = buffer.split_at_mut(room.min(ROOM));
    let number = codex32_share(
        text,
        &mut threshold,
        &mut identifier,
        &mut share_index,
        front,
        &mut length,
    );
    same(rt, &(threshold, identifier, share_index), &header);
    answers(rt, number, (length, &buffer), want);
}

const SECRET: [u8; 16] = [
    0xd1, 0x80, 0x8e, 0x09, 0x6b, 0x35, 0xb2, 0x09, 0xca, 0x12, 0x13, 0x2b, 0x26, 0x46, 0x62, 0xa5,
];

const LONG_SECRET: [u8; 64] = [
    0xdc, 0x54, 0x23, 0x25, 0x1c, 0xb8, 0x71, 0x75, 0xff, 0x81, 0x10, 0xc8, 0x53, 0x1d, 0x09, 0x52,
    0xd8, 0xd7, 0x3e, 0x11, 0x94, 0xe9, 0x5b, 0x5f, 0x19, 0xd6, 0xf9, 0xdf, 0x7c, 0x01, 0x11, 0x11,
    0x04, 0xc9, 0xba, 0xec, 0xdf, 0xea, 0x8c, 0xcc, 0xc6, 0x77, 0xfb, 0x9d, 0xdc, 0x8a, 0xec, 0x55,
    0x53, 0xb8, 0x6e, 0x52, 0x8b, 0xca, 0xdf, 0xdc, 0xc2, 0x01, 0xc1, 0x7c, 0x63, 0x8c, 0x47, 0xe9,
];

// The string; the room; its header; and the number and the bytes. Of BIP-93: the secret of its
// first two examples, and the long string of its last.
const SHARE_ROWS: &[(&[u8], usize, Header, (u32, &[u8]))] = &[
    (SECRET_STRING, ROOM, SECRET_HEADER, (0, &SECRET)),
    (SECRET_STRING, 16, SECRET_HEADER, (0, &SECRET)),
    (SECRET_STRING, 15, NO_HEADER, (92, b"")),
    (
        b"MS100C8VSM32ZXFGUHPCHTLUPZRY9X8GF2TVDW0S3JN54KHCE6MUA7LQPZYGSFJD6AN074RXVCEMLH8WU3TK925ACDEFGHJKLMNPQRSTUVWXY06FHPV80UNDVARHRAK",
        64,
        (0, *b"0c8v", 115),
        (0, &LONG_SECRET),
    ),
    (b"\xff", 0, NO_HEADER, (2, b"")),
    (
        b"ms10testsxxxxxxxxxxxxxxxxxxxxxxxxxx4nzvca9cmczlb",
        0,
        NO_HEADER,
        (21, b""),
    ),
    (
        b"ms1qtestsqxxxxxxxxxxxxxxxxxxxxxxxxq4nzvca9cmczlq",
        0,
        NO_HEADER,
        (33, b""),
    ),
    (
        b"mt10testsxxxxxxxxxxxxxxxxxxxxxxxxxx4nzvca9cmczlw",
        0,
        NO_HEADER,
        (81, b""),
    ),
    (
        b"ms10testsxxxxxxxxxxxxxxxxxxxxxxxxxx4nzvca9cmczl",
        0,
        NO_HEADER,
        (82, b""),
    ),
    (
        b"ms1qtestsxxxxxxxxxxxxxxxxxxxxxxxxxxq68ksv56lmaq5",
        0,
        NO_HEADER,
        (83, b""),
    ),
    (
        b"ms12xh04fm5amh7k7ay0jj7mgh3ndf4zdx0dmxgdrhz38hawaewk",
        0,
        NO_HEADER,
        (87, b""),
    ),
];

const SECRET_STRING: &[u8] = b"MS12NAMES6XQGUZTTXKEQNJSJZV4JV3NZ5K3KWGSPHUH6EVW";

// The share index is the number of its character: `s`.
const SECRET_HEADER: Header = (2, *b"name", 115);

#[test]
fn tells_known_strings(rt: HostRuntime) {
    for &(text, room, header, want) in SHARE_ROWS {
        tells(&rt, text, room, header, want);
    }
}

// The string of a header and bytes, or the characters of a payload, in a buffer of this many bytes.
fn encodes(
    rt: &impl Abort,
    (threshold, identifier, index): (u32, &[u8], char),
    (is_payload, bytes): (bool, &[u8]),
    room: usize,
    want: (u32, &[u8]),
) {
    let (mut length, mut buffer) = (LENGTH_BEFORE, [BYTE_BEFORE; ROOM]);
    let (front, _) = buffer.split_at_mut(room.min(ROOM));
    let index = u32::from(index);
    let number = if is_payload {
        codex32_encode_payload(threshold, identifier, index, bytes, front, &mut length)
    } else {
        codex32_encode(threshold, identifier, index, bytes, front, &mut length)
    };
    answers(rt, number, (length, &buffer), want);
}

const BYTES: [u8; 16] = [
    0x09, 0xe7, 0x9b, 0x72, 0x33, 0x2f, 0x80, 0xcd, 0xfd, 0xd3, 0x82, 0x8b, 0xb4, 0x74, 0xd8, 0x2f,
];

// The same but for the first.
const FIFTEEN: [u8; 15] = [
    0xe7, 0x9b, 0x72, 0x33, 0x2f, 0x80, 0xcd, 0xfd, 0xd3, 0x82, 0x8b, 0xb4, 0x74, 0xd8, 0x2f,
];

const STRING: &[u8] = b"ms19lcr0rp8neku3n97qvmlwns29mgaxc9uy6d28pu26vj00";

// A header, the bytes of which some strings are those of a reference model, the room, and the
// number and the string: each refusal, in their order.
const BYTES_ROWS: &[((u32, &[u8], char), &[u8], usize, (u32, &[u8]))] = &[
    ((9, b"lcr0", 'r'), &BYTES, ROOM, (0, STRING)),
    ((9, b"LCR0", 'R'), &BYTES, 48, (0, STRING)),
    ((9, b"lcr0", 'r'), &BYTES, 47, (92, b"")),
    ((1, b"lcr0", 'r'), &[], 0, (83, b"")),
    ((10, b"lcr0", 'r'), &[], 0, (83, b"")),
    ((9, b"Lcr0", 'r'), &[], 0, (85, b"")),
    ((9, b"lcr", 'b'), &[], 0, (85, b"")),
    ((9, b"lc\xff0", 'b'), &[], 0, (85, b"")),
    ((9, b"lcr0", 'b'), &[], 0, (86, b"")),
    ((0, b"lcr0", 'r'), &[], 0, (84, b"")),
    ((9, b"lcr0", 'r'), &FIFTEEN, 0, (56, b"")),
];

// Of BIP-93: the first share of its second example, the long string of its last, and the payload of
// this.
const FIRST: &[u8] = b"ms12namea320zyxwvutsrqpnmlkjhgfedcaxrpp870hkkqrm";

const LAST: &[u8] =
    b"ms100c8vsm32zxfguhpchtlupzry9x8gf2tvdw0s3jn54khce6mua7lqpzygsfjd6an074rxvcemlh8wu3tk925acdefghjklmnpqrstuvwxy06fhpv80undvarhrak";

const PAYLOAD: &[u8] =
    b"M32ZXFGUHPCHTLUPZRY9X8GF2TVDW0S3JN54KHCE6MUA7LQPZYGSFJD6AN074RXVCEMLH8WU3TK925ACDEFGHJKLMNPQRSTUVWXY06F";

// The same with a payload.
const PAYLOAD_ROWS: &[((u32, &[u8], char), &[u8], usize, (u32, &[u8]))] = &[
    ((2, b"NAME", 'A'), UPPER_PAYLOAD, ROOM, (0, FIRST)),
    ((2, b"name", 'a'), LOWER_PAYLOAD, 48, (0, FIRST)),
    ((2, b"name", 'a'), LOWER_PAYLOAD, 47, (92, b"")),
    ((2, b"NAME", 'a'), LOWER_PAYLOAD, 48, (0, FIRST)),
    ((0, b"0c8v", 's'), PAYLOAD, 127, (0, LAST)),
    ((0, b"0c8v", 's'), PAYLOAD, 126, (92, b"")),
    ((1, b"nAme", 'b'), b"!", 0, (83, b"")),
    ((2, b"nAme", 'b'), b"!", 0, (85, b"")),
    ((0, b"name", 'b'), b"!", 0, (86, b"")),
    ((0, b"name", 'a'), b"!", 0, (84, b"")),
    ((2, b"name", 'a'), b"!", 0, (21, b"")),
    ((2, b"name", 'a'), b"320Zyb", 0, (21, b"")),
    ((2, b"name", 'a'), b"320\xff", 0, (21, b"")),
    ((2, b"name", 'a'), b"320Zy", 0, (22, b"")),
    ((2, b"name", 'a'), b"", 0, (56, b"")),
    (
        (2, b"name", 'a'),
        b"320zyxwvutsrqpnmlkjhgfedc",
        0,
        (56, b""),
    ),
    (
        (2, b"name", 'a'),
        b"320zyxwvutsrqpnmlkjhgfedcaa",
        0,
        (56, b""),
    ),
    ((2, b"name", 'a'), &[b'q'; 72], 0, (56, b"")),
    ((2, b"name", 'a'), &[b'q'; 102], 0, (56, b"")),
    ((2, b"name", 'a'), &[b'q'; 1000], 0, (56, b"")),
];

const UPPER_PAYLOAD: &[u8] = b"320ZYXWVUTSRQPNMLKJHGFEDCA";

const LOWER_PAYLOAD: &[u8] = b"320zyxwvutsrqpnmlkjhgfedca";

#[test]
fn encodes_known_strings(rt: HostRuntime) {
    for &(header, bytes, room, want) in BYTES_ROWS {
        encodes(&rt, header, (false, bytes), room, want);
    }
    for &(header, payload, room, want) in PAYLOAD_ROWS {
        encodes(&rt, header, (true, payload), room, want);
    }
}
