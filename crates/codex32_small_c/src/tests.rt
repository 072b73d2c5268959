use crate::derive::codex32_derive;
use crate::encode::{codex32_encode, codex32_encode_payload};
use crate::message::codex32_message;
use crate::share::codex32_share;
use crate::version::codex32_version;
use std::process::Abort;

// Fails where another number is the answer, or where another text is put.
fn same(rt: &impl Abort, got: (u32, &[u8]), want: (u32, &[u8])) {
    assert_eq!(rt; got, want);
}

// What reading a string puts: threshold, identifier and share index, and how many bytes.
type Header = (u32, [u8; 4], u32, usize);

fn same_header(rt: &impl Abort, got: Header, want: Header) {
    assert_eq!(rt; got, want);
}

// Reads a string into a buffer.
fn read(text: &[u8], bytes: &mut [u8]) -> (u32, Header) {
    let (mut threshold, mut share_index, mut length) = (99u32, 99u32, 99usize);
    let mut identifier = [0u8; 4];
    let number = codex32_share(
        text,
        &mut threshold,
        &mut identifier,
        &mut share_index,
        bytes,
        &mut length,
    );
    (number, (threshold, identifier, share_index, length))
}

// Some bytes and their string, of a reference model.
const BYTES: [u8; 16] = [
    0x09, 0xe7, 0x9b, 0x72, 0x33, 0x2f, 0x80, 0xcd, 0xfd, 0xd3, 0x82, 0x8b, 0xb4, 0x74, 0xd8, 0x2f,
];

const STRING: &[u8] = b"ms19lcr0rp8neku3n97qvmlwns29mgaxc9uy6d28pu26vj00";

const PAIR: &[u8] =
    b"MS12NAMEA320ZYXWVUTSRQPNMLKJHGFEDCAXRPP870HKKQRMMS12NAMECACDEFGHJKLMNPQRSTUVWXYZ023FTR2GDZMPY6PN";

const ONE: &[u8] = b"MS12NAMEA320ZYXWVUTSRQPNMLKJHGFEDCAXRPP870HKKQRM";

// Two strings of BIP-93 give a third, and the secret: the share index, the texts and their lengths,
// the room, and the number and the string.
const DERIVE_ROWS: &[(u32, &[u8], &[usize], usize, (u32, &[u8]))] = &[
    (
        68,
        PAIR,
        &[48, 48],
        48,
        (0, b"ms12namedll4f8jlh4e5vdvuldlfxu2jhdnlsm97xvenrxeg"),
    ),
    (
        115,
        PAIR,
        &[48, 48],
        48,
        (0, b"ms12names6xqguzttxkeqnjsjzv4jv3nz5k3kwgsphuh6evw"),
    ),
    (115, PAIR, &[48, 47], 48, (4, b"")),
    (98, PAIR, &[48, 48], 48, (86, b"")),
    (115, ONE, &[48], 48, (74, b"")),
    (115, PAIR, &[48, 48], 47, (92, b"")),
];

// Each call puts each of its outputs into its own place.
#[test]
fn puts_each_output(rt: HostRuntime) {
    let mut bytes = [0u8; 16];
    let (number, header) = read(STRING, &mut bytes);
    same(&rt, (number, &bytes), (0, &BYTES));
    same_header(&rt, header, (9, *b"lcr0", 114, 16));
    let (mut text, mut count) = ([0u8; 48], 0usize);
    let number = codex32_encode(9, b"LCR0", 82, &BYTES, &mut text, &mut count);
    same(&rt, (number, &text), (0, STRING));
    let number = codex32_encode_payload(
        0,
        b"test",
        115,
        b"xxxxxxxxxxxxxxxxxxxxxxxxxx",
        &mut text,
        &mut count,
    );
    let (found, _) = text.split_at(count.min(48));
    let want = b"ms10testsxxxxxxxxxxxxxxxxxxxxxxxxxx4nzvca9cmczlw";
    same(&rt, (number, found), (0, want));
    let (mut text, mut count) = ([0u8; 48], 0usize);
    let number = codex32_message(33, &mut text, &mut count);
    let (said, _) = text.split_at(count.min(48));
    same(&rt, (number, said), (0, b"the checksum is wrong"));
    same(&rt, (codex32_version(), b""), (100, b""));
    for &(index, texts, lengths, room, want) in DERIVE_ROWS {
        let (mut text, mut count) = ([0u8; 48], 0usize);
        let (front, _) = text.split_at_mut(room.min(48));
        let number = codex32_derive(index, texts, lengths, front, &mut count);
        let (found, _) = text.split_at(count.min(48));
        same(&rt, (number, found), want);
    }
}
