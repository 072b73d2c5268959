use crate::correct::bech32_correct;
use crate::decode::{bech32_check, bech32_decode};
use crate::encode::bech32_encode;
use crate::fault::bech32_fault;
use crate::message::bech32_message;
use crate::segwit::{bech32_segwit_decode, bech32_segwit_encode};
use crate::version::bech32_version;
use std::process::Abort;

// What buffers hold before a call, and what lengths and places do.
const BEFORE: u8 = 0xee;

const LENGTH_BEFORE: usize = 7777;

// What a call gives: its number, a length, and a buffer.
type Put = (u32, usize, [u8; 24]);

// Whether the bytes stand at the front of the buffer, and behind them it is as it was.
fn has_front(buffer: &[u8], bytes: &[u8]) -> bool {
    for byte in buffer.iter().skip(bytes.len()) {
        if *byte != BEFORE {
            return false;
        }
    }
    buffer.starts_with(bytes)
}

// Fails where a call gives another number or length than these bytes have, or where they do not
// stand at the front of its buffer.
fn puts(rt: &impl Abort, (number, length, buffer): Put, bytes: &[u8]) {
    let found = (number, length, has_front(&buffer, bytes));
    assert_eq!(rt; found, (0, bytes.len(), true));
}

// What decoding a text gives: the human-readable part, and the bytes.
fn decoded(text: &[u8]) -> (Put, Put) {
    let (mut hrp, mut bytes) = ([BEFORE; 24], [BEFORE; 24]);
    let (mut hrp_length, mut length) = (LENGTH_BEFORE, LENGTH_BEFORE);
    let number = bech32_decode(text, &mut hrp, &mut hrp_length, &mut bytes, &mut length);
    ((number, hrp_length, hrp), (number, length, bytes))
}

// What reading an address gives: the human-readable part, the version, and the program.
fn read(text: &[u8]) -> (Put, u32, Put) {
    let (mut hrp, mut program) = ([BEFORE; 24], [BEFORE; 24]);
    let (mut hrp_length, mut version, mut length) = (LENGTH_BEFORE, 99, LENGTH_BEFORE);
    let number = bech32_segwit_decode(
        text,
        &mut hrp,
        &mut hrp_length,
        &mut version,
        &mut program,
        &mut length,
    );
    (
        (number, hrp_length, hrp),
        version,
        (number, length, program),
    )
}

// What mending a text gives: the locations, the values, and the text.
fn mended(text: &[u8], erasures: &[usize]) -> ([usize; 4], Put, Put) {
    let (mut locations, mut values, mut mended) = ([LENGTH_BEFORE; 4], [BEFORE; 24], [BEFORE; 24]);
    let (mut count, mut length) = (LENGTH_BEFORE, LENGTH_BEFORE);
    let number = bech32_correct(
        1,
        text,
        erasures,
        &mut locations,
        &mut values,
        &mut count,
        &mut mended,
        &mut length,
    );
    (locations, (number, count, values), (number, length, mended))
}

// Each call puts each of its outputs into its own place.
#[test]
fn puts_each_output(rt: HostRuntime) {
    let (mut text, mut length) = ([BEFORE; 24], LENGTH_BEFORE);
    let number = bech32_encode(2, b"a", b"\x88\0\0", &mut text, &mut length);
    puts(&rt, (number, length, text), b"a13qqqq9qz88s");
    let (part, bytes) = decoded(b"A13QQQQ9QZ88S");
    puts(&rt, part, b"A");
    puts(&rt, bytes, b"\x88\0\0");
    let (mut text, mut length) = ([BEFORE; 24], LENGTH_BEFORE);
    let number = bech32_segwit_encode(b"bc", 16, b"\x75\x1e", &mut text, &mut length);
    puts(&rt, (number, length, text), b"bc1sw50qgdz25j");
    let (part, version, program) = read(b"ABC1Z0PUH55NHNFN");
    puts(&rt, part, b"ABC");
    puts(&rt, program, b"xyz");
    let (locations, values, right) = mended(b"a12uel5q", &[3, 0]);
    puts(&rt, values, &[0, 31]);
    puts(&rt, right, b"a12uel5l");
    let (mut said, mut length) = ([BEFORE; 24], LENGTH_BEFORE);
    let number = bech32_message(33, &mut said, &mut length);
    puts(&rt, (number, length, said), b"the checksum is wrong");
    let found = (version, bech32_version(), locations);
    let want = (2, 100, [3, 0, LENGTH_BEFORE, LENGTH_BEFORE]);
    assert_eq!(&rt; &found, &want);
    let (mut hrp_length, mut length, mut place) = (LENGTH_BEFORE, LENGTH_BEFORE, LENGTH_BEFORE);
    let numbers = (
        bech32_check(2, b"a13qqqq9qz88s", &mut hrp_length, &mut length),
        bech32_fault(1, b"x1b4n0q5v", &mut place),
    );
    let found = (numbers, hrp_length, length, place);
    assert_eq!(&rt; &found, &((0, 21), 1, 5, 2));
}
