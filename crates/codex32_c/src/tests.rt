mod messages;
mod proposals;
mod sets;
mod shares;
mod splits;

use crate::parse::codex32_parse;
use std::fmt::Debug;
use std::process::Abort;

// What numbers, lengths and the bytes of buffers hold before a call.
const BEFORE: u32 = 7777;

const LENGTH_BEFORE: usize = 7777;

const BYTE_BEFORE: u8 = 0xee;

// Fails where the two differ.
fn same<T: PartialEq + Debug>(rt: &impl Abort, got: &T, want: &T) {
    assert_eq!(rt; got, want);
}

// Whether the bytes stand at the front of the buffer, and behind them it is as it was.
fn has_front(buffer: &[u8], bytes: &[u8]) -> bool {
    for byte in buffer.iter().skip(bytes.len()) {
        if *byte != BYTE_BEFORE {
            return false;
        }
    }
    buffer.starts_with(bytes)
}

// What a length and the front of a buffer are to be after an answer: where its number is 0, that of
// these bytes and these, and else as they were.
fn written(number: u32, bytes: &[u8]) -> (usize, &[u8]) {
    if number == 0 {
        (bytes.len(), bytes)
    } else {
        (LENGTH_BEFORE, b"")
    }
}

// Fails where another number is the answer, or where a length and a buffer are not what they are to
// be then.
fn answers(
    rt: &impl Abort,
    number: u32,
    (length, buffer): (usize, &[u8]),
    (want, bytes): (u32, &[u8]),
) {
    let (count, front) = written(want, bytes);
    let found = (number, length, has_front(buffer, front));
    same(rt, &found, &(want, count, true));
}

// The answer to a text, and what the numbers hold then.
fn answer(text: &[u8]) -> (u32, u32, u32, usize) {
    let (mut threshold, mut share_index, mut length) = (BEFORE, BEFORE, LENGTH_BEFORE);
    let number = codex32_parse(text, &mut threshold, &mut share_index, &mut length);
    (number, threshold, share_index, length)
}

// The threshold, the share index and the length of the payload. Some strings are those of a
// reference model and of the Rust crate bech32 with a codex32 profile, which agree; the first two
// are of BIP-93.
const KNOWN_ROWS: &[(&[u8], (u32, char, usize))] = &[
    (
        b"ms10testsxxxxxxxxxxxxxxxxxxxxxxxxxx4nzvca9cmczlw",
        (0, 's', 26),
    ),
    (
        b"MS10TESTSXXXXXXXXXXXXXXXXXXXXXXXXXX4NZVCA9CMCZLW",
        (0, 'S', 26),
    ),
    (
        b"ms12testaxxxxxxxxxxxxxxxxxxxxxxxxxxk2htcew89530d",
        (2, 'a', 26),
    ),
    (
        b"ms14v8j700fq3pltvct4589s7dwvy9vuyxd49xa9x3u8kre0w7egcqzrlzkm87vzm6vp7m08v7",
        (4, '0', 52),
    ),
    (
        b"ms12pfq9axd9m2xcjalevmsj955v3h7eesc5ndtrers3guca",
        (2, 'a', 26),
    ),
    (
        b"ms13lwj58s47h5wpzp0pm9dmwl0n4084llte76ftpzr2phlsa93mxazghatx2hglr8p754666v",
        (3, '8', 52),
    ),
];

const REFUSED_ROWS: &[(&[u8], u32)] = &[
    (b"\xff", 2),
    (b"1qqqqqq", 11),
    (b" 1qqqqqq", 14),
    (b"\xc3\xa91qqqqqq", 13),
    (b"ms10testsxxxxxxxxxxxxxxxxxxxxxxxxxx4nzvca9cmczlb", 21),
    (b"Ms1q", 22),
    (b"msq", 23),
    (b"ms1qtestsqxxxxxxxxxxxxxxxxxxxxxxxxq4nzvca9cmczlq", 33),
    (b"mt10testsxxxxxxxxxxxxxxxxxxxxxxxxxx4nzvca9cmczlw", 81),
    (b"ms10testsxxxxxxxxxxxxxxxxxxxxxxxxxx4nzvca9cmczl", 82),
    (b"mt10testsxxxxxxxxxxxxxxxxxxxxxxxxxx4nzvca9cmczl", 82),
    (b"ms1qtestsxxxxxxxxxxxxxxxxxxxxxxxxxxq68ksv56lmaq5", 83),
    (b"ms10testaxxxxxxxxxxxxxxxxxxxxxxxxxxzd568kp774rau", 84),
];

#[test]
fn reads_known_strings(rt: HostRuntime) {
    for &(text, (threshold, share_index, length)) in KNOWN_ROWS {
        let want = (0, threshold, u32::from(share_index), length);
        same(&rt, &answer(text), &want);
    }
    for &(text, want) in REFUSED_ROWS {
        same(&rt, &answer(text), &(want, BEFORE, BEFORE, LENGTH_BEFORE));
    }
}
