//! Long texts, encoded and decoded: those whose lines would be too long for `b32`.

use bech32::{
    Checksum, LongBech32, LongBech32m, TextError, decode_elements, decode_strict, encode,
    encode_elements,
};
use bech32_hrp::Hrp;
use bech32_numbers::{elements_error_number, encode_error_number, text_decode_error_number};
use std::alloc::{AllocError, Global};
use testing_tools::rows::{bytes_of, no_row, shown_bytes, word};

// A number of a refusal.
fn refused(alloc: Global, number: u8) -> Result<String, AllocError> {
    format!(in alloc; "err {number}")
}

// A text, or why there is none.
fn told(alloc: Global, text: Result<String, u8>) -> Result<String, AllocError> {
    match text {
        Ok(text) => format!(in alloc; "ok {text}"),
        Err(number) => refused(alloc, number),
    }
}

// The text of bytes under a human-readable part.
fn encoded<Ck: Checksum>(alloc: Global, hrp: Hrp, data: &[u8]) -> Result<String, AllocError> {
    told(
        alloc,
        encode::<Ck>(alloc, hrp, data).map_err(encode_error_number),
    )
}

// The text of elements under a human-readable part.
fn spelled<Ck: Checksum>(alloc: Global, hrp: Hrp, values: &[u8]) -> Result<String, AllocError> {
    told(
        alloc,
        encode_elements::<Ck, _>(alloc, hrp, values).map_err(elements_error_number),
    )
}

// The parts of a text, or why it is refused.
fn shown(alloc: Global, parts: Result<(Hrp, Vec<u8>), TextError>) -> Result<String, AllocError> {
    match parts {
        Ok((hrp, data)) => {
            let part = hrp.as_str().to_ascii_lowercase(alloc)?;
            let word = shown_bytes(alloc, &data)?;
            format!(in alloc; "ok {part} {word}")
        }
        Err(e) => refused(alloc, text_decode_error_number(e)),
    }
}

// What a row of a text gives by its checksum.
fn reply_by<Ck: Checksum>(alloc: Global, words: &[&str]) -> Result<String, AllocError> {
    let text = word(words, 3);
    match word(words, 1) {
        "decode-strict" => shown(alloc, decode_strict::<Ck, _>(alloc, text)),
        "decode-elements" => shown(alloc, decode_elements::<Ck, _>(alloc, text)),
        command => {
            let Ok(hrp) = Hrp::parse(text) else {
                return no_row(alloc);
            };
            let data = bytes_of(alloc, word(words, 4))?;
            match command {
                "encode" => encoded::<Ck>(alloc, hrp, &data),
                "encode-elements" => spelled::<Ck>(alloc, hrp, &data),
                _ => no_row(alloc),
            }
        }
    }
}

/// What a row of a long text gives: `encode` or `encode-elements`, a checksum, a human-readable
/// part and bytes in hex; or `decode-strict` or `decode-elements`, a checksum and a text.
pub fn reply(alloc: Global, words: &[&str]) -> Result<String, AllocError> {
    match word(words, 2) {
        "long-bech32" => reply_by::<LongBech32>(alloc, words),
        "long-bech32m" => reply_by::<LongBech32m>(alloc, words),
        _ => no_row(alloc),
    }
}
