//! Texts that are written.

use super::refusals::{text_or_message, written_or_message};
use bech32::{
    Bech32, Bech32m, Checksum, EncodeError, EncodeIoError, Hrp, NoChecksum, encode,
    encode_elements, encode_lower, encode_lower_to_fmt, encode_lower_to_writer, encode_to_fmt,
    encode_to_writer, encode_upper, encode_upper_to_fmt, encode_upper_to_writer,
};
use std::alloc::{AllocError, Global};
use testing_tools::rows::{bytes_of, characters, no_row, word};

// The case of a text.
#[derive(Clone, Copy)]
enum Case {
    Either,
    Lower,
    Upper,
}

// The text of bytes, or why there is none.
fn in_memory<Ck: Checksum>(
    alloc: Global,
    case: Case,
    hrp: Hrp,
    data: &[u8],
) -> Result<String, AllocError> {
    let made = match case {
        Case::Either => encode::<Ck>(alloc, hrp, data),
        Case::Lower => encode_lower::<Ck>(alloc, hrp, data),
        Case::Upper => encode_upper::<Ck>(alloc, hrp, data),
    };
    text_or_message(alloc, made)
}

// Writes a text to a string.
fn put_in_string<Ck: Checksum>(
    case: Case,
    text: &mut String,
    hrp: Hrp,
    data: &[u8],
) -> Result<(), EncodeError> {
    match case {
        Case::Either => encode_to_fmt::<Ck, String>(text, hrp, data),
        Case::Lower => encode_lower_to_fmt::<Ck, String>(text, hrp, data),
        Case::Upper => encode_upper_to_fmt::<Ck, String>(text, hrp, data),
    }
}

// The text that is written to a string; where it is refused, the refusal and what was written.
fn to_fmt<Ck: Checksum>(
    alloc: Global,
    case: Case,
    hrp: Hrp,
    data: &[u8],
) -> Result<String, AllocError> {
    let mut text = String::new(alloc);
    let outcome = put_in_string::<Ck>(case, &mut text, hrp, data);
    written_or_message(alloc, outcome, text)
}

// Writes a text to bytes.
fn put_in_bytes<Ck: Checksum>(
    case: Case,
    bytes: &mut Vec<u8>,
    hrp: Hrp,
    data: &[u8],
) -> Result<(), EncodeIoError> {
    match case {
        Case::Either => encode_to_writer::<Ck, Vec<u8>>(bytes, hrp, data),
        Case::Lower => encode_lower_to_writer::<Ck, Vec<u8>>(bytes, hrp, data),
        Case::Upper => encode_upper_to_writer::<Ck, Vec<u8>>(bytes, hrp, data),
    }
}

// The text that is written to bytes; where it is refused, the refusal and what was written.
fn to_writer<Ck: Checksum>(
    alloc: Global,
    case: Case,
    hrp: Hrp,
    data: &[u8],
) -> Result<String, AllocError> {
    let mut bytes = Vec::new(alloc);
    let outcome = put_in_bytes::<Ck>(case, &mut bytes, hrp, data);
    written_or_message(alloc, outcome, characters(alloc, &bytes)?)
}

// The text by all three.
fn in_case<Ck: Checksum>(
    alloc: Global,
    case: Case,
    hrp: Hrp,
    data: &[u8],
) -> Result<String, AllocError> {
    let mut line = in_memory::<Ck>(alloc, case, hrp, data)?;
    line.push('|')?;
    line.push_str(&to_fmt::<Ck>(alloc, case, hrp, data)?)?;
    line.push('|')?;
    line.push_str(&to_writer::<Ck>(alloc, case, hrp, data)?)?;
    Ok(line)
}

// What a form of a call writes.
fn by_form<Ck: Checksum>(
    alloc: Global,
    form: &str,
    hrp: Hrp,
    data: &[u8],
) -> Result<String, AllocError> {
    match form {
        "either" => in_case::<Ck>(alloc, Case::Either, hrp, data),
        "lower" => in_case::<Ck>(alloc, Case::Lower, hrp, data),
        "upper" => in_case::<Ck>(alloc, Case::Upper, hrp, data),
        "elements" => text_or_message(alloc, encode_elements::<Ck, _>(alloc, hrp, data)),
        _ => no_row(alloc),
    }
}

/// What a row of a form, a checksum, a human-readable part and bytes gives.
pub fn reply(alloc: Global, words: &[&str]) -> Result<String, AllocError> {
    let Ok(hrp) = Hrp::parse(word(words, 3)) else {
        return no_row(alloc);
    };
    let data = bytes_of(alloc, word(words, 4))?;
    let form = word(words, 1);
    match word(words, 2) {
        "Bech32" => by_form::<Bech32>(alloc, form, hrp, &data),
        "Bech32m" => by_form::<Bech32m>(alloc, form, hrp, &data),
        "NoChecksum" => by_form::<NoChecksum>(alloc, form, hrp, &data),
        _ => no_row(alloc),
    }
}
