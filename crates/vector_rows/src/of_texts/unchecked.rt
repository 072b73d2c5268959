//! Addresses that are written without any test.

use super::refusals::written_or_message;
use bech32::Hrp;
use bech32::segwit::{
    encode_lower_to_fmt_unchecked, encode_lower_to_writer_unchecked, encode_to_fmt_unchecked,
    encode_to_writer_unchecked, encode_upper_to_fmt_unchecked, encode_upper_to_writer_unchecked,
};
use bech32_gf::gf32::Fe32;
use std::alloc::{AllocError, Global};
use std::{fmt, io};
use testing_tools::rows::{bytes_of, characters, no_row, word};

// Writes the address of these to a string.
fn put_in_string(
    form: &str,
    text: &mut String,
    hrp: Hrp,
    version: Fe32,
    program: &[u8],
) -> fmt::Result {
    match form {
        "lower" => encode_lower_to_fmt_unchecked(text, hrp, version, program),
        "upper" => encode_upper_to_fmt_unchecked(text, hrp, version, program),
        _ => encode_to_fmt_unchecked(text, hrp, version, program),
    }
}

// The address that is written to a string.
fn to_fmt(
    alloc: Global,
    form: &str,
    hrp: Hrp,
    version: Fe32,
    program: &[u8],
) -> Result<String, AllocError> {
    let mut text = String::new(alloc);
    let outcome = put_in_string(form, &mut text, hrp, version, program);
    written_or_message(alloc, outcome, text)
}

// Writes the address of these to bytes.
fn put_in_bytes(
    form: &str,
    bytes: &mut Vec<u8>,
    hrp: Hrp,
    version: Fe32,
    program: &[u8],
) -> io::Result<()> {
    match form {
        "lower" => encode_lower_to_writer_unchecked(bytes, hrp, version, program),
        "upper" => encode_upper_to_writer_unchecked(bytes, hrp, version, program),
        _ => encode_to_writer_unchecked(bytes, hrp, version, program),
    }
}

// The address that is written to bytes.
fn to_writer(
    alloc: Global,
    form: &str,
    hrp: Hrp,
    version: Fe32,
    program: &[u8],
) -> Result<String, AllocError> {
    let mut bytes = Vec::new(alloc);
    let outcome = put_in_bytes(form, &mut bytes, hrp, version, program);
    written_or_message(alloc, outcome, characters(alloc, &bytes)?)
}

// The address by both.
fn by_form(
    alloc: Global,
    form: &str,
    hrp: Hrp,
    version: Fe32,
    program: &[u8],
) -> Result<String, AllocError> {
    let mut line = to_fmt(alloc, form, hrp, version, program)?;
    line.push('|')?;
    line.push_str(&to_writer(alloc, form, hrp, version, program)?)?;
    Ok(line)
}

/// What a row of a form, a human-readable part, a witness version and a program gives.
pub fn reply(alloc: Global, words: &[&str]) -> Result<String, AllocError> {
    let Ok(hrp) = Hrp::parse(word(words, 2)) else {
        return no_row(alloc);
    };
    let Ok(number) = word(words, 3).parse::<u8>() else {
        return no_row(alloc);
    };
    let program = bytes_of(alloc, word(words, 4))?;
    let version = Fe32::from_low_bits(number);
    by_form(alloc, word(words, 1), hrp, version, &program)
}
