//! Confidential addresses of Liquid: decoded, encoded, and the texts near one.

use crate::listings::numbers;
use bech32_correction::{CorrectError, Mended};
use bech32_gf::gf32::Fe32;
use bech32_hrp::Hrp;
use bech32_near::nearest;
use bech32_numbers::checked_error_number;
use liquid::{
    Address, Blech32, KEY_LENGTH, decode, decode_error_number, encode, encode_error_number,
};
use std::alloc::{AllocError, Global};
use testing_tools::rows::{bytes_of, no_row, shown_bytes, word};

// A number of a refusal.
fn refused(alloc: Global, number: u8) -> Result<String, AllocError> {
    format!(in alloc; "err {number}")
}

// The parts of an address.
fn shown(alloc: Global, address: &Address) -> Result<String, AllocError> {
    let key = shown_bytes(alloc, address.blinding_key())?;
    let program = shown_bytes(alloc, address.program())?;
    let version = address.witness_version().to_u8();
    format!(in alloc; "{} {version} {key} {program}", address.hrp())
}

// What a text is decoded to.
fn decoded(alloc: Global, text: &str) -> Result<String, AllocError> {
    match decode(text) {
        Ok(address) => shown(alloc, &address),
        Err(e) => refused(alloc, decode_error_number(e)),
    }
}

// The address of these parts.
fn encoded_parts(
    alloc: Global,
    hrp: Hrp,
    version: Fe32,
    key: &[u8],
    program: &[u8],
) -> Result<String, AllocError> {
    if key.len() != KEY_LENGTH {
        return no_row(alloc);
    }
    let mut blinding_key = [0u8; 33];
    blinding_key.copy_from_slice(key);
    match encode(alloc, hrp, version, &blinding_key, program) {
        Ok(text) => Ok(text),
        Err(e) => refused(alloc, encode_error_number(e)),
    }
}

// The address of the parts of a row.
fn encoded(alloc: Global, words: &[&str]) -> Result<String, AllocError> {
    let Ok(hrp) = Hrp::parse(word(words, 2)) else {
        return no_row(alloc);
    };
    let Ok(number) = word(words, 3).parse::<u8>() else {
        return no_row(alloc);
    };
    let key = bytes_of(alloc, word(words, 4))?;
    let program = bytes_of(alloc, word(words, 5))?;
    encoded_parts(alloc, hrp, Fe32::from_low_bits(number), &key, &program)
}

// Puts a text behind others.
fn push(line: &mut String, text: &str) -> Result<(), AllocError> {
    if !line.is_empty() {
        line.push(' ')?;
    }
    line.push_str(text)
}

// Texts, and `none` for none.
fn all_shown(alloc: Global, texts: &[Mended]) -> Result<String, AllocError> {
    if texts.is_empty() {
        return String::from_str(alloc, "none");
    }
    let mut line = String::new(alloc);
    for mended in texts {
        push(&mut line, mended.text.as_str())?;
    }
    Ok(line)
}

// The texts near one.
fn near(alloc: Global, text: &str, list: &str, errors: usize) -> Result<String, AllocError> {
    let erasures = numbers(alloc, list)?;
    match nearest::<Blech32, _>(alloc, text, &erasures, errors) {
        Ok(near) => all_shown(alloc, &near.texts),
        Err(CorrectError::Refused(e)) => refused(alloc, checked_error_number(e)),
        Err(CorrectError::Memory) => no_row(alloc),
    }
}

/// What a row of Liquid gives: `decode` and a text; `encode` and a human-readable part, a version,
/// a blinding key and a program; or `near`, a text, erasures and a number of errors.
pub fn reply(alloc: Global, words: &[&str]) -> Result<String, AllocError> {
    match word(words, 1) {
        "decode" => decoded(alloc, word(words, 2)),
        "encode" => encoded(alloc, words),
        "near" => {
            let errors = word(words, 4).parse::<usize>().unwrap_or(0);
            near(alloc, word(words, 2), word(words, 3), errors)
        }
        _ => no_row(alloc),
    }
}
