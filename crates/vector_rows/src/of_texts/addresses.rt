//! The address of a program, or why there is none, and how long it is.

use super::lengths;
use super::refusals::text_or_message;
use bech32::Hrp;
use bech32::segwit::{
    address_length_of_part, encode, encode_v0, encode_v1, encoded_length, encoded_length_of_part,
};
use bech32_gf::gf32::Fe32;
use std::alloc::{AllocError, Global};
use testing_tools::rows::{bytes_of, no_row, word};

// The address by the call of its version, which versions 0 and 1 have.
fn by_version(
    alloc: Global,
    hrp: Hrp,
    version: Fe32,
    program: &[u8],
) -> Result<String, AllocError> {
    match version.to_u8() {
        0 => text_or_message(alloc, encode_v0(alloc, hrp, program)),
        1 => text_or_message(alloc, encode_v1(alloc, hrp, program)),
        _ => String::from_str(alloc, "-"),
    }
}

// The address by each call.
fn texts(alloc: Global, hrp: Hrp, version: Fe32, program: &[u8]) -> Result<String, AllocError> {
    let mut line = text_or_message(alloc, encode(alloc, hrp, version, program))?;
    line.push('|')?;
    line.push_str(&by_version(alloc, hrp, version, program)?)?;
    Ok(line)
}

// Its length by each call: with all tests, and with that of the length alone.
fn lengths_of(
    alloc: Global,
    hrp: Hrp,
    version: Fe32,
    program: &[u8],
) -> Result<String, AllocError> {
    let part = hrp.as_bytes();
    let mut line = lengths::shown(alloc, address_length_of_part(part, version, program))?;
    line.push('|')?;
    line.push_str(&lengths::shown(alloc, encoded_length(hrp, version, program))?)?;
    line.push('|')?;
    line.push_str(&lengths::shown(alloc, encoded_length_of_part(part, program))?)?;
    Ok(line)
}

// Both.
fn by_each_call(
    alloc: Global,
    hrp: Hrp,
    version: Fe32,
    program: &[u8],
) -> Result<String, AllocError> {
    let mut line = texts(alloc, hrp, version, program)?;
    line.push('|')?;
    line.push_str(&lengths_of(alloc, hrp, version, program)?)?;
    Ok(line)
}

/// What a row of a human-readable part, a witness version and a program gives.
pub fn reply(alloc: Global, words: &[&str]) -> Result<String, AllocError> {
    let Ok(hrp) = Hrp::parse(word(words, 1)) else {
        return no_row(alloc);
    };
    let Ok(number) = word(words, 2).parse::<u8>() else {
        return no_row(alloc);
    };
    let program = bytes_of(alloc, word(words, 3))?;
    by_each_call(alloc, hrp, Fe32::from_low_bits(number), &program)
}
