//! The rules of addresses on versions and lengths.

use crate::of_parts::readers::outcome;
use bech32_decode::segwit::{
    MAX_STRING_LENGTH, VERSION_0, VERSION_1, is_valid_witness_program_length,
    is_valid_witness_version, validate_witness_program_length, validate_witness_version,
};
use bech32_gf::gf32::Fe32;
use std::alloc::{AllocError, Global};
use testing_tools::rows::{digits, no_row, word};

// Whether an element is a version, and why not.
fn version(alloc: Global, version: Fe32) -> Result<String, AllocError> {
    let tested = outcome(alloc, validate_witness_version(version))?;
    format!(in alloc; "{}|{tested}", is_valid_witness_version(version))
}

/// What a row of an element gives.
pub fn version_reply(alloc: Global, words: &[&str]) -> Result<String, AllocError> {
    match digits(alloc, word(words, 1))?.first() {
        Some(x) => version(alloc, *x),
        None => no_row(alloc),
    }
}

// Whether a program of a version may have this length, and why not.
fn length(alloc: Global, length: usize, version: Fe32) -> Result<String, AllocError> {
    let tested = outcome(alloc, validate_witness_program_length(length, version))?;
    let is_valid = is_valid_witness_program_length(length, version);
    format!(in alloc; "{version} {is_valid}|{tested}")
}

/// What a row of a length gives: for versions 0 and 1, and the greatest length of an address.
pub fn program_reply(alloc: Global, words: &[&str]) -> Result<String, AllocError> {
    let Ok(count) = word(words, 1).parse::<usize>() else {
        return no_row(alloc);
    };
    let first = length(alloc, count, VERSION_0)?;
    let second = length(alloc, count, VERSION_1)?;
    format!(in alloc; "{first}|{second}|{MAX_STRING_LENGTH}")
}
