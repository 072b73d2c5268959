//! How long texts are.

use bech32::{Bech32, Bech32m, Checksum, Hrp, encoded_length, encoded_length_of_part};
use std::alloc::{AllocError, Global};
use std::fmt::Display;
use testing_tools::rows::{bytes_of, no_row, word};

/// A length, or why there is none.
pub fn shown<E: Display + Drop>(
    alloc: Global,
    length: Result<usize, E>,
) -> Result<String, AllocError> {
    match length {
        Ok(length) => format!(in alloc; "{length}"),
        Err(error) => format!(in alloc; "{error}"),
    }
}

// The length by two calls.
fn by_each_call<Ck: Checksum>(alloc: Global, hrp: Hrp, data: &[u8]) -> Result<String, AllocError> {
    let mut line = shown(alloc, encoded_length::<Ck>(hrp, data))?;
    line.push('|')?;
    let of_part = encoded_length_of_part::<Ck>(hrp.as_bytes(), data);
    line.push_str(&shown(alloc, of_part)?)?;
    Ok(line)
}

/// What a row of a checksum, a human-readable part and bytes gives.
pub fn reply(alloc: Global, words: &[&str]) -> Result<String, AllocError> {
    let Ok(hrp) = Hrp::parse(word(words, 2)) else {
        return no_row(alloc);
    };
    let data = bytes_of(alloc, word(words, 3))?;
    match word(words, 1) {
        "Bech32" => by_each_call::<Bech32>(alloc, hrp, &data),
        "Bech32m" => by_each_call::<Bech32m>(alloc, hrp, &data),
        _ => no_row(alloc),
    }
}
