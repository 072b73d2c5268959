//! Texts that one walk reads, and texts of which it says nothing.

use bech32_checksum::{Bech32, Bech32m, Checksum};
use bech32_decode::{CheckedHrpstring, Reading, UncheckedHrpstringError};
use std::alloc::{AllocError, Global};
use testing_tools::rows::{no_row, word};

// Whether something accepts a text.
fn word_of(is_accepted: bool) -> &'static str {
    if is_accepted { "accepted" } else { "refused" }
}

// What one walk says of a text.
fn by_walk<Ck: Checksum>(text: &str) -> &'static str {
    match Reading::<Ck>::in_one_walk(text.as_bytes()) {
        Some(reading) => word_of(reading.validate().is_ok()),
        None => "nothing",
    }
}

// Whether a checksum accepts a text, or why it is none: by one walk, and where that says nothing in
// steps.
fn accepts<Ck: Checksum>(text: &str) -> Result<bool, UncheckedHrpstringError> {
    match Reading::<Ck>::new(text) {
        Ok(reading) => Ok(reading.validate().is_ok()),
        Err(error) => Err(error),
    }
}

// What one walk says of a text, what the reading says, and what the rules say.
fn shown<Ck: Checksum>(alloc: Global, text: &str) -> Result<String, AllocError> {
    let walked = by_walk::<Ck>(text);
    let by_rules = word_of(CheckedHrpstring::new::<Ck>(text).is_ok());
    match accepts::<Ck>(text) {
        Ok(is_so) => format!(in alloc; "{walked}|{}|{by_rules}", word_of(is_so)),
        Err(error) => format!(in alloc; "{walked}|{error}|{by_rules}"),
    }
}

// The version of an address that one walk reads, and how many characters its program has.
fn address(alloc: Global, text: &str) -> Result<String, AllocError> {
    let Some(reading) = Reading::<Bech32m>::in_one_walk(text.as_bytes()) else {
        return String::from_str(alloc, "nothing");
    };
    match reading.address() {
        Ok(address) => {
            let (version, count) = (address.version.to_u8(), address.program.len());
            format!(in alloc; "{version} {count}")
        }
        Err(error) => format!(in alloc; "{error}"),
    }
}

/// What a row of a checksum and a text, or of an address gives.
pub fn reply(alloc: Global, words: &[&str]) -> Result<String, AllocError> {
    let text = word(words, 2);
    match word(words, 1) {
        "Bech32" => shown::<Bech32>(alloc, text),
        "Bech32m" => shown::<Bech32m>(alloc, text),
        "address" => address(alloc, text),
        _ => no_row(alloc),
    }
}
