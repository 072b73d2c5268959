//! Corrections that Bech32 and Bech32m look up.

use super::ways::shown;
use crate::listings::numbers;
use bech32::primitives::checksum::Lookup;
use bech32::{Bech32, Bech32m, Checksum};
use bech32_correction::lookup_listing;
use bech32_decode::Reading;
use bech32_gf::gf32::Fe32;
use std::alloc::{AllocError, Global};
use testing_tools::rows::{digits, no_row, word};

// The one error that leaves a residue.
fn one_error<Ck: Checksum>(alloc: Global, residue: &[Fe32]) -> Result<String, AllocError> {
    match Ck::one_error(residue) {
        Lookup::Found((location, value)) => format!(in alloc; "{location}:{value}"),
        Lookup::Absent => String::from_str(alloc, "none"),
        Lookup::NoTable => String::from_str(alloc, "unknown"),
    }
}

// The element at a location, and the one error beside it.
fn beside<Ck: Checksum>(
    alloc: Global,
    residue: &[Fe32],
    location: usize,
    window: usize,
) -> Result<String, AllocError> {
    match Ck::lookup_error_beside(residue, location, window) {
        Lookup::Found((value, (other, error))) => {
            format!(in alloc; "{location}:{value} {other}:{error}")
        }
        Lookup::Absent => String::from_str(alloc, "none"),
        Lookup::NoTable => String::from_str(alloc, "unknown"),
    }
}

fn three_shown(alloc: Global, values: [Fe32; 3]) -> Result<String, AllocError> {
    let (one, two, three) = (values[0], values[1], values[2]);
    format!(in alloc; "{one}{two}{three}")
}

// The values at three locations, zero where there are fewer.
fn values<Ck: Checksum>(alloc: Global, residue: &[Fe32], list: &str) -> Result<String, AllocError> {
    let locations = numbers(alloc, list)?;
    match Ck::values_at(residue, &locations) {
        Some(values) => three_shown(alloc, values),
        None => String::from_str(alloc, "unknown"),
    }
}

// What is looked up for a text that Bech32 refuses for its residue.
fn of_reading(
    alloc: Global,
    reading: &Reading<'_, Bech32>,
    erasures: &[usize],
) -> Result<String, AllocError> {
    let Ok(()) = reading.validate_lengths() else {
        return no_row(alloc);
    };
    if reading.has_target() {
        return no_row(alloc);
    }
    match lookup_listing(reading, erasures) {
        Lookup::Found(listing) => shown(alloc, listing.as_slice()),
        Lookup::Absent => String::from_str(alloc, "none"),
        Lookup::NoTable => String::from_str(alloc, "unknown"),
    }
}

// What is looked up for a text that one walk reads and Bech32 refuses.
fn of_text(alloc: Global, text: &str, list: &str) -> Result<String, AllocError> {
    let erasures = numbers(alloc, list)?;
    match Reading::<Bech32>::in_one_walk(text.as_bytes()) {
        Some(reading) => of_reading(alloc, &reading, &erasures),
        None => no_row(alloc),
    }
}

// What a row gives by its checksum.
fn reply_by<Ck: Checksum>(alloc: Global, words: &[&str]) -> Result<String, AllocError> {
    let residue = digits(alloc, word(words, 3))?;
    let (location, window) = (word(words, 4), word(words, 5));
    match word(words, 1) {
        "one" => one_error::<Ck>(alloc, &residue),
        "values" => values::<Ck>(alloc, &residue, location),
        "beside" => {
            let location = location.parse::<usize>().unwrap_or(0);
            let window = window.parse::<usize>().unwrap_or(0);
            beside::<Ck>(alloc, &residue, location, window)
        }
        _ => no_row(alloc),
    }
}

/// What a row gives: `one`, `beside` or `values`, a checksum, a residue and locations; or `text`, a
/// text and erasures.
pub fn reply(alloc: Global, words: &[&str]) -> Result<String, AllocError> {
    match word(words, 2) {
        "Bech32" => reply_by::<Bech32>(alloc, words),
        "Bech32m" => reply_by::<Bech32m>(alloc, words),
        text => of_text(alloc, text, word(words, 3)),
    }
}
