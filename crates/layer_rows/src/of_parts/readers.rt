//! What readers find in texts.

use crate::of_parts::addresses;
use crate::of_parts::turns::turns;
use bech32_checksum::{Bech32, Bech32m, Checksum};
use bech32_decode::{CheckedHrpstring, ChecksumError, InvalidResidueError, UncheckedHrpstring};
use bech32_gf::gf32::Fe32;
use std::alloc::{AllocError, Global};
use std::fmt::Display;
use testing_tools::rows::{characters, no_row, word};

// A version, and `-` for none.
fn version_shown(alloc: Global, version: Option<Fe32>) -> Result<String, AllocError> {
    match version {
        Some(version) => format!(in alloc; "{version}"),
        None => String::from_str(alloc, "-"),
    }
}

/// `fine`, or a refusal.
pub fn outcome<E: Display + Drop>(
    alloc: Global,
    found: Result<(), E>,
) -> Result<String, AllocError> {
    match found {
        Ok(()) => String::from_str(alloc, "fine"),
        Err(error) => format!(in alloc; "{error}"),
    }
}

// The parts of a text, its version, and its data part behind that.
fn unchecked(alloc: Global, mut text: UncheckedHrpstring<'_>) -> Result<String, AllocError> {
    let data = characters(alloc, text.data_part_ascii())?;
    let version = version_shown(alloc, text.witness_version())?;
    let removed = version_shown(alloc, text.remove_witness_version())?;
    let rest = characters(alloc, text.data_part_ascii())?;
    format!(in alloc; "{}|{data}|{version}|{removed}|{rest}", text.hrp())
}

/// What a row of a text gives whose checksum is not tested.
pub fn reply(alloc: Global, words: &[&str]) -> Result<String, AllocError> {
    match UncheckedHrpstring::new(word(words, 1)) {
        Ok(text) => unchecked(alloc, text),
        Err(error) => format!(in alloc; "{error}"),
    }
}

// The elements and the bytes of a data part in turns.
fn items(alloc: Global, text: &CheckedHrpstring<'_>) -> Result<String, AllocError> {
    let times = text.fe32_iter().len().saturating_add(2);
    let elements = turns(alloc, &mut text.fe32_iter(), times)?;
    let bytes = turns(alloc, &mut text.byte_iter(), times)?;
    format!(in alloc; "{elements}|{bytes}")
}

// What the rules of addresses say of a data part without its version.
fn rules(alloc: Global, text: &CheckedHrpstring<'_>) -> Result<String, AllocError> {
    let padding = outcome(alloc, text.validate_segwit_padding())?;
    let first = outcome(alloc, text.validate_witness_program_length(Fe32::Q))?;
    let second = outcome(alloc, text.validate_witness_program_length(Fe32::P))?;
    format!(in alloc; "{padding}|{first}|{second}")
}

// The parts of an accepted text, its version, its data part behind that, and what the rules of
// addresses say of it.
fn accepted(alloc: Global, mut text: CheckedHrpstring<'_>) -> Result<String, AllocError> {
    let address = addresses::outcome(alloc, text.validate_segwit())?;
    let items = items(alloc, &text)?;
    let rules = rules(alloc, &text)?;
    let version = version_shown(alloc, text.remove_witness_version())?;
    let rest = characters(alloc, text.data_part_ascii_no_checksum())?;
    format!(in alloc; "{}|{version}|{rest}|{items}|{rules}|{address}", text.hrp())
}

/// What a row of a checksum and a text gives.
pub fn checked_reply<Ck: Checksum>(alloc: Global, words: &[&str]) -> Result<String, AllocError> {
    match CheckedHrpstring::new::<Ck>(word(words, 2)) {
        Ok(text) => accepted(alloc, text),
        Err(error) => format!(in alloc; "{error}"),
    }
}

// Whether the checksum of a text is right, and its data part without it, or why it is wrong.
fn taken_off<Ck: Checksum>(
    alloc: Global,
    text: UncheckedHrpstring<'_>,
) -> Result<String, AllocError> {
    let is_valid = text.has_valid_checksum::<Ck>();
    match text.validate_and_remove_checksum::<Ck>() {
        Ok(checked) => {
            let data = characters(alloc, checked.data_part_ascii_no_checksum())?;
            format!(in alloc; "{is_valid}|{}|{data}", checked.hrp())
        }
        Err(error) => format!(in alloc; "{is_valid}|{error}"),
    }
}

/// What a row of a checksum and a text gives whose version is taken off first.
pub fn shortened_reply<Ck: Checksum>(alloc: Global, words: &[&str]) -> Result<String, AllocError> {
    match UncheckedHrpstring::new(word(words, 2)) {
        Ok(mut text) => {
            text.remove_witness_version();
            taken_off::<Ck>(alloc, text)
        }
        Err(error) => format!(in alloc; "{error}"),
    }
}

/// What a row of a checksum and a text gives: what comes of its checksum, and the data part without
/// it, untested.
pub fn untested_reply<Ck: Checksum>(alloc: Global, words: &[&str]) -> Result<String, AllocError> {
    let Ok(text) = UncheckedHrpstring::new(word(words, 2)) else {
        return no_row(alloc);
    };
    let tested = taken_off::<Ck>(alloc, text)?;
    if text.data_part_ascii().len() < Ck::CHECKSUM_LENGTH {
        return Ok(tested);
    }
    let checked = text.remove_checksum::<Ck>();
    let data = characters(alloc, checked.data_part_ascii_no_checksum())?;
    format!(in alloc; "{tested}|{data}")
}

// What the remainder of a text is refused for.
fn residue_error<Ck: Checksum>(text: &str) -> Option<InvalidResidueError> {
    match UncheckedHrpstring::new(text)
        .ok()?
        .validate_checksum::<Ck>()
    {
        Err(ChecksumError::InvalidResidue(error)) => Some(error),
        _ => None,
    }
}

// The same by the checksum of a name.
fn error_by(name: &str, text: &str) -> Option<InvalidResidueError> {
    match name {
        "Bech32" => residue_error::<Bech32>(text),
        "Bech32m" => residue_error::<Bech32m>(text),
        _ => None,
    }
}

/// What a row of two checksums, each with a text, gives: whether the texts are refused for equal
/// remainders.
pub fn residues_reply(alloc: Global, words: &[&str]) -> Result<String, AllocError> {
    let first = error_by(word(words, 1), word(words, 2));
    let second = error_by(word(words, 3), word(words, 4));
    match (first, second) {
        (Some(first), Some(second)) => format!(in alloc; "{}", first == second),
        _ => no_row(alloc),
    }
}
