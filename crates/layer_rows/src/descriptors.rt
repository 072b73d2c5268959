//! Descriptors with their checksums.

use bech32_descriptor::{Change, CheckError, Mended, check, checksum, mend};
use std::alloc::{AllocError, Global};
use testing_tools::rows::word;

// What a descriptor is found to be.
fn checked(alloc: Global, text: &[u8]) -> Result<String, AllocError> {
    match check(text) {
        Ok(()) => String::from_str(alloc, "right"),
        Err(CheckError::NoChecksum) => String::from_str(alloc, "none"),
        Err(CheckError::InvalidCharacter(place)) => format!(in alloc; "at {place}"),
        Err(CheckError::WrongChecksum) => String::from_str(alloc, "wrong"),
    }
}

// The sign of what is done.
fn sign(change: Change) -> char {
    match change {
        Change::Changed(_) => '=',
        Change::Swapped => 'x',
        Change::LeftOut => '-',
        Change::PutIn(_) => '+',
    }
}

// Puts one text behind others.
fn push(alloc: Global, line: &mut String, mended: &Mended<Vec<u8>>) -> Result<(), AllocError> {
    let place = mended.edit.place;
    let kind = sign(mended.edit.change);
    let piece = format!(in alloc; "|{kind} {place} ")?;
    line.push_str(&piece)?;
    for byte in &mended.text {
        line.push(char::from(*byte))?;
    }
    Ok(())
}

/// What a row of a text gives.
pub fn reply(alloc: Global, words: &[&str]) -> Result<String, AllocError> {
    let text = word(words, 1).as_bytes();
    let mut line = checked(alloc, text)?;
    if let Ok(found) = mend(alloc, text, 1) {
        for mended in &found {
            push(alloc, &mut line, mended)?;
        }
    }
    Ok(line)
}

/// What a row of a text without a checksum gives.
pub fn checksum_reply(alloc: Global, words: &[&str]) -> Result<String, AllocError> {
    match checksum(word(words, 1).as_bytes()) {
        Ok(letters) => {
            let mut line = String::new(alloc);
            for letter in letters {
                line.push(char::from(letter))?;
            }
            Ok(line)
        }
        Err(e) => format!(in alloc; "at {}", e.place),
    }
}
