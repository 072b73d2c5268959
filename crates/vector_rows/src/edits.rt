//! The texts that one edit makes of a text, and that a checksum accepts.

use bech32_checksum::{Bech32, Bech32m, Checksum, NoChecksum};
use bech32_near::edits::{Change, NearEdit, near_edits};
use std::alloc::{AllocError, Global};
use testing_tools::rows::{no_row, word};

// A text, and the edit that makes it: its kind, its location and its characters.
fn shown(alloc: Global, near: &NearEdit<String>) -> Result<String, AllocError> {
    let text = near.text.as_str();
    let location = near.edit.location;
    match near.edit.change {
        Change::Swapped(higher, lower) => {
            format!(in alloc;
                "{text},x{location}:{}{}",
                higher.to_char(),
                lower.to_char()
            )
        }
        Change::LeftOut(element) => format!(in alloc; "{text},-{location}:{}", element.to_char()),
        Change::PutIn(element) => format!(in alloc; "{text},+{location}:{}", element.to_char()),
    }
}

// Puts one of them behind others.
fn push(alloc: Global, line: &mut String, near: &NearEdit<String>) -> Result<(), AllocError> {
    if !line.is_empty() {
        line.push(' ')?;
    }
    let piece = shown(alloc, near)?;
    line.push_str(&piece)
}

// All of them, and `none` for none.
fn all_shown(alloc: Global, found: &[NearEdit<String>]) -> Result<String, AllocError> {
    if found.is_empty() {
        return String::from_str(alloc, "none");
    }
    let mut line = String::new(alloc);
    for near in found {
        push(alloc, &mut line, near)?;
    }
    Ok(line)
}

// What a checksum accepts one edit away from a text.
fn reply_of<Ck: Checksum>(alloc: Global, text: &str) -> Result<String, AllocError> {
    match near_edits::<Ck, _>(alloc, text) {
        Ok(found) => all_shown(alloc, &found),
        Err(error) => format!(in alloc; "{error}"),
    }
}

/// What a row of a checksum and a text gives.
pub fn reply(alloc: Global, words: &[&str]) -> Result<String, AllocError> {
    match word(words, 1) {
        "Bech32" => reply_of::<Bech32>(alloc, word(words, 2)),
        "Bech32m" => reply_of::<Bech32m>(alloc, word(words, 2)),
        "NoChecksum" => reply_of::<NoChecksum>(alloc, word(words, 2)),
        _ => no_row(alloc),
    }
}
