//! What is listed for a text that a checksum refuses.

use bech32_checksum::{Bech32, Bech32m, Checksum};
use bech32_correction::{CorrectableError, Corrector, ErrorIterator};
use bech32_decode::CheckedHrpstring;
use bech32_gf::gf32::Fe32;
use std::alloc::{AllocError, Global};
use testing_tools::codes::Degree13;
use testing_tools::rows::{no_row, word};

/// The numbers of a word, and none for `-`.
pub fn numbers(alloc: Global, word: &str) -> Result<Vec<usize>, AllocError> {
    let mut list = Vec::new(alloc);
    for part in word.split(',') {
        if let Ok(number) = part.parse::<usize>() {
            list.push(number)?;
        }
    }
    Ok(list)
}

// The corrector of a text for a window, which is the code length for `-`.
fn corrector_of<Ck: Checksum>(alloc: Global, text: &str, window: &str) -> Option<Corrector<Ck>> {
    let error = CheckedHrpstring::new::<Ck>(text).err()?;
    let window = window.parse::<usize>().unwrap_or(Ck::CODE_LENGTH);
    if !Ck::sanity_check() || window > Ck::CODE_LENGTH {
        return None;
    }
    error.correction_context_within::<Ck, Global>(alloc, window)
}

// Puts a location with its value behind others.
fn push(alloc: Global, text: &mut String, error: (usize, Fe32)) -> Result<(), AllocError> {
    if !text.is_empty() {
        text.push(' ')?;
    }
    let piece = format!(in alloc; "{}:{}", error.0, error.1)?;
    text.push_str(&piece)
}

// Each location with its value.
fn shown(alloc: Global, errors: ErrorIterator) -> Result<String, AllocError> {
    let mut text = String::new(alloc);
    for error in errors {
        push(alloc, &mut text, error)?;
    }
    Ok(text)
}

// What a corrector lists.
fn listed<Ck: Checksum>(alloc: Global, corrector: &Corrector<Ck>) -> Result<String, AllocError> {
    match corrector.bch_errors()? {
        Some(errors) => shown(alloc, errors),
        None => String::from_str(alloc, "none"),
    }
}

// What a corrector lists with erasures.
fn listed_with<Ck: Checksum>(
    alloc: Global,
    corrector: &mut Corrector<Ck>,
    erasures: &[usize],
) -> Result<String, AllocError> {
    if !corrector.are_within(erasures) {
        return no_row(alloc);
    }
    corrector.add_erasures(erasures)?;
    listed(alloc, corrector)
}

// The same with the erasures of a word.
fn listed_with_word<Ck: Checksum>(
    alloc: Global,
    corrector: &mut Corrector<Ck>,
    list: &str,
) -> Result<String, AllocError> {
    let erasures = numbers(alloc, list)?;
    listed_with(alloc, corrector, &erasures)
}

// What a row gives by the corrector of its text, where there is one.
fn reply_of<Ck: Checksum>(
    alloc: Global,
    found: Option<Corrector<Ck>>,
    erasures: &str,
) -> Result<String, AllocError> {
    match found {
        Some(mut corrector) => listed_with_word(alloc, &mut corrector, erasures),
        None => no_row(alloc),
    }
}

/// What a row of a checksum, a text, erasures and a window gives.
pub fn reply(alloc: Global, words: &[&str]) -> Result<String, AllocError> {
    let (text, list, window) = (word(words, 2), word(words, 3), word(words, 4));
    match word(words, 1) {
        "Bech32" => reply_of(alloc, corrector_of::<Bech32>(alloc, text, window), list),
        "Bech32m" => reply_of(alloc, corrector_of::<Bech32m>(alloc, text, window), list),
        "Codex32" => reply_of(
            alloc,
            corrector_of::<Degree13<93>>(alloc, text, window),
            list,
        ),
        _ => no_row(alloc),
    }
}
