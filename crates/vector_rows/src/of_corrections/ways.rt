//! What a corrector lists, in each way to ask it.

use crate::listings::numbers;
use bech32::primitives::decode::{CheckedHrpstring, SegwitHrpstring};
use bech32::{Bech32, Checksum, CorrectableError};
use bech32_bch::ShortVec;
use bech32_correction::{Corrector, ErrorIterator, Question};
use bech32_gf::gf32::Fe32;
use std::alloc::{AllocError, Global};
use testing_tools::codes::{Altered, Degree13, Tiny};
use testing_tools::rows::{no_row, word};

/// The corrector of an error for a window, which is the code length for `-`.
fn corrector_of<Ck: Checksum>(
    alloc: Global,
    error: &impl CorrectableError,
    window: &str,
) -> Option<Corrector<Ck>> {
    let window = window.parse::<usize>().unwrap_or(Ck::CODE_LENGTH);
    if !Ck::sanity_check() || window > Ck::CODE_LENGTH {
        return None;
    }
    error.correction_context_within::<Ck, Global>(alloc, window)
}

/// That of a text which the checksum refuses.
pub fn corrector_for<Ck: Checksum>(
    alloc: Global,
    text: &str,
    window: &str,
) -> Option<Corrector<Ck>> {
    let error = CheckedHrpstring::new::<Ck>(text).err()?;
    corrector_of::<Ck>(alloc, &error, window)
}

// Appends a location with its value, after a space where there are others.
fn push(alloc: Global, line: &mut String, error: (usize, Fe32)) -> Result<(), AllocError> {
    if !line.is_empty() {
        line.push(' ')?;
    }
    let piece = format!(in alloc; "{}:{}", error.0, error.1)?;
    line.push_str(&piece)
}

/// Each location with its value.
pub fn shown(alloc: Global, listing: &[(usize, Fe32)]) -> Result<String, AllocError> {
    let mut line = String::new(alloc);
    for error in listing {
        push(alloc, &mut line, *error)?;
    }
    Ok(line)
}

// Each location of a listing with its value, and `none` for no listing.
fn shown_listing(
    alloc: Global,
    listing: Option<ShortVec<(usize, Fe32)>>,
) -> Result<String, AllocError> {
    match listing {
        Some(listing) => shown(alloc, listing.as_slice()),
        None => String::from_str(alloc, "none"),
    }
}

// Each location that an iterator gives, with its value.
fn shown_errors(alloc: Global, errors: ErrorIterator) -> Result<String, AllocError> {
    let mut line = String::new(alloc);
    for error in errors {
        push(alloc, &mut line, error)?;
    }
    Ok(line)
}

// What a corrector lists.
fn listed<Ck: Checksum>(alloc: Global, corrector: &Corrector<Ck>) -> Result<String, AllocError> {
    match corrector.bch_errors()? {
        Some(errors) => shown_errors(alloc, errors),
        None => String::from_str(alloc, "none"),
    }
}

// What another corrector with these erasures lists; `past` where there is none.
fn listed_by_another<Ck: Checksum>(
    alloc: Global,
    corrector: &Corrector<Ck>,
    erasures: &[usize],
) -> Result<String, AllocError> {
    match corrector.with(erasures)? {
        Some(erased) => listed(alloc, &erased),
        None => String::from_str(alloc, "past"),
    }
}

// What is listed with these erasures in place of those of the corrector.
fn listed_in_place<Ck: Checksum>(
    alloc: Global,
    corrector: &Corrector<Ck>,
    erasures: &[usize],
) -> Result<String, AllocError> {
    let question = Question {
        erasures,
        highest: None,
    };
    shown_listing(alloc, corrector.listing(question)?)
}

// What is listed where no location above this one is searched; `-` stands for the highest.
fn listed_up_to<Ck: Checksum>(
    alloc: Global,
    corrector: &Corrector<Ck>,
    highest: &str,
    erasures: &[usize],
) -> Result<String, AllocError> {
    let question = Question {
        erasures,
        highest: Some(highest.parse::<usize>().unwrap_or(usize::MAX)),
    };
    shown_listing(alloc, corrector.listing(question)?)
}

// What is listed where the erasures are added to those of the corrector.
fn listed_after_adding<Ck: Checksum>(
    alloc: Global,
    corrector: &mut Corrector<Ck>,
    erasures: &[usize],
) -> Result<String, AllocError> {
    if !corrector.are_within(erasures) {
        return String::from_str(alloc, "past");
    }
    corrector.add_erasures(erasures)?;
    listed(alloc, corrector)
}

// What is listed without erasures where an error is taken off.
fn listed_without<Ck: Checksum>(
    alloc: Global,
    corrector: &Corrector<Ck>,
    location: &str,
) -> Result<String, AllocError> {
    let Ok(location) = location.parse::<usize>() else {
        return String::from_str(alloc, "-");
    };
    let left = corrector.without_error((location, Fe32::Z))?;
    listed_in_place(alloc, &left, &[])
}

// Appends what is listed in the ways that leave the corrector as it is.
fn push_unchanged<Ck: Checksum>(
    alloc: Global,
    line: &mut String,
    corrector: &Corrector<Ck>,
    highest: &str,
    erasures: &[usize],
) -> Result<(), AllocError> {
    line.push_str(&listed_by_another(alloc, corrector, erasures)?)?;
    line.push('|')?;
    line.push_str(&listed_in_place(alloc, corrector, erasures)?)?;
    line.push('|')?;
    line.push_str(&listed_up_to(alloc, corrector, highest, erasures)?)?;
    line.push('|')
}

// What is listed in each way.
fn listed_each_way<Ck: Checksum>(
    alloc: Global,
    corrector: &mut Corrector<Ck>,
    erasures: &[usize],
    words: &[&str],
) -> Result<String, AllocError> {
    let (bound, window) = (corrector.singleton_bound(), corrector.window());
    let mut line = format!(in alloc; "{bound} {window}|")?;
    push_unchanged(alloc, &mut line, corrector, word(words, 5), erasures)?;
    line.push_str(&listed_after_adding(alloc, corrector, erasures)?)?;
    line.push('|')?;
    line.push_str(&listed_without(alloc, corrector, word(words, 6))?)?;
    Ok(line)
}

// What the corrector of an error lists in each way, where there is one.
fn reply_to<Ck: Checksum>(
    alloc: Global,
    found: Option<Corrector<Ck>>,
    words: &[&str],
) -> Result<String, AllocError> {
    let erasures = numbers(alloc, word(words, 3))?;
    match found {
        Some(mut corrector) => listed_each_way(alloc, &mut corrector, &erasures, words),
        None => no_row(alloc),
    }
}

// The corrector of a text that is no address.
fn corrector_for_address(alloc: Global, text: &str, window: &str) -> Option<Corrector<Bech32>> {
    let error = SegwitHrpstring::new(text).err()?;
    corrector_of::<Bech32>(alloc, &error, window)
}

// The corrector by another checksum of a text that Bech32 refuses.
fn corrector_by<Ck: Checksum>(alloc: Global, text: &str, window: &str) -> Option<Corrector<Ck>> {
    let error = CheckedHrpstring::new::<Bech32>(text).err()?;
    corrector_of::<Ck>(alloc, &error, window)
}

/// What a row gives: a checksum, or `address`, a text that it refuses, erasures, a window, the
/// highest location to be searched, and the location of an error `z` to take off.
pub fn reply(alloc: Global, words: &[&str]) -> Result<String, AllocError> {
    let (text, window) = (word(words, 2), word(words, 4));
    match word(words, 1) {
        "Bech32" => reply_to(alloc, corrector_for::<Bech32>(alloc, text, window), words),
        "address" => reply_to(alloc, corrector_for_address(alloc, text, window), words),
        "Codex32" => reply_to(
            alloc,
            corrector_for::<Degree13<93>>(alloc, text, window),
            words,
        ),
        "Short" => reply_to(
            alloc,
            corrector_for::<Altered<24, 26, 8>>(alloc, text, window),
            words,
        ),
        "Tiny<1>" => reply_to(alloc, corrector_by::<Tiny<1>>(alloc, text, window), words),
        "Tiny<2>" => reply_to(alloc, corrector_by::<Tiny<2>>(alloc, text, window), words),
        _ => no_row(alloc),
    }
}
