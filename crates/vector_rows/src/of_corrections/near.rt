//! All texts, and all patterns of few errors, near a mistyped text.

use super::ways::{corrector_for, shown as shown_listing};
use crate::listings::numbers;
use bech32::{
    Bech32, Bech32m, CorrectError, CorrectingChecksum, Listings, Mended, NearTexts, NoChecksum,
    nearest, nearest_listings,
};
use bech32_correction::Corrector;
use std::alloc::{AllocError, Global};
use std::marker::PhantomData;
use testing_tools::rows::{no_row, word};

// Appends a text, after a space where there are others.
fn push(line: &mut String, text: &str) -> Result<(), AllocError> {
    if !line.is_empty() {
        line.push(' ')?;
    }
    line.push_str(text)
}

// Texts, and `none` for none.
fn texts_shown(alloc: Global, texts: &[Mended]) -> Result<String, AllocError> {
    if texts.is_empty() {
        return String::from_str(alloc, "none");
    }
    let mut line = String::new(alloc);
    for mended in texts {
        push(&mut line, mended.text.as_str())?;
    }
    Ok(line)
}

// What is said of a text.
fn shown<C: Drop>(
    alloc: Global,
    said: Result<NearTexts<Vec<Mended>, C>, CorrectError>,
) -> Result<String, AllocError> {
    match said {
        Ok(near) => texts_shown(alloc, &near.texts),
        Err(error) => format!(in alloc; "{error}"),
    }
}

// What a checksum says. The last argument holds nothing: it names a corrector, so that the prover
// knows the size of one.
fn said_by<Ck: CorrectingChecksum>(
    alloc: Global,
    text: &str,
    erasures: &[usize],
    errors: usize,
    _sizes: PhantomData<Corrector<Ck>>,
) -> Result<String, AllocError> {
    shown(alloc, nearest::<Ck, _>(alloc, text, erasures, errors))
}

/// What a row of a checksum, a text, erasures and a number of errors gives.
pub fn reply(alloc: Global, words: &[&str]) -> Result<String, AllocError> {
    let text = word(words, 2);
    let erasures = numbers(alloc, word(words, 3))?;
    let errors = word(words, 4).parse::<usize>().unwrap_or(0);
    match word(words, 1) {
        "Bech32" => said_by::<Bech32>(alloc, text, &erasures, errors, PhantomData),
        "Bech32m" => said_by::<Bech32m>(alloc, text, &erasures, errors, PhantomData),
        "NoChecksum" => said_by::<NoChecksum>(alloc, text, &erasures, errors, PhantomData),
        _ => no_row(alloc),
    }
}

// The number of listings, and each of them after a bar.
fn listings_shown(alloc: Global, listings: &Listings<Global>) -> Result<String, AllocError> {
    let mut line = format!(in alloc; "{}", listings.len())?;
    for listing in listings {
        line.push('|')?;
        line.push_str(&shown_listing(alloc, listing.as_slice())?)?;
    }
    Ok(line)
}

// All listings of so many errors beside erasures that are added to those of a corrector.
fn listed(
    alloc: Global,
    corrector: &mut Corrector<Bech32>,
    erasures: &[usize],
    errors: usize,
) -> Result<String, AllocError> {
    if !corrector.are_within(erasures) {
        return no_row(alloc);
    }
    corrector.add_erasures(erasures)?;
    listings_shown(alloc, &nearest_listings(corrector, errors)?)
}

/// What a row of a text that Bech32 refuses, erasures, a number of errors and a window gives.
pub fn listings_reply(alloc: Global, words: &[&str]) -> Result<String, AllocError> {
    let erasures = numbers(alloc, word(words, 2))?;
    let errors = word(words, 3).parse::<usize>().unwrap_or(0);
    match corrector_for::<Bech32>(alloc, word(words, 1), word(words, 4)) {
        Some(mut corrector) => listed(alloc, &mut corrector, &erasures, errors),
        None => no_row(alloc),
    }
}
