//! What a corrector prints.

use super::ways::corrector_for;
use crate::listings::numbers;
use bech32::Bech32;
use bech32_correction::Corrector;
use std::alloc::{AllocError, Global};
use testing_tools::rows::{no_row, word};

// What is printed of a corrector, where there is one.
fn shown(
    alloc: Global,
    corrector: Result<Option<Corrector<Bech32>>, AllocError>,
) -> Result<String, AllocError> {
    match corrector? {
        Some(corrector) => format!(in alloc; "{corrector:?}"),
        None => no_row(alloc),
    }
}

/// What a row of a text that Bech32 refuses, erasures and a window gives.
pub fn reply(alloc: Global, words: &[&str]) -> Result<String, AllocError> {
    let erasures = numbers(alloc, word(words, 2))?;
    match corrector_for::<Bech32>(alloc, word(words, 1), word(words, 3)) {
        Some(corrector) => shown(alloc, corrector.with(&erasures)),
        None => no_row(alloc),
    }
}
