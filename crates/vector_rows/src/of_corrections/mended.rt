//! Texts corrected by one call.

use crate::listings::numbers;
use bech32::{Bech32, Bech32m, CorrectError, CorrectingChecksum, Correction, Mended, NoChecksum};
use bech32_correction::{Corrector, correct};
use std::alloc::{AllocError, Global};
use std::marker::PhantomData;
use testing_tools::rows::{no_row, word};

// What is said of a text.
fn shown<C: Drop>(
    alloc: Global,
    said: Result<Correction<Mended, C>, CorrectError>,
) -> Result<String, AllocError> {
    match said {
        Ok(Correction::Accepted) => String::from_str(alloc, "fine"),
        Ok(Correction::Mended(mended)) => Ok(mended.text),
        Ok(Correction::Unexplained(_)) => String::from_str(alloc, "none"),
        Err(error) => format!(in alloc; "{error}"),
    }
}

// What a checksum says. The last argument holds nothing: it names a corrector, so that the prover
// knows the size of one.
fn said_by<Ck: CorrectingChecksum>(
    alloc: Global,
    text: &str,
    erasures: &[usize],
    _sizes: PhantomData<Corrector<Ck>>,
) -> Result<String, AllocError> {
    shown(alloc, correct::<Ck, _>(alloc, text, erasures))
}

/// What a row of a checksum, a text and erasures gives.
pub fn reply(alloc: Global, words: &[&str]) -> Result<String, AllocError> {
    let text = word(words, 2);
    let erasures = numbers(alloc, word(words, 3))?;
    match word(words, 1) {
        "Bech32" => said_by::<Bech32>(alloc, text, &erasures, PhantomData),
        "Bech32m" => said_by::<Bech32m>(alloc, text, &erasures, PhantomData),
        "NoChecksum" => said_by::<NoChecksum>(alloc, text, &erasures, PhantomData),
        _ => no_row(alloc),
    }
}
