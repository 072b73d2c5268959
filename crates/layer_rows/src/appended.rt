//! Elements with their checksum behind them.

use bech32_checksum::{Bech32, Bech32m, Checksum};
use bech32_encode::{Checksummed, Fe32IterExt};
use bech32_gf::gf32::Fe32;
use bech32_hrp::Hrp;
use std::alloc::{AllocError, Global};
use testing_tools::codes::Degree13;
use testing_tools::rows::{digits, no_row, word};

// The characters of elements and of their checksum under a human-readable part.
fn characters<Ck: Checksum>(alloc: Global, hrp: Hrp, fes: &[Fe32]) -> Result<String, AllocError> {
    let all = Checksummed::<_, Ck>::new_hrp(hrp, fes.iter().copied());
    all.map(Fe32::to_char).collect(alloc)
}

// The text of elements.
fn text_of<Ck: Checksum>(alloc: Global, hrp: &Hrp, fes: &[Fe32]) -> Result<String, AllocError> {
    let encoder = fes.iter().copied().with_checksum::<Ck>(hrp);
    encoder.bytes().map(char::from).collect(alloc)
}

// Both, with a tab between the two.
fn both<Ck: Checksum>(alloc: Global, hrp: &Hrp, fes: &[Fe32]) -> Result<String, AllocError> {
    let characters = characters::<Ck>(alloc, *hrp, fes)?;
    let text = text_of::<Ck>(alloc, hrp, fes)?;
    format!(in alloc; "{characters}\t{text}")
}

// Both by the checksum of a name.
fn by_name(alloc: Global, name: &str, hrp: &Hrp, fes: &[Fe32]) -> Result<String, AllocError> {
    match name {
        "Bech32" => both::<Bech32>(alloc, hrp, fes),
        "Bech32m" => both::<Bech32m>(alloc, hrp, fes),
        "Codex32" => both::<Degree13<93>>(alloc, hrp, fes),
        _ => no_row(alloc),
    }
}

/// What a row of a checksum, a human-readable part and elements gives.
pub fn reply(alloc: Global, words: &[&str]) -> Result<String, AllocError> {
    let Ok(hrp) = Hrp::parse(word(words, 2)) else {
        return no_row(alloc);
    };
    let fes = digits(alloc, word(words, 3))?;
    by_name(alloc, word(words, 1), &hrp, &fes)
}
