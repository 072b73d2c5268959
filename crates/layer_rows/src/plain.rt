//! What the definitions say as slow code.

use bech32_bits::plain::plain_to_fes;
use bech32_gf::gf32::Fe32;
use bech32_hrp::Hrp;
use std::alloc::{AllocError, Global};
use testing_tools::plain::{PlainChecksum, accepts, encoded_text};
use testing_tools::rows::{bytes_of, characters, no_row, word};

/// Which checksums accept the text of a row.
pub fn reply(alloc: Global, words: &[&str]) -> Result<String, AllocError> {
    let text = word(words, 1);
    let by_bech32 = accepts(alloc, PlainChecksum::Bech32, text)?;
    let by_bech32m = accepts(alloc, PlainChecksum::Bech32m, text)?;
    match (by_bech32, by_bech32m) {
        (true, false) => String::from_str(alloc, "Bech32"),
        (false, true) => String::from_str(alloc, "Bech32m"),
        (false, false) => String::from_str(alloc, "neither"),
        _ => String::from_str(alloc, "both"),
    }
}

// The text of elements by a checksum.
fn spelled(
    alloc: Global,
    checksum: PlainChecksum,
    hrp: &Hrp,
    elements: &[Fe32],
) -> Result<String, AllocError> {
    let text = encoded_text(alloc, checksum, hrp, elements)?;
    characters(alloc, &text)
}

// The text of bytes by a checksum.
fn text_of(
    alloc: Global,
    checksum: PlainChecksum,
    hrp: &Hrp,
    data: &[u8],
) -> Result<String, AllocError> {
    let elements = plain_to_fes(alloc, data)?;
    spelled(alloc, checksum, hrp, &elements)
}

/// The text of a checksum, a human-readable part and bytes.
pub fn defined_reply(alloc: Global, words: &[&str]) -> Result<String, AllocError> {
    let Ok(hrp) = Hrp::parse(word(words, 2)) else {
        return no_row(alloc);
    };
    let data = bytes_of(alloc, word(words, 3))?;
    match word(words, 1) {
        "Bech32" => text_of(alloc, PlainChecksum::Bech32, &hrp, &data),
        "Bech32m" => text_of(alloc, PlainChecksum::Bech32m, &hrp, &data),
        _ => no_row(alloc),
    }
}
