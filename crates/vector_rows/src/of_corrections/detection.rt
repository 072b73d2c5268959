//! Whether each pattern of up to four errors is detected.

use bech32::primitives::checksum::detects_four;
use bech32::{Bech32, Bech32m};
use bech32_descriptor::Descriptor;
use std::alloc::{AllocError, Global};
use testing_tools::codes::{Degree13, Tiny};
use testing_tools::rows::{no_row, word};

// An answer.
fn shown(alloc: Global, detects: bool) -> Result<String, AllocError> {
    String::from_str(alloc, if detects { "yes" } else { "no" })
}

/// What a row of a checksum and a number of characters gives.
pub fn reply(alloc: Global, words: &[&str]) -> Result<String, AllocError> {
    let Ok(count) = word(words, 2).parse::<usize>() else {
        return no_row(alloc);
    };
    match word(words, 1) {
        "Bech32" => shown(alloc, detects_four::<Bech32>(alloc, count)?),
        "Bech32m" => shown(alloc, detects_four::<Bech32m>(alloc, count)?),
        "Codex32" => shown(alloc, detects_four::<Degree13<93>>(alloc, count)?),
        "Descriptor" => shown(alloc, detects_four::<Descriptor>(alloc, count)?),
        "Tiny" => shown(alloc, detects_four::<Tiny<2>>(alloc, count)?),
        _ => no_row(alloc),
    }
}
