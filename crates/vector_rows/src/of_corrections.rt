//! What calls that correct texts give.

mod detection;
mod lookups;
mod mended;
mod near;
mod printed;
mod ways;

use crate::edits;
use std::alloc::{AllocError, Global};
use testing_tools::rows::{no_row, word};

/// What a row gives that begins with one of these words.
pub fn reply(alloc: Global, words: &[&str]) -> Result<String, AllocError> {
    match word(words, 0) {
        "ways" => ways::reply(alloc, words),
        "printed" => printed::reply(alloc, words),
        "lookup" => lookups::reply(alloc, words),
        "mended" => mended::reply(alloc, words),
        "near" => near::reply(alloc, words),
        "nearest" => near::listings_reply(alloc, words),
        "edited" => edits::reply(alloc, words),
        "detects" => detection::reply(alloc, words),
        _ => no_row(alloc),
    }
}
