//! The reply to a row.

use crate::{confidential, edits, listings, long_texts, of_texts};
use std::alloc::{AllocError, Global};
use testing_tools::rows::{word, words_of};

// What words give.
fn reply_to(alloc: Global, words: &[&str]) -> Result<String, AllocError> {
    match word(words, 0) {
        "listing" => listings::reply(alloc, words),
        "edits" => edits::reply(alloc, words),
        "liquid" => confidential::reply(alloc, words),
        "long" => long_texts::reply(alloc, words),
        _ => of_texts::reply(alloc, words),
    }
}

/// What a row gives.
pub fn reply(alloc: Global, row: &str) -> Result<String, AllocError> {
    let words = words_of(alloc, row)?;
    reply_to(alloc, &words)
}
