//! The reply to a row.

use crate::{appended, bits, blocks, descriptors, fields, of_fields, plain, registers};
use std::alloc::{AllocError, Global};
use testing_tools::rows::{word, words_of};

// What words give.
fn reply_to(alloc: Global, words: &[&str]) -> Result<String, AllocError> {
    match word(words, 0) {
        "register" => registers::reply(alloc, words),
        "field" => fields::reply(alloc, words),
        "block" => blocks::reply(alloc, words),
        "appended" => appended::reply(alloc, words),
        "bits" => bits::reply(alloc, words),
        "descriptor" => descriptors::reply(alloc, words),
        "checksum" => descriptors::checksum_reply(alloc, words),
        "plain" => plain::reply(alloc, words),
        "defined" => plain::defined_reply(alloc, words),
        _ => of_fields::reply(alloc, words),
    }
}

/// What a row gives.
pub fn reply(alloc: Global, row: &str) -> Result<String, AllocError> {
    let words = words_of(alloc, row)?;
    reply_to(alloc, &words)
}
