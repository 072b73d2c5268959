//! What calls that read and write texts give.

mod addresses;
mod lengths;
mod read;
mod refusals;
mod unchecked;
mod written;

use crate::of_corrections;
use std::alloc::{AllocError, Global};
use testing_tools::rows::word;

/// What a row gives that begins with one of these words.
pub fn reply(alloc: Global, words: &[&str]) -> Result<String, AllocError> {
    match word(words, 0) {
        "text" => read::reply(alloc, words),
        "written" => written::reply(alloc, words),
        "unchecked" => unchecked::reply(alloc, words),
        "length" => lengths::reply(alloc, words),
        "segwit" => addresses::reply(alloc, words),
        _ => of_corrections::reply(alloc, words),
    }
}
