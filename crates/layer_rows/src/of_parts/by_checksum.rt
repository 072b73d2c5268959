//! What rows of a checksum give, by its name.

use crate::of_parts::{encoders, engines, readers};
use bech32_checksum::{Bech32, Bech32m, Checksum, NoChecksum};
use bech32_descriptor::Descriptor;
use std::alloc::{AllocError, Global};
use testing_tools::codes::Degree13;
use testing_tools::rows::{no_row, word};

// What a row gives by a checksum.
fn reply_by<Ck: Checksum + Clone>(alloc: Global, words: &[&str]) -> Result<String, AllocError> {
    match word(words, 0) {
        "encoder" => encoders::reply::<Ck>(alloc, words),
        "put" => encoders::put_reply::<Ck>(alloc, words),
        "engine" => engines::reply::<Ck>(alloc, words),
        "checked" => readers::checked_reply::<Ck>(alloc, words),
        "shortened" => readers::shortened_reply::<Ck>(alloc, words),
        "untested" => readers::untested_reply::<Ck>(alloc, words),
        _ => no_row(alloc),
    }
}

/// What a row of a checksum gives.
pub fn reply(alloc: Global, words: &[&str]) -> Result<String, AllocError> {
    match word(words, 1) {
        "Bech32" => reply_by::<Bech32>(alloc, words),
        "Bech32m" => reply_by::<Bech32m>(alloc, words),
        "Codex32" => reply_by::<Degree13<93>>(alloc, words),
        "Descriptor" => reply_by::<Descriptor>(alloc, words),
        "NoChecksum" => reply_by::<NoChecksum>(alloc, words),
        _ => no_row(alloc),
    }
}
