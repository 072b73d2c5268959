//! The sentences of refusals that no row leads to.

use bech32_block::PrintError;
use bech32_decode::{CodeLengthError, SegwitCodeLengthError, SegwitHrpstringError};
use bech32_hrp::Error;
use std::alloc::{AllocError, Global};
use std::fmt::{Debug, Display};
use testing_tools::rows::{no_row, word};

// A refusal as it is displayed, and as it is debugged.
fn shown<E: Display + Debug + Drop>(alloc: Global, error: E) -> Result<String, AllocError> {
    format!(in alloc; "{error}|{error:?}")
}

// A text longer than its checksum's code, and what becomes of that for an address.
fn too_long(alloc: Global) -> Result<String, AllocError> {
    let error = CodeLengthError {
        encoded_length: 91,
        code_length: 1023,
    };
    format!(in alloc; "{error}|{}", SegwitCodeLengthError::from(error))
}

/// What a row of a refusal's name gives.
pub fn reply(alloc: Global, words: &[&str]) -> Result<String, AllocError> {
    match word(words, 1) {
        "Fmt" => shown(alloc, Error::Fmt),
        "Degree" => shown(alloc, PrintError::Degree),
        "NotSplit" => shown(alloc, PrintError::NotSplit),
        "NotPowers" => shown(alloc, PrintError::NotPowers),
        "Memory" => shown(alloc, PrintError::Memory),
        "NoMemory" => shown(alloc, SegwitHrpstringError::Memory),
        "CodeLength" => too_long(alloc),
        _ => no_row(alloc),
    }
}
