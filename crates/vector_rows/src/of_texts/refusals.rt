//! Why a text is refused, or none is made.

use bech32::{CorrectableError, NoChecksum};
use std::alloc::{AllocError, Global};
use std::fmt::Display;

// What a refusal carries.
fn carried(error: &impl CorrectableError) -> &'static str {
    let Some(residue) = error.residue_error() else {
        return "-";
    };
    if residue.matches_bech32_checksum() {
        "residue of Bech32"
    } else {
        "residue"
    }
}

// Whether a refusal has a corrector by the absence of a checksum: none has.
fn has_corrector(alloc: Global, error: &impl CorrectableError) -> bool {
    let corrector = error.correction_context::<NoChecksum, Global>(alloc);
    corrector.is_some()
}

/// The message of a refusal, and whether it carries a residue: that of Bech32, another, or `-` for
/// none.
pub fn shown<E: CorrectableError + Display>(
    alloc: Global,
    error: &E,
) -> Result<String, AllocError> {
    if has_corrector(alloc, error) {
        return String::from_str(alloc, "a corrector without a checksum");
    }
    let carried = carried(error);
    format!(in alloc; "{error}|{carried}")
}

/// A text, or the message of its refusal.
pub fn text_or_message<E: Display + Drop>(
    alloc: Global,
    made: Result<String, E>,
) -> Result<String, AllocError> {
    match made {
        Ok(text) => Ok(text),
        Err(error) => format!(in alloc; "{error}"),
    }
}

/// What was written; where that was refused, the message, and how much was written.
pub fn written_or_message<E: Display + Drop>(
    alloc: Global,
    outcome: Result<(), E>,
    text: String,
) -> Result<String, AllocError> {
    match outcome {
        Ok(()) => Ok(text),
        Err(error) => format!(in alloc; "{error}, after {} characters", text.len()),
    }
}
