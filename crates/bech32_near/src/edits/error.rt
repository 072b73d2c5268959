//! Why the edits of a text are not told.

ghost use Rattle.std.specs.Prelude.{◌≡◌};

use bech32_decode::UncheckedHrpstringError;
use std::alloc::AllocError;
use thiserror::Error;

/// Why the edits of a text are not told.
#[derive(Clone, Copy, Debug, PartialEq, Eq, Drop, Error)]
pub enum EditsError {
    /// The text is not in the grammar.
    #[error("{0}")]
    Refused(UncheckedHrpstringError),
    /// Out of memory.
    #[error("out of memory")]
    Memory,
}

impl From<UncheckedHrpstringError> for EditsError {
    ghost use Rattle.bech32_near.specs.declared.edits.error.EditsError.TheVariants.{Refused};

    ghost from_gives = { λ e r. r ≡ Refused e };

    fn from(e: UncheckedHrpstringError) -> Self {
        Self::Refused(e)
    }
}

impl From<AllocError> for EditsError {
    ghost use Rattle.bech32_near.specs.declared.edits.error.EditsError.TheVariants.{Memory};

    ghost from_gives = { λ e r. r ≡ Memory };

    fn from(_e: AllocError) -> Self {
        Self::Memory
    }
}
