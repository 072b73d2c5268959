//! Why a text is not corrected.

use bech32_decode::UncheckedHrpstringError;
use bech32_refusals::{CheckedHrpstringError, ChecksumError};
use std::alloc::AllocError;
use thiserror::Error;

/// Why a text is not corrected.
#[derive(Clone, Copy, Debug, PartialEq, Eq, Drop, Error)]
pub enum CorrectError {
    /// The text is refused for another reason than a wrong checksum: it is not in the grammar, it
    /// is longer than the checksum's code, or it is too short to hold a checksum.
    #[error("{0}")]
    Refused(CheckedHrpstringError),
    /// Out of memory.
    #[error("out of memory")]
    Memory,
}

impl From<UncheckedHrpstringError> for CorrectError {
    ghost use Rattle.std.specs.Prelude.{◌≡◌};
    ghost use Rattle.bech32_refusals.specs.declared.error.CheckedHrpstringError.TheVariants.{Parse};
    ghost use Rattle.bech32_correction.specs.declared.error.CorrectError.TheVariants.{Refused};

    ghost from_gives = { λ e r. r ≡ Refused (Parse e) };

    fn from(e: UncheckedHrpstringError) -> Self {
        Self::Refused(CheckedHrpstringError::Parse(e))
    }
}

impl From<ChecksumError> for CorrectError {
    ghost use Rattle.std.specs.Prelude.{◌≡◌};
    ghost use Rattle.bech32_refusals.specs.declared.error.CheckedHrpstringError.TheVariants.{Checksum};
    ghost use Rattle.bech32_correction.specs.declared.error.CorrectError.TheVariants.{Refused};

    ghost from_gives = { λ e r. r ≡ Refused (Checksum e) };

    fn from(e: ChecksumError) -> Self {
        Self::Refused(CheckedHrpstringError::Checksum(e))
    }
}

impl From<AllocError> for CorrectError {
    ghost use Rattle.std.specs.Prelude.{◌≡◌};
    ghost use Rattle.bech32_correction.specs.declared.error.CorrectError.TheVariants.{Memory};

    ghost from_gives = { λ e r. r ≡ Memory };

    fn from(_: AllocError) -> Self {
        Self::Memory
    }
}
