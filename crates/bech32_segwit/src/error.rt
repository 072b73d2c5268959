//! Why a segwit address is not read or not written.

ghost use Rattle.std.specs.Prelude.{◌≡◌};

use bech32_correction::CorrectableError;
use bech32_decode::segwit::{InvalidWitnessVersionError, WitnessLengthError};
use bech32_decode::{InvalidResidueError, SegwitCodeLengthError, SegwitHrpstringError};
use std::alloc::AllocError;
use std::fmt::Error as FmtError;
use thiserror::Error;

/// Why a text is not decoded as a segwit address.
#[derive(Clone, Copy, Debug, PartialEq, Eq, Drop, Error)]
#[error("decoding segwit address failed: {0}")]
pub struct DecodeError(pub SegwitHrpstringError);

/// Why a segwit address is not written.
#[derive(Clone, Copy, Debug, PartialEq, Eq, Drop, Error)]
pub enum EncodeError {
    /// The witness version is above 16.
    #[error("witness version: {0}")]
    WitnessVersion(InvalidWitnessVersionError),
    /// The program is not of a lawful length.
    #[error("witness length: {0}")]
    WitnessLength(WitnessLengthError),
    /// The address would have more than [`MAX_STRING_LENGTH`] characters.
    #[error("encode error: {0}")]
    TooLong(SegwitCodeLengthError),
    /// The formatter failed (never given).
    #[error("writing to formatter failed: {0}")]
    Fmt(FmtError),
    /// Out of memory for the address.
    #[error("out of memory")]
    Memory,
}

impl From<SegwitHrpstringError> for DecodeError {
    ghost from_gives = { λ e r. r.0 ≡ e };

    fn from(e: SegwitHrpstringError) -> Self {
        Self(e)
    }
}

impl From<AllocError> for DecodeError {
    ghost use Rattle.bech32_refusals.specs.declared.error.SegwitHrpstringError.TheVariants.{Memory};

    ghost from_gives = { λ e r. r.0 ≡ Memory };

    fn from(_e: AllocError) -> Self {
        Self(SegwitHrpstringError::Memory)
    }
}

impl CorrectableError for DecodeError {
    ghost use Rattle.bech32_correction.specs.Carried.{of_segwit};

    ghost carried = { λ e. of_segwit e.0 };

    fn residue_error(&self) -> Option<&InvalidResidueError> {
        self.0.residue_error()
    }
}

impl From<InvalidWitnessVersionError> for EncodeError {
    ghost use Rattle.bech32_segwit.specs.declared.error.EncodeError.TheVariants.{WitnessVersion};

    ghost from_gives = { λ e r. r ≡ WitnessVersion e };

    fn from(e: InvalidWitnessVersionError) -> Self {
        Self::WitnessVersion(e)
    }
}

impl From<WitnessLengthError> for EncodeError {
    ghost use Rattle.bech32_segwit.specs.declared.error.EncodeError.TheVariants.{WitnessLength};

    ghost from_gives = { λ e r. r ≡ WitnessLength e };

    fn from(e: WitnessLengthError) -> Self {
        Self::WitnessLength(e)
    }
}

impl From<SegwitCodeLengthError> for EncodeError {
    ghost use Rattle.bech32_segwit.specs.declared.error.EncodeError.TheVariants.{TooLong};

    ghost from_gives = { λ e r. r ≡ TooLong e };

    fn from(e: SegwitCodeLengthError) -> Self {
        Self::TooLong(e)
    }
}

impl From<FmtError> for EncodeError {
    ghost use Rattle.bech32_segwit.specs.declared.error.EncodeError.TheVariants.{Fmt};

    ghost from_gives = { λ e r. r ≡ Fmt e };

    fn from(e: FmtError) -> Self {
        Self::Fmt(e)
    }
}

impl From<AllocError> for EncodeError {
    ghost use Rattle.bech32_segwit.specs.declared.error.EncodeError.TheVariants.{Memory};

    ghost from_gives = { λ e r. r ≡ Memory };

    fn from(_e: AllocError) -> Self {
        Self::Memory
    }
}
