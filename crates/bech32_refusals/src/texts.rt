//! Why a text is not decoded or not written.

ghost use Rattle.std.specs.Prelude.{◌≡◌};

use crate::error::{
    CheckedHrpstringError, ChecksumError, CodeLengthError, PaddingError, UncheckedHrpstringError,
};
use std::alloc::AllocError;
use std::fmt::Error as FmtError;
use thiserror::Error;

/// Why a text is not decoded.
#[derive(Clone, Copy, Debug, PartialEq, Eq, Drop, Error)]
pub enum DecodeError {
    /// It is not in the grammar.
    #[error("parsing failed: {0}")]
    Parse(UncheckedHrpstringError),
    /// Neither checksum accepts it; the error is that of Bech32m.
    #[error("no valid bech32 or bech32m checksum: {0}")]
    Checksum(ChecksumError),
    /// Out of memory for the data.
    #[error("out of memory")]
    Memory,
}

/// Why a text is not decoded by a named checksum.
#[derive(Clone, Copy, Debug, PartialEq, Eq, Drop, Error)]
pub enum TextError {
    /// It is not in the grammar.
    #[error("parsing failed: {0}")]
    Parse(UncheckedHrpstringError),
    /// The checksum does not accept it.
    #[error("no valid checksum: {0}")]
    Checksum(ChecksumError),
    /// The bits behind its last whole byte are more than four, or not all zero.
    #[error("not the only text of its bytes: {0}")]
    Padding(PaddingError),
    /// Out of memory for the data.
    #[error("out of memory")]
    Memory,
}

/// Why elements are not written.
#[derive(Clone, Copy, Debug, PartialEq, Eq, Drop, Error)]
pub enum ElementsError {
    /// The text would be longer than the checksum's code.
    #[error("encode error: {0}")]
    TooLong(CodeLengthError),
    /// A byte is above 31: the place of the first, counted from 0.
    #[error("no element stands at {0}")]
    Element(usize),
    /// Out of memory for the text.
    #[error("out of memory")]
    Memory,
}

/// Why a text is not written.
#[derive(Clone, Copy, Debug, PartialEq, Eq, Drop, Error)]
pub enum EncodeError {
    /// It would be longer than the checksum's code.
    #[error("encode error: {0}")]
    TooLong(CodeLengthError),
    /// The formatter failed.
    #[error("encode to formatter failed: {0}")]
    Fmt(FmtError),
    /// Out of memory for the text.
    #[error("out of memory")]
    Memory,
}

impl From<UncheckedHrpstringError> for DecodeError {
    ghost use Rattle.bech32_refusals.specs.declared.texts.DecodeError.TheVariants.{Parse};

    ghost from_gives = { λ e r. r ≡ Parse e };

    fn from(e: UncheckedHrpstringError) -> Self {
        Self::Parse(e)
    }
}

impl From<ChecksumError> for DecodeError {
    ghost use Rattle.bech32_refusals.specs.declared.texts.DecodeError.TheVariants.{Checksum};

    ghost from_gives = { λ e r. r ≡ Checksum e };

    fn from(e: ChecksumError) -> Self {
        Self::Checksum(e)
    }
}

impl From<AllocError> for DecodeError {
    ghost use Rattle.bech32_refusals.specs.declared.texts.DecodeError.TheVariants.{Memory};

    ghost from_gives = { λ e r. r ≡ Memory };

    fn from(_e: AllocError) -> Self {
        Self::Memory
    }
}

impl From<CheckedHrpstringError> for TextError {
    ghost use Rattle.bech32_refusals.specs.Texts.{of_checked_text};

    ghost from_gives = { λ e r. r ≡ of_checked_text e };

    fn from(e: CheckedHrpstringError) -> Self {
        match e {
            CheckedHrpstringError::Parse(e) => Self::Parse(e),
            CheckedHrpstringError::Checksum(e) => Self::Checksum(e),
        }
    }
}

impl From<PaddingError> for TextError {
    ghost use Rattle.bech32_refusals.specs.declared.texts.TextError.TheVariants.{Padding};

    ghost from_gives = { λ e r. r ≡ Padding e };

    fn from(e: PaddingError) -> Self {
        Self::Padding(e)
    }
}

impl From<AllocError> for TextError {
    ghost use Rattle.bech32_refusals.specs.declared.texts.TextError.TheVariants.{Memory};

    ghost from_gives = { λ e r. r ≡ Memory };

    fn from(_e: AllocError) -> Self {
        Self::Memory
    }
}

impl From<CodeLengthError> for ElementsError {
    ghost use Rattle.bech32_refusals.specs.declared.texts.ElementsError.TheVariants.{TooLong};

    ghost from_gives = { λ e r. r ≡ TooLong e };

    fn from(e: CodeLengthError) -> Self {
        Self::TooLong(e)
    }
}

impl From<AllocError> for ElementsError {
    ghost use Rattle.bech32_refusals.specs.declared.texts.ElementsError.TheVariants.{Memory};

    ghost from_gives = { λ e r. r ≡ Memory };

    fn from(_e: AllocError) -> Self {
        Self::Memory
    }
}

impl From<CodeLengthError> for EncodeError {
    ghost use Rattle.bech32_refusals.specs.declared.texts.EncodeError.TheVariants.{TooLong};

    ghost from_gives = { λ e r. r ≡ TooLong e };

    fn from(e: CodeLengthError) -> Self {
        Self::TooLong(e)
    }
}

impl From<FmtError> for EncodeError {
    ghost use Rattle.bech32_refusals.specs.declared.texts.EncodeError.TheVariants.{Fmt};

    ghost from_gives = { λ e r. r ≡ Fmt e };

    fn from(e: FmtError) -> Self {
        Self::Fmt(e)
    }
}

impl From<AllocError> for EncodeError {
    ghost use Rattle.bech32_refusals.specs.declared.texts.EncodeError.TheVariants.{Memory};

    ghost from_gives = { λ e r. r ≡ Memory };

    fn from(_e: AllocError) -> Self {
        Self::Memory
    }
}
