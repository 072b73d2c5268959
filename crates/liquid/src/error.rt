//! Why a confidential address is not read or not written.

ghost use Rattle.std.specs.Prelude.{◌≡◌};

use bech32_gf::gf32::Fe32;
use bech32_refusals::segwit::WitnessLengthError;
use bech32_refusals::{ChecksumError, PaddingError, UncheckedHrpstringError};
use std::alloc::AllocError;
use thiserror::Error;

/// Why a text is not decoded as a confidential address.
#[derive(Clone, Copy, Debug, PartialEq, Eq, Drop, Error)]
pub enum DecodeError {
    /// The text is not in the grammar.
    #[error("{0}")]
    Unchecked(UncheckedHrpstringError),
    /// Nothing stands behind the separator, or nothing before the checksum.
    #[error("no witness version")]
    NoData,
    /// The witness version is above 16.
    #[error("invalid witness version: {}", .0.to_u8())]
    InvalidWitnessVersion(Fe32),
    /// The witness version is from 1 to 16: such addresses have another checksum.
    #[error("witness version not supported: {}", .0.to_u8())]
    UnsupportedVersion(Fe32),
    /// Blech32 refuses the text.
    #[error("{0}")]
    Checksum(ChecksumError),
    /// The bits behind the last whole byte are more than four, or not zero.
    #[error("{0}")]
    Padding(PaddingError),
    /// Less than 33 bytes stand behind the witness version.
    #[error("no blinding key")]
    NoBlindingKey,
    /// The program is not of a lawful length.
    #[error("{0}")]
    WitnessLength(WitnessLengthError),
}

/// Why a confidential address is not written.
#[derive(Clone, Copy, Debug, PartialEq, Eq, Drop, Error)]
pub enum EncodeError {
    /// The witness version is above 16.
    #[error("invalid witness version: {}", .0.to_u8())]
    WitnessVersion(Fe32),
    /// The witness version is from 1 to 16: such addresses have another checksum.
    #[error("witness version not supported: {}", .0.to_u8())]
    UnsupportedVersion(Fe32),
    /// The program is not of a lawful length.
    #[error("{0}")]
    WitnessLength(WitnessLengthError),
    /// Out of memory for the address.
    #[error("out of memory")]
    Memory,
}

impl From<UncheckedHrpstringError> for DecodeError {
    ghost use Rattle.liquid.specs.declared.error.DecodeError.TheVariants.{Unchecked};

    ghost from_gives = { λ e r. r ≡ Unchecked e };

    fn from(e: UncheckedHrpstringError) -> Self {
        Self::Unchecked(e)
    }
}

impl From<ChecksumError> for DecodeError {
    ghost use Rattle.liquid.specs.declared.error.DecodeError.TheVariants.{Checksum};

    ghost from_gives = { λ e r. r ≡ Checksum e };

    fn from(e: ChecksumError) -> Self {
        Self::Checksum(e)
    }
}

impl From<PaddingError> for DecodeError {
    ghost use Rattle.liquid.specs.declared.error.DecodeError.TheVariants.{Padding};

    ghost from_gives = { λ e r. r ≡ Padding e };

    fn from(e: PaddingError) -> Self {
        Self::Padding(e)
    }
}

impl From<WitnessLengthError> for DecodeError {
    ghost use Rattle.liquid.specs.declared.error.DecodeError.TheVariants.{WitnessLength};

    ghost from_gives = { λ e r. r ≡ WitnessLength e };

    fn from(e: WitnessLengthError) -> Self {
        Self::WitnessLength(e)
    }
}

impl From<WitnessLengthError> for EncodeError {
    ghost use Rattle.liquid.specs.declared.error.EncodeError.TheVariants.{WitnessLength};

    ghost from_gives = { λ e r. r ≡ WitnessLength e };

    fn from(e: WitnessLengthError) -> Self {
        Self::WitnessLength(e)
    }
}

impl From<AllocError> for EncodeError {
    ghost use Rattle.liquid.specs.declared.error.EncodeError.TheVariants.{Memory};

    ghost from_gives = { λ e r. r ≡ Memory };

    fn from(_e: AllocError) -> Self {
        Self::Memory
    }
}
