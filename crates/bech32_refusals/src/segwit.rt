//! The rules of segwit addresses (BIP-173, Segwit address format; BIP-350).

ghost use Rattle.std.specs.Prelude.{◌≡◌, ◌↔◌, ◌<◌, ◌≤◌, MatchResult, IsTrue};
ghost use Rattle.bech32_gf.specs.Fe32.{value};
ghost use Rattle.bech32_refusals.specs.SegwitRules.{IsProgramLength, IsLengthRefusal, max_witness_version};

use bech32_gf::gf32::Fe32;
use thiserror::Error;

/// The most characters of a segwit address (BIP-173, Bech32).
///
/// This is less than the code length of its checksum.
pub const MAX_STRING_LENGTH: usize = 90;

/// The highest witness version (BIP-173, Segwit address format).
pub const MAX_WITNESS_VERSION: u8 = 16;

/// The fewest bytes of a witness program (BIP-173, Segwit address format).
pub const MIN_PROGRAM_LENGTH: usize = 2;

/// The most bytes of a witness program (BIP-173, Segwit address format).
pub const MAX_PROGRAM_LENGTH: usize = 40;

/// The bytes of a witness program of version 0 that is the hash of a key (BIP-141,
/// Witness program).
pub const KEY_HASH_LENGTH: usize = 20;

/// The bytes of a witness program of version 0 that is the hash of a script (BIP-141,
/// Witness program).
pub const SCRIPT_HASH_LENGTH: usize = 32;

/// Segwit version 0.
pub const VERSION_0: Fe32 = Fe32::Q;

/// Segwit version 1 (taproot).
pub const VERSION_1: Fe32 = Fe32::P;

/// An element is not a witness version: it is above 16.
#[derive(Clone, Copy, Debug, PartialEq, Eq, Drop, Error)]
#[error("invalid segwit witness version: {} (bech32 character: '{}')", .0.to_u8(), .0.to_char())]
pub struct InvalidWitnessVersionError(pub Fe32);

/// Why a witness program is not of a lawful length.
#[derive(Clone, Copy, Debug, PartialEq, Eq, Drop, Error)]
pub enum WitnessLengthError {
    /// It has less than 2 bytes.
    #[error("witness program is less than 2 bytes long")]
    TooShort,
    /// It has more than 40 bytes.
    #[error("witness program is more than 40 bytes long")]
    TooLong,
    /// It is of version 0, and has neither 20 nor 32 bytes.
    #[error("the segwit v0 witness is not 20 or 32 bytes long")]
    InvalidSegwitV0,
}

/// Whether an element is a witness version: from 0 to 16.
pub fn is_valid_witness_version(witness_version: Fe32) -> bool
    ensures { IsTrue result ↔ (value witness_version ≤ max_witness_version) }
{
    validate_witness_version(witness_version).is_ok()
}

/// Whether a witness program of this version may have this many bytes: 2 to 40, and 20 or 32 of
/// version 0.
pub fn is_valid_witness_program_length(length: usize, witness_version: Fe32) -> bool
    ensures { IsTrue result ↔ IsProgramLength witness_version length }
{
    validate_witness_program_length(length, witness_version).is_ok()
}

/// Tests that an element is a witness version: from 0 to 16.
///
/// # Errors
///
/// The element, where it is above 16.
pub fn validate_witness_version(witness_version: Fe32) -> Result<(), InvalidWitnessVersionError>
    ensures { MatchResult result
        (λ _. value witness_version ≤ max_witness_version)
        (λ e. (max_witness_version < value witness_version) × (e.0 ≡ witness_version)) }
{
    if witness_version.to_u8() > MAX_WITNESS_VERSION {
        return Err(InvalidWitnessVersionError(witness_version));
    }
    Ok(())
}

/// Tests how many bytes a witness program of this version has.
///
/// # Errors
///
/// The first of: less than 2; more than 40; neither 20 nor 32 of version 0.
pub fn validate_witness_program_length(
    length: usize,
    version: Fe32,
) -> Result<(), WitnessLengthError>
    ensures { MatchResult result
        (λ _. IsProgramLength version length)
        (λ e. IsLengthRefusal version length e) }
{
    if length < MIN_PROGRAM_LENGTH {
        return Err(WitnessLengthError::TooShort);
    }
    if length > MAX_PROGRAM_LENGTH {
        return Err(WitnessLengthError::TooLong);
    }
    if version.to_u8() == 0 && length != KEY_HASH_LENGTH && length != SCRIPT_HASH_LENGTH {
        return Err(WitnessLengthError::InvalidSegwitV0);
    }
    Ok(())
}
