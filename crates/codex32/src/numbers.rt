//! The numbers of the refusals of `codex32`, from 11 to 92, that programs and the functions for C
//! print or return in their place. An error that carries another has its number.
//!
//! Numbers from 1 to 9 and from 93 are left to the programs.

ghost use Rattle.bech32_numbers.specs.Numbers.{HasNumber};
ghost use Rattle.codex32.specs.Numbers.{number_of_codex32_error, number_of_derive_error, number_of_codex32_encode_error, number_of_header_error, number_of_payload_error, number_of_split_error};

use crate::{Codex32Error, DeriveError, EncodeError, HeaderError, PayloadError, SplitError};
use bech32_numbers::{checksum_error_number, text_error_number};

/// The number, 11 to 33, 81 to 84 or 91, of a text that is not a codex32 string, or for which no
/// nearest text is looked for.
pub fn codex32_error_number(e: Codex32Error) -> u8
    ensures { HasNumber number_of_codex32_error e result }
{
    match e {
        Codex32Error::Text(e) => text_error_number(e),
        Codex32Error::Checksum(e) => checksum_error_number(e),
        Codex32Error::Hrp => 81,
        Codex32Error::Length => 82,
        Codex32Error::Threshold => 83,
        Codex32Error::ShareIndex => 84,
        Codex32Error::Memory => 91,
    }
}

/// The number, 83 to 86, of words or parts of which no header is made.
pub fn header_error_number(e: HeaderError) -> u8
    ensures { HasNumber number_of_header_error e result }
{
    match e {
        HeaderError::Threshold => 83,
        HeaderError::Unshared => 84,
        HeaderError::Identifier => 85,
        HeaderError::ShareIndex => 86,
    }
}

/// The number, 87, of a payload that has no bytes.
pub fn payload_error_number(e: PayloadError) -> u8
    ensures { HasNumber number_of_payload_error e result }
{
    match e {
        PayloadError::LeftOver => 87,
    }
}

/// The number, 56 or 91, of bytes of which no string is made.
pub fn encode_error_number(e: EncodeError) -> u8
    ensures { HasNumber number_of_codex32_encode_error e result }
{
    match e {
        EncodeError::Size => 56,
        EncodeError::Memory => 91,
    }
}

/// The number, 74 to 77, 84 or 91, of shares that give no string.
pub fn derive_error_number(e: DeriveError) -> u8
    ensures { HasNumber number_of_derive_error e result }
{
    match e {
        DeriveError::TooFew => 74,
        DeriveError::OtherSet => 75,
        DeriveError::IndexTwice => 76,
        DeriveError::Contradiction => 77,
        DeriveError::Unshared => 84,
        DeriveError::Memory => 91,
    }
}

/// The number, 56, 66, 68, 78, 84 or 92, of a secret that is not split.
pub fn split_error_number(e: SplitError) -> u8
    ensures { HasNumber number_of_split_error e result }
{
    match e {
        SplitError::Size => 56,
        SplitError::Count => 78,
        SplitError::Random => 66,
        SplitError::EqualRandom => 68,
        SplitError::Unshared => 84,
        SplitError::NoRoom => 92,
    }
}
