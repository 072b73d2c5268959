//! The numbers of refusals, as programs print and the functions for C return them.

ghost use Rattle.bech32_numbers.specs.Numbers.{HasNumber};
ghost use Rattle.liquid.specs.Numbers.{number_of_confidential_error, number_of_confidential_encode_error};

use crate::error::{DecodeError, EncodeError};
use bech32_numbers::{
    checksum_error_number, length_error_number, padding_error_number, text_error_number,
};

/// The number, 11 to 79, of a text that is not a confidential address.
pub fn decode_error_number(e: DecodeError) -> u8
    ensures { HasNumber number_of_confidential_error e result }
{
    match e {
        DecodeError::Unchecked(e) => text_error_number(e),
        DecodeError::NoData => 42,
        DecodeError::InvalidWitnessVersion(_) => 43,
        DecodeError::UnsupportedVersion(_) => 70,
        DecodeError::Checksum(e) => checksum_error_number(e),
        DecodeError::Padding(e) => padding_error_number(e),
        DecodeError::NoBlindingKey => 79,
        DecodeError::WitnessLength(e) => length_error_number(e),
    }
}

/// The number, 46 to 48, 52, 70 or 91, of a confidential address that is not written.
pub fn encode_error_number(e: EncodeError) -> u8
    ensures { HasNumber number_of_confidential_encode_error e result }
{
    match e {
        EncodeError::WitnessVersion(_) => 52,
        EncodeError::UnsupportedVersion(_) => 70,
        EncodeError::WitnessLength(e) => length_error_number(e),
        EncodeError::Memory => 91,
    }
}
