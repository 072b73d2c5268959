//! The numbers of refusals: each error of `bech32` has one, from 1 to 99, that programs and the
//! functions for C print or return in its place. An error that carries another has its number.
//!
//! Numbers from 1 to 9 and from 92 are left to the programs.
//!
//! Below it: `bech32_near`, `bech32_segwit`.
//! Standard: none.
#![tactic(auto)]

ghost use Rattle.bech32_numbers.specs.Numbers.{HasNumber, number_of_hrp_error};
ghost use Rattle.bech32_numbers.specs.Numbers.{number_of_char_error, number_of_text_error};
ghost use Rattle.bech32_numbers.specs.Numbers.{number_of_checksum_error, number_of_checked_error};
ghost use Rattle.bech32_numbers.specs.Numbers.{number_of_padding_error, number_of_length_error};
ghost use Rattle.bech32_numbers.specs.Numbers.{number_of_address_error, number_of_correct_error};
ghost use Rattle.bech32_numbers.specs.Numbers.{number_of_edits_error, number_of_decode_error};
ghost use Rattle.bech32_numbers.specs.Numbers.{number_of_encode_error};
ghost use Rattle.bech32_numbers.specs.Numbers.{number_of_segwit_decode_error};
ghost use Rattle.bech32_numbers.specs.Numbers.{number_of_segwit_encode_error};
ghost use Rattle.bech32_numbers.specs.Numbers.{number_of_text_decode_error};
ghost use Rattle.bech32_numbers.specs.Numbers.{number_of_elements_error};

mod message;
mod sentences;

pub use self::message::put_sentence;
pub use self::sentences::{bech32_sentence_of, codex32_sentence_of};
use bech32_correction::CorrectError;
use bech32_hrp as hrp;
use bech32_near::edits::EditsError;
use bech32_refusals::segwit::WitnessLengthError;
use bech32_refusals::{
    CharError, CheckedHrpstringError, ChecksumError, DecodeError, ElementsError, EncodeError,
    PaddingError, SegwitHrpstringError, TextError, UncheckedHrpstringError,
};
use bech32_segwit as segwit;

/// The number of a text that a checksum refuses for its residue, and that no correction mends.
pub const NO_CORRECTION: u8 = 34;

/// The number, 11 to 16, of a human-readable part that is refused. `Fmt`, 16, comes of
/// `Hrp::parse_display` alone, so no program of this repository prints it.
pub fn hrp_error_number(e: hrp::Error) -> u8
    ensures { HasNumber number_of_hrp_error e result }
{
    match e {
        hrp::Error::Empty => 11,
        hrp::Error::TooLong(_) => 12,
        hrp::Error::NonAsciiChar(_) => 13,
        hrp::Error::InvalidAsciiByte(_) => 14,
        hrp::Error::MixedCase => 15,
        hrp::Error::Fmt => 16,
    }
}

/// The number, 21 to 24, of characters that are refused.
pub fn char_error_number(e: CharError) -> u8
    ensures { HasNumber number_of_char_error e result }
{
    match e {
        CharError::InvalidChar(_) => 21,
        CharError::MixedCase => 22,
        CharError::MissingSeparator => 23,
        CharError::NothingAfterSeparator => 24,
    }
}

/// The number, 11 to 24, of a text that is not in the grammar.
pub fn text_error_number(e: UncheckedHrpstringError) -> u8
    ensures { HasNumber number_of_text_error e result }
{
    match e {
        UncheckedHrpstringError::Char(e) => char_error_number(e),
        UncheckedHrpstringError::Hrp(e) => hrp_error_number(e),
    }
}

/// The number, 31 to 33, of a text that a checksum refuses.
pub fn checksum_error_number(e: ChecksumError) -> u8
    ensures { HasNumber number_of_checksum_error e result }
{
    match e {
        ChecksumError::CodeLength(_) => 31,
        ChecksumError::InvalidLength => 32,
        ChecksumError::InvalidResidue(_) => 33,
    }
}

/// The number, 11 to 33, of a text that is not in the grammar, or that a checksum refuses.
pub fn checked_error_number(e: CheckedHrpstringError) -> u8
    ensures { HasNumber number_of_checked_error e result }
{
    match e {
        CheckedHrpstringError::Parse(e) => text_error_number(e),
        CheckedHrpstringError::Checksum(e) => checksum_error_number(e),
    }
}

/// The number, 11 to 33 or 91, of a text that is not corrected, or near which none is looked for.
pub fn correct_error_number(e: CorrectError) -> u8
    ensures { HasNumber number_of_correct_error e result }
{
    match e {
        CorrectError::Refused(e) => checked_error_number(e),
        CorrectError::Memory => 91,
    }
}

/// The number, 11 to 24 or 91, of a text of which no edits are looked for.
pub fn edits_error_number(e: EditsError) -> u8
    ensures { HasNumber number_of_edits_error e result }
{
    match e {
        EditsError::Refused(e) => text_error_number(e),
        EditsError::Memory => 91,
    }
}

/// The number, 44 or 45, of bits behind the last whole byte that are refused (BIP-173, Segwit
/// address format).
pub fn padding_error_number(e: PaddingError) -> u8
    ensures { HasNumber number_of_padding_error e result }
{
    match e {
        PaddingError::TooMuch => 44,
        PaddingError::NonZero => 45,
    }
}

/// The number, 46 to 48, of the length of a witness program that is refused.
pub fn length_error_number(e: WitnessLengthError) -> u8
    ensures { HasNumber number_of_length_error e result }
{
    match e {
        WitnessLengthError::TooShort => 46,
        WitnessLengthError::TooLong => 47,
        WitnessLengthError::InvalidSegwitV0 => 48,
    }
}

/// The number, 11 to 48 or 91, of a text that is not a segwit address.
pub fn address_error_number(e: SegwitHrpstringError) -> u8
    ensures { HasNumber number_of_address_error e result }
{
    match e {
        SegwitHrpstringError::Unchecked(e) => text_error_number(e),
        SegwitHrpstringError::TooLong(_) => 41,
        SegwitHrpstringError::NoData => 42,
        SegwitHrpstringError::InvalidWitnessVersion(_) => 43,
        SegwitHrpstringError::Padding(e) => padding_error_number(e),
        SegwitHrpstringError::WitnessLength(e) => length_error_number(e),
        SegwitHrpstringError::Checksum(e) => checksum_error_number(e),
        SegwitHrpstringError::Memory => 91,
    }
}

/// The number, 11 to 33 or 91, of a text that is not decoded.
pub fn decode_error_number(e: DecodeError) -> u8
    ensures { HasNumber number_of_decode_error e result }
{
    match e {
        DecodeError::Parse(e) => text_error_number(e),
        DecodeError::Checksum(e) => checksum_error_number(e),
        DecodeError::Memory => 91,
    }
}

/// The number, 11 to 45 or 91, of a text that is not decoded by a checksum that is asked for.
pub fn text_decode_error_number(e: TextError) -> u8
    ensures { HasNumber number_of_text_decode_error e result }
{
    match e {
        TextError::Parse(e) => text_error_number(e),
        TextError::Checksum(e) => checksum_error_number(e),
        TextError::Padding(e) => padding_error_number(e),
        TextError::Memory => 91,
    }
}

/// The number, 51, 67 or 91, of elements that are not written.
pub fn elements_error_number(e: ElementsError) -> u8
    ensures { HasNumber number_of_elements_error e result }
{
    match e {
        ElementsError::TooLong(_) => 51,
        ElementsError::Element(_) => 67,
        ElementsError::Memory => 91,
    }
}

/// The number, 51, 54 or 91, of a text that is not written.
pub fn encode_error_number(e: EncodeError) -> u8
    ensures { HasNumber number_of_encode_error e result }
{
    match e {
        EncodeError::TooLong(_) => 51,
        EncodeError::Fmt(_) => 54,
        EncodeError::Memory => 91,
    }
}

/// The number, 11 to 48 or 91, of a segwit address that is not decoded.
pub fn segwit_decode_error_number(e: segwit::DecodeError) -> u8
    ensures { HasNumber number_of_segwit_decode_error e result }
{
    address_error_number(e.0)
}

/// The number, 46 to 48, 52 to 54 or 91, of a segwit address that is not written.
pub fn segwit_encode_error_number(e: segwit::EncodeError) -> u8
    ensures { HasNumber number_of_segwit_encode_error e result }
{
    match e {
        segwit::EncodeError::WitnessVersion(_) => 52,
        segwit::EncodeError::WitnessLength(e) => length_error_number(e),
        segwit::EncodeError::TooLong(_) => 53,
        segwit::EncodeError::Fmt(_) => 54,
        segwit::EncodeError::Memory => 91,
    }
}
