//! The data of segwit addresses: a witness version and a program, as characters (BIP-173, Segwit
//! address format).

ghost use Rattle.std.specs.Prelude.{◌≡◌, ◌≢◌, ◌≤◌, ℕ, [], true, length, drop, MatchResult};
ghost use Rattle.bech32_gf.specs.Alphabet.{is_data};
ghost use Rattle.bech32_gf.specs.Fe32.{elements_of};
ghost use Rattle.bech32_bits.specs.Bits.{to_bytes};
ghost use Rattle.bech32_decode.specs.Segwit.{IsDataRefusal, IsVersioned};
ghost use Rattle.bech32_decode.specs.SegwitParts.{IsDataOf};
ghost use Rattle.bech32_decode.specs.SegwitPadding.{IsPadded, IsPaddingRefusal};
ghost use Rattle.bech32_refusals.specs.SegwitRules.{IsLengthRefusal, IsProgramLength, max_address_length};

use crate::byte_reader::ByteIter;
use crate::version::first_version;
use bech32_gf::gf32::Fe32;
use bech32_refusals::segwit::{self, MAX_STRING_LENGTH, WitnessLengthError};
use bech32_refusals::{PaddingError, SegwitHrpstringError};

/// A witness version, and the characters of a program.
#[derive(Clone, Copy)]
pub struct AddressData<'s> {
    pub version: Fe32,
    pub program: &'s [u8],
    pub ghost of_alphabet: { is_data program.now ≡ true },
}

// Tests the bits of characters behind their last whole byte: at most four, and zero.
#[inline]
pub(crate) fn validate_padding(characters: &[u8]) -> Result<(), PaddingError>
    requires { is_data characters.now ≡ true }
    ensures { MatchResult result
        (λ _. IsPadded (elements_of characters.now))
        (λ e. IsPaddingRefusal (elements_of characters.now) e) }
{
    let Some(last) = characters.last() else {
        return Ok(());
    };
    let count = characters.len() % 8 * 5 % 8;
    if count > 4 {
        return Err(PaddingError::TooMuch);
    }
    if Fe32::from_char_unchecked(*last).to_u8() % (1 << count) != 0 {
        return Err(PaddingError::NonZero);
    }
    Ok(())
}

// Tests how many bytes characters have, as the program of a witness version.
#[inline]
pub(crate) fn validate_program_length(
    characters: &[u8],
    version: Fe32,
) -> Result<(), WitnessLengthError>
    requires { is_data characters.now ≡ true }
    ensures { MatchResult result
        (λ _. IsProgramLength version (length (to_bytes (elements_of characters.now))))
        (λ e. IsLengthRefusal version (length (to_bytes (elements_of characters.now))) e) }
{
    segwit::validate_witness_program_length(ByteIter::new(characters).len(), version)
}

// Tests that there are characters before a checksum, and at most `MAX_STRING_LENGTH` in the whole
// text.
#[inline]
pub(crate) fn validate_sizes(
    text_length: usize,
    characters: &[u8],
) -> Result<(), SegwitHrpstringError>
    ensures { MatchResult result
        (λ _. (text_length ≤ max_address_length) × (characters.now ≢ []))
        (λ e. IsDataRefusal text_length (elements_of characters.now) e) }
{
    if characters.is_empty() {
        return Err(SegwitHrpstringError::NoData);
    }
    if text_length > MAX_STRING_LENGTH {
        return Err(SegwitHrpstringError::TooLong(text_length));
    }
    Ok(())
}

// The version and the program of the characters before a checksum, whose version is known.
#[inline]
pub(crate) fn data_of_version<'s>(
    version: Fe32,
    characters: &'s [u8],
) -> Result<AddressData<'s>, SegwitHrpstringError>
    requires of_alphabet { is_data characters.now ≡ true }
    requires versioned { IsVersioned (elements_of characters.now) version
        (elements_of (drop 1 characters.now)) }
    ensures { (n : ℕ) → n ≤ max_address_length → MatchResult result
        (λ a. IsDataOf n characters.now a.version a.program.now)
        (λ e. IsDataRefusal n (elements_of characters.now) e) }
{
    let program = &characters[1..];
    validate_padding(program)?;
    validate_program_length(program, version)?;
    Ok(AddressData { version, program })
}

// The version and the program of the characters before a checksum, in a text of this many bytes.
#[inline]
pub(crate) fn address_data<'s>(
    text_length: usize,
    characters: &'s [u8],
) -> Result<AddressData<'s>, SegwitHrpstringError>
    requires { is_data characters.now ≡ true }
    ensures { MatchResult result
        (λ a. IsDataOf text_length characters.now a.version a.program.now)
        (λ e. IsDataRefusal text_length (elements_of characters.now) e) }
{
    validate_sizes(text_length, characters)?;
    let version = first_version(characters)?;
    data_of_version(version, characters)
}
