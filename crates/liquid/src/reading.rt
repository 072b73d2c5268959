//! Reads confidential addresses.

ghost use Rattle.std.specs.Prelude.{◌≡◌, ◌↔◌, true, drop, IfErr, IfOk, IsOk, MatchResult};
ghost use Rattle.bech32_gf.specs.Alphabet.{is_data};
ghost use Rattle.bech32_gf.specs.Fe32.{elements_of};
ghost use Rattle.bech32_decode.specs.Parts.{checked_data};
ghost use Rattle.bech32_decode.specs.Segwit.{IsVersioned};
ghost use Rattle.blech32.specs.Words.{blech32_code};
ghost use Rattle.liquid.specs.Confidential.{IsConfidentialText, IsDecodedConfidential, IsKeyAndProgram};
ghost use Rattle.liquid.specs.Parts.{confidential_key, confidential_part, confidential_program, confidential_version};
ghost use Rattle.liquid.specs.Read.{IsReadConfidential};
ghost use Rattle.liquid.specs.Refusals.{IsConfidentialRefusal, IsOtherVersion, IsKeyAndProgramRefusal};

use crate::address::{Address, KEY_LENGTH};
use crate::error::DecodeError;
use bech32_decode::{CheckedHrpstring, Reading, data_bytes_count};
use bech32_gf::gf32::Fe32;
use bech32_refusals::segwit::{MAX_WITNESS_VERSION, validate_witness_program_length};
use blech32::Blech32;

// The witness version that a data part begins with, where it is 0.
fn version_in(data_part: &[u8]) -> Result<Fe32, DecodeError>
    requires { is_data data_part.now ≡ true }
    ensures { MatchResult result
        (λ v. IsVersioned (elements_of data_part.now) v (elements_of (drop 1 data_part.now))
        × (v.value ≡ 0))
        (λ e. IsOtherVersion (elements_of data_part.now) e) }
{
    let Some(first) = data_part.first() else {
        return Err(DecodeError::NoData);
    };
    let version = Fe32::from_char_unchecked(*first);
    let number = version.to_u8();
    if number > MAX_WITNESS_VERSION {
        return Err(DecodeError::InvalidWitnessVersion(version));
    }
    if number != 0 {
        return Err(DecodeError::UnsupportedVersion(version));
    }
    Ok(version)
}

// Tests what stands between a witness version and the checksum: that it is a blinding key and a
// program of that version.
fn validate_payload(version: Fe32, payload: &CheckedHrpstring<'_>) -> Result<(), DecodeError>
    ensures { MatchResult result
        (λ _. IsKeyAndProgram version (elements_of (checked_data payload.now)))
        (λ e. IsKeyAndProgramRefusal version (elements_of (checked_data payload.now)) e) }
{
    payload.validate_segwit_padding()?;
    let count = data_bytes_count(payload.data_part_ascii_no_checksum());
    if count < KEY_LENGTH {
        return Err(DecodeError::NoBlindingKey);
    }
    validate_witness_program_length(count - KEY_LENGTH, version)?;
    Ok(())
}

// What a text that was read is decoded to, or why it is not.
fn decoded(reading: &Reading<'_, Blech32>) -> Result<Address, DecodeError>
    ensures { MatchResult result
        (λ a. IsReadConfidential blech32_code reading.now.text.now a)
        (λ e. IsConfidentialRefusal blech32_code reading.now.text.now e) }
{
    let version = version_in(reading.data_part)?;
    reading.validate()?;
    let mut checked = reading.checked();
    let Some(_) = checked.remove_witness_version() else {
        return Err(DecodeError::NoData);
    };
    validate_payload(version, &checked)?;
    let payload = checked.data_part_ascii_no_checksum();
    Ok(Address::of_payload(reading.hrp, version, payload))
}

/// Decodes a confidential address: its human-readable part, in the case of the text, its witness
/// version, its blinding key and its program. Any human-readable part is accepted: compare it with
/// that of the network (`lq` for Liquid).
///
/// These parts have one address in lower case and one in upper case. Decoding allocates nothing.
///
/// # Errors
///
/// The first of: the text is not in the grammar; no data part; a witness version above 16; one from
/// 1 to 16; the checksum, that of Blech32: a text of more than 1,023 characters, a data part of
/// less than twelve, a wrong remainder; no data before the checksum; padding of more than four
/// bits; padding that is not zero; less than 33 bytes, those of a blinding key; a program of less
/// than 2 bytes, of more than 40, or of neither 20 nor 32.
pub fn decode(s: &str) -> Result<Address, DecodeError>
    ensures value { IfOk result (λ a. IsDecodedConfidential blech32_code s.now
        (confidential_part a) (confidential_version a) (confidential_key a)
        (confidential_program a)) }
    ensures accepts { IsOk result ↔ IsConfidentialText blech32_code s.now }
    ensures refused { IfErr result (λ e. IsConfidentialRefusal blech32_code s.now e) }
{
    let reading = Reading::<Blech32>::new(s)?;
    decoded(&reading)
}
