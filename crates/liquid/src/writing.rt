//! Writes confidential addresses.

ghost use Rattle.std.specs.Prelude.{◌≡◌, ◌≢◌, ◌≤◌, ◌++◌, ℕ, List, length, take, string_bytes, IfErr, IfOk, IsOkUnless, MatchResult};
ghost use Rattle.bech32_hrp.specs.HrpBytes.{hrp_bytes};
ghost use Rattle.bech32_encode.specs.Buffers.{IsPut};
ghost use Rattle.bech32_refusals.specs.SegwitRules.{IsProgramLength, script_hash_length};
ghost use Rattle.blech32.specs.Words.{blech32_code};
ghost use Rattle.liquid.specs.Confidential.{IsLowerConfidential};
ghost use Rattle.liquid.specs.Writing.{IsConfidentialEncodeRefusal, IsVersionAndLength, SpellsEachConfidential, confidential_length};

use crate::address::KEY_LENGTH;
use crate::error::EncodeError;
use bech32_encode::{encode_text, put_text_of_part, text_length_of_part};
use bech32_gf::gf32::Fe32;
use bech32_hrp::Hrp;
use bech32_refusals::segwit::{is_valid_witness_version, validate_witness_program_length};
use blech32::Blech32;
use std::alloc::Allocator;

/// Tests that a witness version and a program of `program_length` bytes have a confidential
/// address.
///
/// # Errors
///
/// The first of: a witness version above 16; one from 1 to 16; a program of less than 2 bytes, of
/// more than 40, or of neither 20 nor 32.
pub fn validate(witness_version: Fe32, program_length: usize) -> Result<(), EncodeError>
    ensures { MatchResult result
        (λ _. IsVersionAndLength witness_version program_length)
        (λ e. IsConfidentialEncodeRefusal witness_version program_length e
        × (e ≢ EncodeError.Memory)) }
{
    if !is_valid_witness_version(witness_version) {
        return Err(EncodeError::WitnessVersion(witness_version));
    }
    let number = witness_version.to_u8();
    if number != 0 {
        return Err(EncodeError::UnsupportedVersion(witness_version));
    }
    validate_witness_program_length(program_length, witness_version)?;
    Ok(())
}

// A blinding key and, behind it, a program, and how many bytes they are.
fn payload_of(blinding_key: &[u8; 33], program: &[u8]) -> ([u8; 65], usize)
    requires { length program.now ≤ script_hash_length }
    ensures bytes { take result.1 result.0 ≡ blinding_key.now ++ program.now }
    ensures fits { result.1 ≤ 65 }
{
    let mut bytes = [0u8; 65];
    let size = KEY_LENGTH + program.len();
    bytes[..KEY_LENGTH].copy_from_slice(blinding_key);
    bytes[KEY_LENGTH..size].copy_from_slice(program);
    (bytes, size)
}

/// The number of characters of the confidential address of a human-readable part, given as bytes,
/// and a program of `program_length` bytes.
pub fn address_length(part: &[u8], program_length: usize) -> usize
    requires { program_length ≤ script_hash_length }
    ensures { result ≡ confidential_length part.now program_length }
{
    text_length_of_part::<Blech32>(part, KEY_LENGTH + program_length).saturating_add(1)
}

/// Puts the confidential address, in lower case, of a human-readable part, given as bytes, a
/// version and a program that [`validate`] accepts, and a blinding key, at the front of a buffer
/// that has room for it, and returns its length.
pub fn put_address(
    part: &[u8],
    witness_version: Fe32,
    blinding_key: &[u8; 33],
    program: &[u8],
    text: &mut [u8],
) -> usize
    requires lawful { IsVersionAndLength witness_version (length program.now) }
    requires room { confidential_length part.now (length program.now) ≤ length text.old }
    ensures { (written : List ℕ)
        × IsLowerConfidential blech32_code part.now
        witness_version blinding_key.now program.now written
        × IsPut written text.old text.new result }
{
    let (bytes, size) = payload_of(blinding_key, program);
    put_text_of_part::<Blech32>(part, Some(witness_version), &bytes[..size], text)
}

/// Encodes a confidential address, in lower case, with memory from `alloc`: of version 0, by
/// Blech32. That the blinding key is a point of the curve is not tested.
///
/// Given what [`decode`](crate::decode) returned for a text, it writes that text in lower case.
///
/// # Errors
///
/// The first of: a witness version above 16; one from 1 to 16; a program of less than 2 bytes, of
/// more than 40, or of neither 20 nor 32; out of memory.
pub fn encode_in<A: Allocator>(
    alloc: A,
    hrp: Hrp,
    witness_version: Fe32,
    blinding_key: &[u8; 33],
    program: &[u8],
) -> Result<String<A>, EncodeError>
    ensures text { IfOk result (λ s. IsLowerConfidential blech32_code (hrp_bytes hrp)
        witness_version blinding_key.now program.now (string_bytes s)) }
    ensures exists { IsVersionAndLength witness_version (length program.now)
        → IsOkUnless result EncodeError.Memory }
    ensures refused { IfErr result
        (λ e. IsConfidentialEncodeRefusal witness_version (length program.now) e) }
    ensures spelling { SpellsEachConfidential blech32_code (λ s. string_bytes s)
        (hrp_bytes hrp) witness_version blinding_key.now program.now result }
{
    validate(witness_version, program.len())?;
    let (bytes, count) = payload_of(blinding_key, program);
    let size = address_length(hrp.as_bytes(), program.len());
    let payload = &bytes[..count];
    let text = encode_text::<Blech32, A>(alloc, hrp, Some(witness_version), payload, size)?;
    Ok(text)
}
