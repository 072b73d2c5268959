//! Encoding and decoding of segwit addresses.
//!
//! Below it: `bech32_encode`, `bech32_decode`.
//! Standard: BIP-173, Segwit address format; BIP-350.
#![tactic(auto)]

ghost use Rattle.std.specs.Prelude.{◌≡◌, ◌≢◌, ◌<◌, ◌≤◌, ◌-◌, ◌^◌, ◌∷◌, min, MatchResult, IfOk, IfErr, IsOkUnless, string_bytes};
ghost use Rattle.bech32_gf.specs.Fe32.{zero, one};
ghost use Rattle.bech32_bits.specs.Bits.{to_fes};
ghost use Rattle.bech32_hrp.specs.HrpBytes.{hrp_bytes};
ghost use Rattle.bech32_checksum.specs.Encoded.{IsEncodedText};
ghost use Rattle.bech32_decode.specs.Parts.{address_program};
ghost use Rattle.bech32_decode.specs.Segwit.{segwit_code, IsLowerAddress, IsAddressText, IsDecodedAddress, IsOneSpelling};
ghost use Rattle.bech32_decode.specs.Text.{HasHrp};
ghost use Rattle.bech32_segwit.specs.SegwitDecoding.{IsSegwitDecodeRefusal};
ghost use Rattle.bech32_segwit.specs.SegwitEncoding.{HasAddress, SpellsEachAddress, address_length, IsSegwitEncodeRefusal};
ghost use Rattle.bech32_refusals.specs.SegwitRules.{max_address_length};

mod error;
mod unchecked;

use bech32_checksum::{Bech32, Bech32m};
use bech32_decode::segwit::{
    MAX_STRING_LENGTH, validate_witness_program_length, validate_witness_version,
};
pub use bech32_decode::segwit::{VERSION_0, VERSION_1};
use bech32_decode::{SegwitCodeLengthError, SegwitHrpstring, SegwitHrpstringError};
use bech32_encode::{encode_text, text_length_of_part};
use bech32_gf::gf32::Fe32;
use bech32_hrp::Hrp;
pub use error::{DecodeError, EncodeError};
use std::alloc::{AllocError, Allocator, Global};
pub use unchecked::{
    encode_into_bytes_unchecked, encode_into_fmt_unchecked, encode_lower_to_fmt_unchecked,
    encode_lower_to_writer_unchecked, encode_to_fmt_unchecked, encode_to_writer_unchecked,
    encode_upper_to_fmt_unchecked, encode_upper_to_writer_unchecked,
};

// The bytes of the program.
fn program_in<A: Allocator>(
    alloc: A,
    address: &SegwitHrpstring<'_>,
) -> Result<Vec<u8, A>, AllocError>
    ensures { IfOk result (λ v. v.items ≡ address_program address.now) }
{
    let mut program = vec![in alloc; 0u8; address.byte_iter().len()]?;
    address.put_program(program.as_mut_slice());
    Ok(program)
}

// What a text is decoded to, or why it is not.
fn decoded_in<A: Allocator>(alloc: A, s: &str) -> Result<(Hrp, Fe32, Vec<u8, A>), DecodeError>
    ensures value { IfOk result (λ d. IsDecodedAddress s.now (hrp_bytes d.0) d.1 d.2.items) }
    ensures part { IfOk result (λ d. HasHrp s.now (hrp_bytes d.0)) }
    ensures refused { IfErr result (λ e. IsSegwitDecodeRefusal s.now e) }
{
    let address = SegwitHrpstring::new(s)?;
    let program = program_in(alloc, &address)?;
    Ok((address.hrp(), address.witness_version(), program))
}

/// Decodes a segwit address: its human-readable part, in the case of the text, its witness version
/// and its program, with memory from `alloc`.
///
/// The address of these parts has one spelling in lower case, and one in upper case.
///
/// # Errors
///
/// Those of [`SegwitHrpstring::new`]; then [`SegwitHrpstringError::Memory`] when out of memory
/// for the program.
pub fn decode_in<A: Allocator>(alloc: A, s: &str) -> Result<(Hrp, Fe32, Vec<u8, A>), DecodeError>
    ensures value { IfOk result (λ d. IsDecodedAddress s.now (hrp_bytes d.0) d.1 d.2.items) }
    ensures part { IfOk result (λ d. HasHrp s.now (hrp_bytes d.0)) }
    ensures accepts { IsAddressText s.now → IfErr result (λ e. e.0 ≡ SegwitHrpstringError.Memory) }
    ensures refused { IfErr result (λ e. IsSegwitDecodeRefusal s.now e) }
    ensures spelling { IfOk result (λ d. IsOneSpelling s.now (hrp_bytes d.0) d.1 d.2.items) }
{
    decoded_in(alloc, s)
}

/// Decodes as [`decode_in`] does, with memory of the global allocator.
///
/// # Errors
///
/// Those of [`decode_in`].
pub fn decode(alloc: Global, s: &str) -> Result<(Hrp, Fe32, Vec<u8>), DecodeError>
    ensures value { IfOk result (λ d. IsDecodedAddress s.now (hrp_bytes d.0) d.1 d.2.items) }
    ensures part { IfOk result (λ d. HasHrp s.now (hrp_bytes d.0)) }
    ensures accepts { IsAddressText s.now → IfErr result (λ e. e.0 ≡ SegwitHrpstringError.Memory) }
    ensures refused { IfErr result (λ e. IsSegwitDecodeRefusal s.now e) }
    ensures spelling { IfOk result (λ d. IsOneSpelling s.now (hrp_bytes d.0) d.1 d.2.items) }
{
    decode_in(alloc, s)
}

/// The number of characters of a segwit address. The witness version is one of them, whichever it
/// is.
///
/// Nothing else is tested.
///
/// # Errors
///
/// The length, exactly where it is above [`MAX_STRING_LENGTH`] (`usize::MAX` where it is above that
/// too).
pub fn encoded_length(
    hrp: Hrp,
    _witness_version: Fe32,
    witness_program: &[u8],
) -> Result<usize, SegwitCodeLengthError>
    ensures { MatchResult result
        (λ n. (n ≡ address_length (hrp_bytes hrp) «witness_program».now) × (n ≤ max_address_length))
        (λ e. (max_address_length < address_length (hrp_bytes hrp) «witness_program».now)
        × (e.0 ≡ min (address_length (hrp_bytes hrp) «witness_program».now) (2 ^ 64 - 1))) }
{
    encoded_length_of_part(hrp.as_bytes(), witness_program)
}

/// The number of characters of a segwit address, with the human-readable part given as bytes: see
/// [`encoded_length`].
///
/// # Errors
///
/// That of [`encoded_length`].
#[inline]
pub fn encoded_length_of_part(
    part: &[u8],
    witness_program: &[u8],
) -> Result<usize, SegwitCodeLengthError>
    ensures { MatchResult result
        (λ n. (n ≡ address_length part.now «witness_program».now) × (n ≤ max_address_length))
        (λ e. (max_address_length < address_length part.now «witness_program».now)
        × (e.0 ≡ min (address_length part.now «witness_program».now) (2 ^ 64 - 1))) }
{
    let length = text_length_of_part::<Bech32>(part, witness_program.len()).saturating_add(1);
    if length > MAX_STRING_LENGTH {
        return Err(SegwitCodeLengthError(length));
    }
    Ok(length)
}

/// Tests that a human-readable part of these bytes, a version and a program have an address, and
/// returns its length.
///
/// # Errors
///
/// The first of: a witness version above 16; a program of less than 2 bytes, of more than 40, or of
/// neither 20 nor 32 in version 0; an address of more than [`MAX_STRING_LENGTH`] characters.
#[inline]
pub fn address_length_of_part(
    part: &[u8],
    witness_version: Fe32,
    witness_program: &[u8],
) -> Result<usize, EncodeError>
    ensures { MatchResult result
        (λ n. HasAddress part.now witness_version «witness_program».now
        × (n ≡ address_length part.now «witness_program».now))
        (λ e. IsSegwitEncodeRefusal part.now witness_version «witness_program».now e
        × (e ≢ EncodeError.Memory)) }
{
    validate_witness_version(witness_version)?;
    validate_witness_program_length(witness_program.len(), witness_version)?;
    Ok(encoded_length_of_part(part, witness_program)?)
}

// The text of a version and a program by the checksum of the version, of this length.
fn text_of_version_in<A: Allocator>(
    alloc: A,
    hrp: Hrp,
    version: Fe32,
    program: &[u8],
    size: usize,
) -> Result<String<A>, AllocError>
    requires { (size ≡ address_length (hrp_bytes hrp) «program».now) × (size ≤ max_address_length) }
    ensures { let elements = version ∷ to_fes «program».now in
        IfOk result
        (λ s. IsEncodedText (segwit_code version) (hrp_bytes hrp) elements (string_bytes s)) }
{
    if version == VERSION_0 {
        encode_text::<Bech32, A>(alloc, hrp, Some(version), program, size)
    } else {
        encode_text::<Bech32m, A>(alloc, hrp, Some(version), program, size)
    }
}

// The address, or why there is none.
fn encoded_in<A: Allocator>(
    alloc: A,
    hrp: Hrp,
    version: Fe32,
    program: &[u8],
) -> Result<String<A>, EncodeError>
    ensures text { IfOk result
        (λ s. IsLowerAddress (hrp_bytes hrp) version «program».now (string_bytes s)) }
    ensures refused { IfErr result
        (λ e. IsSegwitEncodeRefusal (hrp_bytes hrp) version «program».now e) }
{
    let size = address_length_of_part(hrp.as_bytes(), version, program)?;
    let text = text_of_version_in(alloc, hrp, version, program, size)?;
    Ok(text)
}

/// Encodes a segwit address, in lower case, with memory from `alloc`: of version 0 by Bech32, of
/// another version by Bech32m (BIP-350).
///
/// Of what [`decode_in`] gives of a text it writes that text in lower case.
///
/// # Errors
///
/// The first of: a witness version above 16; a program of less than 2 bytes, of more than 40, or of
/// neither 20 nor 32 in version 0; an address of more than [`MAX_STRING_LENGTH`] characters; out of
/// memory.
pub fn encode_in<A: Allocator>(
    alloc: A,
    hrp: Hrp,
    witness_version: Fe32,
    witness_program: &[u8],
) -> Result<String<A>, EncodeError>
    ensures text { IfOk result
        (λ s.
        IsLowerAddress (hrp_bytes hrp) witness_version «witness_program».now (string_bytes s)) }
    ensures exists { HasAddress (hrp_bytes hrp) witness_version «witness_program».now
        → IsOkUnless result EncodeError.Memory }
    ensures refused { IfErr result
        (λ e. IsSegwitEncodeRefusal (hrp_bytes hrp) witness_version «witness_program».now e) }
    ensures spelling { SpellsEachAddress (λ s. string_bytes s)
        (hrp_bytes hrp) witness_version «witness_program».now result }
{
    encoded_in(alloc, hrp, witness_version, witness_program)
}

/// Encodes as [`encode_in`] does, with memory of the global allocator.
///
/// # Errors
///
/// Those of [`encode_in`].
pub fn encode(
    alloc: Global,
    hrp: Hrp,
    witness_version: Fe32,
    witness_program: &[u8],
) -> Result<String, EncodeError>
    ensures text { IfOk result
        (λ s.
        IsLowerAddress (hrp_bytes hrp) witness_version «witness_program».now (string_bytes s)) }
    ensures exists { HasAddress (hrp_bytes hrp) witness_version «witness_program».now
        → IsOkUnless result EncodeError.Memory }
    ensures refused { IfErr result
        (λ e. IsSegwitEncodeRefusal (hrp_bytes hrp) witness_version «witness_program».now e) }
    ensures spelling { SpellsEachAddress (λ s. string_bytes s)
        (hrp_bytes hrp) witness_version «witness_program».now result }
{
    encode_in(alloc, hrp, witness_version, witness_program)
}

/// Encodes an address of version 0, with memory from `alloc`.
///
/// # Errors
///
/// Those of [`encode_in`].
pub fn encode_v0_in<A: Allocator>(
    alloc: A,
    hrp: Hrp,
    witness_program: &[u8],
) -> Result<String<A>, EncodeError>
    ensures text { IfOk result
        (λ s. IsLowerAddress (hrp_bytes hrp) zero «witness_program».now (string_bytes s)) }
    ensures exists { HasAddress (hrp_bytes hrp) zero «witness_program».now
        → IsOkUnless result EncodeError.Memory }
    ensures refused { IfErr result
        (λ e. IsSegwitEncodeRefusal (hrp_bytes hrp) zero «witness_program».now e) }
    ensures spelling { SpellsEachAddress (λ s. string_bytes s)
        (hrp_bytes hrp) zero «witness_program».now result }
{
    encode_in(alloc, hrp, VERSION_0, witness_program)
}

/// Encodes as [`encode_v0_in`] does, with memory of the global allocator.
///
/// # Errors
///
/// Those of [`encode_v0_in`].
pub fn encode_v0(alloc: Global, hrp: Hrp, witness_program: &[u8]) -> Result<String, EncodeError>
    ensures text { IfOk result
        (λ s. IsLowerAddress (hrp_bytes hrp) zero «witness_program».now (string_bytes s)) }
    ensures exists { HasAddress (hrp_bytes hrp) zero «witness_program».now
        → IsOkUnless result EncodeError.Memory }
    ensures refused { IfErr result
        (λ e. IsSegwitEncodeRefusal (hrp_bytes hrp) zero «witness_program».now e) }
    ensures spelling { SpellsEachAddress (λ s. string_bytes s)
        (hrp_bytes hrp) zero «witness_program».now result }
{
    encode_v0_in(alloc, hrp, witness_program)
}

/// Encodes an address of version 1, with memory from `alloc`.
///
/// # Errors
///
/// Those of [`encode_in`].
pub fn encode_v1_in<A: Allocator>(
    alloc: A,
    hrp: Hrp,
    witness_program: &[u8],
) -> Result<String<A>, EncodeError>
    ensures text { IfOk result
        (λ s. IsLowerAddress (hrp_bytes hrp) one «witness_program».now (string_bytes s)) }
    ensures exists { HasAddress (hrp_bytes hrp) one «witness_program».now
        → IsOkUnless result EncodeError.Memory }
    ensures refused { IfErr result
        (λ e. IsSegwitEncodeRefusal (hrp_bytes hrp) one «witness_program».now e) }
    ensures spelling { SpellsEachAddress (λ s. string_bytes s)
        (hrp_bytes hrp) one «witness_program».now result }
{
    encode_in(alloc, hrp, VERSION_1, witness_program)
}

/// Encodes as [`encode_v1_in`] does, with memory of the global allocator.
///
/// # Errors
///
/// Those of [`encode_v1_in`].
pub fn encode_v1(alloc: Global, hrp: Hrp, witness_program: &[u8]) -> Result<String, EncodeError>
    ensures text { IfOk result
        (λ s. IsLowerAddress (hrp_bytes hrp) one «witness_program».now (string_bytes s)) }
    ensures exists { HasAddress (hrp_bytes hrp) one «witness_program».now
        → IsOkUnless result EncodeError.Memory }
    ensures refused { IfErr result
        (λ e. IsSegwitEncodeRefusal (hrp_bytes hrp) one «witness_program».now e) }
    ensures spelling { SpellsEachAddress (λ s. string_bytes s)
        (hrp_bytes hrp) one «witness_program».now result }
{
    encode_v1_in(alloc, hrp, witness_program)
}
