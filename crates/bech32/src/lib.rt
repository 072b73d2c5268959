//! Encoding and decoding of bech32 texts.
//!
//! Below it: all that it exports: `bech32_core`, `bech32_near`, `bech32_segwit`, `bech32_block`.
//! Standard: BIP-173; BIP-350.
#![tactic(auto)]

ghost use Rattle.std.specs.Prelude.{◌≡◌, ◌<◌, ◌≤◌, MatchResult, IfOk, IfErr, IsOk, IsOkUnless, string_bytes, true};
ghost use Rattle.bech32_bits.specs.Bits.{to_fes};
ghost use Rattle.bech32_hrp.specs.HrpBytes.{hrp_bytes};
ghost use Rattle.bech32_decode.specs.Acceptance.{IsAcceptedByEither, IsDecoded};
ghost use Rattle.bech32_decode.specs.Parts.{checked_bytes, checked_part};
ghost use Rattle.bech32_checksum.specs.Encoded.{IsEncodedText};
ghost use Rattle.bech32_encode.specs.Cased.{IsTextInCase};
ghost use Rattle.bech32_encode.specs.TextLength.{encoded_length_of};
ghost use Rattle.bech32.specs.Refusals.{IsDecodeRefusal, IsEncodeRefusal};
ghost use Rattle.bech32.specs.WayBack.{GivesBack};

mod content;
pub mod elements;
mod error;
pub mod hrp;
mod long;
pub mod primitives;
mod strict;
mod writers;

pub use bech32_bits::ByteIterExt;
pub use bech32_block::PrintImpl;
pub use bech32_checksum::{Bech32, Bech32m, Checksum, CorrectingChecksum, NoChecksum};
pub use bech32_correction::{CorrectError, CorrectableError, Correction, Mended, correct};
use bech32_decode::{CheckedHrpstring, CodeLengthError, Reading};
pub use bech32_encode::Fe32IterExt;
use bech32_encode::{encode_text, text_length_of_part};
pub use bech32_gf::gf32::Fe32;
pub use bech32_gf_ext::{Fe1024, Fe32768};
pub use bech32_hrp::Hrp;
pub use bech32_near::edits::{Change, Edit, EditsError, NearEdit, near_edits};
pub use bech32_near::search::Listings;
pub use bech32_near::{NearTexts, nearest, nearest_listings};
pub use bech32_refusals::{DecodeError, ElementsError, EncodeError, TextError};
pub use bech32_segwit as segwit;
use content::{Content, items_in};
pub use elements::{decode_elements, elements_length, encode_elements};
pub use error::EncodeIoError;
pub use long::{LongBech32, LongBech32m, MAX_LONG_TEXT_LENGTH};
/// [`encode`] and [`encode_in`], which write lower case.
pub use self::{encode as encode_lower, encode_in as encode_lower_in};
use std::alloc::{Allocator, Global};
pub use strict::decode_strict;
pub use writers::{
    encode_into_bytes, encode_into_fmt, encode_lower_to_fmt, encode_lower_to_writer, encode_to_fmt,
    encode_to_writer, encode_upper_to_fmt, encode_upper_to_writer,
};

// A text without its checksum, where Bech32m or Bech32 accepts it.
fn checked(s: &str) -> Result<CheckedHrpstring<'_>, DecodeError>
    ensures { MatchResult result
        (λ c. IsDecoded s.now (checked_part c) (checked_bytes c))
        (λ e. IsDecodeRefusal s.now e) }
{
    let reading = Reading::<Bech32m>::new(s)?;
    reading.validate_either()?;
    Ok(reading.checked())
}

// What a text is decoded to, or why it is not.
fn decoded_in<A: Allocator>(alloc: A, s: &str) -> Result<(Hrp, Vec<u8, A>), DecodeError>
    ensures value { IfOk result (λ d. IsDecoded s.now (hrp_bytes d.0) d.1.items) }
    ensures refused { IfErr result (λ e. IsDecodeRefusal s.now e) }
{
    let checked = checked(s)?;
    let bytes = items_in(alloc, &checked, Content::Bytes)?;
    Ok((checked.hrp(), bytes))
}

/// Decodes a text that Bech32m or Bech32 accepts: its human-readable part, in the case of the text,
/// and the bytes of its data, with memory from `alloc`.
///
/// Bits behind the last whole byte are dropped and not tested: see [`decode_strict`] for texts
/// that identify something. For a text that [`encode_in`] wrote with Bech32m or Bech32, it returns
/// the human-readable part, in lower case, and the bytes.
///
/// # Errors
///
/// The first of: the text is not in the grammar; neither checksum accepts it (the error is that of
/// Bech32m); out of memory for the data.
pub fn decode_in<A: Allocator>(alloc: A, s: &str) -> Result<(Hrp, Vec<u8, A>), DecodeError>
    ensures value { IfOk result (λ d. IsDecoded s.now (hrp_bytes d.0) d.1.items) }
    ensures accepts { IsAcceptedByEither s.now → IsOkUnless result DecodeError.Memory }
    ensures refused { IfErr result (λ e. IsDecodeRefusal s.now e) }
    ensures back { GivesBack (λ v. v.items) s.now result }
{
    decoded_in(alloc, s)
}

/// Decodes as [`decode_in`] does, with memory of the global allocator.
///
/// # Errors
///
/// Those of [`decode_in`].
pub fn decode(alloc: Global, s: &str) -> Result<(Hrp, Vec<u8>), DecodeError>
    ensures value { IfOk result (λ d. IsDecoded s.now (hrp_bytes d.0) d.1.items) }
    ensures accepts { IsAcceptedByEither s.now → IsOkUnless result DecodeError.Memory }
    ensures refused { IfErr result (λ e. IsDecodeRefusal s.now e) }
    ensures back { GivesBack (λ v. v.items) s.now result }
{
    decode_in(alloc, s)
}

/// The number of characters of the text that [`encode`] writes for a human-readable part and bytes.
///
/// Nothing else is tested.
///
/// # Errors
///
/// The length, if and only if it is above the code length of the checksum (`usize::MAX` if it does
/// not fit in a `usize`).
pub fn encoded_length<Ck: Checksum>(hrp: Hrp, data: &[u8]) -> Result<usize, CodeLengthError>
    ensures { MatchResult result
        (λ n. (n ≡ encoded_length_of Ck.code (hrp_bytes hrp) (to_fes «data».now))
        × (n ≤ Ck.code.code_length))
        (λ e. (Ck.code.code_length < encoded_length_of Ck.code (hrp_bytes hrp) (to_fes «data».now))
        × (e.encoded_length ≡ encoded_length_of Ck.code (hrp_bytes hrp) (to_fes «data».now))
        × (e.code_length ≡ Ck.code.code_length)) }
{
    encoded_length_of_part::<Ck>(hrp.as_bytes(), data)
}

/// The number of characters of the text that [`encode`] writes, with the human-readable part given
/// as bytes: see [`encoded_length`].
///
/// # Errors
///
/// That of [`encoded_length`].
#[inline]
pub fn encoded_length_of_part<Ck: Checksum>(
    part: &[u8],
    data: &[u8],
) -> Result<usize, CodeLengthError>
    ensures { MatchResult result
        (λ n. (n ≡ encoded_length_of Ck.code part.now (to_fes «data».now))
        × (n ≤ Ck.code.code_length))
        (λ e. (Ck.code.code_length < encoded_length_of Ck.code part.now (to_fes «data».now))
        × (e.encoded_length ≡ encoded_length_of Ck.code part.now (to_fes «data».now))
        × (e.code_length ≡ Ck.code.code_length)) }
{
    let length = text_length_of_part::<Ck>(part, data.len());
    if length > Ck::CODE_LENGTH {
        return Err(CodeLengthError {
            encoded_length: length,
            code_length: Ck::CODE_LENGTH,
        });
    }
    Ok(length)
}

/// Encodes bytes under a human-readable part, in lower case, with memory from `alloc`.
///
/// # Errors
///
/// [`EncodeError::TooLong`] exactly where the text would have more characters than the code length
/// of the checksum; [`EncodeError::Memory`] when out of memory.
pub fn encode_in<Ck: Checksum, A: Allocator>(
    alloc: A,
    hrp: Hrp,
    data: &[u8],
) -> Result<String<A>, EncodeError>
    ensures text { IfOk result
        (λ s. IsEncodedText Ck.code (hrp_bytes hrp) (to_fes «data».now) (string_bytes s)) }
    ensures fits { IsOk result
        → encoded_length_of Ck.code (hrp_bytes hrp) (to_fes «data».now) ≤ Ck.code.code_length }
    ensures refused { IfErr result (IsEncodeRefusal Ck.code (hrp_bytes hrp) (to_fes «data».now)) }
{
    let size = encoded_length::<Ck>(hrp, data)?;
    let text = encode_text::<Ck, A>(alloc, hrp, None, data, size)?;
    Ok(text)
}

/// Encodes as [`encode_in`] does, with memory of the global allocator.
///
/// # Errors
///
/// Those of [`encode_in`].
pub fn encode<Ck: Checksum>(alloc: Global, hrp: Hrp, data: &[u8]) -> Result<String, EncodeError>
    ensures text { IfOk result
        (λ s. IsEncodedText Ck.code (hrp_bytes hrp) (to_fes «data».now) (string_bytes s)) }
    ensures fits { IsOk result
        → encoded_length_of Ck.code (hrp_bytes hrp) (to_fes «data».now) ≤ Ck.code.code_length }
    ensures refused { IfErr result (IsEncodeRefusal Ck.code (hrp_bytes hrp) (to_fes «data».now)) }
{
    encode_in::<Ck, Global>(alloc, hrp, data)
}

/// Encodes bytes under a human-readable part, in upper case, with memory from `alloc`: what
/// [`encode_in`] writes, with each letter in upper case.
///
/// # Errors
///
/// Those of [`encode_in`].
pub fn encode_upper_in<Ck: Checksum, A: Allocator>(
    alloc: A,
    hrp: Hrp,
    data: &[u8],
) -> Result<String<A>, EncodeError>
    ensures text { IfOk result
        (λ s. IsTextInCase true Ck.code (hrp_bytes hrp) (to_fes «data».now) (string_bytes s)) }
    ensures fits { IsOk result
        → encoded_length_of Ck.code (hrp_bytes hrp) (to_fes «data».now) ≤ Ck.code.code_length }
    ensures refused { IfErr result (IsEncodeRefusal Ck.code (hrp_bytes hrp) (to_fes «data».now)) }
{
    let mut text = encode_in::<Ck, A>(alloc, hrp, data)?;
    text.make_ascii_uppercase();
    Ok(text)
}

/// Encodes as [`encode_upper_in`] does, with memory of the global allocator.
///
/// # Errors
///
/// Those of [`encode_in`].
pub fn encode_upper<Ck: Checksum>(
    alloc: Global,
    hrp: Hrp,
    data: &[u8],
) -> Result<String, EncodeError>
    ensures text { IfOk result
        (λ s. IsTextInCase true Ck.code (hrp_bytes hrp) (to_fes «data».now) (string_bytes s)) }
    ensures fits { IsOk result
        → encoded_length_of Ck.code (hrp_bytes hrp) (to_fes «data».now) ≤ Ck.code.code_length }
    ensures refused { IfErr result (IsEncodeRefusal Ck.code (hrp_bytes hrp) (to_fes «data».now)) }
{
    encode_upper_in::<Ck, Global>(alloc, hrp, data)
}
