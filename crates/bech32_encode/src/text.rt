//! Whole texts of bytes: their lengths, and themselves in a buffer and in memory.

ghost use Rattle.std.specs.Prelude.{◌≡◌, ◌++◌, ◌+◌, ◌-◌, ◌^◌, ℕ, List, length, min, option_to_list, IfOk, string_bytes};
ghost use Rattle.bech32_bits.specs.Bits.{fes_count, to_fes};
ghost use Rattle.bech32_checksum.specs.Encoded.{IsEncodedText};
ghost use Rattle.bech32_encode.specs.Buffers.{IsPutAsFits};
ghost use Rattle.bech32_encode.specs.Cased.{IsTextInCase};
ghost use Rattle.bech32_encode.specs.TextLength.{text_length_of};
ghost use Rattle.bech32_hrp.specs.HrpBytes.{hrp_bytes};

use crate::buffer::{put_front_of, put_row, put_version, raise_front};
use crate::groups::put_bytes;
use bech32_checksum::{Checksum, Engine};
use bech32_gf::gf32::Fe32;
use bech32_hrp::Hrp;
use std::alloc::{AllocError, Allocator};

/// The length of the text of a human-readable part and this many bytes, or `usize::MAX` where it
/// does not fit.
pub fn text_length<Ck: Checksum>(hrp: &Hrp, bytes: usize) -> usize
    ensures { result ≡ text_length_of Ck.CHECKSUM_LENGTH (hrp_bytes hrp.now) (fes_count 0 bytes) }
{
    text_length_of_part::<Ck>(hrp.as_bytes(), bytes)
}

// How many elements this many bytes are, or `usize::MAX` where that does not fit.
#[inline]
fn element_count(bytes: usize) -> usize
    ensures { result ≡ min (fes_count 0 bytes) (2 ^ 64 - 1) }
{
    if bytes < 0x100_0000_0000 {
        return (8 * bytes + 4) / 5;
    }
    (bytes / 5)
        .saturating_mul(8)
        .saturating_add((bytes % 5 * 8 + 4) / 5)
}

/// The length of the text of a human-readable part, given as bytes, and this many bytes of data, or
/// `usize::MAX` where it does not fit.
#[inline]
pub fn text_length_of_part<Ck: Checksum>(part: &[u8], bytes: usize) -> usize
    ensures { result ≡ text_length_of Ck.CHECKSUM_LENGTH part.now (fes_count 0 bytes) }
{
    (part.len() + 1)
        .saturating_add(element_count(bytes))
        .saturating_add(Ck::CHECKSUM_LENGTH)
}

/// The length of the text of a human-readable part, a witness version where there is one, and this
/// many bytes, or `usize::MAX` where it does not fit.
pub fn length_with_version<Ck: Checksum>(hrp: &Hrp, version: Option<Fe32>, bytes: usize) -> usize
    ensures { result ≡ text_length_of Ck.CHECKSUM_LENGTH (hrp_bytes hrp.now)
        (length (option_to_list version) + fes_count 0 bytes) }
{
    let length = text_length::<Ck>(hrp, bytes);
    match version {
        Some(_) => length.saturating_add(1),
        None => length,
    }
}

/// Puts the text of a human-readable part, a witness version where there is one, and bytes at the
/// front of a buffer that has room for it, and returns its length: what
/// [`put_text`](crate::put_text) puts of the elements of the bytes.
///
/// Into a buffer that has no room for the whole text goes as much of it as fits; the answer is then
/// the buffer's length.
pub fn put_text_of_bytes<Ck: Checksum>(
    hrp: &Hrp,
    version: Option<Fe32>,
    bytes: &[u8],
    buffer: &mut [u8],
) -> usize
    ensures { (text : List ℕ)
        × IsEncodedText Ck.code (hrp_bytes hrp.now)
        (option_to_list version ++ to_fes bytes.now) text
        × IsPutAsFits text buffer.old buffer.new result }
{
    put_text_of_part::<Ck>(hrp.as_bytes(), version, bytes, buffer)
}

/// Puts a text at the front of a buffer as [`put_text_of_bytes`] does, with the human-readable part
/// given as bytes.
pub fn put_text_of_part<Ck: Checksum>(
    part: &[u8],
    version: Option<Fe32>,
    bytes: &[u8],
    buffer: &mut [u8],
) -> usize
    ensures { (text : List ℕ)
        × IsEncodedText Ck.code part.now (option_to_list version ++ to_fes bytes.now) text
        × IsPutAsFits text buffer.old buffer.new result }
{
    let mut engine = Engine::<Ck>::new();
    engine.input_part(part);
    let front = put_front_of(part, buffer);
    let start = put_version(version, &mut engine, front, buffer);
    let end = put_bytes(bytes, &mut engine, start, buffer);
    engine.input_target_residue();
    put_row(engine.residue(), Ck::CHECKSUM_LENGTH, end, buffer)
}

/// Puts as much as there is room for of the text of a human-readable part, a witness version where
/// there is one, and bytes, in upper case or in lower case, and returns how much that is.
pub fn put_front_of_text<Ck: Checksum>(
    hrp: &Hrp,
    version: Option<Fe32>,
    bytes: &[u8],
    upper: bool,
    buffer: &mut [u8],
) -> usize
    ensures { (text : List ℕ)
        × IsTextInCase upper Ck.code (hrp_bytes hrp.now)
        (option_to_list version ++ to_fes bytes.now) text
        × IsPutAsFits text buffer.old buffer.new result }
{
    let count = put_text_of_bytes::<Ck>(hrp, version, bytes, buffer);
    raise_front(upper, count, buffer);
    count
}

/// The text of a human-readable part, a witness version where there is one, and bytes, with memory
/// from `alloc`.
///
/// # Errors
///
/// When out of memory.
pub fn text_in<Ck: Checksum, A: Allocator>(
    alloc: A,
    hrp: Hrp,
    version: Option<Fe32>,
    data: &[u8],
) -> Result<String<A>, AllocError>
    ensures { IfOk result (λ s.
        IsEncodedText Ck.code (hrp_bytes hrp)
        (option_to_list version ++ to_fes «data».now) (string_bytes s)) }
{
    let size = length_with_version::<Ck>(&hrp, version, data.len());
    encode_text::<Ck, A>(alloc, hrp, version, data, size)
}

/// The text that [`text_in`] gives, where its length is known.
///
/// # Errors
///
/// When out of memory.
pub fn encode_text<Ck: Checksum, A: Allocator>(
    alloc: A,
    hrp: Hrp,
    version: Option<Fe32>,
    data: &[u8],
    size: usize,
) -> Result<String<A>, AllocError>
    requires { size ≡ text_length_of Ck.CHECKSUM_LENGTH (hrp_bytes hrp)
        (length (option_to_list version) + fes_count 0 (length «data».now)) }
    ensures { IfOk result (λ s.
        IsEncodedText Ck.code (hrp_bytes hrp)
        (option_to_list version ++ to_fes «data».now) (string_bytes s)) }
{
    let mut text = vec![in alloc; 0u8; size]?;
    put_text_of_bytes::<Ck>(&hrp, version, data, text.as_mut_slice());
    // All of it is ASCII: what the call requires is proved.
    Ok(unsafe { String::from_utf8_unchecked(text) })
}
