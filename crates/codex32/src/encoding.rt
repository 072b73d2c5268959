//! The string of a header and bytes, or the elements of a payload.

ghost use Rattle.std.specs.Prelude.{◌≡◌, ◌≤◌, ◌+◌, ◌++◌, ◌||◌, ℕ, List, false, true, length, take, IfOk, OnErr, MatchResult, string_bytes};
ghost use Rattle.bech32_bits.specs.Bits.{fes_count, to_fes};
ghost use Rattle.bech32_checksum.specs.Encoded.{IsEncodedText};
ghost use Rattle.bech32_encode.specs.Buffers.{IsPut};
ghost use Rattle.bech32_gf.specs.Fe32.{elements_of};
ghost use Rattle.codex32.specs.Encode.{IsEncodePayloadRefusal, IsEncodeStringRefusal, IsEncodedPayload, IsEncodedString, is_byte_count, is_long_byte_count, is_long_payload_count, is_payload_count};
ghost use Rattle.codex32.specs.Header.{header_elements, identifier_of_header, share_index_of_header, threshold_of_header};
ghost use Rattle.codex32.specs.Share.{IsShareString};
ghost use Rattle.codex32.specs.ShareParts.{ms};
ghost use Rattle.codex32.specs.Code.{max_long_length};

use crate::checksum::Codex32;
use crate::error::EncodeError;
use crate::header::Header;
use crate::long::LongCodex32;
use bech32::{ByteIterExt, Checksum, Fe32};
use codex32_steady::texts::text::put_text;
use std::alloc::{AllocError, Allocator};

// The most elements of a payload: those of 64 bytes.
const MOST_OF_PAYLOAD: usize = 103;

// The most that stand before a checksum: six of a header, and those.
const MOST: usize = 109;

// Puts the elements of a header, and behind them those of a payload.
fn put_elements(elements: &mut [Fe32], header: &Header, payload: &[Fe32])
    requires { length elements.old ≡ 6 + length payload.now }
    ensures { elements.new ≡ header_elements header.now ++ payload.now }
{
    let (front, behind) = elements.split_at_mut(6);
    front.copy_from_slice(&header.elements());
    behind.copy_from_slice(payload);
}

// The text of elements and their checksum.
fn text_in<Ck: Checksum, A: Allocator>(alloc: A, elements: &[Fe32]) -> Result<String<A>, AllocError>
    requires few { length elements.now ≤ 109 }
    requires short { length Ck.code.generator ≤ 15 }
    ensures { IfOk result (λ s. IsEncodedText Ck.code ms elements.now (string_bytes s)) }
{
    let mut text = vec![in alloc; 0u8; 3 + elements.len() + Ck::CHECKSUM_LENGTH]?;
    put_text::<Ck>(text.as_mut_slice(), elements);
    // All of it is ASCII: what the call requires is proved.
    Ok(unsafe { String::from_utf8_unchecked(text) })
}

// The string of a header and at most 103 elements, with a checksum.
fn string_in<Ck: Checksum, A: Allocator>(
    alloc: A,
    header: &Header,
    payload: &[Fe32],
) -> Result<String<A>, AllocError>
    requires few { length payload.now ≤ 103 }
    requires short { length Ck.code.generator ≤ 15 }
    ensures { IfOk result (λ s. IsEncodedText Ck.code ms
        (header_elements header.now ++ payload.now) (string_bytes s)) }
{
    let mut room = [Fe32::Q; MOST];
    let elements = &mut room[..6 + payload.len()];
    put_elements(elements, header, payload);
    text_in::<Ck, A>(alloc, elements)
}

// Puts the text of elements and their checksum at the front of a buffer, and returns its length.
fn put_encoded<Ck: Checksum>(buffer: &mut [u8], elements: &[Fe32]) -> usize
    requires few { length elements.now ≤ 109 }
    requires short { length Ck.code.generator ≤ 15 }
    requires room { max_long_length ≤ length buffer.old }
    ensures text { IsEncodedText Ck.code ms elements.now (take result buffer.new) }
    ensures put { IsPut (take result buffer.new) buffer.old buffer.new result }
{
    let count = 3 + elements.len() + Ck::CHECKSUM_LENGTH;
    put_text::<Ck>(&mut buffer[..count], elements);
    count
}

// The same of a header and at most 103 elements.
fn put_string<Ck: Checksum>(buffer: &mut [u8], header: &Header, payload: &[Fe32]) -> usize
    requires few { length payload.now ≤ 103 }
    requires short { length Ck.code.generator ≤ 15 }
    requires room { max_long_length ≤ length buffer.old }
    ensures text { IsEncodedText Ck.code ms
        (header_elements header.now ++ payload.now) (take result buffer.new) }
    ensures put { IsPut (take result buffer.new) buffer.old buffer.new result }
{
    let mut room = [Fe32::Q; MOST];
    let elements = &mut room[..6 + payload.len()];
    put_elements(elements, header, payload);
    put_encoded::<Ck>(buffer, elements)
}

// Whether the payload of a string of 48 to 93 characters has this many elements.
fn is_of_short(count: usize) -> bool
    ensures { result ≡ is_payload_count count }
{
    26 <= count && count <= 71 && 5 * count % 8 <= 4
}

// Whether that of one of 125 to 127 has.
fn is_of_long(count: usize) -> bool
    ensures { result ≡ is_long_payload_count count }
{
    101 <= count && count <= 103 && 5 * count % 8 <= 4
}

/// Puts the string that [`encode_payload`] makes at the front of a buffer of at least 127 bytes,
/// and returns its length.
///
/// # Errors
///
/// [`EncodeError::Size`] for another number of elements; the buffer is then as it was.
pub fn encode_payload_into(
    buffer: &mut [u8],
    header: &Header,
    payload: &[Fe32],
) -> Result<usize, EncodeError>
    requires { max_long_length ≤ length buffer.old }
    ensures text { IfOk result (λ n. IsEncodedPayload header.now payload.now (take n buffer.new)) }
    ensures string { IfOk result (λ n. (characters : List ℕ)
        × IsShareString (take n buffer.new) (threshold_of_header header.now)
        (identifier_of_header header.now) (share_index_of_header header.now) characters
        × (elements_of characters ≡ payload.now)) }
    ensures put { IfOk result (λ n. IsPut (take n buffer.new) buffer.old buffer.new n) }
    ensures refused { MatchResult result
        (λ _. is_payload_count (length payload.now) || is_long_payload_count (length payload.now)
        ≡ true)
        (λ e. (e ≡ EncodeError.Size)
        × (is_payload_count (length payload.now) || is_long_payload_count (length payload.now)
        ≡ false)) }
    ensures same { OnErr result (buffer.new ≡ buffer.old) }
{
    if is_of_short(payload.len()) {
        return Ok(put_string::<Codex32>(buffer, header, payload));
    }
    if is_of_long(payload.len()) {
        return Ok(put_string::<LongCodex32>(buffer, header, payload));
    }
    Err(EncodeError::Size)
}

/// The string of a header and the elements of a payload, in lower case, with memory from `alloc`:
/// 26 to 71 elements make a string of 48 to 93 characters, 101 or 103 a long one (BIP-93, Unshared
/// Secret and Long codex32 Strings). These are the numbers of elements that 16 to 44 bytes, 63 or
/// 64 have: at most four bits are left over behind the bytes, whatever these are.
///
/// To split a secret into shares, use [`split_into`], which makes its first shares this way, from
/// random elements.
///
/// [`split_into`]: crate::split_into
///
/// # Errors
///
/// [`EncodeError::Size`] for another number of elements, before anything is allocated; otherwise
/// out of memory.
pub fn encode_payload<A: Allocator>(
    alloc: A,
    header: &Header,
    payload: &[Fe32],
) -> Result<String<A>, EncodeError>
    ensures text { IfOk result (λ s. IsEncodedPayload header.now payload.now (string_bytes s)) }
    ensures string { IfOk result (λ s. (characters : List ℕ)
        × IsShareString (string_bytes s) (threshold_of_header header.now)
        (identifier_of_header header.now) (share_index_of_header header.now) characters
        × (elements_of characters ≡ payload.now)) }
    ensures refused { MatchResult result
        (λ _. is_payload_count (length payload.now) || is_long_payload_count (length payload.now)
        ≡ true)
        (λ e. IsEncodePayloadRefusal (length payload.now) e) }
{
    if is_of_short(payload.len()) {
        return Ok(string_in::<Codex32, A>(alloc, header, payload)?);
    }
    if is_of_long(payload.len()) {
        return Ok(string_in::<LongCodex32, A>(alloc, header, payload)?);
    }
    Err(EncodeError::Size)
}

// Puts the elements of bytes.
fn put_payload(elements: &mut [Fe32], bytes: &[u8])
    requires { length elements.old ≡ fes_count 0 (length bytes.now) }
    ensures { elements.new ≡ to_fes bytes.now }
{
    let mut count = 0;
    for element in bytes.iter().copied().bytes_to_fes() {
        elements[count] = element;
        count += 1;
    }
}

/// Puts the string that [`encode`] makes at the front of a buffer of at least 127 bytes, and
/// returns its length.
///
/// # Errors
///
/// [`EncodeError::Size`] for another number of bytes; the buffer is then unchanged.
pub fn encode_into(buffer: &mut [u8], header: &Header, bytes: &[u8]) -> Result<usize, EncodeError>
    requires { max_long_length ≤ length buffer.old }
    ensures text { IfOk result (λ n. IsEncodedString header.now bytes.now (take n buffer.new)) }
    ensures string { IfOk result (λ n. (payload : List ℕ)
        × IsShareString (take n buffer.new) (threshold_of_header header.now)
        (identifier_of_header header.now) (share_index_of_header header.now) payload
        × (elements_of payload ≡ to_fes bytes.now)) }
    ensures put { IfOk result (λ n. IsPut (take n buffer.new) buffer.old buffer.new n) }
    ensures refused { MatchResult result
        (λ _. is_byte_count (length bytes.now) || is_long_byte_count (length bytes.now) ≡ true)
        (λ e. (e ≡ EncodeError.Size)
        × (is_byte_count (length bytes.now) || is_long_byte_count (length bytes.now) ≡ false)) }
    ensures same { OnErr result (buffer.new ≡ buffer.old) }
{
    if bytes.len() > 64 {
        return Err(EncodeError::Size);
    }
    let mut room = [Fe32::Q; MOST_OF_PAYLOAD];
    let elements = &mut room[..(8 * bytes.len() + 4) / 5];
    put_payload(elements, bytes);
    encode_payload_into(buffer, header, elements)
}

/// The string of a header and bytes, in lower case, with memory from `alloc`: 16 to 44 bytes make a
/// string of 48 to 93 characters, 63 or 64 a long one (BIP-93, Unshared Secret and Long codex32
/// Strings). The bits that are left over are zero.
///
/// It is the secret, where the header's share index is `s`, or a share. To split a secret into
/// shares, use [`split_into`]: shares made here from random bytes may reveal some bits of the
/// secret, since the bits that are left over are not random.
///
/// [`split_into`]: crate::split_into
///
/// # Errors
///
/// [`EncodeError::Size`] for another number of bytes, before anything is allocated; otherwise out
/// of memory.
pub fn encode<A: Allocator>(
    alloc: A,
    header: &Header,
    bytes: &[u8],
) -> Result<String<A>, EncodeError>
    ensures text { IfOk result (λ s. IsEncodedString header.now bytes.now (string_bytes s)) }
    ensures string { IfOk result (λ s. (payload : List ℕ)
        × IsShareString (string_bytes s) (threshold_of_header header.now)
        (identifier_of_header header.now) (share_index_of_header header.now) payload
        × (elements_of payload ≡ to_fes bytes.now)) }
    ensures refused { MatchResult result
        (λ _. is_byte_count (length bytes.now) || is_long_byte_count (length bytes.now) ≡ true)
        (λ e. IsEncodeStringRefusal (length bytes.now) e) }
{
    if bytes.len() > 64 {
        return Err(EncodeError::Size);
    }
    let mut room = [Fe32::Q; MOST_OF_PAYLOAD];
    let elements = &mut room[..(8 * bytes.len() + 4) / 5];
    put_payload(elements, bytes);
    encode_payload(alloc, header, elements)
}
