//! Makes codex32 strings of bytes, or the characters of a payload.

ghost use Rattle.std.specs.Prelude.{◌≡◌, ◌≤◌, ◌+◌, ◌++◌, ◌||◌, true, false, length, map, Some, IfErr, IfOk, IsOk, MatchOption, MatchResult, OnErr};
ghost use Rattle.bech32_checksum.specs.Encoded.{IsEncodedText, char_of_element, spelled};
ghost use Rattle.bech32_numbers.specs.Refused.{IsNumberBy};
ghost use Rattle.codex32.specs.Encode.{code_of_byte_count, code_of_payload_count, is_byte_count, is_long_byte_count, is_long_payload_count, is_payload_count};
ghost use Rattle.codex32.specs.Header.{header_elements};
ghost use Rattle.codex32_calls.specs.Encode.{CanEncode, IsEncodeStringFault, IsHeaderOf, PutsEncoded, header_number_fault};
ghost use Rattle.codex32_calls.specs.Faults.{IsNumberOfCodex32};
ghost use Rattle.codex32_calls.specs.Payload.{CanEncodePayload, IsEncodePayloadFault, PutsEncodedPayload};
ghost use Rattle.codex32.specs.Numbers.{number_of_header_error};
ghost use Rattle.codex32_steady.specs.texts.Parts.{ms};
ghost use Rattle.codex32_small.specs.Code.{code_of_kind};
ghost use Rattle.codex32_small.specs.Given.{IsGivenAs, elements_given};

use crate::letters::{put_bytes, put_characters};
use crate::register::{degree_of, put_checksum};
use codex32::Header;
use codex32::numbers::header_error_number;
use codex32_calls::input::{header_of, validate_payload};
use codex32_calls::propose::Kind;
use codex32_steady::character_of;

// The number of bytes of which no string is made.
const WRONG_SIZE: u32 = 56;

// The number of a buffer that is too small.
const NO_ROOM: u32 = 92;

// What a payload is given as.
#[derive(Clone, Copy)]
enum Form {
    // Its bytes.
    Bytes,
    // Its characters.
    Characters,
}

// The header of a threshold, an identifier and a share index.
#[inline(never)]
fn header_by(threshold: u32, identifier: &[u8], share_index: u32) -> Result<Header, u32>
    ensures { MatchResult result
        (λ h. IsHeaderOf threshold identifier.now share_index h)
        (λ n. IsNumberBy number_of_header_error
        (λ e. header_number_fault threshold identifier.now share_index ≡ Some e) n) }
{
    match header_of(threshold, identifier, share_index) {
        Ok(header) => Ok(header),
        Err(e) => Err(u32::from(header_error_number(e))),
    }
}

// Puts what stands before a payload.
fn put_header(front: &mut [u8], header: &Header)
    requires { length front.old ≡ 9 }
    ensures { front.new ≡ spelled ms (header_elements header.now) }
{
    let [a, b, c, d] = header.identifier().elements();
    front.copy_from_slice(&[
        b'm',
        b's',
        b'1',
        b'0' + header.threshold().number(),
        character_of(a),
        character_of(b),
        character_of(c),
        character_of(d),
        character_of(header.share_index()),
    ]);
}

// Puts the characters of a payload.
fn put_payload(target: &mut [u8], form: Form, payload: &[u8])
    requires size { length target.old ≡ length (elements_given form payload.now) }
    requires given { IsGivenAs form payload.now }
    ensures { target.new ≡ map char_of_element (elements_given form payload.now) }
{
    match form {
        Form::Bytes => put_bytes(target, payload),
        Form::Characters => put_characters(target, payload),
    }
}

// Puts the string of a header and a payload.
#[inline(never)]
fn put_string(kind: Kind, text: &mut [u8], header: &Header, form: Form, payload: &[u8])
    requires size { length text.old ≡ 9 + length (elements_given form payload.now)
        + length (code_of_kind kind).generator }
    requires given { IsGivenAs form payload.now }
    ensures { IsEncodedText (code_of_kind kind) ms
        (header_elements header.now ++ elements_given form payload.now) text.new }
{
    let (front, behind) = text.split_at_mut(text.len() - degree_of(kind));
    let (before, middle) = front.split_at_mut(9);
    put_header(before, header);
    put_payload(middle, form, payload);
    put_checksum(kind, behind, &front[3..]);
}

// Which strings have this many bytes.
fn kind_of_bytes(count: usize) -> Option<Kind>
    ensures { MatchOption result
        (is_byte_count count || is_long_byte_count count ≡ false)
        (λ k. (is_byte_count count || is_long_byte_count count ≡ true)
        × (code_of_kind k ≡ code_of_byte_count count)) }
{
    if 16 <= count && count <= 44 {
        return Some(Kind::Short);
    }
    if 63 <= count && count <= 64 {
        return Some(Kind::Long);
    }
    None
}

// Which strings have a payload of this many characters.
fn kind_of_characters(count: usize) -> Option<Kind>
    ensures { MatchOption result
        (is_payload_count count || is_long_payload_count count ≡ false)
        (λ k. (is_payload_count count || is_long_payload_count count ≡ true)
        × (code_of_kind k ≡ code_of_payload_count count)) }
{
    if 26 <= count && count <= 71 && 5 * count % 8 <= 4 {
        return Some(Kind::Short);
    }
    if 101 <= count && count <= 103 && 5 * count % 8 <= 4 {
        return Some(Kind::Long);
    }
    None
}

/// Puts the string of a header and bytes at the front of a buffer, and returns its length.
///
/// # Errors
///
/// The number of the first of: what is wrong with the header; a number of bytes that no string has;
/// a buffer that is too small.
pub fn encoded(
    threshold: u32,
    identifier: &[u8],
    share_index: u32,
    bytes: &[u8],
    text: &mut [u8],
) -> Result<usize, u32>
    ensures value { IfOk result
        (PutsEncoded threshold identifier.now share_index bytes.now text.old text.new) }
    ensures accepts { CanEncode threshold identifier.now share_index bytes.now (length text.old)
        → IsOk result }
    ensures refused { IfErr result (IsNumberOfCodex32
        (IsEncodeStringFault threshold identifier.now share_index bytes.now (length text.old))) }
    ensures same { OnErr result (text.new ≡ text.old) }
{
    let header = header_by(threshold, identifier, share_index)?;
    let Some(kind) = kind_of_bytes(bytes.len()) else {
        return Err(WRONG_SIZE);
    };
    let count = 9 + (8 * bytes.len() + 4) / 5 + degree_of(kind);
    if count > text.len() {
        return Err(NO_ROOM);
    }
    put_string(kind, &mut text[..count], &header, Form::Bytes, bytes);
    Ok(count)
}

/// Puts the string of a header and the characters of a payload at the front of a buffer, and
/// returns its length.
///
/// # Errors
///
/// The number of the first of: what is wrong with the header, or with the characters; a number of
/// characters that no string has; a buffer that is too small.
pub fn encoded_payload(
    threshold: u32,
    identifier: &[u8],
    share_index: u32,
    payload: &[u8],
    text: &mut [u8],
) -> Result<usize, u32>
    ensures value { IfOk result
        (PutsEncodedPayload threshold identifier.now share_index payload.now text.old text.new) }
    ensures accepts { CanEncodePayload threshold identifier.now share_index payload.now
        (length text.old) → IsOk result }
    ensures refused { IfErr result (IsNumberOfCodex32
        (IsEncodePayloadFault threshold identifier.now share_index payload.now
        (length text.old))) }
    ensures same { OnErr result (text.new ≡ text.old) }
{
    let header = header_by(threshold, identifier, share_index)?;
    match validate_payload(payload) {
        Ok(()) => {}
        Err(e) => return Err(e.number()),
    }
    let Some(kind) = kind_of_characters(payload.len()) else {
        return Err(WRONG_SIZE);
    };
    let count = 9 + payload.len() + degree_of(kind);
    if count > text.len() {
        return Err(NO_ROOM);
    }
    put_string(kind, &mut text[..count], &header, Form::Characters, payload);
    Ok(count)
}
