//! Reads codex32 strings of either length.

ghost use Rattle.std.specs.Prelude.{◌≡◌, ◌+◌, true, length, take, None, Some, IfErr, IfOk, IsOk, MatchResult, OnErr};
ghost use Rattle.bech32_decode.specs.Text.{IsText};
ghost use Rattle.bech32_hrp.specs.Hrp.{first_of};
ghost use Rattle.bech32_numbers.specs.Refused.{IsNumberBy};
ghost use Rattle.codex32.specs.Code.{code_of_length};
ghost use Rattle.codex32.specs.Share.{IsShareRefusal, characters_of_share, header_of_share};
ghost use Rattle.codex32.specs.ShareParts.{payload_in};
ghost use Rattle.codex32.specs.Strings.{codex32_length_fault, frame_refusal_by, is_within_either, part_fault};
ghost use Rattle.codex32.specs.declared.share.Share.{Share as AShare};
ghost use Rattle.codex32_calls.specs.Faults.{IsNumberOfCodex32};
ghost use Rattle.codex32_calls.specs.Share.{CanReadShare, IsEitherFault, IsShareFault, IsTold, PutsShare};
ghost use Rattle.codex32.specs.Numbers.{number_of_codex32_error};
ghost use Rattle.codex32_small.specs.Code.{code_of_kind};
ghost use Rattle.codex32_small.specs.Parts.{HasDataPart};

use crate::letters::in_lower_case;
use crate::register::{degree_of, has_target};
use bech32_decode::data_bytes_count;
use codex32::numbers::codex32_error_number;
use codex32::{
    Codex32Error, MAX_LENGTH, MAX_LONG_LENGTH, MIN_LENGTH, MIN_LONG_LENGTH, validate_header,
};
use codex32_calls::input::text_of;
use codex32_calls::propose::Kind;
use codex32_steady::texts::parts::parts_of;
use codex32_steady::texts::payload::put_payload_bytes;

// The number of a wrong checksum.
const WRONG_CHECKSUM: u32 = 33;

// The number of a payload behind whose bytes more than four bits are left over.
const LEFT_OVER: u32 = 87;

// The number of a buffer that is too small.
const NO_ROOM: u32 = 92;

/// What is told of a string.
#[derive(Clone, Copy)]
pub struct ShareParts {
    /// Its threshold.
    pub threshold: u32,
    /// The characters of its identifier, in lower case.
    pub identifier: [u8; 4],
    /// That of its share index, in lower case.
    pub share_index: u32,
    /// How many bytes its payload has.
    pub count: usize,
}

// Which strings have `count` characters, if any do.
fn kind_of(count: usize) -> Kind
    ensures { code_of_kind result ≡ code_of_length count }
{
    if count <= MAX_LENGTH {
        Kind::Short
    } else {
        Kind::Long
    }
}

// Whether a string has this many characters.
fn is_within(count: usize) -> bool
    ensures { result ≡ is_within_either count }
{
    MIN_LENGTH <= count && count <= MAX_LENGTH
        || MIN_LONG_LENGTH <= count && count <= MAX_LONG_LENGTH
}

// Tests the number of characters of a text, and then its human-readable part.
fn validate_outline(count: usize, part: &[u8]) -> Result<(), Codex32Error>
    ensures { MatchResult result
        (λ _. first_of (codex32_length_fault is_within_either count) (part_fault part.now) ≡ None)
        (λ e. first_of (codex32_length_fault is_within_either count) (part_fault part.now)
        ≡ Some e) }
{
    if !is_within(count) {
        return Err(Codex32Error::Length);
    }
    if !part.eq_ignore_ascii_case(b"ms") {
        return Err(Codex32Error::Hrp);
    }
    Ok(())
}

// The data part of a text in the grammar, of as many characters as strings have, whose
// human-readable part is `ms` in either case.
fn framed(text: &str) -> Result<&[u8], Codex32Error>
    ensures { MatchResult result
        (λ d. (frame_refusal_by is_within_either text.now ≡ None)
        × IsText text.now (take 2 text.now) d.now)
        (λ e. frame_refusal_by is_within_either text.now ≡ Some e) }
{
    let (part, data_part) = parts_of(text)?;
    validate_outline(text.len(), part)?;
    Ok(data_part)
}

// The data part of a text that is a string.
fn data_part_in(text: &str) -> Result<&[u8], u32>
    ensures { MatchResult result
        (λ d. HasDataPart text.now d.now)
        (λ n. IsNumberBy number_of_codex32_error (IsShareRefusal text.now) n) }
{
    let data_part = match framed(text) {
        Ok(data_part) => data_part,
        Err(e) => return Err(u32::from(codex32_error_number(e))),
    };
    if !has_target(kind_of(text.len()), data_part) {
        return Err(WRONG_CHECKSUM);
    }
    match validate_header(data_part) {
        Ok(()) => Ok(data_part),
        Err(e) => Err(u32::from(codex32_error_number(e))),
    }
}

/// The data part of bytes that are a string of either length.
///
/// # Errors
///
/// The number of the first of: bytes that are not UTF-8; the first fault of their text.
#[inline(never)]
pub(crate) fn data_part_of(bytes: &[u8]) -> Result<&[u8], u32>
    ensures { MatchResult result
        (λ d. HasDataPart bytes.now d.now)
        (λ n. IsNumberOfCodex32 (IsEitherFault bytes.now) n) }
{
    match text_of(bytes) {
        Ok(text) => data_part_in(text),
        Err(e) => Err(e.number()),
    }
}

// The characters between the share index and the checksum.
fn payload_of(data_part: &[u8]) -> &[u8]
    requires { is_within_either (3 + length data_part.now) ≡ true }
    ensures { result.now ≡ payload_in data_part.now }
{
    &data_part[6..data_part.len() - degree_of(kind_of(3 + data_part.len()))]
}

// What the first characters of a string tell.
fn told_of(data_part: &[u8], count: usize) -> ShareParts
    requires { (s : AShare) × (characters_of_share s ≡ data_part.now) }
    ensures told { (s : AShare) → characters_of_share s ≡ data_part.now
        → IsTold (header_of_share s) result.threshold result.identifier result.share_index }
    ensures count { result.count ≡ count }
{
    ShareParts {
        threshold: u32::from(data_part[0] - b'0'),
        identifier: [
            in_lower_case(data_part[1]),
            in_lower_case(data_part[2]),
            in_lower_case(data_part[3]),
            in_lower_case(data_part[4]),
        ],
        share_index: u32::from(in_lower_case(data_part[5])),
        count,
    }
}

/// Puts the bytes of the payload of a string at the front of a buffer, and tells of the string.
///
/// # Errors
///
/// The number of the first of: what is wrong with the text; more than four bits that are left over
/// behind the bytes; a buffer that is too small.
pub fn put_share(text: &[u8], bytes: &mut [u8]) -> Result<ShareParts, u32>
    ensures value { IfOk result (λ t. PutsShare text.now t.threshold t.identifier t.share_index
        bytes.old bytes.new t.count) }
    ensures accepts { CanReadShare text.now (length bytes.old) → IsOk result }
    ensures refused { IfErr result
        (IsNumberOfCodex32 (IsShareFault text.now (length bytes.old))) }
    ensures same { OnErr result (bytes.new ≡ bytes.old) }
{
    let data_part = data_part_of(text)?;
    let payload = payload_of(data_part);
    if payload.len() * 5 % 8 > 4 {
        return Err(LEFT_OVER);
    }
    if data_bytes_count(payload) > bytes.len() {
        return Err(NO_ROOM);
    }
    let count = put_payload_bytes(payload, bytes);
    Ok(told_of(data_part, count))
}
