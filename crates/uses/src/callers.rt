//! Callers whose contracts rest on those of the library.

ghost use Rattle.std.specs.Prelude.{◌≡◌, ◌⊎◌, ℕ, List, None, Ok, IfOk, IfErr, IfSome, MatchOption, string_bytes};
ghost use Rattle.bech32_bits.specs.Bits.{to_fes};
ghost use Rattle.bech32_gf.specs.Fe32.{elements_of};
ghost use Rattle.bech32_hrp.specs.Hrp.{lowered};
ghost use Rattle.bech32_segwit.specs.SegwitDecoding.{IsSegwitDecodeRefusal};
ghost use Rattle.codex32.specs.Nearest.{IsNearestText, IsProposeRefusal};
ghost use Rattle.codex32.specs.Encode.{IsEncodedString};
ghost use Rattle.codex32.specs.Header.{identifier_of_header, share_index_of_header, threshold_of_header};
ghost use Rattle.codex32.specs.HeaderParts.{secret_index};
ghost use Rattle.codex32.specs.Share.{IsShareOf, IsShareString, bytes_of_share};
ghost use Rattle.codex32.specs.Strings.{IsCodex32};
ghost use Rattle.codex32.specs.declared.share.Share.{Share as AShare};

use bech32::Fe32;
use bech32::primitives::decode::SegwitHrpstringError;
use bech32::segwit::{self, DecodeError};
use codex32::{
    Codex32Error, Codex32Str, Header, Identifier, Share, Threshold, derive, encode, encode_payload,
    propose, recover, split_into,
};
use std::alloc::Global;

/// Reads a segwit address, and writes it in lower case.
///
/// # Errors
///
/// Those of [`segwit::decode`].
pub fn in_lower_case(alloc: Global, text: &str) -> Result<String, DecodeError>
    ensures value { IfOk result (λ s. string_bytes s ≡ lowered text.now) }
    ensures refused { IfErr result (λ e. IsSegwitDecodeRefusal text.now e) }
{
    let (hrp, version, program) = segwit::decode(alloc, text)?;
    let Ok(lower) = segwit::encode(alloc, hrp, version, program.as_slice()) else {
        return Err(DecodeError(SegwitHrpstringError::Memory));
    };
    Ok(lower)
}

/// What to propose for a codex32 string as it was typed: nothing where it is one, else the nearest
/// text, where there is one.
///
/// # Errors
///
/// Those of [`propose`].
pub fn proposal(alloc: Global, text: &str) -> Result<Option<String>, Codex32Error>
    ensures fine { IsCodex32 text.now → result ≡ Ok None }
    ensures value { IfOk result (λ answer. MatchOption answer
        (IsCodex32 text.now ⊎ ((nearest : List ℕ) → IsNearestText text.now nearest → ⊥))
        (λ s. IsNearestText text.now (string_bytes s))) }
    ensures refused { IfErr result (λ e. IsProposeRefusal text.now e) }
{
    if Codex32Str::parse(text).is_ok() {
        return Ok(None);
    }
    propose(alloc, text)
}

/// A secret that two strings share, its own and one at random, as it is recovered from two others
/// that are derived from these: its own string, whatever is random. None where a string is refused,
/// where two are not enough, or out of memory.
pub fn recovered(
    alloc: Global,
    own: &Header,
    secret: &[u8],
    other: &Header,
    random: &[Fe32],
    indices: (Fe32, Fe32),
) -> Option<String>
    requires { share_index_of_header own.now ≡ secret_index }
    ensures encoded { IfSome result (λ s. IsEncodedString own.now secret.now (string_bytes s)) }
    ensures string { IfSome result (λ s. (payload : List ℕ)
        × IsShareString (string_bytes s) (threshold_of_header own.now)
        (identifier_of_header own.now) secret_index payload
        × (elements_of payload ≡ to_fes secret.now)) }
{
    let Ok(own_text) = encode(alloc, own, secret) else {
        return None;
    };
    let Ok(other_text) = encode_payload(alloc, other, random) else {
        return None;
    };
    let Ok(own_share) = Share::parse(&own_text) else {
        return None;
    };
    let Ok(other_share) = Share::parse(&other_text) else {
        return None;
    };
    let dealt = [own_share, other_share];
    let Ok(first) = derive(alloc, &dealt, indices.0) else {
        return None;
    };
    let Ok(second) = derive(alloc, &dealt, indices.1) else {
        return None;
    };
    let Ok(first_share) = Share::parse(&first) else {
        return None;
    };
    let Ok(second_share) = Share::parse(&second) else {
        return None;
    };
    let Ok(text) = recover(alloc, &[first_share, second_share]) else {
        return None;
    };
    Some(text)
}

// The bytes of the payload of a string.
fn bytes_of(alloc: Global, text: &str) -> Option<Vec<u8>>
    ensures { IfSome result (λ v. (s : AShare) × IsShareOf text.now s
        × (v.items ≡ bytes_of_share s)) }
{
    let Ok(share) = Share::parse(text) else {
        return None;
    };
    let Ok(count) = share.byte_count() else {
        return None;
    };
    let Ok(mut bytes) = vec![in alloc; 0u8; count] else {
        return None;
    };
    share.put_bytes(bytes.as_mut_slice());
    Some(bytes)
}

/// The bytes of the secret, recovered so.
pub fn recovered_bytes(
    alloc: Global,
    own: &Header,
    secret: &[u8],
    other: &Header,
    random: &[Fe32],
    indices: (Fe32, Fe32),
) -> Option<Vec<u8>>
    requires { share_index_of_header own.now ≡ secret_index }
    ensures { IfSome result (λ v. v.items ≡ secret.now) }
{
    let text = recovered(alloc, own, secret, other, random, indices)?;
    bytes_of(alloc, &text)
}

// The share of the bytes of a text.
fn share_of(bytes: &[u8]) -> Option<Share<'_>>
    ensures { IfSome result (λ s. IsShareOf bytes.now s) }
{
    let Ok(text) = str::from_utf8(bytes) else {
        return None;
    };
    let Ok(share) = Share::parse(text) else {
        return None;
    };
    Some(share)
}

/// The bytes of a secret that is split into three shares, as the first and the third give them
/// back: the secret, whatever is random. None where it is not split, or out of memory.
pub fn given_back(
    alloc: Global,
    identifier: Identifier,
    secret: &[u8],
    random: &[u8],
) -> Option<Vec<u8>>
    ensures { IfSome result (λ v. v.items ≡ secret.now) }
{
    let threshold = Threshold::new(2)?;
    let mut buffer = [0u8; 381];
    let Ok(size) = split_into(&mut buffer, threshold, identifier, secret, 3, random) else {
        return None;
    };
    let (front, behind) = buffer[..3 * size].split_at(2 * size);
    let first = share_of(&front[..size])?;
    let third = share_of(&behind[..size])?;
    let Ok(text) = recover(alloc, &[first, third]) else {
        return None;
    };
    bytes_of(alloc, &text)
}
