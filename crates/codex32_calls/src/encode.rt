//! Makes codex32 strings of bytes, or the characters of a payload.

ghost use Rattle.std.specs.Prelude.{◌≡◌, ◌≤◌, ◌||◌, true, false, length, take, IfErr, IfOk, IsOk, MatchResult, OnErr};
ghost use Rattle.bech32_encode.specs.Buffers.{IsPut};
ghost use Rattle.bech32_gf.specs.Alphabet.{is_data};
ghost use Rattle.bech32_gf.specs.Fe32.{elements_of};
ghost use Rattle.codex32.specs.Encode.{IsEncodedPayload, is_long_payload_count, is_payload_count};
ghost use Rattle.codex32_calls.specs.Encode.{CanEncode, IsEncodeStringFault, PutsEncoded};
ghost use Rattle.codex32_calls.specs.Payload.{CanEncodePayload, IsEncodePayloadFault, PutsEncodedPayload};
ghost use Rattle.codex32.specs.Code.{max_long_length};

use crate::input::{header_of, validate_payload};
use crate::output::put_made;
use crate::refusal::Refusal;
use bech32::Fe32;
use codex32::{EncodeError, Header, MAX_LONG_LENGTH, encode_into, encode_payload_into};
use codex32_steady::put_elements;

// The most characters that a payload has.
const MOST: usize = 103;

/// Puts the string of a header and bytes at the front of a buffer, and returns its length.
pub fn put_encoded(
    threshold: u32,
    identifier: &[u8],
    share_index: u32,
    bytes: &[u8],
    text: &mut [u8],
) -> Result<usize, Refusal>
    ensures value { IfOk result
        (PutsEncoded threshold identifier.now share_index bytes.now text.old text.new) }
    ensures accepts { CanEncode threshold identifier.now share_index bytes.now (length text.old)
        → IsOk result }
    ensures refused { IfErr result
        (IsEncodeStringFault threshold identifier.now share_index bytes.now (length text.old)) }
    ensures same { OnErr result (text.new ≡ text.old) }
{
    let header = header_of(threshold, identifier, share_index)?;
    let mut room = [0u8; MAX_LONG_LENGTH];
    let count = encode_into(&mut room, &header, bytes)?;
    put_made(text, &room[..count])
}

// Puts the string of a header and the characters of a payload at the front of a buffer, and returns
// its length.
fn put_payload(buffer: &mut [u8], header: &Header, characters: &[u8]) -> Result<usize, EncodeError>
    requires room { max_long_length ≤ length buffer.old }
    requires of_alphabet { is_data characters.now ≡ true }
    ensures text { IfOk result (λ n. IsEncodedPayload header.now (elements_of characters.now)
        (take n buffer.new)) }
    ensures put { IfOk result (λ n. IsPut (take n buffer.new) buffer.old buffer.new n) }
    ensures refused { MatchResult result
        (λ _. is_payload_count (length characters.now)
        || is_long_payload_count (length characters.now) ≡ true)
        (λ e. (e ≡ EncodeError.Size) × (is_payload_count (length characters.now)
        || is_long_payload_count (length characters.now) ≡ false)) }
{
    if characters.len() > MOST {
        return Err(EncodeError::Size);
    }
    let mut room = [Fe32::Q; MOST];
    let elements = &mut room[..characters.len()];
    put_elements(elements, characters);
    encode_payload_into(buffer, header, elements)
}

/// Puts the string of a header and the characters of a payload at the front of a buffer, and
/// returns its length.
pub fn put_encoded_payload(
    threshold: u32,
    identifier: &[u8],
    share_index: u32,
    payload: &[u8],
    text: &mut [u8],
) -> Result<usize, Refusal>
    ensures value { IfOk result
        (PutsEncodedPayload threshold identifier.now share_index payload.now text.old text.new) }
    ensures accepts { CanEncodePayload threshold identifier.now share_index payload.now
        (length text.old) → IsOk result }
    ensures refused { IfErr result
        (IsEncodePayloadFault threshold identifier.now share_index payload.now (length text.old)) }
    ensures same { OnErr result (text.new ≡ text.old) }
{
    let header = header_of(threshold, identifier, share_index)?;
    validate_payload(payload)?;
    let mut room = [0u8; MAX_LONG_LENGTH];
    let count = put_payload(&mut room, &header, payload)?;
    put_made(text, &room[..count])
}
