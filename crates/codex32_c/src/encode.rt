//! Makes codex32 strings of bytes, or the characters of a payload.

ghost use Rattle.std.specs.Prelude.{◌≡◌, ◌≢◌, length};
ghost use Rattle.codex32_calls.specs.Encode.{CanEncode, IsEncodeStringFault, PutsEncoded};
ghost use Rattle.codex32_calls.specs.Faults.{IsNumberOfCodex32};
ghost use Rattle.codex32_calls.specs.Payload.{CanEncodePayload, IsEncodePayloadFault, PutsEncodedPayload};

use codex32_calls::encode::{put_encoded, put_encoded_payload};

/// See `codex32_encode` in `include/codex32.h`.
#[unsafe(no_mangle)]
pub extern "C" fn codex32_encode(
    threshold: u32,
    identifier: &[u8],
    share_index: u32,
    bytes: &[u8],
    text: &mut [u8],
    text_length: &mut usize,
) -> u32
    ensures value { result ≡ 0
        → PutsEncoded threshold identifier.now share_index bytes.now text.old text.new
        text_length.new }
    ensures accepts { CanEncode threshold identifier.now share_index bytes.now (length text.old)
        → result ≡ 0 }
    ensures refused { result ≢ 0
        → IsNumberOfCodex32
        (IsEncodeStringFault threshold identifier.now share_index bytes.now (length text.old))
        result }
    ensures same { result ≢ 0 → (text.new ≡ text.old) × (text_length.new ≡ text_length.old) }
{
    match put_encoded(threshold, identifier, share_index, bytes, text) {
        Ok(count) => {
            *text_length = count;
            0
        }
        Err(refusal) => refusal.number(),
    }
}

/// See `codex32_encode_payload` in `include/codex32.h`.
#[unsafe(no_mangle)]
pub extern "C" fn codex32_encode_payload(
    threshold: u32,
    identifier: &[u8],
    share_index: u32,
    payload: &[u8],
    text: &mut [u8],
    text_length: &mut usize,
) -> u32
    ensures value { result ≡ 0
        → PutsEncodedPayload threshold identifier.now share_index payload.now text.old text.new
        text_length.new }
    ensures accepts { CanEncodePayload threshold identifier.now share_index payload.now
        (length text.old) → result ≡ 0 }
    ensures refused { result ≢ 0
        → IsNumberOfCodex32
        (IsEncodePayloadFault threshold identifier.now share_index payload.now (length text.old))
        result }
    ensures same { result ≢ 0 → (text.new ≡ text.old) × (text_length.new ≡ text_length.old) }
{
    match put_encoded_payload(threshold, identifier, share_index, payload, text) {
        Ok(count) => {
            *text_length = count;
            0
        }
        Err(refusal) => refusal.number(),
    }
}
