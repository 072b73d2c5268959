//! Reads codex32 strings of either length.

ghost use Rattle.std.specs.Prelude.{◌≡◌, length, map, IfErr, IfOk, IsOk, OnErr};
ghost use Rattle.bech32_checksum.specs.Encoded.{char_of_element};
ghost use Rattle.codex32.specs.HeaderParts.{identifier_elements};
ghost use Rattle.codex32_calls.specs.Share.{CanReadShare, IsShareFault, PutsPayload};

use crate::input::share_of;
use crate::refusal::Refusal;
use codex32::{Header, Identifier};

/// The characters of an identifier, in lower case.
pub fn characters_of(identifier: Identifier) -> [u8; 4]
    ensures { result ≡ map char_of_element (identifier_elements identifier) }
{
    let [a, b, c, d] = identifier.elements();
    // All are ASCII characters: the casts are proved to lose nothing.
    let (a, b) = (a.to_char() as u8, b.to_char() as u8);
    let (c, d) = (c.to_char() as u8, d.to_char() as u8);
    [a, b, c, d]
}

/// Puts the bytes of the payload of a string at the front of a buffer, and returns its header and
/// how many they are.
pub fn put_payload(text: &[u8], bytes: &mut [u8]) -> Result<(Header, usize), Refusal>
    ensures value { IfOk result (λ p. PutsPayload text.now p.0 bytes.old bytes.new p.1) }
    ensures accepts { CanReadShare text.now (length bytes.old) → IsOk result }
    ensures refused { IfErr result (λ e. IsShareFault text.now (length bytes.old) e) }
    ensures same { OnErr result (bytes.new ≡ bytes.old) }
{
    let share = share_of(text)?;
    let count = share.byte_count()?;
    if count > bytes.len() {
        return Err(Refusal::NoRoom);
    }
    share.put_bytes(bytes);
    Ok((share.header(), count))
}
