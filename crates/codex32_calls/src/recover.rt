//! Recovers secrets from shares.

ghost use Rattle.std.specs.Prelude.{◌≡◌, length, IfErr, IfOk, IsOk, OnErr};
ghost use Rattle.codex32.specs.Share.{IsEither};
ghost use Rattle.codex32.specs.declared.header.Header.{Header as Head};
ghost use Rattle.codex32_calls.specs.Recover.{CanRecover, IsRecoverFault, PutsRecovered};
ghost use Rattle.codex32_calls.specs.Share.{CanReadShare, IsShareFault, PutsPayload};

use crate::derive::put_string;
use crate::input::Texts;
use crate::refusal::Refusal;
use codex32::{MAX_LONG_LENGTH, Share};

// Puts the bytes of a string's payload at the front of a buffer, and returns how many they are.
fn put_bytes_of(string: &[u8], bytes: &mut [u8]) -> Result<usize, Refusal>
    requires { IsEither string.now }
    ensures value { IfOk result
        (λ n. (h : Head) × PutsPayload string.now h bytes.old bytes.new n) }
    ensures accepts { CanReadShare string.now (length bytes.old) → IsOk result }
    ensures refused { IfErr result (λ e. IsShareFault string.now (length bytes.old) e) }
    ensures same { OnErr result (bytes.new ≡ bytes.old) }
{
    // A string is ASCII: what the call requires is proved.
    let Ok(share) = Share::parse(unsafe { str::from_utf8_unchecked(string) }) else {
        unreachable!()
    };
    let count = share.byte_count()?;
    if count > bytes.len() {
        return Err(Refusal::NoRoom);
    }
    share.put_bytes(bytes);
    Ok(count)
}

/// Puts the bytes of the secret that texts give at the front of a buffer, and returns how many they
/// are.
pub fn put_recovered(texts: Texts<'_>, bytes: &mut [u8]) -> Result<usize, Refusal>
    ensures value { IfOk result
        (PutsRecovered texts.entry.characters.now texts.entry.lengths.now bytes.old bytes.new) }
    ensures accepts { CanRecover texts.entry.characters.now texts.entry.lengths.now
        (length bytes.old) → IsOk result }
    ensures refused { IfErr result
        (IsRecoverFault texts.entry.characters.now texts.entry.lengths.now (length bytes.old)) }
    ensures same { OnErr result (bytes.new ≡ bytes.old) }
{
    let mut room = [0u8; MAX_LONG_LENGTH];
    let count = put_string(&mut room, u32::from(b's'), texts)?;
    put_bytes_of(&room[..count], bytes)
}
