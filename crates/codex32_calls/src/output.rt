//! Puts what was made into a buffer of a C program.

ghost use Rattle.std.specs.Prelude.{◌≡◌, ◌<◌, length, MatchResult};
ghost use Rattle.bech32_encode.specs.Buffers.{IsPut};

use crate::refusal::Refusal;
use bech32_encode::put_at_front;

/// Puts bytes at the front of a buffer, and returns how many they are.
pub(crate) fn put_made(buffer: &mut [u8], bytes: &[u8]) -> Result<usize, Refusal>
    ensures { MatchResult result
        (λ n. IsPut bytes.now buffer.old buffer.new n)
        (λ e. (e ≡ Refusal.NoRoom) × (length buffer.old < length bytes.now)
        × (buffer.new ≡ buffer.old)) }
{
    if bytes.len() > buffer.len() {
        return Err(Refusal::NoRoom);
    }
    put_at_front(buffer, bytes);
    Ok(bytes.len())
}
