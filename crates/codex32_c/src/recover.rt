//! Recovers secrets from shares.

ghost use Rattle.std.specs.Prelude.{◌≡◌, ◌≢◌, length};
ghost use Rattle.codex32_calls.specs.Faults.{IsNumberOfCodex32};
ghost use Rattle.codex32_calls.specs.Recover.{CanRecover, IsRecoverFault, PutsRecovered};

use codex32_calls::Texts;
use codex32_calls::recover::put_recovered;

/// See `codex32_recover` in `include/codex32.h`.
#[unsafe(no_mangle)]
pub extern "C" fn codex32_recover(
    texts: &[u8],
    lengths: &[usize],
    bytes: &mut [u8],
    bytes_length: &mut usize,
) -> u32
    ensures value { result ≡ 0
        → PutsRecovered texts.now lengths.now bytes.old bytes.new bytes_length.new }
    ensures accepts { CanRecover texts.now lengths.now (length bytes.old) → result ≡ 0 }
    ensures refused { result ≢ 0
        → IsNumberOfCodex32 (IsRecoverFault texts.now lengths.now (length bytes.old)) result }
    ensures same { result ≢ 0
        → (bytes.new ≡ bytes.old) × (bytes_length.new ≡ bytes_length.old) }
{
    let texts = Texts {
        characters: texts,
        lengths,
    };
    match put_recovered(texts, bytes) {
        Ok(count) => {
            *bytes_length = count;
            0
        }
        Err(refusal) => refusal.number(),
    }
}
