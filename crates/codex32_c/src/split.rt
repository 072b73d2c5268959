//! Splits secrets into shares.

ghost use Rattle.std.specs.Prelude.{◌≡◌, ◌≢◌, length};
ghost use Rattle.codex32_calls.specs.Faults.{IsNumberOfCodex32};
ghost use Rattle.codex32_calls.specs.Split.{CanSplit, IsSplitFault, PutsSplit};

use codex32_calls::split::put_split;

/// See `codex32_split` in `include/codex32.h`.
#[unsafe(no_mangle)]
pub extern "C" fn codex32_split(
    threshold: u32,
    identifier: &[u8],
    secret: &[u8],
    random: &[u8],
    count: usize,
    texts: &mut [u8],
    text_length: &mut usize,
) -> u32
    ensures value { result ≡ 0
        → PutsSplit threshold identifier.now secret.now random.now count texts.old texts.new
        text_length.new }
    ensures accepts { CanSplit threshold identifier.now secret.now random.now count
        (length texts.old) → result ≡ 0 }
    ensures refused { result ≢ 0
        → IsNumberOfCodex32
        (IsSplitFault threshold identifier.now secret.now random.now count (length texts.old))
        result }
    ensures same { result ≢ 0
        → (texts.new ≡ texts.old) × (text_length.new ≡ text_length.old) }
{
    match put_split(texts, threshold, identifier, secret, count, random) {
        Ok(length) => {
            *text_length = length;
            0
        }
        Err(refusal) => refusal.number(),
    }
}
