//! Reads codex32 strings.

ghost use Rattle.std.specs.Prelude.{◌≡◌, ◌≢◌};
ghost use Rattle.codex32.specs.Strings.{IsCodex32};
ghost use Rattle.codex32_calls.specs.Faults.{IsNumberOfCodex32};
ghost use Rattle.codex32_calls.specs.Parse.{IsParseFault, IsParsedString};

use codex32_calls::parse::parts_of;

/// See `codex32_parse` in `include/codex32.h`.
#[unsafe(no_mangle)]
pub extern "C" fn codex32_parse(
    text: &[u8],
    threshold: &mut u32,
    share_index: &mut u32,
    payload_length: &mut usize,
) -> u32
    ensures value { result ≡ 0
        → IsParsedString text.now threshold.new share_index.new payload_length.new }
    ensures accepts { IsCodex32 text.now → result ≡ 0 }
    ensures refused { result ≢ 0 → IsNumberOfCodex32 (IsParseFault text.now) result }
    ensures same { result ≢ 0
        → (threshold.new ≡ threshold.old) × (share_index.new ≡ share_index.old)
        × (payload_length.new ≡ payload_length.old) }
{
    match parts_of(text) {
        Ok(string) => {
            *threshold = string.threshold;
            *share_index = string.share_index;
            *payload_length = string.payload_length;
            0
        }
        Err(refusal) => refusal.number(),
    }
}
