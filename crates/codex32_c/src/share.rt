//! Reads codex32 strings of either length.

ghost use Rattle.std.specs.Prelude.{◌≡◌, ◌≢◌, length};
ghost use Rattle.codex32_calls.specs.Faults.{IsNumberOfCodex32};
ghost use Rattle.codex32_calls.specs.Share.{CanReadShare, IsShareFault, PutsShare};

use codex32_calls::share::{characters_of, put_payload};

/// See `codex32_share` in `include/codex32.h`.
#[unsafe(no_mangle)]
pub extern "C" fn codex32_share(
    text: &[u8],
    threshold: &mut u32,
    identifier: &mut [u8; 4],
    share_index: &mut u32,
    bytes: &mut [u8],
    bytes_length: &mut usize,
) -> u32
    ensures value { result ≡ 0
        → PutsShare text.now threshold.new identifier.new share_index.new
        bytes.old bytes.new bytes_length.new }
    ensures accepts { CanReadShare text.now (length bytes.old) → result ≡ 0 }
    ensures refused { result ≢ 0
        → IsNumberOfCodex32 (IsShareFault text.now (length bytes.old)) result }
    ensures same { result ≢ 0
        → (threshold.new ≡ threshold.old) × (identifier.new ≡ identifier.old)
        × (share_index.new ≡ share_index.old) × (bytes.new ≡ bytes.old)
        × (bytes_length.new ≡ bytes_length.old) }
{
    match put_payload(text, bytes) {
        Ok((header, count)) => {
            *threshold = u32::from(header.threshold().number());
            *identifier = characters_of(header.identifier());
            *share_index = u32::from(header.share_index().to_char());
            *bytes_length = count;
            0
        }
        Err(refusal) => refusal.number(),
    }
}
