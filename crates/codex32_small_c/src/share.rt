//! Reads codex32 strings of either length.
//!
//! Made by tools/make (tools/make.d/small_surfaces) from
//! `crates/codex32_c/src/share.rt`; do not edit.

ghost use Rattle.std.specs.Prelude.{◌≡◌, ◌≢◌, length};
ghost use Rattle.codex32_calls.specs.Faults.{IsNumberOfCodex32};
ghost use Rattle.codex32_calls.specs.Share.{CanReadShare, IsShareFault, PutsShare};

use codex32_small::share::put_share;

/// See `codex32_share` in `include/codex32.h`.
#[unsafe(no_mangle)]
pub extern "C" fn codex32_share(
    text: &[u8],
    threshold: &mut u32,
    identifier: &mut [u8; 4],
    share_index: &mut u32,
    bytes: &mut [u8],
    bytes_length: &mut usize,
) -> u32
    ensures value { result ≡ 0
        → PutsShare text.now threshold.new identifier.new share_index.new
        bytes.old bytes.new bytes_length.new }
    ensures accepts { CanReadShare text.now (length bytes.old) → result ≡ 0 }
    ensures refused { result ≢ 0
        → IsNumberOfCodex32 (IsShareFault text.now (length bytes.old)) result }
    ensures same { result ≢ 0
        → (threshold.new ≡ threshold.old) × (identifier.new ≡ identifier.old)
        × (share_index.new ≡ share_index.old) × (bytes.new ≡ bytes.old)
        × (bytes_length.new ≡ bytes_length.old) }
{
    match put_share(text, bytes) {
        Ok(told) => {
            let characters = told.identifier;
            *threshold = told.threshold;
            *identifier = characters;
            *share_index = told.share_index;
            *bytes_length = told.count;
            0
        }
        Err(number) => number,
    }
}
