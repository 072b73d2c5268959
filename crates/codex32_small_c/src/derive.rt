//! Derives codex32 strings from others of their set.
//!
//! Made by tools/make (tools/make.d/small_surfaces) from
//! `crates/codex32_c/src/derive.rt`; do not edit.

ghost use Rattle.std.specs.Prelude.{◌≡◌, ◌≢◌, length};
ghost use Rattle.codex32_calls.specs.Derive.{CanDerive, IsDeriveFault, PutsDerived};
ghost use Rattle.codex32_calls.specs.Faults.{IsNumberOfCodex32};

use codex32_small::derive::derived;

/// See `codex32_derive` in `include/codex32.h`.
#[unsafe(no_mangle)]
pub extern "C" fn codex32_derive(
    share_index: u32,
    texts: &[u8],
    lengths: &[usize],
    text: &mut [u8],
    text_length: &mut usize,
) -> u32
    ensures value { result ≡ 0
        → PutsDerived share_index texts.now lengths.now text.old text.new text_length.new }
    ensures accepts { CanDerive share_index texts.now lengths.now (length text.old) → result ≡ 0 }
    ensures refused { result ≢ 0
        → IsNumberOfCodex32
        (IsDeriveFault share_index texts.now lengths.now (length text.old)) result }
    ensures same { result ≢ 0 → (text.new ≡ text.old) × (text_length.new ≡ text_length.old) }
{
    match derived(share_index, texts, lengths, text) {
        Ok(count) => {
            *text_length = count;
            0
        }
        Err(number) => number,
    }
}
