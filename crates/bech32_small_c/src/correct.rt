//! Mends mistyped texts.
//!
//! Made by tools/make (tools/make.d/small_surfaces) from
//! `crates/bech32_c/src/correct.rt`; do not edit.

ghost use Rattle.std.specs.Prelude.{◌≡◌, ◌≢◌, length};
ghost use Rattle.bech32_calls.specs.Checksums.{ForChecksum, IsFaultBy};
ghost use Rattle.bech32_calls.specs.Correct.{CanMend, IsCorrectFault, PutsMended};
ghost use Rattle.bech32_calls.specs.Faults.{IsNumberOf};

use bech32_small::correct::corrected;

/// See `bech32_correct` in `include/bech32.h`.
#[unsafe(no_mangle)]
pub extern "C" fn bech32_correct(
    checksum: u32,
    text: &[u8],
    erasures: &[usize],
    locations: &mut [usize],
    values: &mut [u8],
    count: &mut usize,
    mended: &mut [u8],
    mended_length: &mut usize,
) -> u32
    ensures value { result ≡ 0 → ForChecksum checksum (PutsMended text.now erasures.now
        locations.old locations.new values.old values.new count.new
        mended.old mended.new mended_length.new) }
    ensures accepts { ForChecksum checksum (CanMend text.now erasures.now
        (length locations.old) (length values.old) (length mended.old)) → result ≡ 0 }
    ensures refused { result ≢ 0
        → IsNumberOf (IsFaultBy checksum (IsCorrectFault text.now erasures.now
        (length locations.old) (length values.old) (length mended.old))) result }
    ensures same { result ≢ 0 → (locations.new ≡ locations.old) × (values.new ≡ values.old)
        × (count.new ≡ count.old) × (mended.new ≡ mended.old)
        × (mended_length.new ≡ mended_length.old) }
{
    match corrected(checksum, text, erasures, locations, values, mended) {
        Ok(listed) => {
            *count = listed;
            *mended_length = text.len();
            0
        }
        Err(number) => number,
    }
}
