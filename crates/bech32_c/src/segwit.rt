//! Encodes and decodes segwit addresses.

ghost use Rattle.std.specs.Prelude.{◌≡◌, ◌≢◌, ◌≤◌, ℕ, List, length};
ghost use Rattle.bech32_gf.specs.Fe32.{element};
ghost use Rattle.bech32_hrp.specs.Hrp.{IsHrp, lowered};
ghost use Rattle.bech32_decode.specs.Segwit.{IsAddress};
ghost use Rattle.bech32_encode.specs.Buffers.{IsPut};
ghost use Rattle.bech32_calls.specs.Faults.{IsNumberOf};
ghost use Rattle.bech32_calls.specs.Segwit.{PutsAddress, HasRoomFor, IsSegwitEncodeFault};
ghost use Rattle.bech32_calls.specs.Segwit.{PutsProgram, CanDecodeAddress, IsSegwitDecodeFault};

use bech32_calls::segwit::{decoded, encoded};

/// See `bech32_segwit_encode` in `include/bech32.h`.
#[unsafe(no_mangle)]
pub extern "C" fn bech32_segwit_encode(
    hrp: &[u8],
    version: u32,
    program: &[u8],
    text: &mut [u8],
    text_length: &mut usize,
) -> u32
    ensures value { result ≡ 0
        → PutsAddress hrp.now version program.now text.old text.new text_length.new }
    ensures accepts { HasRoomFor hrp.now version program.now (length text.old) → result ≡ 0 }
    ensures refused { result ≢ 0
        → IsNumberOf (IsSegwitEncodeFault hrp.now version program.now (length text.old)) result }
    ensures same { result ≢ 0 → (text.new ≡ text.old) × (text_length.new ≡ text_length.old) }
    ensures spelling { (h : List ℕ) → (t : List ℕ)
        → lowered h ≡ lowered hrp.now → IsAddress h (element version) program.now t
        → IsHrp hrp.now → version ≤ 31 → length t ≤ length text.old
        → (result ≡ 0) × IsPut (lowered t) text.old text.new text_length.new }
{
    match encoded(hrp, version, program, text) {
        Ok(count) => {
            *text_length = count;
            0
        }
        Err(refusal) => refusal.number(),
    }
}

/// See `bech32_segwit_decode` in `include/bech32.h`.
#[unsafe(no_mangle)]
pub extern "C" fn bech32_segwit_decode(
    text: &[u8],
    hrp: &mut [u8],
    hrp_length: &mut usize,
    version: &mut u32,
    program: &mut [u8],
    program_length: &mut usize,
) -> u32
    ensures value { result ≡ 0 → PutsProgram text.now hrp.old hrp.new program.old program.new
        hrp_length.new version.new program_length.new }
    ensures accepts { CanDecodeAddress text.now (length hrp.old) (length program.old) → result ≡ 0 }
    ensures refused { result ≢ 0
        → IsNumberOf (IsSegwitDecodeFault text.now (length hrp.old) (length program.old)) result }
    ensures same { result ≢ 0
        → (hrp.new ≡ hrp.old) × (hrp_length.new ≡ hrp_length.old) × (version.new ≡ version.old)
        × (program.new ≡ program.old) × (program_length.new ≡ program_length.old) }
{
    match decoded(text, hrp, program) {
        Ok((hrp_count, element, program_count)) => {
            *hrp_length = hrp_count;
            *version = u32::from(element.to_u8());
            *program_length = program_count;
            0
        }
        Err(refusal) => refusal.number(),
    }
}
