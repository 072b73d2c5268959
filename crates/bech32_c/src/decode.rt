//! Decodes texts, and tests them by a checksum.

ghost use Rattle.std.specs.Prelude.{◌≡◌, ◌≢◌, ◌≤◌, ◌⊎◌, ℕ, List, length, nat_lt, true};
ghost use Rattle.std.specs.List.{list_all};
ghost use Rattle.bech32_bits.specs.Bits.{to_fes};
ghost use Rattle.bech32_checksum.specs.Code.{bech32, bech32m};
ghost use Rattle.bech32_checksum.specs.Encoded.{IsEncodedText};
ghost use Rattle.bech32_hrp.specs.Hrp.{IsHrp, lowered};
ghost use Rattle.bech32_decode.specs.Acceptance.{Accepts};
ghost use Rattle.bech32_encode.specs.Buffers.{IsPut};
ghost use Rattle.bech32_calls.specs.Check.{IsCheckedAs, IsCheckFault};
ghost use Rattle.bech32_calls.specs.Checksums.{ForTexts, IsFaultOfTexts};
ghost use Rattle.bech32_calls.specs.Decode.{PutsDecoded, CanDecode, IsDecodeFault};
ghost use Rattle.bech32_calls.specs.Faults.{IsNumberOf};

use bech32_calls::decode::{checked_by, decoded};

/// See `bech32_decode` in `include/bech32.h`.
#[unsafe(no_mangle)]
pub extern "C" fn bech32_decode(
    text: &[u8],
    hrp: &mut [u8],
    hrp_length: &mut usize,
    bytes: &mut [u8],
    bytes_length: &mut usize,
) -> u32
    ensures value { result ≡ 0
        → PutsDecoded text.now hrp.old hrp.new bytes.old bytes.new hrp_length.new bytes_length.new }
    ensures accepts { CanDecode text.now (length hrp.old) (length bytes.old) → result ≡ 0 }
    ensures refused { result ≢ 0
        → IsNumberOf (IsDecodeFault text.now (length hrp.old) (length bytes.old)) result }
    ensures same { result ≢ 0 → (hrp.new ≡ hrp.old) × (hrp_length.new ≡ hrp_length.old)
        × (bytes.new ≡ bytes.old) × (bytes_length.new ≡ bytes_length.old) }
    ensures back { (part : List ℕ) → (found : List ℕ) → IsHrp part
        → list_all (λ b. nat_lt b 256) found ≡ true
        → IsEncodedText bech32m part (to_fes found) text.now
        ⊎ IsEncodedText bech32 part (to_fes found) text.now
        → length text.now ≤ 1023 → length part ≤ length hrp.old → length found ≤ length bytes.old
        → (result ≡ 0) × IsPut (lowered part) hrp.old hrp.new hrp_length.new
        × IsPut found bytes.old bytes.new bytes_length.new }
{
    match decoded(text, hrp, bytes) {
        Ok((hrp_count, bytes_count)) => {
            *hrp_length = hrp_count;
            *bytes_length = bytes_count;
            0
        }
        Err(refusal) => refusal.number(),
    }
}

/// See `bech32_check` in `include/bech32.h`.
#[unsafe(no_mangle)]
pub extern "C" fn bech32_check(
    checksum: u32,
    text: &[u8],
    hrp_length: &mut usize,
    data_length: &mut usize,
) -> u32
    ensures value { result ≡ 0
        → ForTexts checksum (IsCheckedAs text.now hrp_length.new data_length.new) }
    ensures accepts { ForTexts checksum (λ code. Accepts code text.now) → result ≡ 0 }
    ensures refused { result ≢ 0
        → IsNumberOf (IsFaultOfTexts checksum (IsCheckFault text.now)) result }
    ensures same { result ≢ 0
        → (hrp_length.new ≡ hrp_length.old) × (data_length.new ≡ data_length.old) }
{
    match checked_by(checksum, text) {
        Ok((hrp_count, data_count)) => {
            *hrp_length = hrp_count;
            *data_length = data_count;
            0
        }
        Err(refusal) => refusal.number(),
    }
}
