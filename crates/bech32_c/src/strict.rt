//! Decodes texts that are the only ones of their bytes.

ghost use Rattle.std.specs.Prelude.{◌≡◌, ◌≢◌, length};
ghost use Rattle.bech32_calls.specs.Checksums.{ForTexts, IsFaultOfTexts};
ghost use Rattle.bech32_calls.specs.Faults.{IsNumberOf};
ghost use Rattle.bech32_calls.specs.Strict.{PutsStrict, CanDecodeStrict, IsStrictFault};

use bech32_calls::strict::decoded_strict_by;

/// See `bech32_decode_strict` in `include/bech32.h`.
#[unsafe(no_mangle)]
pub extern "C" fn bech32_decode_strict(
    checksum: u32,
    text: &[u8],
    hrp: &mut [u8],
    hrp_length: &mut usize,
    bytes: &mut [u8],
    bytes_length: &mut usize,
) -> u32
    ensures value { result ≡ 0 → ForTexts checksum (PutsStrict text.now
        hrp.old hrp.new bytes.old bytes.new hrp_length.new bytes_length.new) }
    ensures accepts { ForTexts checksum
        (CanDecodeStrict text.now (length hrp.old) (length bytes.old)) → result ≡ 0 }
    ensures refused { result ≢ 0 → IsNumberOf (IsFaultOfTexts checksum
        (IsStrictFault text.now (length hrp.old) (length bytes.old))) result }
    ensures same { result ≢ 0 → (hrp.new ≡ hrp.old) × (hrp_length.new ≡ hrp_length.old)
        × (bytes.new ≡ bytes.old) × (bytes_length.new ≡ bytes_length.old) }
{
    match decoded_strict_by(checksum, text, hrp, bytes) {
        Ok((hrp_count, bytes_count)) => {
            *hrp_length = hrp_count;
            *bytes_length = bytes_count;
            0
        }
        Err(refusal) => refusal.number(),
    }
}
