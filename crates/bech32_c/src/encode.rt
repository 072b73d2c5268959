//! Encodes bytes.

ghost use Rattle.std.specs.Prelude.{◌≡◌, ◌≢◌, length};
ghost use Rattle.bech32_calls.specs.Checksums.{ForTexts, IsFaultOfTexts};
ghost use Rattle.bech32_calls.specs.Encode.{PutsText, HasText, IsEncodeFault};
ghost use Rattle.bech32_calls.specs.Faults.{IsNumberOf};

use bech32_calls::encode::encoded_by;

/// See `bech32_encode` in `include/bech32.h`.
#[unsafe(no_mangle)]
pub extern "C" fn bech32_encode(
    checksum: u32,
    hrp: &[u8],
    bytes: &[u8],
    text: &mut [u8],
    text_length: &mut usize,
) -> u32
    ensures value { result ≡ 0
        → ForTexts checksum
        (λ code. PutsText code hrp.now bytes.now text.old text.new text_length.new) }
    ensures accepts { ForTexts checksum
        (λ code. HasText code hrp.now bytes.now (length text.old))
        → result ≡ 0 }
    ensures refused { result ≢ 0
        → IsNumberOf
        (IsFaultOfTexts checksum (IsEncodeFault hrp.now bytes.now (length text.old))) result }
    ensures same { result ≢ 0 → (text.new ≡ text.old) × (text_length.new ≡ text_length.old) }
{
    match encoded_by(checksum, hrp, bytes, text) {
        Ok(count) => {
            *text_length = count;
            0
        }
        Err(refusal) => refusal.number(),
    }
}
