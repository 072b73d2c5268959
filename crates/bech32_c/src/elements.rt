//! Decodes and encodes elements.

ghost use Rattle.std.specs.Prelude.{◌≡◌, ◌≢◌, length, Some};
ghost use Rattle.bech32.specs.Elements.{first_above};
ghost use Rattle.bech32_calls.specs.Checksums.{ForTexts, IsFaultOfTexts};
ghost use Rattle.bech32_calls.specs.Elements.{PutsElements, CanDecodeElements, IsElementsFault};
ghost use Rattle.bech32_calls.specs.Elements.{PutsElementsText, HasElementsText};
ghost use Rattle.bech32_calls.specs.Elements.{IsElementsEncodeFault};
ghost use Rattle.bech32_calls.specs.Faults.{IsNumberOf};

use bech32_calls::elements::{decoded_elements_by, encoded_elements_by, place_of_element};

/// See `bech32_decode_elements` in `include/bech32.h`.
#[unsafe(no_mangle)]
pub extern "C" fn bech32_decode_elements(
    checksum: u32,
    text: &[u8],
    hrp: &mut [u8],
    hrp_length: &mut usize,
    elements: &mut [u8],
    elements_length: &mut usize,
) -> u32
    ensures value { result ≡ 0 → ForTexts checksum (PutsElements text.now
        hrp.old hrp.new elements.old elements.new hrp_length.new elements_length.new) }
    ensures accepts { ForTexts checksum
        (CanDecodeElements text.now (length hrp.old) (length elements.old)) → result ≡ 0 }
    ensures refused { result ≢ 0 → IsNumberOf (IsFaultOfTexts checksum
        (IsElementsFault text.now (length hrp.old) (length elements.old))) result }
    ensures same { result ≢ 0 → (hrp.new ≡ hrp.old) × (hrp_length.new ≡ hrp_length.old)
        × (elements.new ≡ elements.old) × (elements_length.new ≡ elements_length.old) }
{
    match decoded_elements_by(checksum, text, hrp, elements) {
        Ok((hrp_count, elements_count)) => {
            *hrp_length = hrp_count;
            *elements_length = elements_count;
            0
        }
        Err(refusal) => refusal.number(),
    }
}

/// See `bech32_encode_elements` in `include/bech32.h`.
#[unsafe(no_mangle)]
pub extern "C" fn bech32_encode_elements(
    checksum: u32,
    hrp: &[u8],
    elements: &[u8],
    place: &mut usize,
    text: &mut [u8],
    text_length: &mut usize,
) -> u32
    ensures value { result ≡ 0 → ForTexts checksum
        (PutsElementsText hrp.now elements.now text.old text.new text_length.new) }
    ensures accepts { ForTexts checksum
        (HasElementsText hrp.now elements.now (length text.old)) → result ≡ 0 }
    ensures refused { result ≢ 0 → IsNumberOf (IsFaultOfTexts checksum
        (IsElementsEncodeFault hrp.now elements.now (length text.old))) result }
    ensures same { result ≢ 0 → (text.new ≡ text.old) × (text_length.new ≡ text_length.old) }
    ensures place { result ≡ 67 → first_above elements.now ≡ Some place.new }
    ensures unplaced { result ≢ 67 → place.new ≡ place.old }
{
    match encoded_elements_by(checksum, hrp, elements, text) {
        Ok(count) => {
            *text_length = count;
            0
        }
        Err(refusal) => {
            *place = place_of_element(refusal).unwrap_or(*place);
            refusal.number()
        }
    }
}
