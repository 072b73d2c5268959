//! Decodes and encodes elements, a byte from 0 to 31 each.

ghost use Rattle.std.specs.Prelude.{◌≡◌, ◌<◌, ◌^◌, length, IfOk, IfErr, OnErr};
ghost use Rattle.bech32_calls.specs.Checksums.{ForTexts, IsFaultOfTexts};
ghost use Rattle.bech32_calls.specs.Elements.{PutsElements, IsElementsFault, PutsElementsText};
ghost use Rattle.bech32_calls.specs.Elements.{IsElementsEncodeFault, element_place};

use crate::checksum::by_number;
use crate::decode::validate_rooms;
use crate::input::part_of;
use crate::refusal::Refusal;
use bech32::Checksum;
use bech32::elements::{elements_length, place_above, put_elements, put_text_of_elements};
use bech32_decode::Reading;
use bech32_encode::put_at_front;

// Decodes by one checksum.
fn decoded_elements<Ck: Checksum>(
    text: &[u8],
    hrp: &mut [u8],
    elements: &mut [u8],
) -> Result<(usize, usize), Refusal>
    ensures value { IfOk result
        (λ n. PutsElements text.now hrp.old hrp.new elements.old elements.new n.0 n.1 Ck.code) }
    ensures refused { IfErr result
        (λ e. IsElementsFault text.now (length hrp.old) (length elements.old) Ck.code e) }
    ensures same { OnErr result ((hrp.new ≡ hrp.old) × (elements.new ≡ elements.old)) }
{
    let reading = Reading::<Ck>::from_bytes(text)?;
    reading.validate()?;
    let part = reading.hrp;
    let characters = reading.characters();
    validate_rooms(part.len(), hrp.len(), characters.len(), elements.len())?;
    put_at_front(hrp, part);
    Ok((part.len(), put_elements(characters, elements)))
}

/// Puts the human-readable part, in the case of the text, and the elements before the checksum of a
/// text that the checksum of a number accepts at the fronts of two buffers, and returns their
/// lengths.
///
/// # Errors
///
/// The first of: a number that is not from 1 to 4; a text that is not UTF-8; its first fault; a
/// buffer that is too small.
pub fn decoded_elements_by(
    checksum: u32,
    text: &[u8],
    hrp: &mut [u8],
    elements: &mut [u8],
) -> Result<(usize, usize), Refusal>
    ensures value { IfOk result (λ n. ForTexts checksum
        (PutsElements text.now hrp.old hrp.new elements.old elements.new n.0 n.1)) }
    ensures refused { IfErr result (λ e. IsFaultOfTexts checksum
        (IsElementsFault text.now (length hrp.old) (length elements.old)) e) }
    ensures same { OnErr result ((hrp.new ≡ hrp.old) × (elements.new ≡ elements.old)) }
{
    by_number!(checksum, decoded_elements(text, hrp, elements))
}

// Encodes by one checksum.
fn encoded_elements<Ck: Checksum>(
    hrp: &[u8],
    elements: &[u8],
    text: &mut [u8],
) -> Result<usize, Refusal>
    requires { Ck.code.code_length < 2 ^ 32 }
    ensures value { IfOk result
        (λ count. PutsElementsText hrp.now elements.now text.old text.new count Ck.code) }
    ensures refused { IfErr result
        (λ e. IsElementsEncodeFault hrp.now elements.now (length text.old) Ck.code e) }
    ensures same { OnErr result (text.new ≡ text.old) }
{
    let part = part_of(hrp)?;
    let count = elements_length::<Ck>(hrp, elements)?;
    if let Some(place) = place_above(elements) {
        return Err(Refusal::BadElement(place));
    }
    if count > text.len() {
        return Err(Refusal::NoRoom);
    }
    Ok(put_text_of_elements::<Ck>(&part, elements, text))
}

/// Puts the text of a human-readable part and elements by the checksum of a number, in lower case,
/// at the front of a buffer, and returns its length.
///
/// # Errors
///
/// The first of: a number that is not from 1 to 4; a human-readable part that is not UTF-8, or is
/// none; a text of more characters than the checksum allows; a byte above 31; a text of more
/// characters than the buffer has room for.
pub fn encoded_elements_by(
    checksum: u32,
    hrp: &[u8],
    elements: &[u8],
    text: &mut [u8],
) -> Result<usize, Refusal>
    ensures value { IfOk result (λ count. ForTexts checksum
        (PutsElementsText hrp.now elements.now text.old text.new count)) }
    ensures refused { IfErr result (λ e. IsFaultOfTexts checksum
        (IsElementsEncodeFault hrp.now elements.now (length text.old)) e) }
    ensures same { OnErr result (text.new ≡ text.old) }
{
    by_number!(checksum, encoded_elements(hrp, elements, text))
}

/// Where the byte that is above 31 stands, if a call is refused for one.
pub fn place_of_element(refusal: Refusal) -> Option<usize>
    ensures { result ≡ element_place refusal }
{
    match refusal {
        Refusal::BadElement(place) => Some(place),
        _ => None,
    }
}
