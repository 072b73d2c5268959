//! Texts of elements, each given as a byte from 0 to 31: of what is not bytes alone, as the
//! addresses of silent payments (BIP-352), which begin with a version, and invoices (BOLT 11).

ghost use Rattle.std.specs.Prelude.{◌≡◌, ◌≤◌, ◌++◌, ℕ, List, true, length, drop, map, IfOk, IfErr, IsOkUnless, MatchOption, MatchResult, Some, string_bytes};
ghost use Rattle.bech32_gf.specs.Alphabet.{is_data};
ghost use Rattle.bech32_gf.specs.Fe32.{elements_of, value};
ghost use Rattle.bech32_checksum.specs.Encoded.{IsEncodedText};
ghost use Rattle.bech32_decode.specs.Acceptance.{Accepts};
ghost use Rattle.bech32_encode.specs.Buffers.{IsPutAsFits};
ghost use Rattle.bech32_encode.specs.TextLength.{encoded_length_of};
ghost use Rattle.bech32_hrp.specs.HrpBytes.{hrp_bytes};
ghost use Rattle.bech32.specs.Elements.{AreValues, Fits, GivesElementsBack, IsElementsEncodeRefusal};
ghost use Rattle.bech32.specs.Elements.{IsElementsDecodeRefusal, elements_in, first_above};
ghost use Rattle.bech32.specs.Spelling.{IsOnlyTextOf};

use crate::content::{Content, content_in};
use bech32_checksum::Checksum;
use bech32_decode::CodeLengthError;
use bech32_encode::put_text;
use bech32_gf::gf32::Fe32;
use bech32_hrp::Hrp;
use bech32_refusals::{ElementsError, TextError};
use std::alloc::{AllocError, Allocator};

/// Puts the elements of characters of the alphabet, in either case, at the front of a buffer that
/// has room for them, a byte from 0 to 31 for each, and returns how many they are.
pub fn put_elements(characters: &[u8], buffer: &mut [u8]) -> usize
    requires data { is_data characters.now ≡ true }
    requires room { length characters.now ≤ length buffer.old }
    ensures count { result ≡ length characters.now }
    ensures buffer { buffer.new
        ≡ map value (elements_of characters.now) ++ drop (length characters.now) buffer.old }
{
    for place in 0..characters.len() {
        buffer[place] = Fe32::from_char_unchecked(characters[place]).to_u8();
    }
    characters.len()
}

// Where the first number above 31 stands.
fn position_above(values: &[u8]) -> Option<usize>
    ensures { result ≡ first_above values.now }
{
    values.iter().position(|value| *value > 31)
}

/// The place, counted from 0, of the first number above 31, if there is one.
pub fn place_above(values: &[u8]) -> Option<usize>
    ensures { MatchOption result
        (AreValues values.now)
        (λ place. first_above values.now ≡ Some place) }
{
    position_above(values)
}

/// The number of characters of the text that [`encode_elements`] writes for a human-readable
/// part, given as bytes, and this many elements.
///
/// Nothing else is tested.
///
/// # Errors
///
/// The length, if and only if it is above the code length of the checksum (`usize::MAX` if it does
/// not fit in a `usize`).
pub fn elements_length<Ck: Checksum>(part: &[u8], values: &[u8]) -> Result<usize, CodeLengthError>
    ensures { MatchResult result
        (λ n. (n ≡ encoded_length_of Ck.code part.now (elements_in values.now))
        × Fits Ck.code part.now values.now)
        (λ e. IsElementsEncodeRefusal Ck.code part.now values.now (ElementsError.TooLong e)) }
{
    let encoded_length = (part.len() + 1)
        .saturating_add(values.len())
        .saturating_add(Ck::CHECKSUM_LENGTH);
    if encoded_length > Ck::CODE_LENGTH {
        return Err(CodeLengthError {
            encoded_length,
            code_length: Ck::CODE_LENGTH,
        });
    }
    Ok(encoded_length)
}

/// Puts the text of a human-readable part and elements, each the lowest five bits of a byte, at the
/// front of a buffer that has room for it, and returns its length (BIP-173, Bech32).
///
/// If the buffer is too small for the whole text, as much of it as fits is written; the result is
/// then the buffer's length.
pub fn put_text_of_elements<Ck: Checksum>(hrp: &Hrp, values: &[u8], buffer: &mut [u8]) -> usize
    ensures { (text : List ℕ)
        × IsEncodedText Ck.code (hrp_bytes hrp.now) (elements_in values.now) text
        × IsPutAsFits text buffer.old buffer.new result }
{
    let elements = values.iter().map(|value| Fe32::from_low_bits(*value));
    put_text::<_, Ck>(hrp, None, elements, buffer)
}

/// Decodes a text that the checksum accepts, with memory from `alloc`: its human-readable part, in
/// the case of the text, and the elements before its checksum, a byte from 0 to 31 each.
///
/// In its case, the text is the only one that this checksum accepts for its human-readable part and
/// its elements; [`encode_elements`] writes it from them, in lower case.
///
/// # Errors
///
/// The first of: the text is not in the grammar; the checksum does not accept it; out of memory for
/// the elements. None is [`TextError::Padding`].
pub fn decode_elements<Ck: Checksum, A: Allocator>(
    alloc: A,
    s: &str,
) -> Result<(Hrp, Vec<u8, A>), TextError>
    ensures value { IfOk result (IsOnlyTextOf (λ v. elements_in v.items) Ck.code s.now) }
    ensures values { IfOk result (λ d. AreValues d.1.items) }
    ensures accepts { Accepts Ck.code s.now → IsOkUnless result TextError.Memory }
    ensures refused { IfErr result (IsElementsDecodeRefusal Ck.code s.now) }
    ensures back { GivesElementsBack (λ v. v.items) Ck.code s.now result }
{
    content_in::<Ck, A>(alloc, s, Content::Elements)
}

// The length of the text of numbers that are elements, or why they have none.
fn length_of_values<Ck: Checksum>(hrp: &Hrp, values: &[u8]) -> Result<usize, ElementsError>
    ensures { MatchResult result
        (λ n. (n ≡ encoded_length_of Ck.code (hrp_bytes hrp.now) (elements_in values.now))
        × Fits Ck.code (hrp_bytes hrp.now) values.now × AreValues values.now)
        (λ e. IsElementsEncodeRefusal Ck.code (hrp_bytes hrp.now) values.now e) }
{
    let length = elements_length::<Ck>(hrp.as_bytes(), values)?;
    if let Some(place) = place_above(values) {
        return Err(ElementsError::Element(place));
    }
    Ok(length)
}

// The text of elements, whose length is known.
fn text_of_length_in<Ck: Checksum, A: Allocator>(
    alloc: A,
    hrp: Hrp,
    values: &[u8],
    size: usize,
) -> Result<String<A>, AllocError>
    requires { size ≡ encoded_length_of Ck.code (hrp_bytes hrp) (elements_in values.now) }
    ensures { IfOk result (λ s.
        IsEncodedText Ck.code (hrp_bytes hrp) (elements_in values.now) (string_bytes s)) }
{
    let mut text = vec![in alloc; 0u8; size]?;
    put_text_of_elements::<Ck>(&hrp, values, text.as_mut_slice());
    // All of it is ASCII: what the call requires is proved.
    Ok(unsafe { String::from_utf8_unchecked(text) })
}

/// Encodes elements, a byte from 0 to 31 each, under a human-readable part, in lower case, with
/// memory from `alloc`. Given what [`decode_elements`] returned for a text, it writes that text
/// in lower case.
///
/// The elements of bytes are their bits, five at a time, the highest first, with zeros behind the
/// last ([`ByteIterExt::bytes_to_fes`](crate::ByteIterExt)).
///
/// # Errors
///
/// The first of: the text would have more characters than the code length of the checksum; a byte
/// is above 31, with the place of the first, counted from 0; out of memory.
pub fn encode_elements<Ck: Checksum, A: Allocator>(
    alloc: A,
    hrp: Hrp,
    values: &[u8],
) -> Result<String<A>, ElementsError>
    ensures text { IfOk result (λ s.
        IsEncodedText Ck.code (hrp_bytes hrp) (elements_in values.now) (string_bytes s)) }
    ensures fits { IfOk result (λ _. Fits Ck.code (hrp_bytes hrp) values.now) }
    ensures values { IfOk result (λ _. AreValues values.now) }
    ensures refused { IfErr result (IsElementsEncodeRefusal Ck.code (hrp_bytes hrp) values.now) }
{
    let size = length_of_values::<Ck>(&hrp, values)?;
    let text = text_of_length_in::<Ck, A>(alloc, hrp, values, size)?;
    Ok(text)
}
