//! Reads what a C program gives.

ghost use Rattle.std.specs.Prelude.{◌≡◌, None, Some, MatchResult};
ghost use Rattle.std.specs.Str.{IsUtf8};
ghost use Rattle.bech32_gf.specs.Fe32.{element_of, elements_of};
ghost use Rattle.codex32.specs.HeaderParts.{identifier_elements, identifier_word_fault, threshold_number};
ghost use Rattle.codex32.specs.Share.{IsShareOf};
ghost use Rattle.codex32_calls.specs.Encode.{IsHeaderOf, header_number_fault, share_index_number_fault, threshold_number_fault};
ghost use Rattle.codex32_calls.specs.Payload.{IsPayload, IsPayloadFault};
ghost use Rattle.codex32_calls.specs.Share.{IsEitherFault};

use crate::refusal::Refusal;
use bech32::Fe32;
use codex32::{Header, HeaderError, Identifier, Share, Threshold};
use codex32_steady::{are_of_alphabet, has_both_cases};

/// Texts, one behind another.
#[derive(Clone, Copy)]
pub struct Texts<'t> {
    /// Their characters.
    pub characters: &'t [u8],
    /// How many each of them has.
    pub lengths: &'t [usize],
}

/// The text of bytes.
pub fn text_of(bytes: &[u8]) -> Result<&str, Refusal>
    ensures { MatchResult result
        (λ text. (text.now ≡ bytes.now) × IsUtf8 bytes.now)
        (λ e. (e ≡ Refusal.NotUtf8) × ¬ (IsUtf8 bytes.now)) }
{
    str::from_utf8(bytes).map_err(|_| Refusal::NotUtf8)
}

/// The string of either length of bytes.
pub fn share_of(bytes: &[u8]) -> Result<Share<'_>, Refusal>
    ensures { MatchResult result
        (λ s. IsShareOf bytes.now s)
        (λ e. IsEitherFault bytes.now e) }
{
    let share = Share::parse(text_of(bytes)?)?;
    Ok(share)
}

/// The threshold of this number.
pub fn threshold_of(number: u32) -> Result<Threshold, HeaderError>
    ensures { MatchResult result
        (λ t. (threshold_number_fault number ≡ None) × (threshold_number t ≡ number))
        (λ e. threshold_number_fault number ≡ Some e) }
{
    if number > 9 {
        return Err(HeaderError::Threshold);
    }
    match Threshold::new(number as u8) {
        Some(threshold) => Ok(threshold),
        None => Err(HeaderError::Threshold),
    }
}

/// The identifier of four characters.
pub fn identifier_of(characters: &[u8]) -> Result<Identifier, HeaderError>
    ensures { MatchResult result
        (λ i. (identifier_word_fault characters.now ≡ None)
        × (identifier_elements i ≡ elements_of characters.now))
        (λ e. identifier_word_fault characters.now ≡ Some e) }
{
    match text_of(characters) {
        Ok(word) => Identifier::parse(word),
        Err(_) => Err(HeaderError::Identifier),
    }
}

/// The share index that is a character of the alphabet.
pub fn share_index_of(character: u32) -> Result<Fe32, HeaderError>
    ensures { MatchResult result
        (λ x. (share_index_number_fault character ≡ None) × (x ≡ element_of character))
        (λ e. share_index_number_fault character ≡ Some e) }
{
    if character >= 128 {
        return Err(HeaderError::ShareIndex);
    }
    match Fe32::from_char(char::from(character as u8)) {
        Ok(index) => Ok(index),
        Err(_) => Err(HeaderError::ShareIndex),
    }
}

/// The header of a threshold, an identifier and a share index.
pub fn header_of(threshold: u32, identifier: &[u8], share_index: u32) -> Result<Header, HeaderError>
    ensures { MatchResult result
        (λ h. IsHeaderOf threshold identifier.now share_index h)
        (λ e. header_number_fault threshold identifier.now share_index ≡ Some e) }
{
    let threshold = threshold_of(threshold)?;
    let identifier = identifier_of(identifier)?;
    let share_index = share_index_of(share_index)?;
    Header::new(threshold, identifier, share_index)
}

/// Tests the characters of a payload, of whatever number.
pub fn validate_payload(characters: &[u8]) -> Result<(), Refusal>
    ensures { MatchResult result
        (λ _. IsPayload characters.now)
        (λ e. IsPayloadFault characters.now e) }
{
    if !are_of_alphabet(characters) {
        return Err(Refusal::InvalidCharacter);
    }
    if has_both_cases(characters) {
        return Err(Refusal::MixedCase);
    }
    Ok(())
}
