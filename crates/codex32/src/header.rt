//! What stands before the payload of a string.

ghost use Rattle.std.specs.Prelude.{◌≡◌, ◌≤◌, length, None, Some, MatchResult};
ghost use Rattle.codex32.specs.HeaderParts.{secret_index, share_index_of_word, share_index_word_fault, threshold_number};
ghost use Rattle.codex32.specs.Strings.{header_fault};

use crate::error::{Codex32Error, HeaderError};
use crate::identifier::Identifier;
use crate::threshold::Threshold;
use bech32::Fe32;

/// What stands before the payload of a string: the threshold, the identifier, and which share it
/// is. Where the threshold is 0, that is `s`, the secret (BIP-93, codex32 and Unshared Secret).
#[derive(Clone, Copy, Debug, PartialEq, Eq)]
pub struct Header {
    threshold: Threshold,
    identifier: Identifier,
    share_index: Fe32,
    pub ghost unshared: { threshold_number threshold ≡ 0 → share_index ≡ secret_index },
}

/// Reads a share index: a word of one character of the alphabet, in either case. `s` is the secret.
///
/// # Errors
///
/// [`HeaderError::ShareIndex`] for every other word.
pub fn parse_share_index(word: &str) -> Result<Fe32, HeaderError>
    ensures { MatchResult result
        (λ x. (share_index_word_fault word.now ≡ None) × (x ≡ share_index_of_word word.now))
        (λ e. share_index_word_fault word.now ≡ Some e) }
{
    let bytes = word.as_bytes();
    if bytes.len() != 1 {
        return Err(HeaderError::ShareIndex);
    }
    match Fe32::from_char(char::from(bytes[0])) {
        Ok(index) => Ok(index),
        Err(_) => Err(HeaderError::ShareIndex),
    }
}

/// Tests the threshold of a data part, and its share index.
///
/// # Errors
///
/// [`Codex32Error::Threshold`] where the former is neither 0 nor a digit from 2 to 9; then
/// [`Codex32Error::ShareIndex`] where it is 0 and the share index not `s`.
pub fn validate_header(data_part: &[u8]) -> Result<(), Codex32Error>
    requires { 6 ≤ length data_part.now }
    ensures { MatchResult result
        (λ _. header_fault data_part.now ≡ None)
        (λ e. header_fault data_part.now ≡ Some e) }
{
    let threshold = data_part[0];
    if threshold != b'0' && !(b'2' <= threshold && threshold <= b'9') {
        return Err(Codex32Error::Threshold);
    }
    if threshold == b'0' && data_part[5].to_ascii_lowercase() != b's' {
        return Err(Codex32Error::ShareIndex);
    }
    Ok(())
}

impl Header {
    ghost use Rattle.std.specs.Prelude.{true, take};
    ghost use Rattle.bech32_gf.specs.Alphabet.{is_data};
    ghost use Rattle.bech32_gf.specs.Fe32.{elements_of};
    ghost use Rattle.codex32.specs.Header.{header_elements, identifier_of_header, share_index_of_header, threshold_of_header};
    ghost use Rattle.codex32.specs.HeaderParts.{header_word_fault, identifier_elements, threshold_word, unshared_fault};

    /// The header of these parts.
    ///
    /// # Errors
    ///
    /// [`HeaderError::Unshared`] where the threshold is 0 and the share index is not `s`.
    pub fn new(
        threshold: Threshold,
        identifier: Identifier,
        share_index: Fe32,
    ) -> Result<Self, HeaderError>
        ensures { MatchResult result
            (λ h. (unshared_fault threshold share_index ≡ None)
            × (threshold_of_header h ≡ threshold) × (identifier_of_header h ≡ identifier)
            × (share_index_of_header h ≡ share_index))
            (λ e. unshared_fault threshold share_index ≡ Some e) }
    {
        if threshold.number() == 0 && share_index != Fe32::S {
            return Err(HeaderError::Unshared);
        }
        Ok(Header {
            threshold,
            identifier,
            share_index,
        })
    }

    /// The header of three words: a digit, four characters of the alphabet in one case, and one
    /// character of the alphabet.
    ///
    /// # Errors
    ///
    /// The first of: the threshold is neither 0 nor a digit from 2 to 9; the identifier is not four
    /// characters of the alphabet in one case; the share index is not one character of it; the
    /// threshold is 0 and the share index not `s`.
    pub fn parse(threshold: &str, identifier: &str, share_index: &str) -> Result<Self, HeaderError>
        ensures { MatchResult result
            (λ h. (header_word_fault threshold.now identifier.now share_index.now ≡ None)
            × (threshold.now ≡ threshold_word (threshold_of_header h))
            × (identifier_elements (identifier_of_header h) ≡ elements_of identifier.now)
            × (share_index_of_header h ≡ share_index_of_word share_index.now))
            (λ e. header_word_fault threshold.now identifier.now share_index.now ≡ Some e) }
    {
        let threshold = Threshold::parse(threshold)?;
        let identifier = Identifier::parse(identifier)?;
        let share_index = parse_share_index(share_index)?;
        Header::new(threshold, identifier, share_index)
    }

    // The header of a data part, whose first characters were tested.
    pub(crate) fn of_data_part(data_part: &[u8]) -> Self
        requires size { 6 ≤ length data_part.now }
        requires of_alphabet { is_data data_part.now ≡ true }
        requires tested { header_fault data_part.now ≡ None }
        ensures { header_elements result ≡ elements_of (take 6 data_part.now) }
    {
        let Some(threshold) = Threshold::new(data_part[0] - b'0') else {
            unreachable!()
        };
        let identifier = Identifier::of_characters(&data_part[1..5]);
        let share_index = Fe32::from_char_unchecked(data_part[5]);
        Header {
            threshold,
            identifier,
            share_index,
        }
    }

    /// How many shares give the secret.
    pub fn threshold(&self) -> Threshold
        ensures { result ≡ threshold_of_header self.now }
    {
        self.threshold
    }

    /// What names the secret.
    pub fn identifier(&self) -> Identifier
        ensures { result ≡ identifier_of_header self.now }
    {
        self.identifier
    }

    /// Which share it is; `s` is the secret.
    pub fn share_index(&self) -> Fe32
        ensures { result ≡ share_index_of_header self.now }
    {
        self.share_index
    }

    // The first six elements of a data part.
    pub(crate) fn elements(&self) -> [Fe32; 6]
        ensures { result ≡ header_elements self.now }
    {
        let [a, b, c, d] = self.identifier.elements();
        let digit = Fe32::from_char_unchecked(b'0' + self.threshold.number());
        [digit, a, b, c, d, self.share_index]
    }
}
