//! What names a secret.

ghost use Rattle.std.specs.Prelude.{◌≡◌, length};
ghost use Rattle.bech32_gf.specs.Alphabet.{is_data};

use crate::error::HeaderError;
use bech32::Fe32;
use codex32_steady::{are_of_alphabet, has_both_cases};

/// Four elements that name a secret, the same in all its shares (BIP-93, codex32).
#[derive(Clone, Copy, Debug, PartialEq, Eq)]
pub struct Identifier {
    elements: [Fe32; 4],
    pub ghost full: { length elements ≡ 4 },
}

impl Identifier {
    ghost use Rattle.std.specs.Prelude.{true, None, Some, MatchResult};
    ghost use Rattle.bech32_gf.specs.Fe32.{elements_of};
    ghost use Rattle.codex32.specs.HeaderParts.{identifier_elements, identifier_word_fault};

    /// The identifier of these elements.
    pub fn new(elements: [Fe32; 4]) -> Self
        ensures { identifier_elements result ≡ elements }
    {
        Identifier { elements }
    }

    // The identifier of four characters.
    pub(crate) fn of_characters(characters: &[u8]) -> Self
        requires size { length characters.now ≡ 4 }
        requires of_alphabet { is_data characters.now ≡ true }
        ensures { identifier_elements result ≡ elements_of characters.now }
    {
        Identifier::new([
            Fe32::from_char_unchecked(characters[0]),
            Fe32::from_char_unchecked(characters[1]),
            Fe32::from_char_unchecked(characters[2]),
            Fe32::from_char_unchecked(characters[3]),
        ])
    }

    /// Reads a word of four characters of the alphabet, in one case.
    ///
    /// # Errors
    ///
    /// [`HeaderError::Identifier`] for every other word.
    pub fn parse(word: &str) -> Result<Self, HeaderError>
        ensures { MatchResult result
            (λ i. (identifier_word_fault word.now ≡ None)
            × (identifier_elements i ≡ elements_of word.now))
            (λ e. identifier_word_fault word.now ≡ Some e) }
    {
        let bytes = word.as_bytes();
        if bytes.len() != 4 || !are_of_alphabet(bytes) || has_both_cases(bytes) {
            return Err(HeaderError::Identifier);
        }
        Ok(Identifier::of_characters(bytes))
    }

    /// The elements.
    pub fn elements(&self) -> [Fe32; 4]
        ensures { result ≡ identifier_elements self.now }
    {
        self.elements
    }
}
