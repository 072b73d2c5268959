//! How many shares give a secret.

ghost use Rattle.std.specs.Prelude.{◌≡◌, true};
ghost use Rattle.codex32.specs.Thresholds.{is_threshold_number};

use crate::error::HeaderError;

/// How many shares give the secret: 2 to 9, or 0 for a secret that is not shared (BIP-93, codex32).
#[derive(Clone, Copy, Debug, PartialEq, Eq)]
pub struct Threshold {
    number: u8,
    pub ghost lawful: { is_threshold_number number ≡ true },
}

impl Threshold {
    ghost use Rattle.std.specs.Prelude.{◌+◌, ◌<◌, false, None, Some, MatchOption, MatchResult};
    ghost use Rattle.codex32.specs.HeaderParts.{threshold_number, threshold_word, threshold_word_fault};

    /// The threshold that is this number, if it is one.
    pub fn new(number: u8) -> Option<Self>
        ensures { MatchOption result (is_threshold_number number ≡ false)
            (λ t. threshold_number t ≡ number) }
    {
        if number != 0 && !(2 <= number && number <= 9) {
            return None;
        }
        Some(Threshold { number })
    }

    /// Reads a word that is a digit.
    ///
    /// # Errors
    ///
    /// [`HeaderError::Threshold`] for every other word than `0` and `2` to `9`.
    pub fn parse(word: &str) -> Result<Self, HeaderError>
        ensures { MatchResult result
            (λ t. (threshold_word_fault word.now ≡ None) × (word.now ≡ threshold_word t))
            (λ e. threshold_word_fault word.now ≡ Some e) }
    {
        let bytes = word.as_bytes();
        if bytes.len() != 1 || bytes[0] < b'0' {
            return Err(HeaderError::Threshold);
        }
        match Threshold::new(bytes[0] - b'0') {
            Some(threshold) => Ok(threshold),
            None => Err(HeaderError::Threshold),
        }
    }

    /// The number.
    pub fn number(self) -> u8
        ensures { result ≡ threshold_number self }
    {
        self.number
    }

    /// The digit.
    pub fn to_char(self) -> char
        ensures value { result ≡ 48 + threshold_number self }
        ensures ascii { result < 128 }
    {
        char::from(b'0' + self.number)
    }
}
