//! A witness version as a word: its number, in decimal.

ghost use Rattle.std.specs.Prelude.{◌≡◌, ◌≢◌, ◌⊎◌, ◌<◌, ◌+◌, ℕ, MatchOption};
ghost use Rattle.std.specs.Fmt.{decimal};
ghost use Rattle.b32_replies.specs.Reply.{IsVersionWord, IsNoVersion};

use bech32::Fe32;

/// The value of a decimal digit.
#[inline]
pub(crate) fn digit_value(byte: u8) -> Option<u8>
    ensures { MatchOption result ((byte < 48) ⊎ (57 < byte)) (λ d. (d < 10) × (byte ≡ 48 + d)) }
{
    if byte < b'0' || b'9' < byte {
        return None;
    }
    Some(byte - b'0')
}

/// The number below 100 that a word is in decimal, without leading zeros.
pub fn number_of_word(word: &[u8]) -> Option<u8>
    ensures { MatchOption result
        ((n : ℕ) → n < 100 → word.now ≢ decimal n)
        (λ n. (n < 100) × (word.now ≡ decimal n)) }
{
    let (first, others) = word.split_first()?;
    let tens = digit_value(*first)?;
    let Some((second, more)) = others.split_first() else {
        return Some(tens);
    };
    if tens == 0 || !more.is_empty() {
        return None;
    }
    let units = digit_value(*second)?;
    Some(10 * tens + units)
}

/// The element whose value a word is, in decimal without leading zeros.
pub fn version_of_word(word: &str) -> Option<Fe32>
    ensures { MatchOption result (IsNoVersion word.now)
        (λ version. IsVersionWord word.now version) }
{
    let number = number_of_word(word.as_bytes())?;
    if number > 31 {
        return None;
    }
    Some(Fe32::from_low_bits(number))
}
