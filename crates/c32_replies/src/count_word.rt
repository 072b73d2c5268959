//! A number of shares as a word, in decimal.

ghost use Rattle.std.specs.Prelude.{MatchOption};
ghost use Rattle.c32_replies.specs.Split.{IsCountWord, IsNoCount};

use b32_replies::number_of_word;

/// The number of shares that a word is.
pub fn count_of_word(word: &str) -> Option<usize>
    ensures { MatchOption result (IsNoCount word.now) (λ n. IsCountWord word.now n) }
{
    let number = number_of_word(word.as_bytes())?;
    Some(usize::from(number))
}
