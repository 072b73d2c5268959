//! The words of a line, one after another.

ghost use Rattle.std.specs.Prelude.{◌≡◌, ◌≢◌, ℕ, List, [], ◌∷◌, MatchOption};
ghost use Rattle.line_program.specs.Words.{words};

use memchr::memchr;

/// The first word, where it is not empty and a space stands behind it, and what stands behind that.
pub fn first_word(text: &str) -> Option<(&str, &str)>
    ensures { MatchOption result
        ((first second : List ℕ) (rest : List (List ℕ))
        → words text.now ≡ first ∷ second ∷ rest → first ≡ [])
        (λ r. (words text.now ≡ r.0.now ∷ words r.1.now) × (r.0.now ≢ [])) }
{
    let end = memchr(b' ', text.as_bytes())?;
    if end == 0 {
        return None;
    }
    Some((&text[..end], &text[end + 1..]))
}

/// The text, where it is one word, and not empty.
pub fn only_word(text: &str) -> Option<&str>
    ensures { MatchOption result
        ((word : List ℕ) → words text.now ≡ word ∷ [] → word ≡ [])
        (λ r. (words text.now ≡ r.now ∷ []) × (r.now ≢ [])) }
{
    if text.is_empty() || memchr(b' ', text.as_bytes()).is_some() {
        return None;
    }
    Some(text)
}
