//! The parts of a text, or its first fault, by tests of its characters that are to be named.

ghost use Rattle.std.specs.Prelude.{◌≡◌, ◌<◌, ◌≤◌, ◌-◌, ℕ, false, true, List, length, drop, slice_index, ◌++◌, ◌∷◌, None, Some, MatchResult, MatchOption};
ghost use Rattle.std.specs.Char.{IsScalar};
ghost use Rattle.bech32_gf.specs.Alphabet.{is_data, is_of_alphabet};
ghost use Rattle.bech32_hrp.specs.Hrp.{IsHrp, hrp_refusal, is_mixed_case};
ghost use Rattle.bech32_decode.specs.Text.{IsText, invalid_character, split_at_last, text_refusal};

use bech32_gf::alphabet::is_data_byte;
use bech32_hrp::{self as hrp, Hrp, cases_of};
use bech32_refusals::{CharError, UncheckedHrpstringError};

/// Why a text is no human-readable part, if it is none.
pub(crate) fn parse_fault(front: &str) -> Option<hrp::Error>
    ensures { MatchOption result (IsHrp front.now) (λ e. hrp_refusal front.now ≡ Some e) }
{
    match Hrp::parse(front) {
        Ok(_) => None,
        Err(e) => Some(e),
    }
}

/// How the characters of a text are tested: quickly, or so that nothing else can be told of them.
/// The bodies here are the shortest: a loop each, without a table.
pub trait CharacterTests {
    /// Where the bytes at the end of a text begin that are of the alphabet.
    fn data_start(bytes: &[u8]) -> usize
        ensures bound { result ≤ length bytes.now }
        ensures data { is_data (drop result bytes.now) ≡ true }
        ensures before { 0 < result
            → is_of_alphabet (slice_index bytes.now (result - 1)) ≡ false }
    {
        let mut start = bytes.len();
        while start > 0 && is_data_byte(bytes[start - 1]) {
            start -= 1;
        }
        start
    }

    /// Whether letters of both cases stand in a text.
    fn has_both_cases(bytes: &[u8]) -> bool
        ensures { result ≡ is_mixed_case bytes.now }
    {
        let cases = cases_of(bytes);
        cases.lower && cases.upper
    }

    /// Why a text without letters of both cases is no human-readable part, if it is none.
    fn part_fault(front: &str) -> Option<hrp::Error>
        requires { is_mixed_case front.now ≡ false }
        ensures { MatchOption result (IsHrp front.now) (λ e. hrp_refusal front.now ≡ Some e) }
    {
        parse_fault(front)
    }
}

// The refusal of a text by a character, which is not a surrogate.
fn refusal_by(c: char) -> CharError
    ensures value { result ≡ CharError.InvalidChar c }
    ensures scalar { IsScalar c }
{
    CharError::InvalidChar(c)
}

// What stands before the last `1`, where all behind it is of the alphabet.
fn before_separator<T: CharacterTests>(s: &str) -> Result<Option<&str>, CharError>
    ensures { MatchResult result
        (λ o. (invalid_character s.now ≡ None)
        × MatchOption o (split_at_last s.now ≡ None)
        (λ front. (behind : List ℕ) × (s.now ≡ front.now ++ 49 ∷ behind) × (is_data behind ≡ true)
        × (split_at_last s.now ≡ Some (front.now, behind))))
        (λ e. invalid_character s.now ≡ Some e) }
{
    let mut front = s[..T::data_start(s.as_bytes())].chars();
    let Some(c) = front.next_back() else {
        return Ok(None);
    };
    if c != '1' {
        return Err(refusal_by(c));
    }
    Ok(Some(front.as_str()))
}

/// The parts of a text, or its first fault. Of its characters it asks nothing but those tests, and
/// what stands where the first of them ends.
pub fn parts_by<T: CharacterTests>(s: &str) -> Result<(&[u8], &[u8]), UncheckedHrpstringError>
    ensures { MatchResult result
        (λ p. IsText s.now p.0.now p.1.now)
        (λ e. text_refusal s.now ≡ Some e) }
{
    let before = before_separator::<T>(s)?;
    let bytes = s.as_bytes();
    if T::has_both_cases(bytes) {
        return Err(UncheckedHrpstringError::Char(CharError::MixedCase));
    }
    let Some(front) = before else {
        return Err(UncheckedHrpstringError::Char(CharError::MissingSeparator));
    };
    if let Some(e) = T::part_fault(front) {
        return Err(UncheckedHrpstringError::Hrp(e));
    }
    Ok((front.as_bytes(), &bytes[front.len() + 1..]))
}
