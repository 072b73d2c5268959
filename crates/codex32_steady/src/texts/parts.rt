//! The parts of a text, or its first fault, by which nothing else can be told of its characters.

ghost use Rattle.std.specs.Prelude.{◌≡◌, ◌≤◌, ℕ, false, true, List, [], length, None, Some, MatchOption, MatchResult};
ghost use Rattle.std.specs.List.{list_all};
ghost use Rattle.std.specs.Str.{chars};
ghost use Rattle.bech32_decode.specs.Text.{IsText, text_refusal};
ghost use Rattle.bech32_hrp.specs.Hrp.{IsHrp, bad_after, first_bad, hrp_refusal, is_graphic, is_mixed_case};

use crate::{data_start, graphic_count, has_both_cases};
use bech32_decode::{CharacterTests, parts_by};
use bech32_hrp as hrp;
use bech32_refusals::UncheckedHrpstringError;

// The most bytes that a human-readable part has (BIP-173, Bech32).
const MOST: usize = 83;

// Why a character that is not from 33 to 126 may not stand in a human-readable part.
fn fault_by(c: char) -> hrp::Error
    requires { is_graphic c ≡ false }
    ensures { (before : List ℕ) → bad_after before c ≡ Some result }
{
    if !c.is_ascii() {
        return hrp::Error::NonAsciiChar(c);
    }
    hrp::Error::InvalidAsciiByte(c as u8)
}

// The first character that may not stand in a human-readable part, if there is one: what is wrong
// with it.
fn character_fault(front: &str) -> Option<hrp::Error>
    requires one_case { is_mixed_case front.now ≡ false }
    requires short { length front.now ≤ 83 }
    ensures { MatchOption result (list_all is_graphic front.now ≡ true)
        (λ e. first_bad [] (chars front.now) ≡ Some e) }
{
    let mut behind = front[graphic_count(front.as_bytes())..].chars();
    let Some(c) = behind.next() else {
        return None;
    };
    Some(fault_by(c))
}

/// Why a text without letters of both cases is no human-readable part, if it is none. Of its
/// characters nothing can be told but the first that may not stand there.
pub fn part_fault(front: &str) -> Option<hrp::Error>
    requires { is_mixed_case front.now ≡ false }
    ensures { MatchOption result (IsHrp front.now) (λ e. hrp_refusal front.now ≡ Some e) }
{
    if front.is_empty() {
        return Some(hrp::Error::Empty);
    }
    if front.len() > MOST {
        return Some(hrp::Error::TooLong(front.len()));
    }
    character_fault(front)
}

// The steady tests: nothing can be told but what they return. The bodies of the trait do not serve
// here: they branch on characters, and stop where they know the answer.
enum Steady {}

impl CharacterTests for Steady {
    fn data_start(bytes: &[u8]) -> usize {
        data_start(bytes)
    }

    fn has_both_cases(bytes: &[u8]) -> bool {
        has_both_cases(bytes)
    }

    fn part_fault(front: &str) -> Option<hrp::Error> {
        part_fault(front)
    }
}

/// The parts of a text, or its first fault. Of its characters nothing can be told but where that
/// is, and what stands there.
#[inline(never)]
pub fn parts_of(text: &str) -> Result<(&[u8], &[u8]), UncheckedHrpstringError>
    ensures { MatchResult result
        (λ p. IsText text.now p.0.now p.1.now)
        (λ e. text_refusal text.now ≡ Some e) }
{
    parts_by::<Steady>(text)
}
