//! Which errors in strings are detected.

ghost use Rattle.std.specs.Prelude.{◌≡◌, ◌≤◌, ℕ, List, length};
ghost use Rattle.bech32_hrp.specs.Hrp.{lowered};
ghost use Rattle.bech32_detect.specs.Bursts.{DifferInBurst};
ghost use Rattle.codex32.specs.Detection.{AreSameTextsOrFar};
ghost use Rattle.codex32.specs.Share.{IsEither};
ghost use Rattle.codex32.specs.Code.{min_long_length};

use crate::checksum::Codex32;
use crate::long::LongCodex32;
use bech32::primitives::checksum::{accepted_texts_are_far, bursts_are_detected};

/// A law of strings of either length; the call does nothing. Two strings of one length are equal
/// except for case, or differ in more than eight characters: so a string with one to eight changed
/// characters is no string. And they do not differ only within 13 characters in a row, or 15 where
/// they are long (BIP-93, Checksum and Long codex32 Strings).
pub fn changed_strings_are_no_strings()
    ensures few { (text other : List ℕ) → IsEither text → IsEither other
        → length other ≡ length text → AreSameTextsOrFar 8 text other }
    ensures burst { (text other : List ℕ) → IsEither text → IsEither other
        → DifferInBurst 13 (lowered text) (lowered other) → lowered other ≡ lowered text }
    ensures long_burst { (text other : List ℕ) → IsEither text → IsEither other
        → min_long_length ≤ length text
        → DifferInBurst 15 (lowered text) (lowered other) → lowered other ≡ lowered text }
{
    accepted_texts_are_far::<Codex32>();
    accepted_texts_are_far::<LongCodex32>();
    bursts_are_detected();
}
