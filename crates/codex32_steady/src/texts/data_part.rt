//! The data parts of texts that begin with `ms1`.

ghost use Rattle.std.specs.Prelude.{◌≡◌, ◌≤◌, ◌+◌, ℕ, List, length, take, IfSome, IsSome};
ghost use Rattle.bech32_decode.specs.Text.{IsText};
ghost use Rattle.bech32_hrp.specs.Hrp.{lowered};
ghost use Rattle.codex32_steady.specs.texts.Parts.{ms};

use crate::{are_of_alphabet, has_both_cases};

/// What stands behind the first three characters, where these are `ms1` in either case, all behind
/// them is of the alphabet, and the text has letters of one case.
///
/// Of a text that has such a data part nothing else can be told.
pub fn plain_data_part(text: &[u8]) -> Option<&[u8]>
    ensures text { IfSome result (λ d. IsText text.now (take 2 text.now) d.now) }
    ensures part { IfSome result (λ _. lowered (take 2 text.now) ≡ ms) }
    ensures size { IfSome result (λ d. length text.now ≡ 3 + length d.now) }
    ensures accepts { (d : List ℕ) → IsText text.now (take 2 text.now) d
        → lowered (take 2 text.now) ≡ ms → IsSome result }
{
    if text.len() < 3 {
        return None;
    }
    let (part, rest) = text.split_at(2);
    let (separator, data_part) = rest.split_at(1);
    if !part.eq_ignore_ascii_case(b"ms") || separator[0] != b'1' {
        return None;
    }
    if !are_of_alphabet(data_part) || has_both_cases(text) {
        return None;
    }
    Some(data_part)
}
