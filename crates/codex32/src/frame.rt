//! What is asked of a text before its checksum: the grammar, the length, the human-readable part.

ghost use Rattle.std.specs.Prelude.{◌≡◌, length, take, None, Some, MatchResult};
ghost use Rattle.bech32_hrp.specs.Hrp.{first_of};
ghost use Rattle.bech32_decode.specs.Text.{IsText};
ghost use Rattle.codex32.specs.Lengths.{may_have};
ghost use Rattle.codex32.specs.Strings.{frame_refusal_by, is_ms, codex32_length_fault, part_fault};

use crate::error::Codex32Error;
use crate::lengths::Lengths;
use codex32_steady::texts::data_part::plain_data_part;
use codex32_steady::texts::parts::parts_of;

// Whether a human-readable part is `ms`, in either case.
fn is_of_codex32(hrp: &[u8]) -> bool
    ensures { result ≡ is_ms hrp.now }
{
    hrp.eq_ignore_ascii_case(b"ms")
}

/// Tests the number of characters of a text, and then its human-readable part.
pub(crate) fn validate_outline(
    lengths: Lengths,
    count: usize,
    hrp: &[u8],
) -> Result<(), Codex32Error>
    ensures { MatchResult result
        (λ _. first_of (codex32_length_fault (may_have lengths) count)
        (part_fault hrp.now) ≡ None)
        (λ e. first_of (codex32_length_fault (may_have lengths) count)
        (part_fault hrp.now) ≡ Some e) }
{
    if !lengths.allows(count) {
        return Err(Codex32Error::Length);
    }
    if !is_of_codex32(hrp) {
        return Err(Codex32Error::Hrp);
    }
    Ok(())
}

// The data part of a text, as [`data_part_of`] has it, where nothing can be told of the characters
// but the place of the first fault, and what stands there. Out of line: few texts come here.
#[cold]
#[inline(never)]
pub(crate) fn outlined(lengths: Lengths, text: &str) -> Result<&[u8], Codex32Error>
    ensures { MatchResult result
        (λ d. (frame_refusal_by (may_have lengths) text.now ≡ None)
        × IsText text.now (take 2 text.now) d.now)
        (λ e. frame_refusal_by (may_have lengths) text.now ≡ Some e) }
{
    let (part, data_part) = parts_of(text)?;
    validate_outline(lengths, text.len(), part)?;
    Ok(data_part)
}

/// The data part of a text in the grammar, of as many characters as the strings that are meant,
/// whose human-readable part is `ms` in either case.
///
/// Of the characters of a text nothing can be told but its first fault: what it is, and where, but
/// for letters of both cases, of which no place is told.
pub fn data_part_of(lengths: Lengths, text: &str) -> Result<&[u8], Codex32Error>
    ensures { MatchResult result
        (λ d. (frame_refusal_by (may_have lengths) text.now ≡ None)
        × IsText text.now (take 2 text.now) d.now)
        (λ e. frame_refusal_by (may_have lengths) text.now ≡ Some e) }
{
    let Some(data_part) = plain_data_part(text.as_bytes()) else {
        return outlined(lengths, text);
    };
    if !lengths.allows(text.len()) {
        return Err(Codex32Error::Length);
    }
    Ok(data_part)
}
