//! What is asked of a damaged text, as it is read, before anything is allocated.

ghost use Rattle.std.specs.Prelude.{◌≡◌, ◌==◌, None, Some, true, MatchOption, MatchResult};
ghost use Rattle.std.specs.Char.{IsScalar};
ghost use Rattle.bech32_gf.specs.Alphabet.{is_data, is_of_alphabet};
ghost use Rattle.bech32_decode.specs.Text.{invalid_character, split_at_last, text_refusal};
ghost use Rattle.codex32.specs.Damaged.{AreParts, IsTestedBy, read_character, read_data, read_text};
ghost use Rattle.codex32.specs.Lengths.{may_have};
ghost use Rattle.codex32.specs.Strings.{frame_refusal, frame_refusal_by, long_frame_refusal};

use crate::error::Codex32Error;
use crate::frame::{outlined, validate_outline};
use crate::lengths::Lengths;
use crate::unreadable::is_unreadable;
use bech32::primitives::decode::{CharError, UncheckedHrpstringError};
use codex32_steady::texts::parts::part_fault;
use codex32_steady::{has_both_cases, is_data_byte};

// Whether a byte is `1`. Out of line: only that can be told.
#[inline(never)]
fn is_separator(b: u8) -> bool
    ensures { result ≡ (b == 49) }
{
    b == b'1'
}

// What stands before the last `1`, and what behind it.
fn cut(text: &str) -> Option<(&str, &str)>
    ensures { MatchOption result
        (split_at_last text.now ≡ None)
        (λ p. split_at_last text.now ≡ Some (p.0.now, p.1.now)) }
{
    let bytes = text.as_bytes();
    let mut at = bytes.len();
    'behind: while at > 0 {
        at -= 1;
        if is_separator(bytes[at]) {
            return Some((&text[..at], &text[at + 1..]));
        }
    }
    None
}

// Whether a character, as it is read, may stand in a data part. Out of line: only that can be told.
#[inline(never)]
fn is_data_character(c: char) -> bool
    ensures value { result ≡ is_of_alphabet (read_character c) }
    ensures scalar { IsScalar c }
{
    if !c.is_ascii() {
        return false;
    }
    let b = c as u8;
    is_unreadable(b) || is_data_byte(b)
}

// Tests the characters of a data part, as they are read.
fn validate_data(damaged: &str) -> Result<(), CharError>
    requires { split_at_last damaged.now ≡ None }
    ensures { MatchResult result
        (λ _. is_data (read_data damaged.now) ≡ true)
        (λ e. invalid_character (read_data damaged.now) ≡ Some e) }
{
    let mut front = damaged.chars();
    'behind: while let Some(c) = front.next_back() {
        if !is_data_character(c) {
            return Err(CharError::InvalidChar(c));
        }
    }
    Ok(())
}

// Tests the grammar of a text, as it is read, of which these stand before and after the last `1`.
fn validate_grammar(text: &str, front: &str, damaged: &str) -> Result<(), UncheckedHrpstringError>
    requires { split_at_last text.now ≡ Some (front.now, damaged.now) }
    ensures { MatchResult result
        (λ _. (text_refusal (read_text text.now) ≡ None)
        × AreParts text.now front.now damaged.now)
        (λ e. text_refusal (read_text text.now) ≡ Some e) }
{
    validate_data(damaged)?;
    if has_both_cases(text.as_bytes()) {
        return Err(UncheckedHrpstringError::Char(CharError::MixedCase));
    }
    if let Some(e) = part_fault(front) {
        return Err(UncheckedHrpstringError::Hrp(e));
    }
    Ok(())
}

// Why a text without `1` is refused.
fn unseparated(lengths: Lengths, text: &str) -> Codex32Error
    requires { split_at_last text.now ≡ None }
    ensures { frame_refusal_by (may_have lengths) text.now ≡ Some result }
{
    match outlined(lengths, text) {
        Ok(_) => unreachable!(),
        Err(e) => e,
    }
}

/// What stands before and after the last `1` of a damaged text, where nothing is wrong with it as
/// it is read. It allocates nothing.
///
/// Of the characters nothing can be told but where the last `1` stands, which ones are `?`, and the
/// first fault: what it is, and where.
///
/// # Errors
///
/// As [`validate_damaged`], of as many characters as the strings that are meant.
pub fn damaged_parts(lengths: Lengths, text: &str) -> Result<(&str, &str), Codex32Error>
    ensures { MatchResult result
        (λ parts. (frame_refusal_by (may_have lengths) (read_text text.now) ≡ None)
        × AreParts text.now parts.0.now parts.1.now)
        (λ e. frame_refusal_by (may_have lengths) (read_text text.now) ≡ Some e) }
{
    let Some((front, damaged)) = cut(text) else {
        return Err(unseparated(lengths, text));
    };
    validate_grammar(text, front, damaged)?;
    validate_outline(lengths, text.len(), front.as_bytes())?;
    Ok((front, damaged))
}

/// Tests a damaged codex32 string before `propose` looks for the nearest text.
/// Each `?` behind the last `1` is a character that cannot be read. It allocates nothing.
///
/// # Errors
///
/// The first of: the text, with each `?` behind the last `1` read as `0`, is not in the grammar; it
/// has less than 48 characters or more than 93; its human-readable part is not `ms` in either case.
pub fn validate_damaged(text: &str) -> Result<(), Codex32Error>
    ensures { IsTestedBy (frame_refusal (read_text text.now)) result }
{
    damaged_parts(Lengths::Short, text)?;
    Ok(())
}

/// Tests a damaged long string before `propose_long` looks for the nearest
/// text, as [`validate_damaged`] does a codex32 string: it has 125 to 127 characters.
///
/// # Errors
///
/// Those of [`validate_damaged`], with this length.
pub fn validate_damaged_long(text: &str) -> Result<(), Codex32Error>
    ensures { IsTestedBy (long_frame_refusal (read_text text.now)) result }
{
    damaged_parts(Lengths::Long, text)?;
    Ok(())
}
