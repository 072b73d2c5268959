//! Answers `parse`.

ghost use Rattle.std.specs.Prelude.{◌+◌, ◌≤◌, vec_len, vec_capacity};
ghost use Rattle.codex32.specs.Numbers.{number_of_codex32_error};
ghost use Rattle.c32_replies.specs.Reply.{AddsAnswer, IsParseAnswer};

use codex32::{Codex32Error, Codex32Str};
use line_program::append;

/// Adds the parts of a codex32 string, in the case of the text, or leaves all as it was.
pub fn parse(text: &str, out: &mut Vec<u8>) -> Result<(), Codex32Error>
    requires { vec_len out.old + 2047 ≤ vec_capacity out.old }
    ensures { AddsAnswer (IsParseAnswer text.now) number_of_codex32_error result out.old out.new }
{
    let parts = Codex32Str::parse(text)?;
    // Both are ASCII characters: the casts are proved to lose nothing.
    let threshold = parts.threshold() as u8;
    let share_index = parts.share_index() as u8;
    append(out, &[b'o', b'k', b' ', threshold, b' ']);
    append(out, parts.identifier().as_bytes());
    append(out, &[b' ', share_index, b' ']);
    append(out, parts.payload().as_bytes());
    Ok(())
}
