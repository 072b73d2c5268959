//! Reads codex32 strings.

ghost use Rattle.std.specs.Prelude.{◌≡◌, ◌≤◌, ◌+◌, IfErr, IfOk, IsOk};
ghost use Rattle.codex32.specs.Strings.{IsCodex32};
ghost use Rattle.codex32_calls.specs.Parse.{IsParseFault, IsParsedString};

use crate::input::text_of;
use crate::refusal::Refusal;
use codex32::Codex32Str;

/// What a C program is told of a codex32 string.
#[derive(Clone, Copy)]
pub struct Parts {
    pub threshold: u32,
    pub share_index: u32,
    pub payload_length: usize,
}

// The value of a digit.
fn digit_of(c: char) -> u32
    requires { 48 ≤ c }
    ensures { result + 48 ≡ c }
{
    u32::from(c) - 48
}

/// A codex32 string as a C program is told of it.
pub fn parts_of(bytes: &[u8]) -> Result<Parts, Refusal>
    ensures value { IfOk result
        (λ p. IsParsedString bytes.now p.threshold p.share_index p.payload_length) }
    ensures accepts { IsCodex32 bytes.now → IsOk result }
    ensures refused { IfErr result (λ e. IsParseFault bytes.now e) }
{
    let string = Codex32Str::parse(text_of(bytes)?)?;
    Ok(Parts {
        threshold: digit_of(string.threshold()),
        share_index: u32::from(string.share_index()),
        payload_length: string.payload().len(),
    })
}
