//! Adds text to bytes that have room for it.

ghost use Rattle.std.specs.Prelude.{◌≡◌, ◌+◌, ◌<◌, ◌≤◌, ◌++◌, ◌∷◌, [], length, vec_len, vec_capacity};
ghost use Rattle.std.specs.Prelude.{if◌then◌else◌, is_ok, IfErr, MatchResult, OnOk};
ghost use Rattle.std.specs.Fmt.{decimal};
ghost use Rattle.line_program.specs.Added.{AddsBytes};
ghost use Rattle.line_program.specs.Refused.{err, refusal_in};

use std::alloc::AllocError;

/// Adds bytes.
pub fn append(out: &mut Vec<u8>, bytes: &[u8])
    requires { vec_len out.old + length bytes.now ≤ vec_capacity out.old }
    ensures items { out.new.items ≡ out.old.items ++ bytes.now }
    ensures capacity { vec_capacity out.old ≤ vec_capacity out.new }
{
    let Ok(()) = out.extend_from_slice(bytes) else {
        unreachable!()
    };
}

/// Adds bytes, however many, and keeps room for one more, or leaves all as it was where there is no
/// memory.
pub fn append_any(out: &mut Vec<u8>, said: &[u8]) -> Result<(), AllocError>
    ensures items { out.new.items
        ≡ (if is_ok result then out.old.items ++ said.now else out.old.items) }
    ensures room { OnOk result (vec_len out.new + 1 ≤ vec_capacity out.new) }
    ensures capacity { vec_capacity out.old ≤ vec_capacity out.new }
{
    let Some(size) = said.len().checked_add(1) else {
        return Err(AllocError);
    };
    out.reserve(size)?;
    append(out, said);
    Ok(())
}

/// Adds a number below 100 in decimal.
pub fn append_number(out: &mut Vec<u8>, number: u8)
    requires small { number < 100 }
    requires room { vec_len out.old + 2 ≤ vec_capacity out.old }
    ensures { AddsBytes 2 (decimal number) out.old out.new }
{
    if number >= 10 {
        append(out, &[b'0' + number / 10, b'0' + number % 10]);
    } else {
        append(out, &[b'0' + number]);
    }
}

/// Adds a refusal with this number, which is below 100.
pub fn append_refusal(out: &mut Vec<u8>, number: u8)
    requires small { number < 100 }
    requires room { vec_len out.old + 6 ≤ vec_capacity out.old }
    ensures { AddsBytes 6 (err number) out.old out.new }
{
    if number >= 10 {
        let tens = b'0' + number / 10;
        let ones = b'0' + number % 10;
        append(out, &[b'e', b'r', b'r', b' ', tens, ones]);
    } else {
        append(out, &[b'e', b'r', b'r', b' ', b'0' + number]);
    }
}

/// Ends the reply to a line: adds the refusal, where the line is refused with a number, and a
/// newline.
pub fn end_reply(answered: Result<(), u8>, out: &mut Vec<u8>)
    requires small { IfErr answered (λ number. number < 100) }
    requires room { MatchResult answered
        (λ _. vec_len out.old + 1 ≤ vec_capacity out.old)
        (λ _. vec_len out.old + 7 ≤ vec_capacity out.old) }
    ensures items { out.new.items ≡ out.old.items ++ (refusal_in answered ++ 10 ∷ []) }
    ensures capacity { vec_capacity out.old ≤ vec_capacity out.new }
{
    match answered {
        Ok(()) => append(out, b"\n"),
        Err(number) => {
            append_refusal(out, number);
            append(out, b"\n");
        }
    }
}
