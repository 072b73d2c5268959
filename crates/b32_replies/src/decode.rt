//! Answers `decode`.

ghost use Rattle.std.specs.Prelude.{◌+◌, ◌≤◌, vec_len, vec_capacity};
ghost use Rattle.b32_replies.specs.Numbers.{number_of_reply};
ghost use Rattle.line_program.specs.Added.{AddsOrRefuses};
ghost use Rattle.b32_replies.specs.Reply.{IsDecodeAnswer};

use crate::append::append_decoded;
use crate::refusal::Refusal;
use bech32::decode_in;
use std::alloc::Allocator;

/// Adds the human-readable part and the bytes of a text, or leaves all as it was.
pub fn decode<A: Allocator + Copy>(alloc: A, text: &str, out: &mut Vec<u8>) -> Result<(), Refusal>
    requires { vec_len out.old + 2047 ≤ vec_capacity out.old }
    ensures answer { AddsOrRefuses (IsDecodeAnswer text.now) number_of_reply result
        out.old.items out.new.items }
    ensures capacity { vec_capacity out.old ≤ vec_capacity out.new }
{
    let (hrp, bytes) = match decode_in(alloc, text) {
        Ok(decoded) => decoded,
        Err(e) => return Err(Refusal::Decode(e)),
    };
    append_decoded(out, &hrp, bytes.as_slice());
    Ok(())
}
