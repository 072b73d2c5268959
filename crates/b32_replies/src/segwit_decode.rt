//! Answers `segwit-decode`.

ghost use Rattle.std.specs.Prelude.{◌+◌, ◌≤◌, vec_len, vec_capacity};
ghost use Rattle.b32_replies.specs.Numbers.{number_of_reply};
ghost use Rattle.line_program.specs.Added.{AddsOrRefuses};
ghost use Rattle.b32_replies.specs.Reply.{IsSegwitDecodeAnswer};

use crate::append::append_part;
use crate::hex_word::append_hex;
use crate::refusal::Refusal;
use bech32::segwit;
use line_program::{append, append_number};
use std::alloc::Allocator;

/// Adds the human-readable part, the version and the program of a segwit address, or leaves all as
/// it was.
pub fn segwit_decode<A: Allocator + Copy>(
    alloc: A,
    text: &str,
    out: &mut Vec<u8>,
) -> Result<(), Refusal>
    requires { vec_len out.old + 2047 ≤ vec_capacity out.old }
    ensures answer { AddsOrRefuses (IsSegwitDecodeAnswer text.now) number_of_reply result
        out.old.items out.new.items }
    ensures capacity { vec_capacity out.old ≤ vec_capacity out.new }
{
    let (hrp, version, program) = match segwit::decode_in(alloc, text) {
        Ok(decoded) => decoded,
        Err(e) => return Err(Refusal::SegwitDecode(e)),
    };
    append_part(out, &hrp);
    append_number(out, version.to_u8());
    append(out, b" ");
    append_hex(out, program.as_slice());
    Ok(())
}
