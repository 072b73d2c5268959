//! The replies to commands of long texts and of confidential addresses.

ghost use Rattle.std.specs.Prelude.{◌+◌, ◌<◌, ◌≤◌, vec_len, vec_capacity, IfErr, OnOk};
ghost use Rattle.line_program.specs.Added.{AddsAnyOrRefuses, AddsOrSaysNumber};
ghost use Rattle.b32_replies.specs.LongRequest.{request_of_long};
ghost use Rattle.b32_replies.specs.Numbers.{number_of_reply};
ghost use Rattle.b32_replies.specs.Reply.{IsLongAnswer, IsLongOutcome};

use crate::confidential::{liquid_decode, liquid_encode};
use crate::long::{decode_long, encode_long};
use crate::long_command::LongCommand;
use crate::refusal::Refusal;
use std::alloc::Allocator;

// Adds the answer to a command, or leaves all as it was.
fn execute_long<A: Allocator + Copy>(
    alloc: A,
    command: LongCommand<'_>,
    out: &mut Vec<u8>,
) -> Result<(), Refusal>
    requires { vec_len out.old + 2048 ≤ vec_capacity out.old }
    ensures answer { AddsAnyOrRefuses (IsLongAnswer (request_of_long command.entry))
        number_of_reply result out.old.items out.new.items }
    ensures room { OnOk result (vec_len out.new + 1 ≤ vec_capacity out.new) }
    ensures capacity { vec_capacity out.old ≤ vec_capacity out.new }
{
    match command {
        LongCommand::Encode(kind, asked) => encode_long(alloc, kind, asked, out),
        LongCommand::Decode(kind, asked) => decode_long(alloc, kind, asked, out),
        LongCommand::LiquidEncode(words) => liquid_encode(words, out),
        LongCommand::LiquidDecode(text) => liquid_decode(text, out),
    }
}

/// Adds what is said of a line that is no other command, or leaves all as it was and returns the
/// number of the refusal.
pub fn answer_long<A: Allocator + Copy>(alloc: A, line: &str, out: &mut Vec<u8>) -> Result<(), u8>
    requires { vec_len out.old + 2048 ≤ vec_capacity out.old }
    ensures answer { AddsOrSaysNumber (IsLongOutcome line.now) result out.old.items out.new.items }
    ensures small { IfErr result (λ number. number < 100) }
    ensures room { OnOk result (vec_len out.new + 1 ≤ vec_capacity out.new) }
    ensures capacity { vec_capacity out.old ≤ vec_capacity out.new }
{
    let Some(command) = LongCommand::parse(line) else {
        return Err(3);
    };
    match execute_long(alloc, command, out) {
        Ok(()) => Ok(()),
        Err(refusal) => Err(refusal.number()),
    }
}
