//! The replies to commands, by which `line_program` replies to a line.

ghost use Rattle.std.proofs.Common.{arith};
ghost use Rattle.std.specs.Prelude.{◌+◌, ◌<◌, ◌≤◌, vec_len, vec_capacity, IfErr, OnOk};
ghost use Rattle.line_program.specs.Added.{AddsAnyOrRefuses, AddsOrSaysNumber};
ghost use Rattle.line_program.specs.Limit.{longest_line};
ghost use Rattle.line_program.specs.Reply.{IsReplyBy};
ghost use Rattle.c32_replies.specs.Numbers.{number_of_codex32_reply};
ghost use Rattle.c32_replies.specs.Reply.{IsCodex32Answer};
ghost use Rattle.c32_replies.specs.Request.{codex32_request_of, codex32_request_of_command};

use crate::command::Command;
use crate::parse::parse;
use crate::refusal::Refusal;
use crate::share::share;
use bech32::Fe32;
use line_program::{LONGEST_LINE, Replies, end_reply, text_of_line};
use std::alloc::Allocator;

/// The commands of this program, answered with memory from `alloc`.
#[derive(Clone, Copy)]
pub struct Commands<A> {
    pub alloc: A,
}

impl<A: Allocator + Copy> Commands<A> {
    // Adds the answer to a command, or leaves all as it was.
    fn answer(&self, command: Command<'_>, out: &mut Vec<u8>) -> Result<(), Refusal>
        requires { vec_len out.old + 2048 ≤ vec_capacity out.old }
        ensures answer { AddsAnyOrRefuses
            (IsCodex32Answer (codex32_request_of_command command.entry)) number_of_codex32_reply
            result out.old.items out.new.items }
        ensures room { OnOk result (vec_len out.new + 1 ≤ vec_capacity out.new) }
        ensures capacity { vec_capacity out.old ≤ vec_capacity out.new }
    {
        match command {
            Command::Parse { text } => Ok(parse(text, out)?),
            Command::Propose { text } => Ok(self.propose(text, out)?),
            Command::ProposeLong { text } => Ok(self.propose_long(text, out)?),
            Command::Share { text } => share(text, out),
            Command::Encode {
                threshold,
                identifier,
                share_index,
                hex,
            } => self.encode((threshold, identifier, share_index), hex, out),
            Command::Derive { share_index, texts } => self.derive(share_index, texts, out),
            Command::Recover { texts } => self.derive_at(Fe32::S, texts, out),
            Command::Split(words) => self.split(&words, out),
        }
    }

    // Adds what is said of a line, or leaves all as it was and returns the number of the refusal.
    fn answer_line(&self, line: &[u8], out: &mut Vec<u8>) -> Result<(), u8>
        requires { vec_len out.old + 2048 ≤ vec_capacity out.old }
        ensures answer { AddsOrSaysNumber
            (IsReplyBy longest_line codex32_request_of IsCodex32Answer line.now)
            result out.old.items out.new.items }
        ensures small { IfErr result (λ number. number < 100) }
        ensures room { OnOk result (vec_len out.new + 1 ≤ vec_capacity out.new) }
        ensures capacity { vec_capacity out.old ≤ vec_capacity out.new }
    {
        let text = text_of_line(line, LONGEST_LINE)?;
        let Some(command) = Command::parse(text) else {
            return Err(3);
        };
        Ok(self.answer(command, out)?)
    }
}

// The shares of a secret may be longer than the room that the commands of `Execute` have.
impl<A: Allocator + Copy> Replies for Commands<A> {
    ghost use Rattle.line_program.specs.laws.LongLines.{long_lines};

    ghost LINE_LIMIT = { longest_line };

    ghost limited = { Prim.omega arith };

    ghost is_reply = { IsReplyBy longest_line codex32_request_of IsCodex32Answer };

    ghost too_long = { long_lines longest_line codex32_request_of IsCodex32Answer };

    const LINE_LIMIT: usize = LONGEST_LINE;

    fn reply(&self, line: &[u8], out: &mut Vec<u8>) {
        end_reply(self.answer_line(line, out), out);
    }
}
