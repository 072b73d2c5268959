//! The replies to commands, by which `line_program` replies to a line.

ghost use Rattle.std.proofs.Common.{arith};
ghost use Rattle.std.specs.Prelude.{◌+◌, ◌<◌, ◌≤◌, vec_len, vec_capacity, IfErr, OnOk};
ghost use Rattle.line_program.specs.Added.{AddsOrSaysNumber};
ghost use Rattle.line_program.specs.Limit.{longest_line};
ghost use Rattle.line_program.specs.Reply.{IsReplyBy};
ghost use Rattle.mend.specs.Reply.{IsMendAnswer};
ghost use Rattle.mend.specs.Request.{mend_line_request_of, mend_request_of_command};

use crate::accepting::checksum;
use crate::command::Command;
use crate::descriptors::{descriptor, descriptor_check, descriptor_checksum};
use crate::edits::edits;
use crate::fault::fault;
use crate::liquid_near::liquid;
use crate::near::near_texts;
use crate::numbers::BAD_WORD;
use crate::other_command::command_in;
use crate::suggest::suggest;
use b32_replies::{locations_of_word, seven_locations_of_word};
use line_program::{LONGEST_LINE, Replies, end_reply, text_of_line};
use std::alloc::Global;

/// The commands of this program, answered with memory from `alloc`.
#[derive(Clone, Copy)]
pub struct Commands {
    pub alloc: Global,
}

impl Commands {
    // Adds the answer to a command, or leaves all as it was.
    fn answer(&self, command: Command<'_>, out: &mut Vec<u8>) -> Result<(), u8>
        requires { vec_len out.old + 2048 ≤ vec_capacity out.old }
        ensures answer { AddsOrSaysNumber (IsMendAnswer (mend_request_of_command command.entry))
            result out.old.items out.new.items }
        ensures small { IfErr result (λ number. number < 100) }
        ensures room { OnOk result (vec_len out.new + 1 ≤ vec_capacity out.new) }
        ensures capacity { vec_capacity out.old ≤ vec_capacity out.new }
    {
        match command {
            Command::Nearest {
                checksum,
                text,
                errors,
            } => near_texts(self.alloc, checksum, text, &[], errors, out),
            Command::NearestAt {
                checksum,
                text,
                locations,
                errors,
            } => {
                let Ok(given) = locations_of_word(locations) else {
                    return Err(BAD_WORD);
                };
                near_texts(self.alloc, checksum, text, given.as_slice(), errors, out)
            }
            Command::Edits { checksum, text } => edits(self.alloc, checksum, text, out),
            Command::Fault { checksum, text } => {
                fault(checksum, text, out);
                Ok(())
            }
            Command::Suggest { part, text } => suggest(self.alloc, part, text, out),
            Command::Checksum { text } => checksum(text, out),
            Command::Liquid { text, errors } => liquid(self.alloc, text, (&[], errors), out),
            Command::LiquidAt {
                text,
                locations,
                errors,
            } => {
                let Ok(given) = seven_locations_of_word(locations) else {
                    return Err(BAD_WORD);
                };
                liquid(self.alloc, text, (given.as_slice(), errors), out)
            }
            Command::Descriptor { text } => descriptor(self.alloc, text, out),
            Command::DescriptorCheck { text } => {
                descriptor_check(text, out);
                Ok(())
            }
            Command::DescriptorChecksum { text } => {
                descriptor_checksum(text, out);
                Ok(())
            }
        }
    }

    // Adds what is said of a line, or leaves all as it was and returns the number of the refusal.
    fn answer_line(&self, line: &[u8], out: &mut Vec<u8>) -> Result<(), u8>
        requires { vec_len out.old + 2048 ≤ vec_capacity out.old }
        ensures answer { AddsOrSaysNumber
            (IsReplyBy longest_line mend_line_request_of IsMendAnswer line.now)
            result out.old.items out.new.items }
        ensures small { IfErr result (λ number. number < 100) }
        ensures room { OnOk result (vec_len out.new + 1 ≤ vec_capacity out.new) }
        ensures capacity { vec_capacity out.old ≤ vec_capacity out.new }
    {
        let text = text_of_line(line, LONGEST_LINE)?;
        let Some(command) = command_in(text) else {
            return Err(3);
        };
        self.answer(command, out)
    }
}

// A list of texts may be longer than the room that the commands of `Execute` have.
impl Replies for Commands {
    ghost use Rattle.line_program.specs.laws.LongLines.{long_lines};

    ghost LINE_LIMIT = { longest_line };

    ghost limited = { Prim.omega arith };

    ghost is_reply = { IsReplyBy longest_line mend_line_request_of IsMendAnswer };

    ghost too_long = { long_lines longest_line mend_line_request_of IsMendAnswer };

    const LINE_LIMIT: usize = LONGEST_LINE;

    fn reply(&self, line: &[u8], out: &mut Vec<u8>) {
        end_reply(self.answer_line(line, out), out);
    }
}
