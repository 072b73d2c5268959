//! The replies to commands, by which `line_program` replies to a line.

ghost use Rattle.std.proofs.Common.{arith};
ghost use Rattle.std.specs.Prelude.{◌≡◌, ℕ, ◌+◌, ◌<◌, ◌≤◌, List, [], ◌∷◌, ◌++◌};
ghost use Rattle.std.specs.Prelude.{vec_len, vec_capacity, IfErr, OnOk};
ghost use Rattle.b32_replies.specs.Numbers.{number_of_reply};
ghost use Rattle.b32_replies.specs.Request.{request_of_command};
ghost use Rattle.line_program.specs.Added.{AddsOrRefuses, AddsOrSaysNumber};
ghost use Rattle.line_program.specs.Reply.{IsReplyBy};
ghost use Rattle.b32_replies.specs.LongRequest.{line_request_of};
ghost use Rattle.b32_replies.specs.Reply.{IsAnswer, IsLineAnswer, IsReply, line_limit};

use crate::command::{ChecksumName, Command};
use crate::content::decode_by;
use crate::correct::correct;
use crate::decode::decode;
use crate::elements::encode_elements;
use crate::encode::encode;
use crate::location_word::locations_of_word;
use crate::long_reply::answer_long;
use crate::refusal::Refusal;
use crate::segwit_decode::segwit_decode;
use crate::segwit_encode::segwit_encode;
use bech32::{Bech32, Bech32m};
use line_program::{Replies, end_reply, text_of_line};
use std::alloc::Allocator;

/// A line may have this many bytes. A longer one is refused, whatever it holds.
const LONGEST_LINE: usize = 4096;

/// Adds the answer to a command, or leaves all as it was.
fn execute_command<A: Allocator + Copy>(
    alloc: A,
    command: Command,
    out: &mut Vec<u8>,
) -> Result<(), Refusal>
    requires { vec_len out.old + 2047 ≤ vec_capacity out.old }
    ensures answer { AddsOrRefuses (IsAnswer (request_of_command command.entry)) number_of_reply
        result out.old.items out.new.items }
    ensures capacity { vec_capacity out.old ≤ vec_capacity out.new }
{
    match command {
        Command::Encode { checksum, hrp, hex } => match checksum {
            ChecksumName::Bech32 => encode::<Bech32>(hrp, hex, out),
            ChecksumName::Bech32m => encode::<Bech32m>(hrp, hex, out),
        },
        Command::Decode { text } => decode(alloc, text, out),
        Command::DecodeBy {
            checksum,
            text,
            content,
        } => decode_by(alloc, checksum, text, content, out),
        Command::EncodeElements { checksum, hrp, hex } => match checksum {
            ChecksumName::Bech32 => encode_elements::<Bech32, A>(alloc, hrp, hex, out),
            ChecksumName::Bech32m => encode_elements::<Bech32m, A>(alloc, hrp, hex, out),
        },
        Command::SegwitEncode { hrp, version, hex } => segwit_encode(hrp, version, hex, out),
        Command::SegwitDecode { text } => segwit_decode(alloc, text, out),
        Command::Correct { checksum, text } => correct(checksum, text, &[], out),
        Command::CorrectAt {
            checksum,
            text,
            locations,
        } => {
            let given = locations_of_word(locations)?;
            correct(checksum, text, given.as_slice(), out)
        }
    }
}

/// The commands of this program, answered with memory from `alloc`.
#[derive(Clone, Copy)]
pub struct Commands<A> {
    pub alloc: A,
}

impl<A: Allocator + Copy> Commands<A> {
    // Adds what is said of a line, or leaves all as it was and returns the number of the refusal.
    fn answer_line(&self, line: &[u8], out: &mut Vec<u8>) -> Result<(), u8>
        requires { vec_len out.old + 2048 ≤ vec_capacity out.old }
        ensures answer { AddsOrSaysNumber (IsReply line.now) result out.old.items out.new.items }
        ensures small { IfErr result (λ number. number < 100) }
        ensures room { OnOk result (vec_len out.new + 1 ≤ vec_capacity out.new) }
        ensures capacity { vec_capacity out.old ≤ vec_capacity out.new }
    {
        let text = text_of_line(line, LONGEST_LINE)?;
        let Some(command) = Command::parse(text) else {
            return answer_long(self.alloc, text, out);
        };
        if let Err(refusal) = execute_command(self.alloc, command, out) {
            return Err(refusal.number());
        }
        Ok(())
    }
}

// The reply to a line of a long text may be longer than the room of the commands of `Execute`.
impl<A: Allocator + Copy> Replies for Commands<A> {
    ghost use Rattle.line_program.specs.laws.LongLines.{long_lines};

    ghost LINE_LIMIT = { line_limit };

    ghost limited = { Prim.omega arith };

    ghost is_reply = { IsReplyBy line_limit line_request_of IsLineAnswer };

    ghost too_long = { long_lines line_limit line_request_of IsLineAnswer };

    const LINE_LIMIT: usize = LONGEST_LINE;

    fn reply(&self, line: &[u8], out: &mut Vec<u8>) {
        end_reply(self.answer_line(line, out), out);
    }
}

/// Adds the reply to a line, and a newline. The line has no newline of its own. Memory for the
/// reply comes from `alloc`; where there is none, the reply is `err 91`.
pub fn reply<A: Allocator + Copy>(alloc: A, line: &[u8], out: &mut Vec<u8>)
    requires { vec_len out.old + 2048 ≤ vec_capacity out.old }
    ensures reply { (said : List ℕ) × IsReply line.now said
        × (out.new.items ≡ out.old.items ++ (said ++ 10 ∷ [])) }
    ensures capacity { vec_capacity out.old ≤ vec_capacity out.new }
{
    Commands { alloc }.reply(line, out)
}
