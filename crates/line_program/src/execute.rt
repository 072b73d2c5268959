//! What a program replies to commands, and so to each line.

ghost use Rattle.std.specs.Prelude.{◌≡◌, ◌↔◌, ℕ, ◌+◌, ◌≤◌, ◌<◌, List, vec_len, vec_capacity};
ghost use Rattle.std.specs.Prelude.{Option, None, IfErr, IsErrOf, MatchOption, MatchResult};
ghost use Rattle.std.specs.Str.{IsUtf8};
ghost use Rattle.line_program.specs.Added.{AddsOrRefuses};
ghost use Rattle.line_program.specs.Limit.{longest_line};
ghost use Rattle.line_program.specs.Refused.{number_of_not_executed};
ghost use Rattle.line_program.specs.Reply.{IsLineRefusal, IsOutcomeBy, IsReplyBy, IsTextOfLine};

use crate::output::end_reply;
use crate::replies::Replies;

/// Why a text is not executed.
#[derive(Clone, Copy, Debug, PartialEq, Eq, Drop)]
pub enum NotExecuted {
    /// It is not a command with its arguments.
    NoCommand,
    /// It is a command that is refused, with this number.
    Refused(u8),
}

impl NotExecuted {
    // The number of the refusal.
    fn number(self) -> u8
        ensures { result ≡ number_of_not_executed self }
    {
        match self {
            NotExecuted::NoCommand => 3,
            NotExecuted::Refused(number) => number,
        }
    }
}

/// Executes the commands of a program. Numbers of refusals are below 100.
pub trait Execute {
    ghost LINE_LIMIT: { ℕ };

    // A run has room for a line of so many bytes.
    ghost limited: { LINE_LIMIT ≤ longest_line };

    // What can be asked for, what a text asks for, if it is a command, and what may be said of
    // that.
    ghost request: { Type 0 };

    ghost request_of: { List ℕ → Option request };

    ghost is_answer: { request → List ℕ → Type 0 };

    /// A line may have this many bytes. A longer one is refused, whatever it holds.
    const LINE_LIMIT: usize;

    /// Adds the answer to the text of a line, or leaves all as it was. `NoCommand` is returned
    /// exactly for a text that is no command.
    fn execute(&self, text: &str, out: &mut Vec<u8>) -> Result<(), NotExecuted>
        requires { vec_len out.old + 2047 ≤ vec_capacity out.old }
        ensures outcome { AddsOrRefuses (IsOutcomeBy request_of is_answer text.now)
            number_of_not_executed result out.old.items out.new.items }
        ensures command { IsErrOf result NotExecuted.NoCommand ↔ (request_of text.now ≡ None) }
        ensures small { IfErr result (λ e. number_of_not_executed e < 100) }
        ensures capacity { vec_capacity out.old ≤ vec_capacity out.new };
}

// The text of a line, if it is UTF-8. ASCII is seen at once.
#[inline]
fn text_of(line: &[u8]) -> Option<&str>
    ensures { MatchOption result (¬ IsUtf8 line.now)
        (λ text. (text.now ≡ line.now) × IsUtf8 line.now) }
{
    if line.is_ascii() {
        // ASCII is UTF-8: what the call requires is proved.
        return Some(unsafe { str::from_utf8_unchecked(line) });
    }
    match str::from_utf8(line) {
        Ok(text) => Some(text),
        Err(_) => None,
    }
}

/// The text of a line that has no more bytes than the limit, or the number that the line is refused
/// with: 1 where it has more, and 2 where it is not UTF-8.
#[inline]
pub fn text_of_line(line: &[u8], limit: usize) -> Result<&str, u8>
    ensures text { MatchResult result
        (λ text. IsTextOfLine limit line.now text.now) (IsLineRefusal limit line.now) }
    ensures small { IfErr result (λ number. number < 100) }
{
    if line.len() > limit {
        return Err(1);
    }
    let Some(text) = text_of(line) else {
        return Err(2);
    };
    Ok(text)
}

/// Adds the outcome of a line, or leaves all as it was, with the number of the refusal.
fn execute_line<P: Execute>(program: &P, line: &[u8], out: &mut Vec<u8>) -> Result<(), u8>
    requires { vec_len out.old + 2047 ≤ vec_capacity out.old }
    ensures outcome { AddsOrRefuses (IsReplyBy P.LINE_LIMIT P.request_of P.is_answer line.now)
        (λ number. number) result out.old.items out.new.items }
    ensures small { IfErr result (λ number. number < 100) }
    ensures capacity { vec_capacity out.old ≤ vec_capacity out.new }
{
    let text = text_of_line(line, P::LINE_LIMIT)?;
    match program.execute(text, out) {
        Ok(()) => Ok(()),
        Err(e) => Err(e.number()),
    }
}

/// A program replies to a line by the outcome. A line that is too long is refused with the number
/// 1, one that is not UTF-8 with 2, and one that is not a command with 3.
impl<P: Execute> Replies for P {
    ghost use Rattle.line_program.specs.laws.LongLines.{long_lines};

    ghost LINE_LIMIT = { P.LINE_LIMIT };

    ghost limited = { P.limited };

    ghost is_reply = { IsReplyBy P.LINE_LIMIT P.request_of P.is_answer };

    ghost too_long = { long_lines P.LINE_LIMIT P.request_of P.is_answer };

    const LINE_LIMIT: usize = P::LINE_LIMIT;

    fn reply(&self, line: &[u8], out: &mut Vec<u8>) {
        end_reply(execute_line(self, line, out), out);
    }
}
