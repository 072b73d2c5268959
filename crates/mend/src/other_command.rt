//! Reads a line as a command of confidential addresses or of descriptors, or as another.

ghost use Rattle.std.specs.Prelude.{◌≡◌};
ghost use Rattle.line_program.specs.Words.{Reads, words};
ghost use Rattle.mend.specs.Request.{behind, descriptor_request_of, liquid_request, liquid_request_of, mend_line_request_of, mend_request_of_command};

use crate::command::Command;
use b32_replies::{three_words, two_words};
use line_program::first_word;

// What stands behind a front, where a line has it.
fn text_behind<'a>(front: &str, line: &'a str) -> Option<&'a str>
    ensures { Reads (λ text. text.now) (behind front.now line.now) result }
{
    line.strip_prefix(front)
}

// Reads a line of a descriptor, which is all that stands behind the name of the command.
fn descriptor_command(line: &str) -> Option<Command<'_>>
    ensures { Reads mend_request_of_command (descriptor_request_of line.now) result }
{
    if let Some(text) = text_behind("descriptor ", line) {
        return Some(Command::Descriptor { text });
    }
    if let Some(text) = text_behind("descriptor-check ", line) {
        return Some(Command::DescriptorCheck { text });
    }
    let text = text_behind("descriptor-checksum ", line)?;
    Some(Command::DescriptorChecksum { text })
}

// Reads what stands behind `liquid`.
fn liquid_arguments(arguments: &str) -> Option<Command<'_>>
    ensures { Reads mend_request_of_command (liquid_request (words arguments.now)) result }
{
    if let Some((text, errors)) = two_words(arguments) {
        return Some(Command::Liquid { text, errors });
    }
    let (text, (locations, errors)) = three_words(arguments)?;
    Some(Command::LiquidAt {
        text,
        locations,
        errors,
    })
}

// Reads a line of a confidential address.
fn liquid_command(line: &str) -> Option<Command<'_>>
    ensures { Reads mend_request_of_command (liquid_request_of (words line.now)) result }
{
    let (name, arguments) = first_word(line)?;
    match name {
        "liquid" => liquid_arguments(arguments),
        _ => None,
    }
}

/// Reads a line.
pub fn command_in(line: &str) -> Option<Command<'_>>
    ensures { Reads mend_request_of_command (mend_line_request_of line.now) result }
{
    if let Some(command) = descriptor_command(line) {
        return Some(command);
    }
    if let Some(command) = liquid_command(line) {
        return Some(command);
    }
    Command::parse(line)
}
