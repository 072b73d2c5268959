//! Reads a line as a command with its arguments.

ghost use Rattle.std.specs.Prelude.{◌≡◌, ℕ, List};
ghost use Rattle.line_program.specs.Words.{Reads, words};
ghost use Rattle.b32_replies.specs.declared.command.ChecksumName.{ChecksumName as Name};
ghost use Rattle.mend.specs.Request.{MendRequest, Suggest, errors_of_word, mend_request_of, mend_request_of_command, nearest_arguments, suggest_arguments, text_arguments};

use b32_replies::{ChecksumName, checksum_named};
use line_program::{first_word, only_word};

/// What a line asks for, each argument as its word.
#[derive(Clone, Copy, Debug)]
pub enum Command<'a> {
    /// `nearest CHECKSUM TEXT ERRORS`: all texts near a mistyped one.
    Nearest {
        checksum: ChecksumName,
        text: &'a str,
        errors: &'a str,
    },
    /// `nearest CHECKSUM TEXT LOCATIONS ERRORS`: the same, where characters are known to be wrong.
    NearestAt {
        checksum: ChecksumName,
        text: &'a str,
        locations: &'a str,
        errors: &'a str,
    },
    /// `edits CHECKSUM TEXT`: all texts that one edit makes of a mistyped one.
    Edits {
        checksum: ChecksumName,
        text: &'a str,
    },
    /// `fault CHECKSUM TEXT`: why the checksum refuses a text, and where that stands.
    Fault {
        checksum: ChecksumName,
        text: &'a str,
    },
    /// `suggest PART TEXT`: the addresses with a human-readable part that someone who typed a text
    /// may have meant.
    Suggest {
        part: &'a str,
        text: &'a str,
    },
    /// `checksum TEXT`: which checksum accepts a text.
    Checksum {
        text: &'a str,
    },
    /// `liquid TEXT ERRORS`: the confidential addresses near a mistyped one.
    Liquid {
        text: &'a str,
        errors: &'a str,
    },
    /// `liquid TEXT LOCATIONS ERRORS`: the same, where characters are known to be wrong.
    LiquidAt {
        text: &'a str,
        locations: &'a str,
        errors: &'a str,
    },
    /// `descriptor TEXT`: the descriptors that one edit makes of a mistyped one.
    Descriptor {
        text: &'a str,
    },
    /// `descriptor-check TEXT`: why a text is no descriptor with its checksum.
    DescriptorCheck {
        text: &'a str,
    },
    /// `descriptor-checksum TEXT`: the checksum of a descriptor.
    DescriptorChecksum {
        text: &'a str,
    },
}

/// How many errors a word allows: 0, 1 or 2.
pub fn errors_in(word: &str) -> Option<usize>
    ensures { result ≡ errors_of_word word.now }
{
    match word {
        "0" => Some(0),
        "1" => Some(1),
        "2" => Some(2),
        _ => None,
    }
}

// The checksum and the text that words name.
fn named_text(arguments: &str) -> Option<(ChecksumName, &str)>
    ensures { (request : Name → List ℕ → MendRequest) → Reads (λ r. request r.0 r.1.now)
        (text_arguments request (words arguments.now)) result }
{
    let (name, text) = first_word(arguments)?;
    let checksum = checksum_named(name)?;
    let text = only_word(text)?;
    Some((checksum, text))
}

// The human-readable part and the text that words name.
fn part_and_text(arguments: &str) -> Option<(&str, &str)>
    ensures { Reads (λ r. Suggest r.0.now r.1.now)
        (suggest_arguments (words arguments.now)) result }
{
    let (part, text) = first_word(arguments)?;
    let text = only_word(text)?;
    Some((part, text))
}

impl<'a> Command<'a> {
    /// Reads a line. Its words stand between single spaces, and none is empty.
    pub fn parse(line: &'a str) -> Option<Command<'a>>
        ensures { Reads mend_request_of_command (mend_request_of line.now) result }
    {
        let (name, arguments) = first_word(line)?;
        match name {
            "nearest" => Command::parse_nearest(arguments),
            "edits" => {
                let (checksum, text) = named_text(arguments)?;
                Some(Command::Edits { checksum, text })
            }
            "fault" => {
                let (checksum, text) = named_text(arguments)?;
                Some(Command::Fault { checksum, text })
            }
            "suggest" => {
                let (part, text) = part_and_text(arguments)?;
                Some(Command::Suggest { part, text })
            }
            "checksum" => Some(Command::Checksum {
                text: only_word(arguments)?,
            }),
            _ => None,
        }
    }

    // Reads what stands behind `nearest`.
    fn parse_nearest(arguments: &'a str) -> Option<Command<'a>>
        ensures { Reads mend_request_of_command (nearest_arguments (words arguments.now)) result }
    {
        let (name, arguments) = first_word(arguments)?;
        let checksum = checksum_named(name)?;
        let (text, arguments) = first_word(arguments)?;
        let Some((locations, errors)) = first_word(arguments) else {
            let errors = only_word(arguments)?;
            return Some(Command::Nearest {
                checksum,
                text,
                errors,
            });
        };
        let errors = only_word(errors)?;
        Some(Command::NearestAt {
            checksum,
            text,
            locations,
            errors,
        })
    }
}
