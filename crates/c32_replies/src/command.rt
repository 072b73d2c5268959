//! Reads a line as a command with its arguments.

ghost use Rattle.line_program.specs.Words.{Reads, words};
ghost use Rattle.c32_replies.specs.Request.{codex32_request_of, encode_arguments, codex32_request_of_command, nonempty_words, split_arguments};

use line_program::{first_word, only_word};

/// The words of `split`.
#[derive(Clone, Copy, Debug)]
pub struct SplitWords<'a> {
    pub threshold: &'a str,
    pub count: &'a str,
    pub identifier: &'a str,
    pub hex: &'a str,
    pub random: &'a str,
}

/// What a line asks for, each argument as its word; several texts with the spaces between them.
#[derive(Clone, Copy, Debug)]
pub enum Command<'a> {
    /// `parse TEXT`: the parts of a codex32 string.
    Parse {
        text: &'a str,
    },
    /// `propose TEXT`: the nearest text to a damaged one.
    Propose {
        text: &'a str,
    },
    /// `propose-long TEXT`: the nearest long text to a damaged one.
    ProposeLong {
        text: &'a str,
    },
    /// `share TEXT`: the header and the bytes of a string of either length.
    Share {
        text: &'a str,
    },
    /// `encode THRESHOLD IDENTIFIER INDEX HEX`: the string of bytes.
    Encode {
        threshold: &'a str,
        identifier: &'a str,
        share_index: &'a str,
        hex: &'a str,
    },
    /// `derive INDEX TEXT TEXT ..`: the string at an index, from shares.
    Derive {
        share_index: &'a str,
        texts: &'a str,
    },
    /// `recover TEXT TEXT ..`: the secret, from shares.
    Recover {
        texts: &'a str,
    },
    /// `split THRESHOLD COUNT IDENTIFIER HEX RANDOM`: shares of a secret, drawn by random bytes.
    Split(SplitWords<'a>),
}

// The text, where none of its words is empty.
fn all_words(text: &str) -> Option<&str>
    ensures { Reads (λ r. words r.now) (nonempty_words (words text.now)) result }
{
    let mut rest = text;
    'words: while let Some((_, behind)) = first_word(rest) {
        rest = behind;
    }
    only_word(rest)?;
    Some(text)
}

impl<'a> Command<'a> {
    // Reads what stands behind `encode`.
    fn parse_encode(arguments: &'a str) -> Option<Command<'a>>
        ensures { Reads codex32_request_of_command (encode_arguments (words arguments.now)) result }
    {
        let (threshold, arguments) = first_word(arguments)?;
        let (identifier, arguments) = first_word(arguments)?;
        let (share_index, hex) = first_word(arguments)?;
        Some(Command::Encode {
            threshold,
            identifier,
            share_index,
            hex: only_word(hex)?,
        })
    }

    // Reads what stands behind `split`.
    fn parse_split(arguments: &'a str) -> Option<Command<'a>>
        ensures { Reads codex32_request_of_command (split_arguments (words arguments.now)) result }
    {
        let (threshold, arguments) = first_word(arguments)?;
        let (count, arguments) = first_word(arguments)?;
        let (identifier, arguments) = first_word(arguments)?;
        let (hex, random) = first_word(arguments)?;
        Some(Command::Split(SplitWords {
            threshold,
            count,
            identifier,
            hex,
            random: only_word(random)?,
        }))
    }

    /// Reads a line. Its words stand between single spaces, and none is empty.
    pub fn parse(line: &'a str) -> Option<Command<'a>>
        ensures { Reads codex32_request_of_command (codex32_request_of line.now) result }
    {
        let (name, arguments) = first_word(line)?;
        match name {
            "parse" => Some(Command::Parse {
                text: only_word(arguments)?,
            }),
            "propose" => Some(Command::Propose {
                text: only_word(arguments)?,
            }),
            "propose-long" => Some(Command::ProposeLong {
                text: only_word(arguments)?,
            }),
            "share" => Some(Command::Share {
                text: only_word(arguments)?,
            }),
            "encode" => Command::parse_encode(arguments),
            "derive" => {
                let (share_index, texts) = first_word(arguments)?;
                let texts = all_words(texts)?;
                Some(Command::Derive { share_index, texts })
            }
            "recover" => Some(Command::Recover {
                texts: all_words(arguments)?,
            }),
            "split" => Command::parse_split(arguments),
            _ => None,
        }
    }
}
