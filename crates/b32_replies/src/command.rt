//! Reads a line as a command with its arguments.

ghost use Rattle.std.specs.Prelude.{◌≡◌};
ghost use Rattle.line_program.specs.Words.{Reads, words};
ghost use Rattle.b32_replies.specs.Request.{checksum_of_word, correct_arguments};
ghost use Rattle.b32_replies.specs.Request.{decode_by_arguments, encode_elements_arguments};
ghost use Rattle.b32_replies.specs.Request.{request_of, request_of_command};

use crate::content::Content;
use line_program::{first_word, only_word};

/// The checksum that a command names.
#[derive(Clone, Copy, Debug, PartialEq, Eq)]
pub enum ChecksumName {
    /// `bech32` (BIP-173).
    Bech32,
    /// `bech32m` (BIP-350).
    Bech32m,
}

/// What a line asks for, each argument as its word.
#[derive(Clone, Copy, Debug)]
pub enum Command<'a> {
    /// `encode CHECKSUM HRP HEX`: the text of bytes.
    Encode {
        checksum: ChecksumName,
        hrp: &'a str,
        hex: &'a str,
    },
    /// `decode TEXT`: the bytes of a text.
    Decode {
        text: &'a str,
    },
    /// `decode-strict CHECKSUM TEXT`: the same of a text that is the only one of its bytes;
    /// `decode-elements CHECKSUM TEXT`: the elements of a text.
    DecodeBy {
        checksum: ChecksumName,
        text: &'a str,
        content: Content,
    },
    /// `encode-elements CHECKSUM HRP HEX`: the text of elements, a byte from 0 to 31 each.
    EncodeElements {
        checksum: ChecksumName,
        hrp: &'a str,
        hex: &'a str,
    },
    /// `segwit-encode HRP VERSION HEX`: the segwit address of a program.
    SegwitEncode {
        hrp: &'a str,
        version: &'a str,
        hex: &'a str,
    },
    /// `segwit-decode TEXT`: the version and the program of a segwit address.
    SegwitDecode {
        text: &'a str,
    },
    /// `correct CHECKSUM TEXT`: a mistyped text mended.
    Correct {
        checksum: ChecksumName,
        text: &'a str,
    },
    /// `correct CHECKSUM TEXT LOCATIONS`: the same, where characters are known to be wrong.
    CorrectAt {
        checksum: ChecksumName,
        text: &'a str,
        locations: &'a str,
    },
}

/// The checksum of this name.
pub fn checksum_named(word: &str) -> Option<ChecksumName>
    ensures { result ≡ checksum_of_word word.now }
{
    match word {
        "bech32" => Some(ChecksumName::Bech32),
        "bech32m" => Some(ChecksumName::Bech32m),
        _ => None,
    }
}

impl<'a> Command<'a> {
    /// Reads a line. Its words stand between single spaces, and none is empty.
    pub fn parse(line: &'a str) -> Option<Command<'a>>
        ensures { Reads request_of_command (request_of line.now) result }
    {
        let (name, arguments) = first_word(line)?;
        match name {
            "encode" => {
                let (checksum, arguments) = first_word(arguments)?;
                let (hrp, hex) = first_word(arguments)?;
                Some(Command::Encode {
                    checksum: checksum_named(checksum)?,
                    hrp,
                    hex: only_word(hex)?,
                })
            }
            "decode" => Some(Command::Decode {
                text: only_word(arguments)?,
            }),
            "segwit-encode" => {
                let (hrp, arguments) = first_word(arguments)?;
                let (version, hex) = first_word(arguments)?;
                Some(Command::SegwitEncode {
                    hrp,
                    version,
                    hex: only_word(hex)?,
                })
            }
            "segwit-decode" => Some(Command::SegwitDecode {
                text: only_word(arguments)?,
            }),
            "correct" => Command::parse_correct(arguments),
            "decode-strict" => Command::parse_decode_by(arguments, Content::Bytes),
            "encode-elements" => Command::parse_encode_elements(arguments),
            "decode-elements" => Command::parse_decode_by(arguments, Content::Elements),
            _ => None,
        }
    }

    // Reads what stands behind `decode-strict` and `decode-elements`.
    fn parse_decode_by(arguments: &'a str, content: Content) -> Option<Command<'a>>
        ensures { Reads request_of_command
            (decode_by_arguments content (words arguments.now)) result }
    {
        let (name, text) = first_word(arguments)?;
        let checksum = checksum_named(name)?;
        let text = only_word(text)?;
        Some(Command::DecodeBy {
            checksum,
            text,
            content,
        })
    }

    // Reads what stands behind `encode-elements`.
    fn parse_encode_elements(arguments: &'a str) -> Option<Command<'a>>
        ensures { Reads request_of_command
            (encode_elements_arguments (words arguments.now)) result }
    {
        let (name, arguments) = first_word(arguments)?;
        let checksum = checksum_named(name)?;
        let (hrp, hex) = first_word(arguments)?;
        let hex = only_word(hex)?;
        Some(Command::EncodeElements { checksum, hrp, hex })
    }

    // Reads what stands behind `correct`.
    fn parse_correct(arguments: &'a str) -> Option<Command<'a>>
        ensures { Reads request_of_command (correct_arguments (words arguments.now)) result }
    {
        let (name, arguments) = first_word(arguments)?;
        let checksum = checksum_named(name)?;
        let Some((text, locations)) = first_word(arguments) else {
            let text = only_word(arguments)?;
            return Some(Command::Correct { checksum, text });
        };
        let locations = only_word(locations)?;
        Some(Command::CorrectAt {
            checksum,
            text,
            locations,
        })
    }
}
