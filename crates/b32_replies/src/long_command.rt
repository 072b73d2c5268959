//! Reads a line as a command of long texts or of confidential addresses, with its arguments.

ghost use Rattle.std.specs.Prelude.{◌≡◌};
ghost use Rattle.line_program.specs.Words.{Reads, words};
ghost use Rattle.b32_replies.specs.Counted.{three_of, two_of};
ghost use Rattle.b32_replies.specs.LongRequest.{by_long, long_checksum_of_word, long_request_of};
ghost use Rattle.b32_replies.specs.LongRequest.{request_of_long};

use crate::words::{four_words, three_words, two_words};
use line_program::{first_word, only_word};

/// The checksum of long texts that a command names.
#[derive(Clone, Copy, Debug, PartialEq, Eq)]
pub enum LongChecksum {
    /// `long-bech32` (BIP-173).
    LongBech32,
    /// `long-bech32m` (BIP-350).
    LongBech32m,
}

/// What a text is of.
#[derive(Clone, Copy, Debug, PartialEq, Eq)]
pub enum Kind {
    /// Bytes.
    Bytes,
    /// Elements, a byte from 0 to 31 each.
    Elements,
}

// A checksum and one word.
fn named_word(arguments: &str) -> Option<(LongChecksum, &str)>
    ensures { Reads (λ r. (r.0, r.1.now)) (by_long (two_of (words arguments.now))) result }
{
    let (name, word) = two_words(arguments)?;
    let checksum = long_checksum_named(name)?;
    Some((checksum, word))
}

// A checksum and two words.
fn named_words(arguments: &str) -> Option<(LongChecksum, (&str, &str))>
    ensures { Reads (λ r. (r.0, (r.1.0.now, r.1.1.now)))
        (by_long (three_of (words arguments.now))) result }
{
    let (name, others) = three_words(arguments)?;
    let checksum = long_checksum_named(name)?;
    Some((checksum, others))
}

// The checksum of this name.
fn long_checksum_named(word: &str) -> Option<LongChecksum>
    ensures { result ≡ long_checksum_of_word word.now }
{
    match word {
        "long-bech32" => Some(LongChecksum::LongBech32),
        "long-bech32m" => Some(LongChecksum::LongBech32m),
        _ => None,
    }
}

/// What a line asks for, each argument as its word.
#[derive(Clone, Copy, Debug)]
pub enum LongCommand<'a> {
    /// `encode CHECKSUM HRP HEX` and `encode-elements CHECKSUM HRP HEX`: the text of a
    /// human-readable part and these.
    Encode(Kind, (LongChecksum, (&'a str, &'a str))),
    /// `decode-strict CHECKSUM TEXT` and `decode-elements CHECKSUM TEXT`: what a text is the only
    /// one of.
    Decode(Kind, (LongChecksum, &'a str)),
    /// `liquid-encode HRP VERSION KEY HEX`: the confidential address of a blinding key and a
    /// program.
    LiquidEncode((&'a str, (&'a str, (&'a str, &'a str)))),
    /// `liquid-decode TEXT`: the parts of a confidential address.
    LiquidDecode(&'a str),
}

impl<'a> LongCommand<'a> {
    /// Reads a line. Its words stand between single spaces, and none is empty.
    pub fn parse(line: &'a str) -> Option<LongCommand<'a>>
        ensures { Reads request_of_long (long_request_of line.now) result }
    {
        let (name, behind) = first_word(line)?;
        match name {
            "encode" => Some(LongCommand::Encode(Kind::Bytes, named_words(behind)?)),
            "encode-elements" => Some(LongCommand::Encode(Kind::Elements, named_words(behind)?)),
            "decode-strict" => Some(LongCommand::Decode(Kind::Bytes, named_word(behind)?)),
            "decode-elements" => Some(LongCommand::Decode(Kind::Elements, named_word(behind)?)),
            "liquid-encode" => Some(LongCommand::LiquidEncode(four_words(behind)?)),
            "liquid-decode" => Some(LongCommand::LiquidDecode(only_word(behind)?)),
            _ => None,
        }
    }
}
