//! Answers `encode`.

ghost use Rattle.std.specs.Prelude.{◌≡◌, ◌⊎◌, ◌+◌, ◌≤◌, vec_len, vec_capacity, MatchResult, string_bytes};
ghost use Rattle.line_program.specs.Added.{AddsOrRefuses};
ghost use Rattle.c32_replies.specs.Numbers.{number_of_codex32_reply};
ghost use Rattle.c32_replies.specs.Reply.{IsEncodeStringAnswer};

use crate::refusal::Refusal;
use crate::reply::Commands;
use b32_replies::hex_word::put_bytes_of_word;
use codex32::{EncodeError, Header, encode};
use line_program::append;
use std::alloc::Allocator;

// The most bytes that a string is made of.
const ROOM: usize = 64;

impl<A: Allocator + Copy> Commands<A> {
    /// Adds the string of a header and bytes, or leaves all as it was.
    pub(crate) fn encode(
        &self,
        header: (&str, &str, &str),
        hex: &str,
        out: &mut Vec<u8>,
    ) -> Result<(), Refusal>
        requires { vec_len out.old + 2047 ≤ vec_capacity out.old }
        ensures answer { AddsOrRefuses
            (IsEncodeStringAnswer header.entry.0.now header.entry.1.now header.entry.2.now hex.now)
            number_of_codex32_reply result out.old.items out.new.items }
        ensures capacity { vec_capacity out.old ≤ vec_capacity out.new }
    {
        let mut room = [0u8; ROOM];
        let Ok(size) = put_bytes_of_word(hex, &mut room) else {
            return Err(Refusal::BadHex);
        };
        let header = Header::parse(header.0, header.1, header.2)?;
        if size > ROOM {
            return Err(Refusal::Encode(EncodeError::Size));
        }
        let text = encode(self.alloc, &header, &room[..size])?;
        append(out, b"ok ");
        append(out, text.as_bytes());
        Ok(())
    }
}
