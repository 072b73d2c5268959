//! Answers `share`.

ghost use Rattle.std.specs.Prelude.{◌≡◌, ◌+◌, ◌≤◌, ◌++◌, vec_len, vec_capacity};
ghost use Rattle.codex32.specs.Header.{identifier_of_header, share_index_of_header, threshold_of_header};
ghost use Rattle.c32_replies.specs.Numbers.{number_of_codex32_reply};
ghost use Rattle.c32_replies.specs.Reply.{AddsAnswer, IsShareAnswer, header_words};

use crate::refusal::Refusal;
use b32_replies::hex_word::append_hex;
use codex32::{Header, Share};
use line_program::append;

// The most bytes that a payload has.
const ROOM: usize = 64;

// Adds the words for a header, with a space behind each.
fn append_header(header: Header, out: &mut Vec<u8>)
    requires { vec_len out.old + 9 ≤ vec_capacity out.old }
    ensures items { out.new.items ≡ out.old.items ++ header_words (threshold_of_header header)
        (identifier_of_header header) (share_index_of_header header) }
    ensures capacity { vec_capacity out.old ≤ vec_capacity out.new }
{
    // All are ASCII characters: the casts are proved to lose nothing.
    let threshold = header.threshold().to_char() as u8;
    let share_index = header.share_index().to_char() as u8;
    let [a, b, c, d] = header.identifier().elements();
    let (a, b) = (a.to_char() as u8, b.to_char() as u8);
    let (c, d) = (c.to_char() as u8, d.to_char() as u8);
    append(out, &[threshold, b' ', a, b, c, d, b' ', share_index, b' ']);
}

/// Adds the header and the bytes of a string of either length, in lower case, or leaves all as it
/// was.
pub fn share(text: &str, out: &mut Vec<u8>) -> Result<(), Refusal>
    requires { vec_len out.old + 2047 ≤ vec_capacity out.old }
    ensures { AddsAnswer (IsShareAnswer text.now) number_of_codex32_reply result out.old out.new }
{
    let share = Share::parse(text)?;
    let count = share.byte_count()?;
    let mut room = [0u8; ROOM];
    share.put_bytes(&mut room);
    append(out, b"ok ");
    append_header(share.header(), out);
    append_hex(out, &room[..count]);
    Ok(())
}
