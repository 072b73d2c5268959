//! Answers `encode-elements`.

ghost use Rattle.std.specs.Prelude.{◌≡◌, ◌+◌, ◌≤◌, ℕ, List, length, string_bytes, take, vec_len, vec_capacity};
ghost use Rattle.bech32_hrp.specs.HrpBytes.{hrp_bytes};
ghost use Rattle.b32_replies.specs.Numbers.{number_of_reply};
ghost use Rattle.line_program.specs.Added.{AddsOrRefuses};
ghost use Rattle.b32_replies.specs.Written.{IsTextOrRefusal};
ghost use Rattle.b32_replies.specs.Reply.{IsEncodeElementsAnswer};

use crate::encode::front_of;
use crate::hex_word::put_bytes_of_word;
use crate::long_command::Kind;
use crate::refusal::Refusal;
use bech32::{Checksum, Hrp};
use line_program::append;
use std::alloc::Allocator;

/// No text of 1,023 characters has more elements.
const ROOM: usize = 1023;

/// The text of this many elements at the front of a room, or why there is none. Of elements that do
/// not fit into the room, as many are too long as well.
fn text_of_front<Ck: Checksum, A: Allocator>(
    alloc: A,
    hrp: Hrp,
    room: &[u8],
    size: usize,
) -> Result<String<A>, Refusal>
    requires short { Ck.code.code_length ≤ 1023 }
    requires room { length room.now ≡ 1023 }
    ensures { (values : List ℕ) → size ≡ length values
        → (size ≤ length room.now → take size room.now ≡ values)
        → IsTextOrRefusal (λ s. string_bytes s) Kind.Elements Ck.code (hrp_bytes hrp) values
        result }
{
    Ok(bech32::encode_elements::<Ck, A>(alloc, hrp, front_of(room, size))?)
}

/// Adds the text of elements, or leaves all as it was. Memory is asked for only where there is a
/// text.
pub fn encode_elements<Ck: Checksum, A: Allocator + Copy>(
    alloc: A,
    hrp: &str,
    hex: &str,
    out: &mut Vec<u8>,
) -> Result<(), Refusal>
    requires short { Ck.code.code_length ≤ 1023 }
    requires room { vec_len out.old + 2047 ≤ vec_capacity out.old }
    ensures answer { AddsOrRefuses (IsEncodeElementsAnswer Ck.code hrp.now hex.now)
        number_of_reply result out.old.items out.new.items }
    ensures capacity { vec_capacity out.old ≤ vec_capacity out.new }
{
    let mut room = [0u8; ROOM];
    let size = put_bytes_of_word(hex, &mut room)?;
    let hrp = Hrp::parse(hrp)?;
    let text = text_of_front::<Ck, A>(alloc, hrp, &room, size)?;
    append(out, b"ok ");
    append(out, text.as_bytes());
    Ok(())
}
