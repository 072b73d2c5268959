//! Answers `decode-strict` and `decode-elements`.

ghost use Rattle.std.specs.Prelude.{◌+◌, ◌≤◌, length, vec_len, vec_capacity, MatchResult};
ghost use Rattle.bech32_hrp.specs.HrpBytes.{hrp_bytes};
ghost use Rattle.b32_replies.specs.Contents.{IsDecodeByAnswer, IsDecodeByRefusal, IsDecodedTo};
ghost use Rattle.b32_replies.specs.Numbers.{number_of_reply};
ghost use Rattle.b32_replies.specs.Request.{code_of_name};
ghost use Rattle.line_program.specs.Added.{AddsOrRefuses};

use crate::append::append_decoded;
use crate::command::ChecksumName;
use crate::refusal::Refusal;
use bech32::{Bech32, Bech32m, Checksum, Hrp, TextError, decode_elements, decode_strict};
use std::alloc::Allocator;

/// What a text is decoded to.
#[derive(Clone, Copy, Debug)]
pub enum Content {
    /// Bytes, of which it is the only text.
    Bytes,
    /// Elements, a byte from 0 to 31 each.
    Elements,
}

// The human-readable part and the content of a text, or why it is not decoded.
#[inline(always)]
fn decoded<Ck: Checksum, A: Allocator>(
    alloc: A,
    text: &str,
    content: Content,
) -> Result<(Hrp, Vec<u8, A>), TextError>
    ensures { MatchResult result
        (λ d. IsDecodedTo content Ck.code text.now (hrp_bytes d.0) d.1.items)
        (λ e. IsDecodeByRefusal content Ck.code text.now e) }
{
    match content {
        Content::Bytes => decode_strict::<Ck, A>(alloc, text),
        Content::Elements => decode_elements::<Ck, A>(alloc, text),
    }
}

// Adds the human-readable part and the content of a text by one checksum, or leaves all as it was.
fn decode_content<Ck: Checksum, A: Allocator + Copy>(
    alloc: A,
    text: &str,
    content: Content,
    out: &mut Vec<u8>,
) -> Result<(), Refusal>
    requires short { Ck.code.code_length ≤ 1023 }
    requires checked { 6 ≤ length Ck.code.generator }
    requires room { vec_len out.old + 2047 ≤ vec_capacity out.old }
    ensures answer { AddsOrRefuses (IsDecodeByAnswer content Ck.code text.now)
        number_of_reply result out.old.items out.new.items }
    ensures capacity { vec_capacity out.old ≤ vec_capacity out.new }
{
    let (hrp, items) = decoded::<Ck, A>(alloc, text, content)?;
    append_decoded(out, &hrp, items.as_slice());
    Ok(())
}

/// Adds the human-readable part and the content of a text by the checksum of this name, or leaves
/// all as it was.
pub fn decode_by<A: Allocator + Copy>(
    alloc: A,
    checksum: ChecksumName,
    text: &str,
    content: Content,
    out: &mut Vec<u8>,
) -> Result<(), Refusal>
    requires { vec_len out.old + 2047 ≤ vec_capacity out.old }
    ensures answer { AddsOrRefuses (IsDecodeByAnswer content (code_of_name checksum) text.now)
        number_of_reply result out.old.items out.new.items }
    ensures capacity { vec_capacity out.old ≤ vec_capacity out.new }
{
    match checksum {
        ChecksumName::Bech32 => decode_content::<Bech32, A>(alloc, text, content, out),
        ChecksumName::Bech32m => decode_content::<Bech32m, A>(alloc, text, content, out),
    }
}
