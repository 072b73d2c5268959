//! Answers the commands of long texts.

ghost use Rattle.std.specs.Prelude.{◌≡◌, ◌+◌, ◌≤◌, ◌++◌, ◌∷◌, ℕ, List, codes, if◌then◌else◌, is_ok, length, string_bytes, take, vec_len, vec_capacity, Err, MatchResult, Ok, OnOk};
ghost use Rattle.bech32_hrp.specs.Hrp.{lowered};
ghost use Rattle.bech32_hrp.specs.HrpBytes.{hrp_bytes};
ghost use Rattle.line_program.specs.Added.{AddsAnyOrRefuses};
ghost use Rattle.b32_replies.specs.Hex.{hex_of};
ghost use Rattle.b32_replies.specs.LongRequest.{code_of_long};
ghost use Rattle.b32_replies.specs.Numbers.{number_of_reply};
ghost use Rattle.b32_replies.specs.Reply.{IsLongDecodeAnswer, IsLongEncodeAnswer, IsNotRead, IsNotWritten, IsLongRead, IsLongWritten, memory_refusal};
ghost use Rattle.b32_replies.specs.Written.{IsTextOrRefusal};
ghost use Rattle.bech32.specs.Long.{max_long_text_length};

use crate::append::append_part;
use crate::encode::front_of;
use crate::hex_word::{append_hex, put_bytes_of_word};
use crate::long_command::{Kind, LongChecksum};
use crate::part_word::part_of_word;
use crate::refusal::Refusal;
use bech32::{
    ElementsError, EncodeError, Hrp, LongBech32, LongBech32m, MAX_LONG_TEXT_LENGTH, TextError,
    decode_elements, decode_strict, encode_elements, encode_in,
};
use line_program::append;
use std::alloc::{AllocError, Allocator};

// Adds `ok`, a space and a text, and keeps room for one byte more, or leaves all as it was where
// there is no memory.
fn append_said(out: &mut Vec<u8>, text: &[u8]) -> Result<(), AllocError>
    ensures items { out.new.items
        ≡ (if is_ok result then out.old.items ++ (codes "ok " ++ text.now) else out.old.items) }
    ensures room { OnOk result (vec_len out.new + 1 ≤ vec_capacity out.new) }
    ensures capacity { vec_capacity out.old ≤ vec_capacity out.new }
{
    let Some(size) = text.len().checked_add(4) else {
        return Err(AllocError);
    };
    out.reserve(size)?;
    append(out, b"ok ");
    append(out, text);
    Ok(())
}

// Adds `ok`, a human-readable part in lower case, and bytes as a word, and keeps room for one byte
// more, or leaves all as it was where there is no memory.
fn append_parts(out: &mut Vec<u8>, hrp: &Hrp, bytes: &[u8]) -> Result<(), AllocError>
    ensures items { out.new.items ≡ (if is_ok result
        then out.old.items ++ (codes "ok "
        ++ (lowered (hrp_bytes hrp.now) ++ (32 ∷ hex_of bytes.now)))
        else out.old.items) }
    ensures room { OnOk result (vec_len out.new + 1 ≤ vec_capacity out.new) }
    ensures capacity { vec_capacity out.old ≤ vec_capacity out.new }
{
    let Some(digits) = bytes.len().checked_mul(2) else {
        return Err(AllocError);
    };
    let Some(size) = digits.checked_add(hrp.as_bytes().len() + 6) else {
        return Err(AllocError);
    };
    out.reserve(size)?;
    append_part(out, hrp);
    append_hex(out, bytes);
    Ok(())
}

// A text, or why it is not written.
fn told<A: Allocator>(text: Result<String<A>, EncodeError>) -> Result<String<A>, Refusal>
    ensures { MatchResult text
        (λ s. result ≡ Ok s)
        (λ e. result ≡ Err (Refusal.Encode e)) }
{
    match text {
        Ok(text) => Ok(text),
        Err(e) => Err(Refusal::Encode(e)),
    }
}

// The text of a human-readable part and data by the checksum of this name.
fn written<A: Allocator>(
    alloc: A,
    kind: Kind,
    checksum: LongChecksum,
    hrp: Hrp,
    values: &[u8],
) -> Result<String<A>, Refusal>
    ensures { MatchResult result
        (λ s. IsLongWritten kind (code_of_long checksum) (hrp_bytes hrp) values.now
        (string_bytes s))
        (λ e. IsNotWritten kind (code_of_long checksum) (hrp_bytes hrp) values.now e) }
{
    match kind {
        Kind::Bytes => match checksum {
            LongChecksum::LongBech32 => told(encode_in::<LongBech32, A>(alloc, hrp, values)),
            LongChecksum::LongBech32m => told(encode_in::<LongBech32m, A>(alloc, hrp, values)),
        },
        Kind::Elements => match checksum {
            LongChecksum::LongBech32 => Ok(encode_elements::<LongBech32, A>(alloc, hrp, values)?),
            LongChecksum::LongBech32m => {
                Ok(encode_elements::<LongBech32m, A>(alloc, hrp, values)?)
            }
        },
    }
}

// The text of this many numbers at the front of a room, or why there is none. Of numbers that do
// not fit into the room, as many are too long as well.
fn written_of_front<A: Allocator>(
    alloc: A,
    kind: Kind,
    asked: (LongChecksum, Hrp),
    room: &[u8],
    size: usize,
) -> Result<String<A>, Refusal>
    requires { length room.now ≡ max_long_text_length }
    ensures { (values : List ℕ) → size ≡ length values
        → (size ≤ length room.now → take size room.now ≡ values)
        → IsTextOrRefusal (λ s. string_bytes s) kind (code_of_long asked.0)
        (hrp_bytes asked.1) values result }
{
    let (checksum, hrp) = asked;
    written(alloc, kind, checksum, hrp, front_of(room, size))
}

// What a text is the only one of by the checksum of this name.
fn read<A: Allocator>(
    alloc: A,
    kind: Kind,
    asked: (LongChecksum, &str),
) -> Result<(Hrp, Vec<u8, A>), TextError>
    ensures { MatchResult result
        (λ d. IsLongRead kind (code_of_long asked.entry.0) asked.entry.1.now
        (hrp_bytes d.0) d.1.items)
        (λ e. IsNotRead kind (code_of_long asked.entry.0) asked.entry.1.now e) }
{
    let (checksum, text) = asked;
    match kind {
        Kind::Bytes => match checksum {
            LongChecksum::LongBech32 => decode_strict::<LongBech32, A>(alloc, text),
            LongChecksum::LongBech32m => decode_strict::<LongBech32m, A>(alloc, text),
        },
        Kind::Elements => match checksum {
            LongChecksum::LongBech32 => decode_elements::<LongBech32, A>(alloc, text),
            LongChecksum::LongBech32m => decode_elements::<LongBech32m, A>(alloc, text),
        },
    }
}

/// Adds the text of data under a human-readable part, or leaves all as it was. Memory is asked for
/// only where there is a text.
pub fn encode_long<A: Allocator + Copy>(
    alloc: A,
    kind: Kind,
    asked: (LongChecksum, (&str, &str)),
    out: &mut Vec<u8>,
) -> Result<(), Refusal>
    ensures answer { AddsAnyOrRefuses
        (IsLongEncodeAnswer kind (code_of_long asked.entry.0)
        asked.entry.1.0.now asked.entry.1.1.now)
        number_of_reply result out.old.items out.new.items }
    ensures room { OnOk result (vec_len out.new + 1 ≤ vec_capacity out.new) }
    ensures capacity { vec_capacity out.old ≤ vec_capacity out.new }
{
    let (checksum, (hrp, hex)) = asked;
    let mut room = [0u8; MAX_LONG_TEXT_LENGTH];
    let size = put_bytes_of_word(hex, &mut room)?;
    let hrp = Hrp::of_bytes(part_of_word(hrp)?);
    let text = written_of_front(alloc, kind, (checksum, hrp), &room, size)?;
    match append_said(out, text.as_bytes()) {
        Ok(()) => Ok(()),
        Err(_) => Err(no_memory(kind)),
    }
}

// The refusal of a text for which there is no memory.
fn no_memory(kind: Kind) -> Refusal
    ensures { result ≡ memory_refusal kind }
{
    match kind {
        Kind::Bytes => Refusal::Encode(EncodeError::Memory),
        Kind::Elements => Refusal::Elements(ElementsError::Memory),
    }
}

/// Adds the human-readable part and the data of a text that is the only one of them, or leaves all
/// as it was.
pub fn decode_long<A: Allocator + Copy>(
    alloc: A,
    kind: Kind,
    asked: (LongChecksum, &str),
    out: &mut Vec<u8>,
) -> Result<(), Refusal>
    ensures answer { AddsAnyOrRefuses
        (IsLongDecodeAnswer kind (code_of_long asked.entry.0) asked.entry.1.now)
        number_of_reply result out.old.items out.new.items }
    ensures room { OnOk result (vec_len out.new + 1 ≤ vec_capacity out.new) }
    ensures capacity { vec_capacity out.old ≤ vec_capacity out.new }
{
    let (hrp, values) = read(alloc, kind, asked)?;
    let Ok(()) = append_parts(out, &hrp, values.as_slice()) else {
        return Err(Refusal::Text(TextError::Memory));
    };
    Ok(())
}
