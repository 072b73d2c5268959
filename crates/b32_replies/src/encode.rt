//! Answers `encode`.

ghost use Rattle.std.specs.Prelude.{◌≡◌, ◌+◌, ◌<◌, ◌≤◌, ◌++◌, ℕ, List, length, option_to_list, take, vec_len, vec_capacity, IfOk, MatchResult};
ghost use Rattle.bech32_bits.specs.Bits.{to_fes};
ghost use Rattle.bech32_checksum.specs.Encoded.{IsEncodedText};
ghost use Rattle.bech32_encode.specs.TextLength.{encoded_length_of};
ghost use Rattle.b32_replies.specs.Numbers.{number_of_reply};
ghost use Rattle.line_program.specs.Added.{AddsOrRefuses};
ghost use Rattle.b32_replies.specs.Reply.{IsEncodeAnswer};

use crate::hex_word::put_bytes_of_word;
use crate::part_word::part_of_word;
use crate::refusal::Refusal;
use bech32::primitives::decode::CodeLengthError;
use bech32::primitives::encode::{put_text_of_part, text_length_of_part};
use bech32::{Checksum, EncodeError, Fe32};
use line_program::append;

/// No text of 1,023 characters has more bytes.
const ROOM: usize = 640;

/// This many bytes at the front of a room, or all of it, where they are more.
pub(crate) fn front_of(room: &[u8], size: usize) -> &[u8]
    ensures fits { size ≤ length room.now → result.now ≡ take size room.now }
    ensures whole { length room.now < size → result.now ≡ room.now }
{
    if size <= room.len() {
        &room[..size]
    } else {
        room
    }
}

/// The length of the text of this many bytes, where the checksum allows as much.
fn length_of<Ck: Checksum>(hrp: &[u8], size: usize) -> Result<usize, Refusal>
    requires { Ck.code.code_length ≤ 1023 }
    ensures value { (bytes : List ℕ) → size ≡ length bytes → MatchResult result
        (λ n. (n ≡ encoded_length_of Ck.code hrp.now (to_fes bytes))
        × (n ≤ Ck.code.code_length))
        (λ e. (Ck.code.code_length < encoded_length_of Ck.code hrp.now (to_fes bytes))
        × (number_of_reply e ≡ 51)) }
    ensures fits { IfOk result (λ n. (n ≤ 1023) × (size ≤ 640)) }
{
    let count = text_length_of_part::<Ck>(hrp, size);
    if count > Ck::CODE_LENGTH {
        return Err(Refusal::Encode(EncodeError::TooLong(CodeLengthError {
            encoded_length: count,
            code_length: Ck::CODE_LENGTH,
        })));
    }
    Ok(count)
}

/// Puts the text of a witness version, where there is one, and bytes into a buffer that has just
/// its length.
fn put_whole_text<Ck: Checksum>(hrp: &[u8], version: Option<Fe32>, bytes: &[u8], buffer: &mut [u8])
    requires size { length buffer.old ≡ encoded_length_of Ck.code hrp.now
        (option_to_list version ++ to_fes bytes.now) }
    requires short { length buffer.old ≤ 1023 }
    ensures { IsEncodedText Ck.code hrp.now
        (option_to_list version ++ to_fes bytes.now) buffer.new }
{
    put_text_of_part::<Ck>(hrp, version, bytes, buffer);
}

/// Adds the text of a witness version, where there is one, and bytes, which has this length.
pub(crate) fn append_text<Ck: Checksum>(
    out: &mut Vec<u8>,
    hrp: &[u8],
    version: Option<Fe32>,
    bytes: &[u8],
    count: usize,
)
    requires size { count ≡ encoded_length_of Ck.code hrp.now
        (option_to_list version ++ to_fes bytes.now) }
    requires short { count ≤ 1023 }
    requires room { vec_len out.old + count ≤ vec_capacity out.old }
    ensures text { (text : List ℕ)
        × IsEncodedText Ck.code hrp.now
        (option_to_list version ++ to_fes bytes.now) text
        × (out.new.items ≡ out.old.items ++ text) }
    ensures capacity { vec_capacity out.old ≤ vec_capacity out.new }
{
    let front = out.len();
    let Ok(()) = out.resize(front + count, 0) else {
        unreachable!()
    };
    put_whole_text::<Ck>(hrp, version, bytes, &mut out.as_mut_slice()[front..]);
}

/// Adds the text of bytes under a human-readable part, or leaves all as it was.
pub fn encode<Ck: Checksum>(hrp: &str, hex: &str, out: &mut Vec<u8>) -> Result<(), Refusal>
    requires short { Ck.code.code_length ≤ 1023 }
    requires room { vec_len out.old + 2047 ≤ vec_capacity out.old }
    ensures answer { AddsOrRefuses (IsEncodeAnswer Ck.code hrp.now hex.now) number_of_reply result
        out.old.items out.new.items }
    ensures capacity { vec_capacity out.old ≤ vec_capacity out.new }
{
    let mut room = [0u8; ROOM];
    let size = put_bytes_of_word(hex, &mut room)?;
    let hrp = part_of_word(hrp)?;
    let count = length_of::<Ck>(hrp, size)?;
    append(out, b"ok ");
    append_text::<Ck>(out, hrp, None, &room[..size], count);
    Ok(())
}
