//! Bytes as a word: `-` for no bytes, else a pair of hex digits for each.

ghost use Rattle.std.specs.Prelude.{◌≡◌, ◌+◌, ◌*◌, ◌/◌, ◌%◌, ◌<◌, ◌≤◌, ◌++◌, if◌then◌else◌, ℕ, List, length, take};
ghost use Rattle.std.specs.Prelude.{vec_len, vec_capacity, MatchResult, Some, None, true};
ghost use Rattle.std.specs.Char.{is_ascii_hexdigit};
ghost use Rattle.std.specs.List.{list_all};
ghost use Rattle.std.specs.Result.{result_ok};
ghost use Rattle.hex.specs.Hex.{decode_of, encode_lower};
ghost use Rattle.b32_replies.specs.Hex.{AreBytes, bytes_of, hex_of};

use crate::refusal::Refusal;
use line_program::append;

/// Puts the bytes of pairs of hex digits, in either case, and returns whether all are digits.
fn put_bytes(bytes: &mut [u8], digits: &str) -> bool
    requires { length digits.now ≡ 2 * length bytes.old }
    ensures { result_ok (decode_of digits.now) ≡ (if result then Some bytes.new else None) }
{
    hex::decode_to_slice(digits, bytes).is_ok()
}

/// Whether a byte is a hex digit, in either case.
fn is_digit(byte: u8) -> bool
    ensures { result ≡ is_ascii_hexdigit byte }
{
    let number = b'0' <= byte && byte <= b'9';
    let upper = b'A' <= byte && byte <= b'F';
    let lower = b'a' <= byte && byte <= b'f';
    number | upper | lower
}

/// Whether all are hex digits. All are tested, whatever they are: a branch at each would go the
/// wrong way where digits and letters take turns at random.
fn are_digits(word: &[u8]) -> bool
    ensures { result ≡ list_all is_ascii_hexdigit word.now }
{
    let mut all = true;
    for byte in word {
        all = all & is_digit(*byte);
    }
    all
}

/// How many bytes pairs of hex digits stand for.
fn size_of_digits(word: &str) -> Result<usize, Refusal>
    requires { length word.now % 2 ≡ 0 }
    ensures { MatchResult result
        (λ n. (n ≡ length word.now / 2)
        × (bytes : List ℕ) × (result_ok (decode_of word.now) ≡ Some bytes) × (n ≡ length bytes))
        (λ e. (e ≡ Refusal.BadHex) × (result_ok (decode_of word.now) ≡ None)) }
{
    if !are_digits(word.as_bytes()) {
        return Err(Refusal::BadHex);
    }
    Ok(word.len() / 2)
}

/// Puts the bytes that a word stands for at the front of the room, where they fit, and returns how
/// many they are. Digits of more bytes are tested alone.
pub fn put_bytes_of_word(word: &str, room: &mut [u8]) -> Result<usize, Refusal>
    ensures put { MatchResult result
        (λ n. (bytes : List ℕ) × (bytes_of word.now ≡ Some bytes) × (n ≡ length bytes)
        × (n ≤ length room.old → take n room.new ≡ bytes))
        (λ e. (e ≡ Refusal.BadHex) × (bytes_of word.now ≡ None)) }
    ensures size { length room.new ≡ length room.old }
{
    if word == "-" {
        return Ok(0);
    }
    let size = word.len() / 2;
    if 2 * size != word.len() {
        return Err(Refusal::BadHex);
    }
    if size > room.len() {
        return size_of_digits(word);
    }
    if !put_bytes(&mut room[..size], word) {
        return Err(Refusal::BadHex);
    }
    Ok(size)
}

/// Adds the word for bytes, in lower case.
pub fn append_hex(out: &mut Vec<u8>, bytes: &[u8])
    requires { vec_len out.old + (2 * length bytes.now + 1) ≤ vec_capacity out.old }
    ensures items { out.new.items ≡ out.old.items ++ hex_of bytes.now }
    ensures bytes { AreBytes bytes.now }
    ensures capacity { vec_capacity out.old ≤ vec_capacity out.new }
{
    if bytes.is_empty() {
        append(out, b"-");
        return;
    }
    let front = out.len();
    let Ok(()) = out.resize(front + 2 * bytes.len(), 0) else {
        unreachable!()
    };
    let Ok(()) = hex::encode_to_slice(bytes, &mut out.as_mut_slice()[front..]) else {
        unreachable!()
    };
}
