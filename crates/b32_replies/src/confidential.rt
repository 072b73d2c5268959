//! Answers `liquid-encode` and `liquid-decode`.

ghost use Rattle.std.specs.Prelude.{◌≡◌, ◌+◌, ◌*◌, ◌≤◌, ◌++◌, ◌∷◌, ℕ, List, codes, length, vec_len, vec_capacity, MatchResult, OnOk};
ghost use Rattle.blech32.specs.Words.{blech32_code};
ghost use Rattle.liquid.specs.Confidential.{IsLowerConfidential};
ghost use Rattle.liquid.specs.Writing.{IsVersionAndLength};
ghost use Rattle.line_program.specs.Added.{AddsAnyOrRefuses};
ghost use Rattle.b32_replies.specs.Hex.{AreBytes, hex_of};
ghost use Rattle.b32_replies.specs.Numbers.{number_of_reply};
ghost use Rattle.b32_replies.specs.Reply.{IsKeyWord, IsLiquidDecodeAnswer, IsLiquidEncodeAnswer, IsNoKey};

use crate::append::append_part;
use crate::hex_word::{append_hex, put_bytes_of_word};
use crate::part_word::part_of_word;
use crate::refusal::Refusal;
use crate::version_word::version_of_word;
use bech32::Fe32;
use bech32::primitives::segwit::MAX_PROGRAM_LENGTH;
use line_program::{append, append_number};
use liquid::{KEY_LENGTH, decode, put_address, validate};

// No address has more characters.
const MOST: usize = 201;

// The blinding key that a word is.
fn key_of_word(word: &str) -> Result<[u8; 33], Refusal>
    ensures { MatchResult result
        (λ key. IsKeyWord word.now key)
        (λ e. (e ≡ Refusal.BadHex) × IsNoKey word.now) }
{
    let mut key = [0u8; KEY_LENGTH];
    let size = put_bytes_of_word(word, &mut key)?;
    if size != KEY_LENGTH {
        return Err(Refusal::BadHex);
    }
    Ok(key)
}

// Adds `ok`, a space and the confidential address of a human-readable part, a version, a blinding
// key and a program.
fn append_address(out: &mut Vec<u8>, hrp: &[u8], version: Fe32, key: &[u8; 33], program: &[u8])
    requires short { length hrp.now ≤ 83 }
    requires lawful { IsVersionAndLength version (length program.now) }
    requires room { vec_len out.old + 205 ≤ vec_capacity out.old }
    ensures text { (text : List ℕ)
        × IsLowerConfidential blech32_code hrp.now version key.now program.now text
        × (out.new.items ≡ out.old.items ++ (codes "ok " ++ text)) }
    ensures room { vec_len out.new + 1 ≤ vec_capacity out.new }
    ensures capacity { vec_capacity out.old ≤ vec_capacity out.new }
{
    let mut text = [0u8; MOST];
    let size = put_address(hrp, version, key, program, &mut text);
    append(out, b"ok ");
    append(out, &text[..size]);
}

/// Adds the confidential address of a version, a blinding key and a program, or leaves all as it
/// was. It takes no memory.
pub fn liquid_encode(words: (&str, (&str, (&str, &str))), out: &mut Vec<u8>) -> Result<(), Refusal>
    requires { vec_len out.old + 2048 ≤ vec_capacity out.old }
    ensures answer { AddsAnyOrRefuses
        (IsLiquidEncodeAnswer words.entry.0.now words.entry.1.0.now
        words.entry.1.1.0.now words.entry.1.1.1.now)
        number_of_reply result out.old.items out.new.items }
    ensures room { OnOk result (vec_len out.new + 1 ≤ vec_capacity out.new) }
    ensures capacity { vec_capacity out.old ≤ vec_capacity out.new }
{
    let (hrp, (version, (key, hex))) = words;
    let Some(version) = version_of_word(version) else {
        return Err(Refusal::BadNumber);
    };
    let key = key_of_word(key)?;
    let mut room = [0u8; MAX_PROGRAM_LENGTH];
    let size = put_bytes_of_word(hex, &mut room)?;
    let hrp = part_of_word(hrp)?;
    if let Err(e) = validate(version, size) {
        return Err(Refusal::LiquidEncode(e));
    }
    append_address(out, hrp, version, &key, &room[..size]);
    Ok(())
}

// Adds a space and bytes as a word.
fn append_spaced(out: &mut Vec<u8>, bytes: &[u8])
    requires { vec_len out.old + (2 * length bytes.now + 2) ≤ vec_capacity out.old }
    ensures items { out.new.items ≡ out.old.items ++ (32 ∷ hex_of bytes.now) }
    ensures size { vec_len out.new ≤ vec_len out.old + (2 * length bytes.now + 2) }
    ensures bytes { AreBytes bytes.now }
    ensures capacity { vec_capacity out.old ≤ vec_capacity out.new }
{
    append(out, b" ");
    append_hex(out, bytes);
}

/// Adds the human-readable part, the version, the blinding key and the program of a confidential
/// address, or leaves all as it was. It takes no memory.
pub fn liquid_decode(text: &str, out: &mut Vec<u8>) -> Result<(), Refusal>
    requires { vec_len out.old + 2048 ≤ vec_capacity out.old }
    ensures answer { AddsAnyOrRefuses (IsLiquidDecodeAnswer text.now) number_of_reply result
        out.old.items out.new.items }
    ensures room { OnOk result (vec_len out.new + 1 ≤ vec_capacity out.new) }
    ensures capacity { vec_capacity out.old ≤ vec_capacity out.new }
{
    let address = match decode(text) {
        Ok(address) => address,
        Err(e) => return Err(Refusal::LiquidDecode(e)),
    };
    let hrp = address.hrp();
    append_part(out, &hrp);
    append_number(out, address.witness_version().to_u8());
    append_spaced(out, address.blinding_key());
    append_spaced(out, address.program());
    Ok(())
}
