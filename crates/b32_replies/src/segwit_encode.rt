//! Answers `segwit-encode`.

ghost use Rattle.std.specs.Prelude.{◌≡◌, ◌+◌, ◌<◌, ◌≤◌, ◌∷◌, ◌++◌, ℕ, List, Some, length, vec_len, vec_capacity, MatchResult};
ghost use Rattle.bech32_bits.specs.Bits.{to_fes};
ghost use Rattle.bech32_checksum.specs.Encoded.{IsEncodedText};
ghost use Rattle.bech32_decode.specs.Segwit.{segwit_code};
ghost use Rattle.bech32_segwit.specs.SegwitEncoding.{HasAddress, address_length};
ghost use Rattle.bech32_segwit.specs.declared.error.EncodeError.{EncodeError};
ghost use Rattle.b32_replies.specs.Hex.{bytes_of};
ghost use Rattle.b32_replies.specs.Numbers.{number_of_reply};
ghost use Rattle.line_program.specs.Added.{AddsOrRefuses};
ghost use Rattle.b32_replies.specs.Reply.{IsEncodedAddressFault, IsSegwitEncodeAnswer, IsVersionWord};
ghost use Rattle.bech32_refusals.specs.SegwitRules.{max_address_length, max_program_length};

use crate::encode::append_text;
use crate::hex_word::put_bytes_of_word;
use crate::part_word::part_of_word;
use crate::refusal::Refusal;
use crate::version_word::version_of_word;
use bech32::primitives::segwit::{
    MAX_PROGRAM_LENGTH, WitnessLengthError, validate_witness_version,
};
use bech32::{Bech32, Bech32m, Fe32, segwit};
use line_program::append;

/// The length of the address of a program, where there is one.
fn length_of(hrp: &[u8], version: Fe32, program: &[u8]) -> Result<usize, Refusal>
    ensures { MatchResult result
        (λ n. HasAddress hrp.now version program.now
        × (n ≡ address_length hrp.now program.now) × (n ≤ max_address_length))
        (λ refusal. (e : EncodeError) × (refusal ≡ Refusal.SegwitEncode e)
        × IsEncodedAddressFault hrp.now version program.now e) }
{
    match segwit::address_length_of_part(hrp, version, program) {
        Ok(count) => Ok(count),
        Err(e) => Err(Refusal::SegwitEncode(e)),
    }
}

/// Why there is no address of a program that does not fit into the room.
fn refusal_of_long(version: Fe32) -> Refusal
    ensures { (hrp program : List ℕ) → max_program_length < length program
        → (e : EncodeError) × (result ≡ Refusal.SegwitEncode e)
        × IsEncodedAddressFault hrp version program e }
{
    if let Err(e) = validate_witness_version(version) {
        return Refusal::SegwitEncode(segwit::EncodeError::WitnessVersion(e));
    }
    Refusal::SegwitEncode(segwit::EncodeError::WitnessLength(WitnessLengthError::TooLong))
}

/// Adds the text of a program by the checksum of its version, which has this length.
fn append_by_version(out: &mut Vec<u8>, hrp: &[u8], version: Fe32, program: &[u8], count: usize)
    requires size { count ≡ address_length hrp.now program.now }
    requires short { count ≤ max_address_length }
    requires room { vec_len out.old + count ≤ vec_capacity out.old }
    ensures text { (text : List ℕ)
        × IsEncodedText (segwit_code version) hrp.now
        (version ∷ to_fes program.now) text
        × (out.new.items ≡ out.old.items ++ text) }
    ensures capacity { vec_capacity out.old ≤ vec_capacity out.new }
{
    if version == segwit::VERSION_0 {
        append_text::<Bech32>(out, hrp, Some(version), program, count);
    } else {
        append_text::<Bech32m>(out, hrp, Some(version), program, count);
    }
}

/// Adds the segwit address of a program, or leaves all as it was.
fn append_address(
    hrp: &str,
    version: Fe32,
    program: &[u8],
    out: &mut Vec<u8>,
) -> Result<(), Refusal>
    requires { vec_len out.old + 2047 ≤ vec_capacity out.old }
    ensures answer { (word hex : List ℕ) → IsVersionWord word version
        → bytes_of hex ≡ Some program.now
        → AddsOrRefuses (IsSegwitEncodeAnswer hrp.now word hex) number_of_reply
        result out.old.items out.new.items }
    ensures capacity { vec_capacity out.old ≤ vec_capacity out.new }
{
    let hrp = part_of_word(hrp)?;
    let count = length_of(hrp, version, program)?;
    append(out, b"ok ");
    append_by_version(out, hrp, version, program, count);
    Ok(())
}

/// Adds the segwit address of a program, or leaves all as it was. It takes no memory.
pub fn segwit_encode(hrp: &str, version: &str, hex: &str, out: &mut Vec<u8>) -> Result<(), Refusal>
    requires { vec_len out.old + 2047 ≤ vec_capacity out.old }
    ensures answer { AddsOrRefuses (IsSegwitEncodeAnswer hrp.now version.now hex.now)
        number_of_reply result out.old.items out.new.items }
    ensures capacity { vec_capacity out.old ≤ vec_capacity out.new }
{
    let Some(version) = version_of_word(version) else {
        return Err(Refusal::BadNumber);
    };
    let mut room = [0u8; MAX_PROGRAM_LENGTH];
    let size = put_bytes_of_word(hex, &mut room)?;
    if size > MAX_PROGRAM_LENGTH {
        part_of_word(hrp)?;
        return Err(refusal_of_long(version));
    }
    append_address(hrp, version, &room[..size], out)
}
