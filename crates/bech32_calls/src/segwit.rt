//! Encodes and decodes segwit addresses.

ghost use Rattle.std.specs.Prelude.{◌≡◌, ◌≤◌, ◌<◌, ◌∷◌, ℕ, List, length, IfOk, IfErr, MatchResult, OnErr};
ghost use Rattle.bech32_gf.specs.Fe32.{value};
ghost use Rattle.bech32_bits.specs.Bits.{to_fes};
ghost use Rattle.bech32_checksum.specs.Encoded.{IsEncodedText};
ghost use Rattle.bech32_decode.specs.Bytes.{IsBytesFault};
ghost use Rattle.bech32_decode.specs.Segwit.{segwit_code};
ghost use Rattle.bech32_decode.specs.SegwitParts.{IsReadIn};
ghost use Rattle.bech32_segwit.specs.SegwitEncoding.{address_length};
ghost use Rattle.bech32_encode.specs.Buffers.{IsPut};
ghost use Rattle.bech32_calls.specs.Segwit.{PutsAddress, IsSegwitEncodeFault};
ghost use Rattle.bech32_calls.specs.Segwit.{PutsProgram, IsSegwitDecodeFault};
ghost use Rattle.bech32_refusals.specs.SegwitRules.{max_address_length};

use crate::decode::put_parts;
use crate::encode::put_in_room;
use crate::input::{element_of, test_part};
use crate::refusal::Refusal;
use bech32::primitives::decode::SegwitHrpstringError;
use bech32::primitives::segwit::{MAX_STRING_LENGTH, VERSION_0};
use bech32::segwit::address_length_of_part;
use bech32::{Bech32, Bech32m, Fe32};
use bech32_decode::{AddressData, BytesError, Reading, text_of};

// Puts the text of a version and a program by the checksum of the version.
fn put_address(part: &[u8], version: Fe32, program: &[u8], text: &mut [u8]) -> usize
    requires { address_length part.now program.now ≤ length text.old }
    ensures { (written : List ℕ)
        × IsEncodedText (segwit_code version) part.now
        (version ∷ to_fes program.now) written
        × IsPut written text.old text.new result }
{
    if version == VERSION_0 {
        put_in_room::<Bech32>(part, Some(version), program, text)
    } else {
        put_in_room::<Bech32m>(part, Some(version), program, text)
    }
}

/// Puts the segwit address of a witness version from 0 to 16 and a program, in lower case, at the
/// front of a buffer, and returns its length, at most [`MAX_STRING_LENGTH`].
///
/// # Errors
///
/// The first of: a version above 31; a human-readable part that is not UTF-8, or is none; a version
/// above 16; a program of less than 2 bytes, of more than 40, or of neither 20 nor 32 in version 0;
/// an address of more than [`MAX_STRING_LENGTH`] characters, or of more than the buffer has room
/// for.
pub fn encoded(hrp: &[u8], version: u32, program: &[u8], text: &mut [u8]) -> Result<usize, Refusal>
    ensures value { IfOk result
        (λ count. PutsAddress hrp.now version program.now text.old text.new count) }
    ensures refused { IfErr result
        (λ e. IsSegwitEncodeFault hrp.now version program.now (length text.old) e) }
    ensures same { OnErr result (text.new ≡ text.old) }
{
    let element = element_of(version)?;
    test_part(hrp)?;
    let size = match address_length_of_part(hrp, element, program) {
        Ok(size) => size,
        Err(e) => return Err(Refusal::NoAddress(e)),
    };
    if size > text.len() {
        return Err(Refusal::NoRoom);
    }
    Ok(put_address(hrp, element, program, text))
}

// Why a text of more than `MAX_STRING_LENGTH` characters is no address. Out of line: few texts come
// here.
#[cold]
#[inline(never)]
fn refusal_of_long(text: &[u8]) -> Refusal
    requires { max_address_length < length text.now }
    ensures { (m n : ℕ) → IsSegwitDecodeFault text.now m n result }
{
    match text_of(text) {
        Ok(_) => Refusal::Address(SegwitHrpstringError::TooLong(text.len())),
        Err(_) => Refusal::NotUtf8,
    }
}

// Why bytes, at most `MAX_STRING_LENGTH`, that are not read are no address.
#[inline(always)]
fn refusal_of_unread(error: BytesError) -> Refusal
    ensures { (text : List ℕ) → length text ≤ max_address_length → IsBytesFault text error
        → (m n : ℕ) → IsSegwitDecodeFault text m n result }
{
    match error {
        BytesError::Text(e) => Refusal::Address(SegwitHrpstringError::Unchecked(e)),
        BytesError::NotUtf8 => Refusal::NotUtf8,
    }
}

// Reads the text of bytes that may be an address: they are at most `MAX_STRING_LENGTH`.
#[inline(always)]
fn read_short(text: &[u8]) -> Result<Reading<'_, Bech32m>, Refusal>
    ensures { MatchResult result
        (λ r. (r.text.now ≡ text.now) × (length text.now ≤ max_address_length))
        (λ e. (m n : ℕ) → IsSegwitDecodeFault text.now m n e) }
{
    if text.len() > MAX_STRING_LENGTH {
        return Err(refusal_of_long(text));
    }
    match Reading::<Bech32m>::from_bytes(text) {
        Ok(reading) => Ok(Reading {
            text,
            hrp: reading.hrp,
            data_part: reading.data_part,
            residue: reading.residue,
        }),
        Err(error) => Err(refusal_of_unread(error)),
    }
}

/// Puts the human-readable part, in the case of the text, and the program of a segwit address at
/// the fronts of two buffers, and returns the length of the one, at most 83, the witness version, 0
/// to 16, and the length of the other, at most 40.
///
/// # Errors
///
/// The first of: a text that is not UTF-8; its first fault; a buffer that is too small.
// In line, where two crates call it: what was read is then in registers, and no result is cleared.
#[inline(always)]
pub fn decoded(
    text: &[u8],
    hrp: &mut [u8],
    program: &mut [u8],
) -> Result<(usize, Fe32, usize), Refusal>
    ensures value { IfOk result
        (λ n. PutsProgram text.now hrp.old hrp.new program.old program.new n.0 (value n.1) n.2) }
    ensures refused { IfErr result
        (λ e. IsSegwitDecodeFault text.now (length hrp.old) (length program.old) e) }
    ensures same { OnErr result ((hrp.new ≡ hrp.old) × (program.new ≡ program.old)) }
{
    let reading = read_short(text)?;
    let address = reading.short_address()?;
    let (part, count) = put_parts(reading.hrp, address.program, hrp, program)?;
    Ok((part, address.version, count))
}

/// Reads a segwit address, and returns its human-readable part, in the case of the text, and its
/// data. It borrows the text.
///
/// # Errors
///
/// The first of: a text that is not UTF-8; its first fault.
// In line, as what is below it: what was read is then in registers, and no result is cleared.
#[inline(always)]
pub fn address_in(text: &[u8]) -> Result<(&[u8], AddressData<'_>), Refusal>
    ensures { MatchResult result
        (λ a. IsReadIn segwit_code text.now a.0.now a.1.version a.1.program.now)
        (λ e. (m n : ℕ) → IsSegwitDecodeFault text.now m n e) }
{
    let reading = read_short(text)?;
    let address = reading.short_address()?;
    Ok((reading.hrp, address))
}
