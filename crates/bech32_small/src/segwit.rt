//! Encodes and decodes segwit addresses.

ghost use Rattle.std.specs.Prelude.{◌≡◌, ◌≤◌, ◌<◌, ℕ, length, IfOk, IfErr, MatchResult, OnErr};
ghost use Rattle.bech32_gf.specs.Fe32.{value};
ghost use Rattle.bech32_decode.specs.Segwit.{segwit_code};
ghost use Rattle.bech32_calls.specs.Faults.{IsNumberOf};
ghost use Rattle.bech32_calls.specs.Segwit.{PutsAddress, IsSegwitEncodeFault};
ghost use Rattle.bech32_calls.specs.Segwit.{PutsProgram, IsSegwitDecodeFault};
ghost use Rattle.bech32_small.specs.Target.{PacksTarget};
ghost use Rattle.bech32_refusals.specs.SegwitRules.{max_address_length};

use crate::checksum::{ADDRESS_TOO_LONG, BAD_NUMBER, BECH32M_TARGET, NO_ROOM, NOT_UTF8, TARGET};
use crate::decode::put_parts;
use crate::input::{element_of, read, test_part, text_of};
use crate::text::put_in_room;
use bech32::primitives::segwit::{MAX_STRING_LENGTH, VERSION_0};
use bech32::segwit::address_length_of_part;
use bech32::{Bech32m, Fe32};
use bech32_calls::refusal::Refusal;
use bech32_decode::Reading;

// The target of the checksum of a version.
fn target_of(version: Fe32) -> u32
    ensures { PacksTarget result (segwit_code version) }
{
    if version == VERSION_0 {
        TARGET
    } else {
        BECH32M_TARGET
    }
}

/// Puts the segwit address of a witness version from 0 to 16 and a program, in lower case, at the
/// front of a buffer, and returns its length, at most [`MAX_STRING_LENGTH`].
///
/// # Errors
///
/// The number of the first of: a version above 31; a human-readable part that is not UTF-8, or is
/// none; a version above 16; a program of less than 2 bytes, of more than 40, or of neither 20 nor
/// 32 in version 0; an address of more than [`MAX_STRING_LENGTH`] characters, or of more than the
/// buffer has room for.
pub fn encoded(hrp: &[u8], version: u32, program: &[u8], text: &mut [u8]) -> Result<usize, u32>
    ensures value { IfOk result
        (λ count. PutsAddress hrp.now version program.now text.old text.new count) }
    ensures refused { IfErr result
        (λ n. IsNumberOf (IsSegwitEncodeFault hrp.now version program.now (length text.old)) n) }
    ensures same { OnErr result (text.new ≡ text.old) }
{
    let Some(element) = element_of(version) else {
        return Err(BAD_NUMBER);
    };
    test_part(hrp)?;
    let size = match address_length_of_part(hrp, element, program) {
        Ok(size) => size,
        Err(e) => return Err(Refusal::NoAddress(e).number()),
    };
    if size > text.len() {
        return Err(NO_ROOM);
    }
    let target = target_of(element);
    Ok(put_in_room(target, hrp, Some(element), program, text))
}

// Why a text of more than `MAX_STRING_LENGTH` characters is no address. Out of line: few texts come
// here.
#[cold]
#[inline(never)]
fn number_of_long(text: &[u8]) -> u32
    requires { max_address_length < length text.now }
    ensures { (m n : ℕ) → IsNumberOf (IsSegwitDecodeFault text.now m n) result }
{
    match text_of(text) {
        Some(_) => ADDRESS_TOO_LONG,
        None => NOT_UTF8,
    }
}

// Reads the text of bytes that may be an address: they are at most `MAX_STRING_LENGTH`.
fn read_short(text: &[u8]) -> Result<Reading<'_, Bech32m>, u32>
    ensures { MatchResult result
        (λ r. (r.text.now ≡ text.now) × (length text.now ≤ max_address_length))
        (λ e. (m n : ℕ) → IsNumberOf (IsSegwitDecodeFault text.now m n) e) }
{
    if text.len() > MAX_STRING_LENGTH {
        return Err(number_of_long(text));
    }
    read(text)
}

/// Puts the human-readable part, in the case of the text, and the program of a segwit address at
/// the fronts of two buffers, and returns the length of the one, at most 83, the witness version, 0
/// to 16, and the length of the other, at most 40.
///
/// # Errors
///
/// The number of the first of: a text that is not UTF-8; its first fault; a buffer that is too
/// small.
pub fn decoded(text: &[u8], hrp: &mut [u8], program: &mut [u8]) -> Result<(usize, Fe32, usize), u32>
    ensures value { IfOk result
        (λ n. PutsProgram text.now hrp.old hrp.new program.old program.new n.0 (value n.1) n.2) }
    ensures refused { IfErr result
        (λ n. IsNumberOf
        (IsSegwitDecodeFault text.now (length hrp.old) (length program.old)) n) }
    ensures same { OnErr result ((hrp.new ≡ hrp.old) × (program.new ≡ program.old)) }
{
    let reading = read_short(text)?;
    let address = match reading.short_address() {
        Ok(address) => address,
        Err(e) => return Err(Refusal::Address(e).number()),
    };
    match put_parts(reading.hrp, address.program, hrp, program) {
        Some(count) => Ok((reading.hrp.len(), address.version, count)),
        None => Err(NO_ROOM),
    }
}
