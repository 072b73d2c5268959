//! Decodes texts, and tests them by a checksum.

ghost use Rattle.std.specs.Prelude.{◌≡◌, ◌<◌, ◌⊎◌, true, length, MatchOption, MatchResult, IfOk, IfErr, OnErr};
ghost use Rattle.bech32_gf.specs.Fe32.{elements_of};
ghost use Rattle.bech32_bits.specs.Bits.{to_bytes};
ghost use Rattle.bech32_gf.specs.Alphabet.{is_data};
ghost use Rattle.bech32_encode.specs.Buffers.{IsPut};
ghost use Rattle.bech32_checksum.specs.Code.{Code};
ghost use Rattle.bech32_checksum.specs.Packed.{HasDigits};
ghost use Rattle.bech32_calls.specs.Check.{IsCheckedAs, IsCheckFault};
ghost use Rattle.bech32_calls.specs.Checksums.{ForTexts, IsFaultOfTexts};
ghost use Rattle.bech32_calls.specs.Decode.{PutsDecoded, IsDecodeFault};
ghost use Rattle.bech32_calls.specs.Faults.{IsNumberOf};
ghost use Rattle.bech32_small.specs.Target.{PacksTarget};

use crate::checksum::{
    BAD_NUMBER, BECH32, BECH32M, BECH32M_TARGET, LENGTH, LONG_BECH32, LONG_BECH32M,
    MAX_TEXT_LENGTH, NO_CHECKSUM, NO_ROOM, TARGET, TEXT_TOO_LONG, WRONG_CHECKSUM,
};
use crate::elements::put_bytes;
use crate::input::read;
use bech32::MAX_LONG_TEXT_LENGTH;
use bech32_calls::refusal::Refusal;
use bech32_decode::data_bytes_count;
use bech32_encode::put_at_front;

// Puts a human-readable part and the bytes of characters at the fronts of two buffers, if both have
// room, and returns how many bytes they are.
#[inline(never)]
pub(crate) fn put_parts(
    part: &[u8],
    characters: &[u8],
    hrp: &mut [u8],
    bytes: &mut [u8],
) -> Option<usize>
    requires { is_data characters.now ≡ true }
    ensures { MatchOption result
        (((length hrp.old < length part.now)
        ⊎ (length bytes.old < length (to_bytes (elements_of characters.now))))
        × (hrp.new ≡ hrp.old) × (bytes.new ≡ bytes.old))
        (λ n. IsPut part.now hrp.old hrp.new (length part.now)
        × IsPut (to_bytes (elements_of characters.now)) bytes.old bytes.new n) }
{
    if part.len() > hrp.len() {
        return None;
    }
    if data_bytes_count(characters) > bytes.len() {
        return None;
    }
    put_at_front(hrp, part);
    Some(put_bytes(characters, bytes))
}

/// Puts the human-readable part, in the case of the text, and the bytes of a text that Bech32m or
/// Bech32 accepts at the fronts of two buffers, and returns their lengths, at most 83 and 634.
///
/// # Errors
///
/// The number of the first of: a text that is not UTF-8; its first fault; a buffer that is too
/// small.
pub fn decoded(text: &[u8], hrp: &mut [u8], bytes: &mut [u8]) -> Result<(usize, usize), u32>
    ensures value { IfOk result
        (λ n. PutsDecoded text.now hrp.old hrp.new bytes.old bytes.new n.0 n.1) }
    ensures refused { IfErr result
        (λ n. IsNumberOf (IsDecodeFault text.now (length hrp.old) (length bytes.old)) n) }
    ensures same { OnErr result ((hrp.new ≡ hrp.old) × (bytes.new ≡ bytes.old)) }
{
    let reading = read(text)?;
    match reading.validate_either() {
        Ok(()) => {}
        Err(e) => return Err(Refusal::Checksum(e).number()),
    }
    match put_parts(reading.hrp, reading.characters(), hrp, bytes) {
        Some(count) => Ok((reading.hrp.len(), count)),
        None => Err(NO_ROOM),
    }
}

// The lengths of the parts of a text that the checksum with a target and a code length accepts.
#[inline(never)]
fn checked(target: u32, most: usize, bytes: &[u8]) -> Result<(usize, usize), u32>
    requires { HasDigits 6 target }
    ensures { (code : Code) → PacksTarget target code → code.code_length ≡ most
        → MatchResult result
        (λ n. IsCheckedAs bytes.now n.0 n.1 code)
        (λ n. IsNumberOf (IsCheckFault bytes.now code) n) }
{
    let reading = read(bytes)?;
    if bytes.len() > most {
        return Err(TEXT_TOO_LONG);
    }
    if reading.data_part.len() < LENGTH {
        return Err(NO_CHECKSUM);
    }
    if reading.residue != target {
        return Err(WRONG_CHECKSUM);
    }
    Ok((reading.hrp.len(), reading.data_part.len() - LENGTH))
}

/// The lengths of the human-readable part and of the data part, the checksum not counted, of a text
/// that the checksum of a number accepts.
///
/// # Errors
///
/// The number of the first of: a number that is not from 1 to 4; a text that is not UTF-8; its
/// first fault.
#[inline(never)]
pub fn checked_by(checksum: u32, bytes: &[u8]) -> Result<(usize, usize), u32>
    ensures { MatchResult result
        (λ n. ForTexts checksum (IsCheckedAs bytes.now n.0 n.1))
        (λ n. IsNumberOf (IsFaultOfTexts checksum (IsCheckFault bytes.now)) n) }
{
    match checksum {
        BECH32 => checked(TARGET, MAX_TEXT_LENGTH, bytes),
        BECH32M => checked(BECH32M_TARGET, MAX_TEXT_LENGTH, bytes),
        LONG_BECH32 => checked(TARGET, MAX_LONG_TEXT_LENGTH, bytes),
        LONG_BECH32M => checked(BECH32M_TARGET, MAX_LONG_TEXT_LENGTH, bytes),
        _ => Err(BAD_NUMBER),
    }
}
