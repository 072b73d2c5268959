//! Decodes texts, and tests them by a checksum.

ghost use Rattle.std.specs.Prelude.{◌≡◌, ◌<◌, ◌≤◌, ◌⊎◌, true, length, MatchResult, IfOk, IfErr, OnErr};
ghost use Rattle.bech32_gf.specs.Fe32.{elements_of};
ghost use Rattle.bech32_bits.specs.Bits.{to_bytes};
ghost use Rattle.bech32_gf.specs.Alphabet.{is_data};
ghost use Rattle.bech32_encode.specs.Buffers.{IsPut};
ghost use Rattle.bech32_calls.specs.Check.{IsCheckedAs, IsCheckFault};
ghost use Rattle.bech32_calls.specs.Checksums.{ForTexts, IsFaultOfTexts};
ghost use Rattle.bech32_calls.specs.Decode.{PutsDecoded, IsDecodeFault, IsReadFault};
ghost use Rattle.bech32_decode.specs.Acceptance.{IsAcceptedByEither};
ghost use Rattle.bech32_calls.specs.declared.refusal.Refusal.TheVariants.{NoRoom};

use crate::checksum::by_number;
use crate::refusal::Refusal;
use bech32::{Bech32m, Checksum};
use bech32_decode::{Reading, data_bytes_count, put_data_bytes};
use bech32_encode::put_at_front;

/// Tests that a human-readable part and what stands beside it, of these lengths, have room in two
/// buffers.
///
/// # Errors
///
/// [`Refusal::NoRoom`] where a buffer is too small.
#[inline(always)]
pub fn validate_rooms(
    part: usize,
    part_room: usize,
    other: usize,
    other_room: usize,
) -> Result<(), Refusal>
    ensures { MatchResult result
        (λ _. (part ≤ part_room) × (other ≤ other_room))
        (λ e. (e ≡ NoRoom) × ((part_room < part) ⊎ (other_room < other))) }
{
    if part > part_room {
        return Err(Refusal::NoRoom);
    }
    if other > other_room {
        return Err(Refusal::NoRoom);
    }
    Ok(())
}

// Puts a human-readable part and the bytes of characters at the fronts of two buffers, and returns
// their lengths.
#[inline(always)]
pub(crate) fn put_parts(
    part: &[u8],
    characters: &[u8],
    hrp: &mut [u8],
    bytes: &mut [u8],
) -> Result<(usize, usize), Refusal>
    requires { is_data characters.now ≡ true }
    ensures value { IfOk result (λ n. IsPut part.now hrp.old hrp.new n.0
        × IsPut (to_bytes (elements_of characters.now)) bytes.old bytes.new n.1) }
    ensures refused { IfErr result (λ e. (e ≡ NoRoom) × ((length hrp.old < length part.now)
        ⊎ (length bytes.old < length (to_bytes (elements_of characters.now))))) }
    ensures same { OnErr result ((hrp.new ≡ hrp.old) × (bytes.new ≡ bytes.old)) }
{
    let count = data_bytes_count(characters);
    validate_rooms(part.len(), hrp.len(), count, bytes.len())?;
    put_at_front(hrp, part);
    Ok((part.len(), put_data_bytes(characters, bytes)))
}

/// Puts the human-readable part, in the case of the text, and the bytes of a text that Bech32m or
/// Bech32 accepts at the fronts of two buffers, and returns their lengths, at most 83 and 634.
///
/// # Errors
///
/// The first of: a text that is not UTF-8; its first fault; a buffer that is too small.
pub fn decoded(text: &[u8], hrp: &mut [u8], bytes: &mut [u8]) -> Result<(usize, usize), Refusal>
    ensures value { IfOk result
        (λ n. PutsDecoded text.now hrp.old hrp.new bytes.old bytes.new n.0 n.1) }
    ensures refused { IfErr result
        (λ e. IsDecodeFault text.now (length hrp.old) (length bytes.old) e) }
    ensures same { OnErr result ((hrp.new ≡ hrp.old) × (bytes.new ≡ bytes.old)) }
{
    let reading = Reading::<Bech32m>::from_bytes(text)?;
    reading.validate_either()?;
    put_parts(reading.hrp, reading.characters(), hrp, bytes)
}

/// Tests whether Bech32m or Bech32 accepts a text.
///
/// # Errors
///
/// The first of: a text that is not UTF-8; its first fault.
pub fn checked_by_either(text: &[u8]) -> Result<(), Refusal>
    ensures { MatchResult result
        (λ _. IsAcceptedByEither text.now)
        (λ e. IsReadFault text.now e) }
{
    let reading = Reading::<Bech32m>::from_bytes(text)?;
    match reading.validate_either() {
        Ok(()) => Ok(()),
        Err(e) => Err(Refusal::Checksum(e)),
    }
}

// The lengths of the parts of a text that the checksum accepts.
#[inline(always)]
fn checked<Ck: Checksum>(bytes: &[u8]) -> Result<(usize, usize), Refusal>
    ensures { MatchResult result
        (λ n. IsCheckedAs bytes.now n.0 n.1 Ck.code)
        (λ e. IsCheckFault bytes.now Ck.code e) }
{
    let reading = Reading::<Ck>::from_bytes(bytes)?;
    reading.validate()?;
    Ok((reading.hrp.len(), reading.characters().len()))
}

/// The lengths of the human-readable part and of the data part, the checksum not counted, of a text
/// that the checksum of a number accepts.
///
/// # Errors
///
/// The first of: a number that is not from 1 to 4; a text that is not UTF-8; its first fault.
#[inline(always)]
pub fn checked_by(checksum: u32, bytes: &[u8]) -> Result<(usize, usize), Refusal>
    ensures { MatchResult result
        (λ n. ForTexts checksum (IsCheckedAs bytes.now n.0 n.1))
        (λ e. IsFaultOfTexts checksum (IsCheckFault bytes.now) e) }
{
    by_number!(checksum, checked(bytes))
}
