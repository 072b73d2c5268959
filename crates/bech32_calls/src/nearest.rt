//! Lists the texts near to a mistyped one.

ghost use Rattle.std.specs.Prelude.{◌≡◌, ◌<◌, ◌≤◌, ◌*◌, ◌⊎◌, [], length, map, string_bytes, IfErr, IfOk, MatchResult};
ghost use Rattle.bech32_checksum.specs.Code.{bech32, bech32m};
ghost use Rattle.bech32_decode.specs.Refusals.{HasLengths};
ghost use Rattle.bech32_near.specs.NearTexts.{AreNearTexts, IsOutOfMemory};
ghost use Rattle.caller_memory.specs.Memory.{IsKept};
ghost use Rattle.bech32_calls.specs.Checksums.{ForChecksum, IsFaultBy};
ghost use Rattle.bech32_calls.specs.Correct.{IsResidueFault, bound};
ghost use Rattle.bech32_calls.specs.Listing.{ReturnsMemory, IfAllPut, IfNotAllPut};
ghost use Rattle.bech32_calls.specs.Nearest.{IsNearFaultOrKept, IsRead, PutsFirstNear, PutsNear};

use crate::checksum::{BECH32, BECH32M, validate_checksum};
use crate::listed::{Listed, give_memory_back, list_texts};
use crate::refusal::Refusal;
use bech32::{Bech32, Bech32m, Mended};
use bech32_decode::Reading;
use bech32_near::nearest_to_reading;
use caller_memory::{Lent, Memory};
use std::alloc::{AllocError, Allocator};

// The most errors that are looked for.
const MOST_ERRORS: usize = 2;

// Reads a text by the generator of both checksums, and tests its lengths.
fn read_either(bytes: &[u8]) -> Result<Reading<'_, Bech32m>, Refusal>
    ensures { MatchResult result
        (λ r. (r.text.now ≡ bytes.now)
        × HasLengths bech32m (length r.text.now) (length r.data_part.now))
        (λ e. IsResidueFault bytes.now bech32m e × IsResidueFault bytes.now bech32 e) }
{
    let reading = Reading::<Bech32m>::from_bytes(bytes)?;
    reading.validate_lengths()?;
    Ok(reading)
}

// The same, where a number is that of a checksum.
fn read_by(checksum: u32, bytes: &[u8]) -> Result<Reading<'_, Bech32m>, Refusal>
    ensures { MatchResult result
        (λ r. (r.text.now ≡ bytes.now) × ForChecksum checksum
        (λ code. HasLengths code (length r.text.now) (length r.data_part.now)))
        (λ e. IsFaultBy checksum (IsResidueFault bytes.now) e) }
{
    validate_checksum(checksum)?;
    let reading = read_either(bytes)?;
    Ok(reading)
}

// The texts that are near to one that was read, by the checksum of a number.
fn near_by<'a, A: Allocator>(
    alloc: &'a A,
    checksum: u32,
    reading: &Reading<'_, Bech32m>,
    given: &[usize],
    errors: usize,
) -> Result<Vec<Mended<&'a A>, &'a A>, AllocError>
    requires { ForChecksum checksum
        (λ code. HasLengths code (length reading.now.text.now) (length reading.now.data_part.now)) }
    ensures { MatchResult result
        (λ near. ForChecksum checksum
        (λ code. AreNearTexts code bound reading.now.text.now given.now errors
        (map (λ m. (m.listing, string_bytes m.text)) near.items)))
        (λ _. ForChecksum checksum
        (λ code. IsOutOfMemory code bound reading.now.text.now given.now errors)) }
{
    match checksum {
        BECH32 => {
            let by_bech32 = reading.by_bech32();
            let near = nearest_to_reading::<Bech32, &A>(alloc, &by_bech32, given, errors)?;
            Ok(near.texts)
        }
        BECH32M => {
            let near = nearest_to_reading::<Bech32m, &A>(alloc, reading, given, errors)?;
            Ok(near.texts)
        }
        _ => unreachable!(),
    }
}

/// Puts all texts near to a mistyped one, by the checksum of a number, at the front of a buffer, in
/// lower case and one behind another, each as long as that one, and tells how many they are. They
/// differ from it in at most `errors` characters, 0 to 2, of the data part outside `given`, the
/// locations of at most three characters that are known to be wrong; location 0 is the last
/// character. Without such locations there is one text at most, or at most half as many as this one
/// has characters. Where they do not fit, which is only where all together are longer than the
/// buffer, as many whole ones as do are put, the first. They are worked out in `memory`, which
/// comes back whole.
///
/// # Errors
///
/// The first of: a number that is neither 1 nor 2, or more than two errors; a text that is not
/// UTF-8; its first fault, but for a wrong checksum, all before any memory is taken.
/// [`Refusal::Memory`] where `memory` does not suffice: then `memory` and the buffer are as they
/// were, or `memory` had bytes and has none, and the buffer may have changed. It is not returned
/// where there is nothing to search: where more than three different locations are given, or one
/// that is not in the data part. Where twice the errors and the different given locations are at
/// most three, it is returned only where a text is near. Past that, memory is taken for listings,
/// and beside given locations for a table of 288 bytes for each character of the data part.
///
/// With at most two errors, nothing but [`Refusal::Memory`] where the checksum accepts the text, or
/// refuses it for its residue alone.
pub fn put_nearest(
    memory: &mut Memory,
    checksum: u32,
    bytes: &[u8],
    given: &[usize],
    errors: usize,
    texts: &mut [u8],
) -> Result<Listed, Refusal>
    ensures all { IfAllPut result (λ count. ForChecksum checksum
        (PutsNear bytes.now given.now errors texts.old texts.new count)) }
    ensures first { IfNotAllPut result (λ count. ForChecksum checksum
        (PutsFirstNear bytes.now given.now errors texts.old texts.new count)) }
    ensures few { given.now ≡ [] → IfOk result (λ listed. (listed.count ≤ 1)
        ⊎ (2 * listed.count ≤ length bytes.now)) }
    ensures room { IfNotAllPut result (λ count. length texts.old < count * length bytes.now) }
    ensures accepts { errors ≤ 2 → ForChecksum checksum (IsRead bytes.now)
        → IfErr result (λ e. e ≡ Refusal.Memory) }
    ensures refused { IfErr result (λ e.
        IsNearFaultOrKept checksum bytes.now given.now errors memory.old memory.new e) }
    ensures same { IfErr result (λ e. (texts.new ≡ texts.old)
        ⊎ ((e ≡ Refusal.Memory) × IsKept memory.old memory.new)) }
    ensures memory { ReturnsMemory memory.old memory.new result }
{
    if errors > MOST_ERRORS {
        return Err(Refusal::BadNumber);
    }
    let reading = read_by(checksum, bytes)?;
    let lent = Lent::new(memory.take());
    let listed = list_texts(
        near_by(&lent.arena(), checksum, &reading, given, errors),
        texts,
    );
    give_memory_back(lent, memory, listed)
}
