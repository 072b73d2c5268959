//! Mends mistyped texts.

ghost use Rattle.std.specs.Prelude.{◌≡◌, None, length, IfErr, IfOk, OnErr, MatchOption};
ghost use Rattle.bech32_checksum.specs.Code.{Code, bech32m};
ghost use Rattle.bech32_checksum.specs.Packed.{HasDigits};
ghost use Rattle.bech32_decode.specs.Refusals.{HasLengths};
ghost use Rattle.bech32_correction.specs.Mistyped.{HasNoListing};
ghost use Rattle.bech32_calls.specs.Checksums.{ForChecksum, IsFaultBy, code_of_number};
ghost use Rattle.bech32_calls.specs.Correct.{IsCorrectFault, IsMending, PutsMended, bound};
ghost use Rattle.bech32_calls.specs.Faults.{IsNumberOf};
ghost use Rattle.bech32_small.specs.Target.{IsTargetOf, PacksTarget};

use crate::checksum::{
    BAD_NUMBER, BECH32, BECH32M, BECH32M_TARGET, NO_CORRECTION, NO_ROOM, TARGET,
};
use crate::input::read;
use crate::search::{
    Found, erasures_of, error_below, error_beside, no_errors, values_at_three, values_at_two,
};
use bech32::Bech32m;
use bech32_calls::correct::{put_listing, put_mended};
use bech32_calls::refusal::Refusal;
use bech32_decode::Reading;

// The target of the checksum of a number.
fn target_of(checksum: u32) -> Option<u32>
    ensures { MatchOption result
        (code_of_number checksum ≡ None)
        (λ target. IsTargetOf checksum target) }
{
    match checksum {
        BECH32 => Some(TARGET),
        BECH32M => Some(BECH32M_TARGET),
        _ => None,
    }
}

// The listing that mends a text that was read by Bech32m, by the checksum with a target: nothing
// where that accepts the text.
#[inline(never)]
fn listing_of(target: u32, reading: &Reading<'_, Bech32m>, erasures: &[usize]) -> Option<Found>
    requires target { HasDigits 6 target }
    requires lengths { HasLengths bech32m
        (length reading.now.text.now) (length reading.now.data_part.now) }
    ensures { (code : Code) → PacksTarget target code → code.code_length ≡ 1023
        → MatchOption result
        (HasNoListing code bound reading.now.text.now erasures.now)
        (λ listing. IsMending reading.now.text.now erasures.now listing code) }
{
    let row = reading.residue ^ target;
    if row == 0 {
        return Some(no_errors());
    }
    let window = reading.data_part.len();
    let given = erasures_of(erasures, window)?;
    match given.as_slice() {
        [] => error_below(row, window),
        [one] => error_beside(row, window, *one),
        [one, two] => values_at_two(row, *one, *two),
        [one, two, three, ..] => values_at_three(row, *one, *two, *three),
    }
}

/// Mends a mistyped text by the checksum of a number, and returns how many locations are listed, at
/// most three: 0 where the checksum accepts the text. `erasures` are the locations of characters
/// that are known to be wrong; location 0 is the last character. The listed locations, the erasures
/// first, are put at the front of `locations`, the elements to add there, from 0 to 31 each, at the
/// front of `values`, and the mended text, in lower case and as long as the text, at the front of
/// `mended`.
///
/// # Errors
///
/// The number of the first of: a number that is neither 1 nor 2; a text that is not UTF-8; its
/// first fault, but for a wrong checksum; no such few errors in the data part that mend it, or an
/// erasure that is not in it; a buffer that is too small.
pub fn corrected(
    checksum: u32,
    text: &[u8],
    erasures: &[usize],
    locations: &mut [usize],
    values: &mut [u8],
    mended: &mut [u8],
) -> Result<usize, u32>
    ensures value { IfOk result (λ n. ForChecksum checksum (PutsMended text.now erasures.now
        locations.old locations.new values.old values.new n
        mended.old mended.new (length text.now))) }
    ensures refused { IfErr result
        (λ n. IsNumberOf (IsFaultBy checksum (IsCorrectFault text.now erasures.now
        (length locations.old) (length values.old) (length mended.old))) n) }
    ensures same { OnErr result ((locations.new ≡ locations.old) × (values.new ≡ values.old)
        × (mended.new ≡ mended.old)) }
{
    let Some(target) = target_of(checksum) else {
        return Err(BAD_NUMBER);
    };
    let reading = read(text)?;
    match reading.validate_lengths() {
        Ok(()) => {}
        Err(e) => return Err(Refusal::Checksum(e).number()),
    }
    let Some(found) = listing_of(target, &reading, erasures) else {
        return Err(NO_CORRECTION);
    };
    let listing = found.as_slice();
    let count = listing.len();
    if count > locations.len() {
        return Err(NO_ROOM);
    }
    if count > values.len() {
        return Err(NO_ROOM);
    }
    if text.len() > mended.len() {
        return Err(NO_ROOM);
    }
    put_listing(listing, locations, values);
    put_mended(mended, text, listing);
    Ok(count)
}
