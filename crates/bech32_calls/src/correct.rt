//! Mends mistyped texts.

ghost use Rattle.std.specs.Prelude.{◌≡◌, ◌≤◌, ◌<◌, ℕ, List, length, map, IfErr, IfOk, OnErr};
ghost use Rattle.std.specs.List.{AllByRecursion};
ghost use Rattle.bech32_gf.specs.Fe32.{elements_of, ops, value as value_of};
ghost use Rattle.bech32_gf.specs.declared.gf32.Fe32.{Fe32 as Element};
ghost use Rattle.bech32_checksum.specs.Code.{Code};
ghost use Rattle.bech32_checksum.specs.TextPolynomial.{text_polynomial};
ghost use Rattle.bech32_poly.specs.Remainder.{IsRemainder};
ghost use Rattle.bech32_decode.specs.Refusals.{HasLengths};
ghost use Rattle.bech32_bch.specs.Pattern.{locations as locations_of};
ghost use Rattle.bech32_encode.specs.Buffers.{IsPut};
ghost use Rattle.bech32_hrp.specs.Hrp.{lowered};
ghost use Rattle.bech32_correction.specs.MendedElements.{EndsIn, mended as mended_of};
ghost use Rattle.bech32_calls.specs.Checksums.{ForChecksum, IsFaultBy};
ghost use Rattle.bech32_calls.specs.Correct.{IsCorrectFault, IsMending, PutsMended, bound};

use crate::checksum::{BECH32, BECH32M};
use crate::refusal::Refusal;
use bech32::primitives::checksum::Lookup;
use bech32::{Bech32, Bech32m, Fe32};
use bech32_correction::{CorrectsInPlace, lookup_listing, mend, search_listing};
use bech32_decode::Reading;

/// Puts the locations and the values of a listing at the fronts of buffers that have room for them.
#[inline(always)]
pub fn put_listing(listing: &[(usize, Fe32)], locations: &mut [usize], values: &mut [u8])
    requires locations { length listing.now ≤ length locations.old }
    requires values { length listing.now ≤ length values.old }
    ensures locations { IsPut (locations_of listing.now)
        locations.old locations.new (length listing.now) }
    ensures values { IsPut (map (λ p. value_of p.1) listing.now)
        values.old values.new (length listing.now) }
{
    for i in 0..listing.len() {
        let (location, value) = listing[i];
        locations[i] = location;
        values[i] = value.to_u8();
    }
}

/// Puts a text in lower case, with a listing's values added, at the front of a buffer that has room
/// for it.
#[inline(always)]
pub fn put_mended(buffer: &mut [u8], text: &[u8], listing: &[(usize, Fe32)])
    requires room { length text.now ≤ length buffer.old }
    requires inside { (front : List ℕ)
        × ((elements : List Element) × EndsIn (lowered text.now) front elements
        × AllByRecursion (λ p. p.0 < length elements) listing.now) }
    ensures { (front : List ℕ) (elements : List Element) → EndsIn (lowered text.now) front elements
        → AllByRecursion (λ p. p.0 < length elements) listing.now
        → (t : List ℕ) × EndsIn t front (mended_of ops listing.now elements)
        × IsPut t buffer.old buffer.new (length text.now) }
{
    let mended = &mut buffer[..text.len()];
    mended.copy_from_slice(text);
    mended.make_ascii_lowercase();
    mend(mended, listing);
}

// Puts a listing and the text that it mends at the fronts of buffers, and returns how many
// locations are listed.
#[inline(always)]
fn put_correction(
    listing: &[(usize, Fe32)],
    text: &[u8],
    locations: &mut [usize],
    values: &mut [u8],
    mended: &mut [u8],
) -> Result<usize, Refusal>
    requires { (given : List ℕ) × (code : Code) × IsMending text.now given listing.now code }
    ensures value { (given : List ℕ) (code : Code) → IsMending text.now given listing.now code
        → IfOk result (λ n. PutsMended text.now given
        locations.old locations.new values.old values.new n
        mended.old mended.new (length text.now) code) }
    ensures refused { (given : List ℕ) (code : Code) → IsMending text.now given listing.now code
        → IfErr result (λ e. IsCorrectFault text.now given
        (length locations.old) (length values.old) (length mended.old) code e) }
    ensures same { OnErr result ((locations.new ≡ locations.old) × (values.new ≡ values.old)
        × (mended.new ≡ mended.old)) }
{
    let count = listing.len();
    if count > locations.len() {
        return Err(Refusal::NoRoom);
    }
    if count > values.len() {
        return Err(Refusal::NoRoom);
    }
    if text.len() > mended.len() {
        return Err(Refusal::NoRoom);
    }
    put_listing(listing, locations, values);
    put_mended(mended, text, listing);
    Ok(count)
}

// Mends a text that was read, and that the checksum refuses for its residue, where the checksum
// does not look the correction up. Out of line: where it does, no listing is to be cleared.
#[inline(never)]
fn corrected_by_search<Ck: CorrectsInPlace>(
    reading: &Reading<'_, Ck>,
    text: &[u8],
    erasures: &[usize],
    locations: &mut [usize],
    values: &mut [u8],
    mended: &mut [u8],
) -> Result<usize, Refusal>
    requires bound { Ck.bound ≡ bound }
    requires read { reading.now.text.now ≡ text.now }
    requires lengths { HasLengths Ck.code
        (length reading.now.text.now) (length reading.now.data_part.now) }
    requires refused { IsRemainder ops Ck.code.generator
        (text_polynomial reading.now.hrp.now (elements_of reading.now.data_part.now))
        Ck.code.target → ⊥ }
    ensures value { IfOk result (λ n. PutsMended text.now erasures.now
        locations.old locations.new values.old values.new n
        mended.old mended.new (length text.now) Ck.code) }
    ensures refused { IfErr result (λ e. IsCorrectFault text.now erasures.now
        (length locations.old) (length values.old) (length mended.old) Ck.code e) }
    ensures same { OnErr result ((locations.new ≡ locations.old) × (values.new ≡ values.old)
        × (mended.new ≡ mended.old)) }
{
    match search_listing(reading, erasures) {
        Some(listing) => { put_correction(listing.as_slice(), text, locations, values, mended) }
        None => Err(Refusal::NoCorrection),
    }
}

// Mends a text by one checksum. In line: what it returns is not moved.
#[inline(always)]
fn corrected_by<Ck: CorrectsInPlace>(
    text: &[u8],
    erasures: &[usize],
    locations: &mut [usize],
    values: &mut [u8],
    mended: &mut [u8],
) -> Result<usize, Refusal>
    requires { Ck.bound ≡ bound }
    ensures value { IfOk result (λ n. PutsMended text.now erasures.now
        locations.old locations.new values.old values.new n
        mended.old mended.new (length text.now) Ck.code) }
    ensures refused { IfErr result (λ e. IsCorrectFault text.now erasures.now
        (length locations.old) (length values.old) (length mended.old) Ck.code e) }
    ensures same { OnErr result ((locations.new ≡ locations.old) × (values.new ≡ values.old)
        × (mended.new ≡ mended.old)) }
{
    let reading = Reading::<Ck>::from_bytes(text)?;
    reading.validate_lengths()?;
    if reading.has_target() {
        return put_correction(&[], text, locations, values, mended);
    }
    match lookup_listing(&reading, erasures) {
        Lookup::Found(found) => put_correction(found.as_slice(), text, locations, values, mended),
        Lookup::Absent => Err(Refusal::NoCorrection),
        Lookup::NoTable => corrected_by_search(&reading, text, erasures, locations, values, mended),
    }
}

/// Mends a mistyped text by the checksum of a number, and returns how many locations are listed, at
/// most three: 0 where the checksum accepts the text. `erasures` are the locations of characters
/// that are known to be wrong; location 0 is the last character. The listed locations, the erasures
/// first, are put at the front of `locations`, the elements to add there, from 0 to 31 each, at the
/// front of `values`, and the mended text, in lower case and as long as the text, at the front of
/// `mended`.
///
/// # Errors
///
/// The first of: a number that is neither 1 nor 2; a text that is not UTF-8; its first fault, but
/// for a wrong checksum; no such few errors in the data part that mend it, or an erasure that is
/// not in it; a buffer that is too small.
#[inline(always)]
pub fn corrected(
    checksum: u32,
    text: &[u8],
    erasures: &[usize],
    locations: &mut [usize],
    values: &mut [u8],
    mended: &mut [u8],
) -> Result<usize, Refusal>
    ensures value { IfOk result (λ n. ForChecksum checksum (PutsMended text.now erasures.now
        locations.old locations.new values.old values.new n
        mended.old mended.new (length text.now))) }
    ensures refused { IfErr result (λ e. IsFaultBy checksum (IsCorrectFault text.now erasures.now
        (length locations.old) (length values.old) (length mended.old)) e) }
    ensures same { OnErr result ((locations.new ≡ locations.old) × (values.new ≡ values.old)
        × (mended.new ≡ mended.old)) }
{
    match checksum {
        BECH32 => corrected_by::<Bech32>(text, erasures, locations, values, mended),
        BECH32M => corrected_by::<Bech32m>(text, erasures, locations, values, mended),
        _ => Err(Refusal::BadNumber),
    }
}
