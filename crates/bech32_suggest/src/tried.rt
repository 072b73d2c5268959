//! The texts that are tried.

ghost use Rattle.std.specs.Prelude.{◌≤◌, IfOk, length, map, string_bytes};
ghost use Rattle.bech32_hrp.specs.HrpBytes.{hrp_bytes};
ghost use Rattle.bech32_near.specs.NearTexts.{AreNearTexts};
ghost use Rattle.bech32_suggest.specs.Suggestions.{AddsEdits, AddsFound, AddsNear, either_code, near_bound};

use crate::kept::{Wanted, push_each};
use crate::mendings::Suggestion;
use bech32_checksum::{Bech32, Bech32m, Checksum};
use bech32_correction::Mended;
use bech32_decode::Reading;
use bech32_near::edits::near_edits_of_reading;
use bech32_near::nearest_to_reading;
use std::alloc::{AllocError, Allocator};

// The texts near one that was read: by Bech32m, or by Bech32, whose generator is the same.
fn near_by<'a, A: Allocator>(
    alloc: &'a A,
    reading: &Reading<'_, Bech32m>,
    is_bech32m: bool,
    wanted: &Wanted<'_>,
) -> Result<Vec<Mended<&'a A>, &'a A>, AllocError>
    requires { (length reading.now.text.now ≤ 1023) × (6 ≤ length reading.now.data_part.now) }
    ensures { IfOk result (λ near. AreNearTexts (either_code is_bech32m) near_bound
        reading.now.text.now wanted.now.unread.now wanted.now.errors
        (map (λ m. (m.listing, string_bytes m.text)) near.items)) }
{
    let (unread, errors) = (wanted.unread, wanted.errors);
    if is_bech32m {
        let near = nearest_to_reading::<Bech32m, &A>(alloc, reading, unread, errors)?;
        return Ok(near.texts);
    }
    let near = nearest_to_reading::<Bech32, &A>(alloc, &reading.by_bech32(), unread, errors)?;
    Ok(near.texts)
}

// Adds the addresses near a text that was read, by Bech32m or by Bech32.
fn push_near<A: Allocator + Copy>(
    alloc: &A,
    reading: &Reading<'_, Bech32m>,
    is_bech32m: bool,
    wanted: &Wanted<'_>,
    found: &mut Vec<Suggestion<String<A>>, A>,
) -> Result<(), AllocError>
    requires { (length reading.now.text.now ≤ 1023) × (6 ≤ length reading.now.data_part.now) }
    ensures { IfOk result (λ _. AddsNear (either_code is_bech32m)
        reading.now.text.now wanted.now.unread.now wanted.now.errors
        (hrp_bytes wanted.now.hrp.now) wanted.now.typed.now
        (map (λ s. (string_bytes s.text, (s.mending, s.place))) found.old.items)
        (map (λ s. (string_bytes s.text, (s.mending, s.place))) found.new.items)) }
{
    let near = near_by(alloc, reading, is_bech32m, wanted)?;
    push_each(*alloc, wanted, near.as_slice(), found)
}

// Adds the addresses that one edit makes of a text that was read, by a checksum.
fn push_edits<Ck: Checksum, A: Allocator + Copy>(
    alloc: &A,
    reading: &Reading<'_, Ck>,
    wanted: &Wanted<'_>,
    found: &mut Vec<Suggestion<String<A>>, A>,
) -> Result<(), AllocError>
    ensures { IfOk result (λ _. AddsEdits Ck.code reading.now.text.now
        (hrp_bytes wanted.now.hrp.now) wanted.now.typed.now
        (map (λ s. (string_bytes s.text, (s.mending, s.place))) found.old.items)
        (map (λ s. (string_bytes s.text, (s.mending, s.place))) found.new.items)) }
{
    let edited = near_edits_of_reading::<Ck, &A>(alloc, reading)?;
    push_each(*alloc, wanted, edited.as_slice(), found)
}

/// Adds all addresses that are tried for a typed text that was read.
pub(crate) fn push_found<A: Allocator + Copy>(
    alloc: &A,
    reading: &Reading<'_, Bech32m>,
    wanted: &Wanted<'_>,
    found: &mut Vec<Suggestion<String<A>>, A>,
) -> Result<(), AllocError>
    requires { (length reading.now.text.now ≤ 1023) × (6 ≤ length reading.now.data_part.now) }
    ensures { IfOk result (λ _. AddsFound
        reading.now.text.now wanted.now.unread.now wanted.now.errors
        (hrp_bytes wanted.now.hrp.now) wanted.now.typed.now
        (map (λ s. (string_bytes s.text, (s.mending, s.place))) found.old.items)
        (map (λ s. (string_bytes s.text, (s.mending, s.place))) found.new.items)) }
{
    push_near(alloc, reading, false, wanted, found)?;
    push_near(alloc, reading, true, wanted, found)?;
    if !wanted.unread.is_empty() {
        return Ok(());
    }
    push_edits::<Bech32, A>(alloc, &reading.by_bech32(), wanted, found)?;
    push_edits::<Bech32m, A>(alloc, reading, wanted, found)
}
