//! All patterns of few errors that explain a residue.

ghost use Rattle.std.specs.Prelude.{◌≡◌, ◌≤◌, ◌+◌, ◌*◌, ◌↔◌, ◌∷◌, ℕ, List, [], length, IfOk, IsOk, IsTrue, MatchOption, OnErr};
ghost use Rattle.bech32_bch.specs.Detection.{DetectsFour};
ghost use Rattle.bech32_bch.specs.Erasures.{AreErasures};
ghost use Rattle.bech32_near.specs.search.Nearest.{AreNearest};
ghost use Rattle.bech32_gf.specs.Fe32 as fe32;
ghost use Rattle.bech32_gf.specs.declared.gf32.Fe32.{Fe32 as Element};

use crate::search::{Listings, gathered};
use bech32_bch::ShortVec;
use bech32_checksum::Checksum;
use bech32_correction::Corrector;
use bech32_gf::gf32::Fe32;
use std::alloc::{AllocError, Allocator};

// Whether this many errors outside the erasures are within the corrector's bound.
fn is_within<Ck: Checksum, A: Allocator + Copy>(corrector: &Corrector<Ck, A>, errors: usize) -> bool
    ensures within { IsTrue result
        ↔ (2 * errors + length corrector.now.erasures ≤ Ck.bound) }
    ensures lawful { AreErasures corrector.now.window corrector.now.erasures }
{
    let erased = corrector.erasures().len();
    let bound = corrector.singleton_bound();
    erased <= bound && errors <= (bound - erased) / 2
}

// The corrector's one listing, where it has at most this many errors outside the erasures.
fn listing_of<Ck: Checksum, A: Allocator + Copy>(
    corrector: &Corrector<Ck, A>,
    errors: usize,
) -> Result<Option<ShortVec<(usize, Fe32), A>>, AllocError>
    ensures all { 2 * errors + length corrector.now.erasures ≤ Ck.bound
        → IfOk result (λ found. MatchOption found
        (AreNearest Ck.code Ck.bound corrector.now errors [])
        (λ listing. AreNearest Ck.code Ck.bound corrector.now errors (listing ∷ []))) }
    ensures in_place { length Ck.code.generator ≤ 6 → IsOk result }
{
    let erased = corrector.erasures().len();
    let Some(listing) = corrector.own_listing()? else {
        return Ok(None);
    };
    if listing.len().saturating_sub(erased) > errors {
        return Ok(None);
    }
    Ok(Some(listing))
}

// All listings where this many errors are within the bound: one at most.
fn listings_within<Ck: Checksum, A: Allocator + Copy>(
    corrector: &Corrector<Ck, A>,
    errors: usize,
) -> Result<Listings<A>, AllocError>
    ensures all { 2 * errors + length corrector.now.erasures ≤ Ck.bound
        → IfOk result (λ listings.
        AreNearest Ck.code Ck.bound corrector.now errors listings.items) }
    ensures one { IfOk result (λ listings. length listings.items ≤ 1) }
    ensures memory { 2 * errors + length corrector.now.erasures ≤ Ck.bound
        → OnErr result (length Ck.code.generator ≤ 6 → (listing : List (ℕ × Element))
        × AreNearest Ck.code Ck.bound corrector.now errors (listing ∷ [])) }
{
    let Some(listing) = listing_of(corrector, errors)? else {
        return Ok(Vec::new(corrector.allocator()));
    };
    let mut listings = Vec::new(corrector.allocator());
    listings.push(listing)?;
    Ok(listings)
}

/// All patterns below the corrector's window that explain its residue with at most this many errors
/// outside the erasures, each listed as [`bch_errors`](Corrector::bch_errors) lists its one: those
/// with a lower highest error first, then those with a lower value there, and so on; a pattern with
/// no errors outside the erasures is the first. None where there are more erasures than the
/// [`singleton_bound`](Corrector::singleton_bound).
///
/// It is meant for up to two errors: without erasures, two of them take one search by erasures for
/// each location of the window; beside as many erasures that this would be past the bound, a table
/// of 288 bytes for each location, and some searches for each listing. Any greater number is
/// allowed: where twice the other errors, the erasures and 1 are more than the bound, each value of
/// an error is tried by itself, and takes 31 times as many searches again as there are locations.
///
/// # Errors
///
/// Where memory runs out: for the listings, and as of [`bch_errors`](Corrector::bch_errors). Where
/// twice the errors, with the number of the erasures, is at most the bound, a checksum of at most
/// six characters needs memory only for the one listing there may be; past the bound also for the
/// table, and for listings that it goes on with.
pub fn nearest_listings<Ck: Checksum, A: Allocator + Copy>(
    corrector: &Corrector<Ck, A>,
    errors: usize,
) -> Result<Listings<A>, AllocError>
    ensures all { IfOk result (λ listings.
        AreNearest Ck.code Ck.bound corrector.now errors listings.items) }
    ensures one { IfOk result (λ listings.
        DetectsFour fe32.ops Ck.code.generator corrector.now.window
        → corrector.now.erasures ≡ [] → errors ≤ 2 → length listings.items ≤ 1) }
    ensures memory { OnErr result (length Ck.code.generator ≤ 6
        → 2 * errors + length corrector.now.erasures ≤ Ck.bound → (listing : List (ℕ × Element))
        × AreNearest Ck.code Ck.bound corrector.now errors (listing ∷ [])) }
{
    if is_within(corrector, errors) {
        return listings_within(corrector, errors);
    }
    gathered(corrector, corrector.window(), errors)
}
