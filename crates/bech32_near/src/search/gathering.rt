//! Gathers all patterns of few errors that explain a residue.

ghost use Rattle.std.specs.Prelude.{◌≡◌, ◌≢◌, ◌≤◌, ◌<◌, ◌+◌, ◌*◌, ◌^◌, ◌++◌, ◌↔◌, ◌∷◌, ℕ, [], List};
ghost use Rattle.std.specs.Prelude.{length, take, drop, map, false, IfOk, IsOk, IsTrue, OnOk};
ghost use Rattle.std.specs.List.{AllByRecursion};
ghost use Rattle.bech32_bch.specs.Erasures.{AreErasures, has};
ghost use Rattle.bech32_near.specs.search.Added.{AddsGathered, AddsHighest, AddsHighestAt};
ghost use Rattle.bech32_near.specs.search.Steps.{IsErasedAnswer, IsTried, raised, with_highest};
ghost use Rattle.bech32_lookup.specs.Question.{IsAnswerTo, Question};
ghost use Rattle.bech32_gf.specs.Fe32 as fe32;
ghost use Rattle.bech32_gf.specs.declared.gf32.Fe32.{Fe32 as Element};

use crate::search::pairs::gather_sketched;
use bech32_bch::{ShortVec, contains};
use bech32_checksum::Checksum;
use bech32_correction::{Corrector, Question};
use bech32_gf::gf32::Fe32;
use std::alloc::{AllocError, Allocator, Global};

/// Listings of errors: of each the locations, of which 0 is the last character, and the element to
/// add there.
pub type Listings<A = Global> = Vec<ShortVec<(usize, Fe32), A>, A>;

/// At most this many errors, all of them below a limit.
#[derive(Clone, Copy)]
pub(crate) struct Few {
    pub(crate) errors: usize,
    pub(crate) limit: usize,
}

// Whether this many errors and erasures are within the bound.
fn fits(errors: usize, erasures: usize, bound: usize) -> bool
    ensures { IsTrue result ↔ (2 * errors + erasures ≤ bound) }
{
    erasures <= bound && errors <= (bound - erasures) / 2
}

// Whether this many errors, and this many erasures more than the corrector has, are within its
// bound.
fn are_few<Ck: Checksum, A: Allocator + Copy>(
    corrector: &Corrector<Ck, A>,
    errors: usize,
    more: usize,
) -> bool
    ensures few { IsTrue result
        ↔ (2 * errors + length corrector.now.erasures + more ≤ Ck.bound) }
    ensures lawful { AreErasures corrector.now.window corrector.now.erasures }
{
    let erased = corrector.erasures().len();
    let bound = corrector.singleton_bound();
    if bound < more {
        return false;
    }
    fits(errors, erased, bound - more)
}

// Whether a location is one of the erasures.
pub(crate) fn is_erasure<Ck: Checksum, A: Allocator + Copy>(
    corrector: &Corrector<Ck, A>,
    location: usize,
) -> bool
    ensures { result ≡ has corrector.now.erasures location }
{
    contains(corrector.erasures(), location)
}

// Whether the errors are so few, and all below the limit.
fn are_within(errors: &[(usize, Fe32)], few: Few) -> bool
    ensures { IsTrue result ↔ ((length errors.now ≤ few.errors)
        × AllByRecursion (λ q. q.0 < few.limit) errors.now) }
{
    if errors.len() > few.errors {
        return false;
    }
    for error in errors {
        if error.0 >= few.limit {
            return false;
        }
    }
    true
}

// Goes on with a listing by further items.
fn push_all<A: Allocator + Copy>(
    listing: &mut ShortVec<(usize, Fe32), A>,
    items: &[(usize, Fe32)],
) -> Result<(), AllocError>
    ensures { OnOk result (listing.new ≡ listing.old ++ items.now) }
{
    for item in items {
        listing.push(*item)?;
    }
    Ok(())
}

// How many of the errors are listed before one at a higher location: one at location 0, or none.
fn front_length(rest: &[(usize, Fe32)]) -> usize
    ensures within { result ≤ length rest.now }
    ensures place { (x : ℕ × Element)
        → take result rest.now ++ x ∷ drop result rest.now ≡ with_highest x rest.now }
{
    let Some((first, _)) = rest.split_first() else {
        return 0;
    };
    if first.0 == 0 { 1 } else { 0 }
}

// The erasures, and behind them the errors with one at a higher location.
fn with_error<A: Allocator + Copy>(
    alloc: A,
    given: &[(usize, Fe32)],
    error: (usize, Fe32),
    rest: &[(usize, Fe32)],
) -> Result<ShortVec<(usize, Fe32), A>, AllocError>
    ensures { IfOk result (λ listing. listing ≡ given.now ++ with_highest error rest.now) }
{
    let (front, behind) = rest.split_at(front_length(rest));
    let mut listing = ShortVec::from_slice(alloc, given)?;
    push_all(&mut listing, front)?;
    listing.push(error)?;
    push_all(&mut listing, behind)?;
    Ok(listing)
}

// Puts a listing behind those that were found.
fn push_listing<A: Allocator + Copy>(
    listing: ShortVec<(usize, Fe32), A>,
    found: &mut Listings<A>,
) -> Result<(), AllocError>
    ensures { OnOk result (found.new.items ≡ found.old.items ++ listing ∷ []) }
{
    found.push(listing)?;
    Ok(())
}

// The items before a place and those from it on, where there are that many.
fn parts_at(items: &[(usize, Fe32)], place: usize) -> (&[(usize, Fe32)], &[(usize, Fe32)])
    ensures front { result.0.now ≡ take place items.now }
    ensures back { result.1.now ≡ drop place items.now }
{
    if items.len() < place {
        return (items, &[]);
    }
    items.split_at(place)
}

// A listing of this many erasures with an error at a higher location.
fn raised_of<A: Allocator + Copy>(
    listing: &ShortVec<(usize, Fe32), A>,
    erased: usize,
    error: (usize, Fe32),
) -> Result<ShortVec<(usize, Fe32), A>, AllocError>
    ensures { IfOk result (λ items. items ≡ raised erased error listing.now) }
{
    let (given, rest) = parts_at(listing.as_slice(), erased);
    let raised = with_error(listing.allocator(), given, error, rest)?;
    Ok(raised)
}

// Puts each listing, of this many erasures, behind those that were found, with an error at a higher
// location.
fn push_raised<A: Allocator + Copy>(
    listings: &Listings<A>,
    erased: usize,
    error: (usize, Fe32),
    found: &mut Listings<A>,
) -> Result<(), AllocError>
    ensures { OnOk result (found.new.items
        ≡ found.old.items ++ map (raised erased error) listings.now.items) }
{
    for listing in listings {
        found.push(raised_of(listing, erased, error)?)?;
    }
    Ok(())
}

// Puts the one listing with so few errors that the corrector tells it behind those that were found,
// where all of its errors are below the limit.
fn add_answer<Ck: Checksum, A: Allocator + Copy>(
    corrector: &Corrector<Ck, A>,
    few: Few,
    found: &mut Listings<A>,
) -> Result<(), AllocError>
    ensures { 2 * few.errors + length corrector.now.erasures ≤ Ck.bound
        → few.limit ≤ corrector.now.window
        → OnOk result (AddsGathered Ck.code corrector.now few.limit few.errors
        found.old.items found.new.items) }
{
    let erased = corrector.erasures().len();
    let Some(listing) = corrector.own_listing()? else {
        return Ok(());
    };
    let (_, listed) = listing.as_slice().split_at(erased);
    if !are_within(listed, few) {
        return Ok(());
    }
    push_listing(listing, found)?;
    Ok(())
}

// Whether an element is zero.
fn is_zero(value: Fe32) -> bool
    ensures { IsTrue result ↔ (value ≡ fe32.zero) }
{
    value == Fe32::Q
}

// Whether all elements are zero.
fn are_zero(elements: &[Fe32]) -> bool
    ensures { IsTrue result ↔ AllByRecursion (λ x. x ≡ fe32.zero) elements.now }
{
    for element in elements {
        if !is_zero(*element) {
            return false;
        }
    }
    true
}

// Puts the one listing without errors behind those that were found, where it explains the residue:
// the corrector tells what to add at its erasures; without any, the residue has to be zero.
pub(crate) fn add_errorless<Ck: Checksum, A: Allocator + Copy>(
    corrector: &Corrector<Ck, A>,
    found: &mut Listings<A>,
) -> Result<(), AllocError>
    ensures { length corrector.now.erasures ≤ Ck.bound
        → OnOk result (AddsGathered Ck.code corrector.now 0 0 found.old.items found.new.items) }
{
    if !corrector.erasures().is_empty() {
        let none = Few {
            errors: 0,
            limit: 0,
        };
        return add_answer(corrector, none, found);
    }
    if !are_zero(corrector.residue()) {
        return Ok(());
    }
    push_listing(ShortVec::new(corrector.allocator()), found)
}

// The highest of a location and the erasures.
fn highest_of(erasures: &[usize], location: usize) -> usize
    ensures location { location ≤ result }
    ensures erasures { AllByRecursion (λ i. i ≤ result) erasures.now }
    ensures among { (n : ℕ) → location < n → AllByRecursion (λ i. i < n) erasures.now → result < n }
{
    let mut highest = location;
    for erasure in erasures {
        if *erasure > highest {
            highest = *erasure;
        }
    }
    highest
}

// What the corrector lists with this location as one more erasure: no error of a listing whose
// highest error is there stands above it.
fn erased_listing<Ck: Checksum, A: Allocator + Copy>(
    corrector: &Corrector<Ck, A>,
    location: usize,
) -> Result<Option<ShortVec<(usize, Fe32), A>>, AllocError>
    ensures { location < corrector.now.window → IfOk result
        (λ answer. IsErasedAnswer Ck.code Ck.bound corrector.now location answer) }
{
    let erasures = corrector.erasures();
    let mut wider = ShortVec::from_slice(corrector.allocator(), erasures)?;
    wider.push(location)?;
    corrector.listing(Question {
        erasures: wider.as_slice(),
        highest: Some(highest_of(erasures, location)),
    })
}

// Whether the value is not zero, and the other errors are so few, and all below the limit.
fn is_highest(value: Fe32, rest: &[(usize, Fe32)], others: Few) -> bool
    ensures { IsTrue result ↔ ((value ≢ fe32.zero) × ((length rest.now ≤ others.errors)
        × AllByRecursion (λ q. q.0 < others.limit) rest.now)) }
{
    if is_zero(value) {
        return false;
    }
    are_within(rest, others)
}

// Tries the error behind this many erasures as the highest of a listing.
fn push_highest<A: Allocator + Copy>(
    listing: &ShortVec<(usize, Fe32), A>,
    erased: usize,
    others: Few,
    found: &mut Listings<A>,
) -> Result<(), AllocError>
    ensures { erased < length listing.now → OnOk result (IsTried fe32.zero erased
        others.limit others.errors listing.now found.old.items found.new.items) }
{
    let (given, behind) = parts_at(listing.as_slice(), erased);
    let Some((error, rest)) = behind.split_first() else {
        return Ok(());
    };
    if !is_highest(error.1, rest, others) {
        return Ok(());
    }
    let raised = with_error(listing.allocator(), given, *error, rest)?;
    push_listing(raised, found)
}

// Puts the one listing whose highest error is at the limit of the others behind those that were
// found: the corrector lists it where this location is one more erasure.
fn add_erased<Ck: Checksum, A: Allocator + Copy>(
    corrector: &Corrector<Ck, A>,
    others: Few,
    found: &mut Listings<A>,
) -> Result<(), AllocError>
    ensures { 2 * others.errors + length corrector.now.erasures + 1 ≤ Ck.bound
        → others.limit < corrector.now.window
        → has corrector.now.erasures others.limit ≡ false
        → OnOk result (AddsHighestAt Ck.code corrector.now others.limit others.errors
        found.old.items found.new.items) }
{
    let erased = corrector.erasures().len();
    let Some(listing) = erased_listing(corrector, others.limit)? else {
        return Ok(());
    };
    push_highest(&listing, erased, others, found)?;
    Ok(())
}

// Puts each listing that was gathered behind those that were found, with an error at a higher
// location.
pub(crate) fn push_with<Ck: Checksum, A: Allocator + Copy>(
    corrector: &Corrector<Ck, A>,
    gathered: Result<(), AllocError>,
    listings: Listings<A>,
    error: (usize, Fe32),
    found: &mut Listings<A>,
) -> Result<(), AllocError>
    ensures was { OnOk result (IsOk gathered) }
    ensures raised { OnOk result (found.new.items ≡ found.old.items
        ++ map (raised (length corrector.now.erasures) error) listings.items) }
{
    gathered?;
    push_raised(&listings, corrector.erasures().len(), error, found)?;
    Ok(())
}

/// All listings with at most this many errors, all below the limit, which is at most the window.
/// None where there are more erasures than the bound.
///
/// # Errors
///
/// If memory runs out.
pub fn gathered<Ck: Checksum, A: Allocator + Copy>(
    corrector: &Corrector<Ck, A>,
    limit: usize,
    errors: usize,
) -> Result<Listings<A>, AllocError>
    ensures all { IfOk result (λ found. limit ≤ corrector.now.window
        → length corrector.now.erasures ≤ Ck.bound
        → AddsGathered Ck.code corrector.now limit errors [] found.items) }
    ensures none { IfOk result
        (λ found. Ck.bound < length corrector.now.erasures → found.items ≡ []) }
    ensures lawful { AreErasures corrector.now.window corrector.now.erasures }
{
    let mut found = Vec::new(corrector.allocator());
    if !are_few(corrector, 0, 0) {
        return Ok(found);
    }
    let few = Few { errors, limit };
    if are_sketched(corrector, errors) {
        gather_sketched(corrector, few, &mut found)?;
        return Ok(found);
    }
    gather(corrector, few, &mut found)?;
    Ok(found)
}

// Whether errors are gathered by their sketches: one or two, where the others and the erasures are
// past the bound even if the location of one is tried as one more erasure.
fn are_sketched<Ck: Checksum, A: Allocator + Copy>(
    corrector: &Corrector<Ck, A>,
    errors: usize,
) -> bool
    ensures some { IsTrue result → 0 < errors }
    ensures two { IsTrue result → errors ≤ 2 }
    ensures within { IsTrue result → corrector.now.window < 2 ^ 24 }
{
    if errors == 0 {
        return false;
    }
    if errors > 2 {
        return false;
    }
    if corrector.window() >= 0x100_0000 {
        return false;
    }
    !are_few(corrector, errors - 1, 1)
}

// Puts all listings with at most this many errors, all below the limit, behind those that were
// found.
#[cycle(gather)]
fn gather<Ck: Checksum, A: Allocator + Copy>(
    corrector: &Corrector<Ck, A>,
    few: Few,
    found: &mut Listings<A>,
) -> Result<(), AllocError>
    ensures { length corrector.now.erasures ≤ Ck.bound → few.limit ≤ corrector.now.window
        → OnOk result (AddsGathered Ck.code corrector.now few.limit few.errors
        found.old.items found.new.items) }
{
    if are_few(corrector, few.errors, 0) {
        return add_answer(corrector, few, found);
    }
    let Some(others) = few.errors.checked_sub(1) else {
        return Ok(());
    };
    add_errorless(corrector, found)?;
    for location in 0..few.limit {
        gather_at(corrector, location, others, found)?;
    }
    Ok(())
}

// The same of those whose highest error is at this location.
#[cycle(gather)]
fn gather_at<Ck: Checksum, A: Allocator + Copy>(
    corrector: &Corrector<Ck, A>,
    location: usize,
    others: usize,
    found: &mut Listings<A>,
) -> Result<(), AllocError>
    ensures { length corrector.now.erasures ≤ Ck.bound → location < corrector.now.window
        → OnOk result (AddsHighestAt Ck.code corrector.now location others
        found.old.items found.new.items) }
{
    if is_erasure(corrector, location) {
        return Ok(());
    }
    if are_few(corrector, others, 1) {
        let rest = Few {
            errors: others,
            limit: location,
        };
        return add_erased(corrector, rest, found);
    }
    for value in 1..32u8 {
        gather_with(
            corrector,
            (location, Fe32::from_low_bits(value)),
            others,
            found,
        )?;
    }
    Ok(())
}

// The same of those with this highest error.
#[cycle(gather)]
pub(crate) fn gather_with<Ck: Checksum, A: Allocator + Copy>(
    corrector: &Corrector<Ck, A>,
    error: (usize, Fe32),
    others: usize,
    found: &mut Listings<A>,
) -> Result<(), AllocError>
    ensures { length corrector.now.erasures ≤ Ck.bound → error.0 < corrector.now.window
        → has corrector.now.erasures error.0 ≡ false → error.1 ≢ fe32.zero
        → OnOk result (AddsHighest Ck.code corrector.now error others
        found.old.items found.new.items) }
{
    let left = corrector.without_error(error)?;
    let mut lower = Vec::new(corrector.allocator());
    let rest = Few {
        errors: others,
        limit: error.0,
    };
    let gathered = gather(&left, rest, &mut lower);
    push_with(corrector, gathered, lower, error, found)?;
    Ok(())
}
