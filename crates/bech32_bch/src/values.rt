//! The values of a pattern at given locations.

ghost use Rattle.std.specs.Prelude.{◌≡◌, ◌≢◌, ◌≤◌, ◌<◌, ℕ, Some, [], length, map, drop, IsTrue, IfOk, IfSome, IsOk, MatchOption, slice_index};
ghost use Rattle.std.specs.List.{AllByRecursion};
ghost use Rattle.bech32_gf.specs.Field.{power};
ghost use Rattle.bech32_bch.specs.Knock.{gap, knocks};
ghost use Rattle.bech32_bch.specs.Pattern.{locations};
ghost use Rattle.bech32_bch.specs.Search.{AreExplained, IsExplained, known_at, left_at, locators};
ghost use Rattle.bech32_poly.specs.Distinct.{IsAmong};
ghost use Rattle.bech32_poly.specs.FieldVec.{FitsInPlace};
ghost use Rattle.bech32_poly.specs.Polynomial.{coefficient};

use crate::decoder::Roots;
use crate::short_vec::ShortVec;
use crate::terms::{distances, locators_of, other_locators, without_terms};
use bech32_poly::arithmetic::{Arithmetic, Extension};
use bech32_poly::fieldvec::FieldVec;
use std::alloc::{AllocError, Allocator};

// The value that is left at a locator, where the terms at the others are taken out.
fn value_of_left<E: Extension>(left: &[E], here: E, start: usize, others: &[E]) -> Option<E::Base>
    requires { 0 < length left.now }
    ensures { (v : E.Base)
        → IsExplained E.ops (coefficient E.ops left.now 0)
        (E.ops.mul (power E.ops here start) (gap E.ops here others.now)) (E.embed v)
        → result ≡ Some v }
{
    let known = here.power(start).times(distances(here, others));
    if known.is_zero() {
        return None;
    }
    left[0].times(known.inverse()).lower()
}

// The value that the syndromes have at a locator, where all others are given.
fn value_beside<E: Extension, A: Allocator + Copy>(
    alloc: A,
    syndromes: &FieldVec<E, A>,
    here: E,
    start: usize,
    others: &[E],
) -> Result<Option<E::Base>, AllocError>
    requires { 0 < length syndromes.now }
    ensures value { IfOk result (λ answer. (v : E.Base)
        → length others.now < length syndromes.now
        → IsExplained E.ops (knocks E.ops others.now (coefficient E.ops syndromes.now) 0)
        (E.ops.mul (power E.ops here start) (gap E.ops here others.now)) (E.embed v)
        → answer ≡ Some v) }
    ensures in_place { FitsInPlace (length syndromes.now) → IsOk result }
{
    let left = without_terms(alloc, syndromes.as_slice(), others)?;
    Ok(value_of_left(left.as_slice(), here, start, others))
}

// The value at the k-th location, where all wrong locations are given.
fn value_of_location<E: Extension, A: Allocator + Copy>(
    alloc: A,
    syndromes: &FieldVec<E, A>,
    roots: Roots<E>,
    wrong: &[usize],
    all: &FieldVec<E, A>,
    k: usize,
) -> Result<Option<E::Base>, AllocError>
    requires few { length wrong.now ≤ length syndromes.now }
    requires at { k < length wrong.now }
    requires locators { all.now ≡ locators E.ops roots.base wrong.now }
    ensures value { IfOk result (λ answer. (v : E.Base)
        → IsExplained E.ops
        (left_at E.ops roots.base (coefficient E.ops syndromes.now) wrong.now
        (slice_index wrong.now k))
        (known_at E.ops roots.base roots.start wrong.now (slice_index wrong.now k)) (E.embed v)
        → answer ≡ Some v) }
    ensures in_place { FitsInPlace (length wrong.now) → FitsInPlace (length syndromes.now)
        → IsOk result }
{
    let location = wrong[k];
    let others = other_locators(alloc, roots.base, wrong, all.as_slice(), location)?;
    value_beside(
        alloc,
        syndromes,
        roots.base.power(location),
        roots.start,
        others.as_slice(),
    )
}

// Lists the wrong locations with their values; whether each has one, and none behind the first
// `given` is zero.
fn push_values<E: Extension, A: Allocator + Copy>(
    syndromes: &FieldVec<E, A>,
    roots: Roots<E>,
    wrong: &[usize],
    all: &FieldVec<E, A>,
    given: usize,
    listing: &mut ShortVec<(usize, E::Base), A>,
) -> Result<bool, AllocError>
    requires few { length wrong.now ≤ length syndromes.now }
    requires locators { all.now ≡ locators E.ops roots.base wrong.now }
    requires empty { listing.old ≡ [] }
    ensures placed { IfOk result (λ done. IsTrue done → locations listing.new ≡ wrong.now) }
    ensures not_zero { IfOk result (λ done. IsTrue done
        → AllByRecursion (λ p. p.1 ≢ E.base_ops.zero) (drop given listing.new)) }
    ensures found { IfOk result (λ done. (v : ℕ → E.Base)
        → AreExplained E.ops E.embed roots.base roots.start syndromes.now wrong.now v
        → ((i : ℕ) → IsAmong i (drop given wrong.now) → v i ≢ E.base_ops.zero)
        → IsTrue done × (listing.new ≡ map (λ i. (i, v i)) wrong.now)) }
    ensures in_place { FitsInPlace (length syndromes.now) → IsOk result }
{
    for k in 0..wrong.len() {
        let alloc = listing.allocator();
        let Some(v) = value_of_location(alloc, syndromes, roots, wrong, all, k)? else {
            return Ok(false);
        };
        if k >= given && E::is_base_zero(v) {
            return Ok(false);
        }
        listing.push((wrong[k], v))?;
    }
    Ok(true)
}

/// The wrong locations with their values; none if one has no value, or the value zero where it is
/// not among the first `given`.
pub(crate) fn values<E: Extension, A: Allocator + Copy>(
    alloc: A,
    syndromes: &FieldVec<E, A>,
    roots: Roots<E>,
    wrong: &[usize],
    given: usize,
) -> Result<Option<ShortVec<(usize, E::Base), A>>, AllocError>
    requires { length wrong.now ≤ length syndromes.now }
    ensures placed { IfOk result
        (λ answer. IfSome answer (λ listing. locations listing ≡ wrong.now)) }
    ensures not_zero { IfOk result (λ answer. IfSome answer (λ listing.
        AllByRecursion (λ p. p.1 ≢ E.base_ops.zero) (drop given listing))) }
    ensures found { IfOk result (λ answer. (v : ℕ → E.Base)
        → AreExplained E.ops E.embed roots.base roots.start syndromes.now wrong.now v
        → ((i : ℕ) → IsAmong i (drop given wrong.now) → v i ≢ E.base_ops.zero)
        → MatchOption answer ⊥ (λ listing. listing ≡ map (λ i. (i, v i)) wrong.now)) }
    ensures in_place { FitsInPlace (length syndromes.now) → IsOk result }
{
    let locators = locators_of(alloc, roots.base, wrong)?;
    let mut listing = ShortVec::new(alloc);
    if push_values(syndromes, roots, wrong, &locators, given, &mut listing)? {
        return Ok(Some(listing));
    }
    Ok(None)
}
