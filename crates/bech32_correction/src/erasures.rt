//! The locations that are given as erasures.

ghost use Rattle.std.specs.Prelude.{◌≡◌, ◌↔◌, ◌<◌, ◌≤◌, [], length, IfOk, IsOk, IsTrue, MatchOption};
ghost use Rattle.std.specs.List.{AllByRecursion};
ghost use Rattle.bech32_poly.specs.FieldVec.{FitsInPlace};
ghost use Rattle.bech32_bch.specs.Erasures.{AreErasures, with_erasures};
ghost use Rattle.bech32_correction.specs.Given.{AreWithin};

use bech32_bch::{ShortVec, contains};
use std::alloc::{AllocError, Allocator};

/// Whether all locations are below the window.
pub(crate) fn are_below(given: &[usize], window: usize) -> bool
    ensures { IsTrue result ↔ AllByRecursion (λ i. i < window) given.now }
{
    for location in given {
        if *location >= window {
            return false;
        }
    }
    true
}

// The given locations, each once, in the order in which they came first. None where there are more
// than `most` of them. Seven need no memory, nor where they may be six at most.
fn distinct_in<A: Allocator + Copy>(
    alloc: A,
    given: &[usize],
    most: usize,
) -> Result<Option<ShortVec<usize, A>>, AllocError>
    ensures value { IfOk result (λ answer. MatchOption answer
        (most < length (with_erasures [] given.now))
        (λ distinct. (distinct ≡ with_erasures [] given.now) × (length distinct ≤ most))) }
    ensures in_place { most ≤ 6 → IsOk result }
    ensures few { FitsInPlace (length (with_erasures [] given.now)) → IsOk result }
{
    let mut distinct = ShortVec::new(alloc);
    for location in given {
        if contains(distinct.as_slice(), *location) {
            continue;
        }
        if distinct.len() == most {
            return Ok(None);
        }
        distinct.push(*location)?;
    }
    Ok(Some(distinct))
}

/// The given locations, each once, in the order in which they came first. None where one is not
/// below the window, or there are more than `most` of them.
///
/// # Errors
///
/// If memory runs out. Seven need none, nor where they may be six at most.
#[inline]
pub(crate) fn distinct_below<A: Allocator + Copy>(
    alloc: A,
    given: &[usize],
    window: usize,
    most: usize,
) -> Result<Option<ShortVec<usize, A>>, AllocError>
    ensures value { IfOk result (λ answer. MatchOption answer
        (AreWithin window most given.now → ⊥)
        (λ distinct. AreWithin window most given.now × AreErasures window distinct
        × (distinct ≡ with_erasures [] given.now))) }
    ensures in_place { most ≤ 6 → IsOk result }
    ensures few { FitsInPlace (length (with_erasures [] given.now)) → IsOk result }
{
    if given.is_empty() {
        return Ok(Some(ShortVec::new(alloc)));
    }
    if !are_below(given, window) {
        return Ok(None);
    }
    distinct_in(alloc, given, most)
}
