//! The one listing that may explain an error residue, over any field and an extension of it.

ghost use Rattle.std.specs.Prelude.{◌≡◌, ◌≢◌, ◌≤◌, ◌+◌, ◌++◌, ℕ, List, length, drop, map, IfOk, IfSome, IsOk, MatchOption};
ghost use Rattle.std.specs.List.{AllByRecursion};
ghost use Rattle.bech32_bch.specs.Erasures.{AreErasures};
ghost use Rattle.bech32_bch.specs.Listing.{IsListing};
ghost use Rattle.bech32_bch.specs.Pattern.{Solves, locations};
ghost use Rattle.bech32_bch.specs.Search.{AreExplained, AreUsableRoots, HasLongOrder, IsCandidate, locators};
ghost use Rattle.bech32_poly.specs.Distinct.{IsAmong};
ghost use Rattle.bech32_poly.specs.FieldVec.{FitsInPlace};

use crate::locations::error_locations;
use crate::short_vec::ShortVec;
use crate::syndromes::syndromes;
use crate::values::values;
use bech32_poly::arithmetic::Extension;
use bech32_poly::fieldvec::FieldVec;
use std::alloc::{AllocError, Allocator};

/// A number of powers of a base, from one exponent on.
#[derive(Clone, Copy)]
pub struct Roots<E: Extension> {
    /// The base.
    pub base: E,
    /// The first exponent.
    pub start: usize,
    /// How many powers.
    pub count: usize,
}

// One list and another behind it.
fn joined<A: Allocator + Copy>(
    alloc: A,
    first: &[usize],
    second: &[usize],
) -> Result<ShortVec<usize, A>, AllocError>
    ensures joined { IfOk result (λ list. list ≡ first.now ++ second.now) }
    ensures in_place { FitsInPlace (length first.now + length second.now) → IsOk result }
{
    let mut list = ShortVec::from_slice(alloc, first)?;
    list.push_all(second)?;
    Ok(list)
}

// The listing of the erasures and the errors that were found outside them; none if one has no
// value, or an error that was found the value zero.
fn listed<E: Extension, A: Allocator + Copy>(
    alloc: A,
    list: &FieldVec<E, A>,
    roots: Roots<E>,
    erasures: &ShortVec<usize, A>,
    found: &ShortVec<usize, A>,
) -> Result<Option<ShortVec<(usize, E::Base), A>>, AllocError>
    requires { length erasures.now + length found.now ≤ length list.now }
    ensures placed { IfOk result (λ answer. IfSome answer (λ listing.
        locations listing ≡ erasures.now ++ found.now)) }
    ensures not_zero { IfOk result (λ answer. IfSome answer (λ listing. AllByRecursion
        (λ p. p.1 ≢ E.base_ops.zero) (drop (length erasures.now) listing))) }
    ensures found { IfOk result (λ answer. (v : ℕ → E.Base) → AreExplained
        E.ops E.embed roots.base roots.start list.now (erasures.now ++ found.now) v
        → ((i : ℕ) → IsAmong i (drop (length erasures.now) (erasures.now ++ found.now))
        → v i ≢ E.base_ops.zero)
        → MatchOption answer ⊥ (λ listing.
        listing ≡ map (λ i. (i, v i)) (erasures.now ++ found.now))) }
    ensures in_place { FitsInPlace (length list.now) → IsOk result }
{
    let wrong = joined(alloc, erasures.as_slice(), found.as_slice())?;
    values(alloc, list, roots, wrong.as_slice(), erasures.len())
}

/// The listing that alone can be that of a pattern that solves: the erasures and the errors outside
/// them, each with its value. Whoever calls has to divide once more: where the listed pattern does
/// not have the error residue as remainder, no pattern solves. `known` are the locators of the
/// erasures.
///
/// # Errors
///
/// If memory runs out. For at most six roots nothing is allocated.
pub fn decode_errors<E: Extension, A: Allocator + Copy>(
    alloc: A,
    roots: Roots<E>,
    window: usize,
    residue: &[E::Base],
    erasures: &ShortVec<usize, A>,
    known: &FieldVec<E, A>,
) -> Result<Option<ShortVec<(usize, E::Base), A>>, AllocError>
    requires order { HasLongOrder E.ops roots.base window }
    requires erased { AreErasures window erasures.now }
    requires known { known.now ≡ locators E.ops roots.base erasures.now }
    ensures listed { IfOk result (λ answer. IfSome answer (λ listing.
        IsCandidate E.base_ops window erasures.now roots.count listing)) }
    ensures found { IfOk result (λ answer. (g : List E.Base) (e : List (ℕ × E.Base))
        → AreUsableRoots E.base_ops E.ops E.embed g roots.base roots.start roots.count window
        → Solves E.base_ops g residue.now erasures.now window roots.count e
        → MatchOption answer ⊥ (λ listing. IsListing E.base_ops erasures.now e listing)) }
    ensures in_place { roots.count ≤ 6 → IsOk result }
{
    if erasures.len() > roots.count {
        return Ok(None);
    }
    let list = syndromes(alloc, residue, roots.base, roots.start, roots.count)?;
    let Some(found) = error_locations(alloc, &list, roots.base, window, erasures, known)? else {
        return Ok(None);
    };
    listed(alloc, &list, roots, erasures, &found)
}
