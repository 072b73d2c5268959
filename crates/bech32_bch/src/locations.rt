//! Where the errors outside the erasures are.

ghost use Rattle.std.specs.Prelude.{◌≡◌, ◌≤◌, ◌<◌, ◌+◌, ◌*◌, ◌++◌, ◌⊎◌, ℕ, List, [], length, reverse, take, IsTrue, IfOk, IfSome, IsOk, MatchOption, OnOk};
ghost use Rattle.bech32_bch.specs.Erasures.{AreErasures, has};
ghost use Rattle.bech32_bch.specs.Search.{AreErrorLocations, AreLocationsOutside, AreSumsOf, HasLongOrder, IsKnockedOut, locators, ordered, roots_below};
ghost use Rattle.bech32_poly.specs.Distinct.{IsAmong};
ghost use Rattle.bech32_poly.specs.FieldVec.{FitsInPlace};
ghost use Rattle.bech32_poly.specs.RootSearch.{left_of};
ghost use Rattle.bech32_poly.specs.Window.{IsShortestWindow};

use crate::short_vec::ShortVec;
use crate::terms::without_terms;
use bech32_poly::arithmetic::{Arithmetic, first_powers, total};
use bech32_poly::fieldvec::FieldVec;
use bech32_poly::lfsr::shortest_register;
use std::alloc::{AllocError, Allocator};

/// Whether a location is one of the list.
pub fn contains(locations: &[usize], location: usize) -> bool
    ensures { result ≡ has locations.now location }
{
    let mut found = false;
    let mut i = locations.len();
    while i > 0 {
        i -= 1;
        if location == locations[i] {
            found = true;
        }
    }
    found
}

// Whether a location of one list is one of the other.
fn has_common(locations: &[usize], others: &[usize]) -> bool
    ensures yes { IsTrue result → (i : ℕ) × (IsAmong i locations.now × IsAmong i others.now) }
    ensures no { (i : ℕ) → IsAmong i locations.now → IsAmong i others.now → IsTrue result }
{
    for location in locations {
        if contains(others, *location) {
            return true;
        }
    }
    false
}

// Finds the locations at which the terms add up to zero, the first `degree` of them: the terms are
// those of a polynomial at location 0, and the factors lead from one location to the next.
fn push_roots<K: Arithmetic, A: Allocator + Copy>(
    terms: &mut FieldVec<K, A>,
    factors: &[K],
    window: usize,
    degree: usize,
    found: &mut ShortVec<usize, A>,
) -> Result<(), AllocError>
    requires size { length factors.now ≡ length terms.old }
    requires empty { found.old ≡ [] }
    ensures roots { OnOk result (found.new ≡ take degree (left_of K.ops K.same
        (record { terms = terms.old; factors = factors.now; next = 0; end = window }))) }
    ensures in_place { FitsInPlace degree → IsOk result }
{
    let mut location = 0;
    while location < window && found.len() < degree {
        if total(terms.as_slice()).equals(K::zero()) {
            found.push(location)?;
        }
        terms.multiply_each(factors);
        location += 1;
    }
    Ok(())
}

// Finds the first `degree` locations below the window at which the register vanishes, in rising
// order; all where there are fewer.
fn find_roots<K: Arithmetic, A: Allocator + Copy>(
    alloc: A,
    register: &FieldVec<K, A>,
    base: K,
    window: usize,
    degree: usize,
    found: &mut ShortVec<usize, A>,
) -> Result<(), AllocError>
    requires { found.old ≡ [] }
    ensures roots { OnOk result
        (found.new ≡ take degree (roots_below K.ops K.same register.now base window)) }
    ensures in_place { FitsInPlace (length register.now) → FitsInPlace degree → IsOk result }
{
    let mut terms = FieldVec::from_slice(alloc, register.as_slice())?;
    let powers = first_powers(alloc, base, register.len())?;
    push_roots(&mut terms, powers.as_slice(), window, degree, found)
}

// The first `degree` locations below the window at which the register vanishes, in rising order;
// none where there are fewer.
fn first_roots<K: Arithmetic, A: Allocator + Copy>(
    alloc: A,
    register: &FieldVec<K, A>,
    base: K,
    window: usize,
    degree: usize,
) -> Result<Option<ShortVec<usize, A>>, AllocError>
    ensures roots { IfOk result (λ answer. MatchOption answer
        (length (roots_below K.ops K.same register.now base window) < degree)
        (λ found. (length found ≡ degree)
        × (found ≡ take degree (roots_below K.ops K.same register.now base window)))) }
    ensures in_place { FitsInPlace (length register.now) → FitsInPlace degree → IsOk result }
{
    let mut found = ShortVec::new(alloc);
    find_roots(alloc, register, base, window, degree, &mut found)?;
    if found.len() < degree {
        return Ok(None);
    }
    Ok(Some(found))
}

// Goes on with a list by the items from the last to the first.
fn push_turned<A: Allocator + Copy>(
    list: &mut ShortVec<usize, A>,
    items: &[usize],
) -> Result<(), AllocError>
    ensures turned { OnOk result (list.new ≡ list.old ++ reverse items.now) }
    ensures in_place { FitsInPlace (length list.old + length items.now) → IsOk result }
{
    let mut i = items.len();
    while i > 0 {
        i -= 1;
        list.push(items[i])?;
    }
    Ok(())
}

// Goes on with a list by rising locations in the order of a listing: 0 first where it is one of
// them, the rest falling.
fn push_ordered<A: Allocator + Copy>(
    list: &mut ShortVec<usize, A>,
    rising: &[usize],
) -> Result<(), AllocError>
    ensures ordered { OnOk result (list.new ≡ list.old ++ ordered rising.now) }
    ensures in_place { FitsInPlace (length list.old + length rising.now) → IsOk result }
{
    if !rising.is_empty() && rising[0] == 0 {
        list.push(0)?;
        push_turned(list, &rising[1..])
    } else {
        push_turned(list, rising)
    }
}

// Rising locations in the order of a listing; none where one of them is one of the others.
fn in_order_outside<A: Allocator + Copy>(
    alloc: A,
    rising: &[usize],
    others: &[usize],
) -> Result<Option<ShortVec<usize, A>>, AllocError>
    ensures ordered { IfOk result (λ answer. MatchOption answer
        ((i : ℕ) × (IsAmong i rising.now × IsAmong i others.now))
        (λ v. (v ≡ ordered rising.now)
        × ((i : ℕ) → IsAmong i rising.now → IsAmong i others.now → ⊥))) }
    ensures in_place { FitsInPlace (length rising.now) → IsOk result }
{
    if has_common(rising, others) {
        return Ok(None);
    }
    let mut list = ShortVec::new(alloc);
    push_ordered(&mut list, rising)?;
    Ok(Some(list))
}

// The first `degree` locations at which the register vanishes, in the order of a listing; none
// where there are fewer, or one of them is an erasure.
fn locations_of<K: Arithmetic, A: Allocator + Copy>(
    alloc: A,
    register: &FieldVec<K, A>,
    base: K,
    window: usize,
    degree: usize,
    erasures: &ShortVec<usize, A>,
) -> Result<Option<ShortVec<usize, A>>, AllocError>
    ensures located { IfOk result (λ answer. (rising : List ℕ)
        → rising ≡ take degree (roots_below K.ops K.same register.now base window)
        → MatchOption answer
        ((length (roots_below K.ops K.same register.now base window) < degree)
        ⊎ ((i : ℕ) × (IsAmong i rising × IsAmong i erasures.now)))
        (λ found. (found ≡ ordered rising) × ((length rising ≡ degree)
        × ((i : ℕ) → IsAmong i rising → IsAmong i erasures.now → ⊥)))) }
    ensures in_place { FitsInPlace (length register.now) → FitsInPlace degree → IsOk result }
{
    let Some(rising) = first_roots(alloc, register, base, window, degree)? else {
        return Ok(None);
    };
    in_order_outside(alloc, rising.as_slice(), erasures.as_slice())
}

// The shortest register of the first `room` syndromes that are left where the terms at the known
// locators are taken out.
fn register_without<K: Arithmetic, A: Allocator + Copy>(
    alloc: A,
    syndromes: &[K],
    known: &[K],
    room: usize,
) -> Result<FieldVec<K, A>, AllocError>
    requires { room ≤ length syndromes.now }
    ensures register { IfOk result (λ register. (left : List K)
        × (IsKnockedOut K.ops known.now syndromes.now left
        × IsShortestWindow K.ops (take room left) register)) }
    ensures in_place { length syndromes.now ≤ 6 → IsOk result }
{
    let left = without_terms(alloc, syndromes, known)?;
    shortest_register(alloc, &left.as_slice()[..room])
}

/// The locations of the errors outside the erasures, for syndromes that are the sums of powers of a
/// pattern with so few of them that twice their number and the erasures are no more than the
/// syndromes; none where it is known already that there is no such pattern. `known` are the
/// locators of the erasures.
pub(crate) fn error_locations<K: Arithmetic, A: Allocator + Copy>(
    alloc: A,
    syndromes: &FieldVec<K, A>,
    base: K,
    window: usize,
    erasures: &ShortVec<usize, A>,
    known: &FieldVec<K, A>,
) -> Result<Option<ShortVec<usize, A>>, AllocError>
    requires order { HasLongOrder K.ops base window }
    requires erased { AreErasures window erasures.now }
    requires known { known.now ≡ locators K.ops base erasures.now }
    requires room { length erasures.now ≤ length syndromes.now }
    ensures listed { IfOk result (λ answer. IfSome answer (λ found.
        AreErrorLocations window erasures.now (length syndromes.now) found)) }
    ensures few { IfOk result (λ answer. IfSome answer (λ found.
        length erasures.now + length found ≤ length syndromes.now)) }
    ensures found { IfOk result (λ answer. (start : ℕ) (e : List (ℕ × K))
        → AreSumsOf K.ops base start window erasures.now syndromes.now e
        → MatchOption answer ⊥ (λ found. AreLocationsOutside erasures.now e found)) }
    ensures in_place { length syndromes.now ≤ 6 → IsOk result }
{
    let room = syndromes.len() - erasures.len();
    let register = register_without(alloc, syndromes.as_slice(), known.as_slice(), room)?;
    let degree = register.len() - 1;
    if room / 2 < degree {
        return Ok(None);
    }
    locations_of(alloc, &register, base, window, degree, erasures)
}
