//! Terms taken out of sums of powers.

ghost use Rattle.std.specs.Prelude.{◌≡◌, ◌≤◌, ◌<◌, ◌+◌, ℕ, suc, length, map, IfOk, IsOk};
ghost use Rattle.bech32_gf.specs.Field.{power};
ghost use Rattle.bech32_bch.specs.Knock.{gap, knock, knocks, without};
ghost use Rattle.bech32_bch.specs.Search.{IsKnockedOut, locators};
ghost use Rattle.bech32_poly.specs.FieldVec.{FitsInPlace};
ghost use Rattle.bech32_poly.specs.Polynomial.{coefficient};

use bech32_poly::arithmetic::Arithmetic;
use bech32_poly::fieldvec::FieldVec;
use std::alloc::{AllocError, Allocator};

/// The locators of locations: the powers of the base by them.
///
/// # Errors
///
/// Out of memory, for more locators than stand in place.
pub fn locators_of<K: Arithmetic, A: Allocator + Copy>(
    alloc: A,
    base: K,
    locations: &[usize],
) -> Result<FieldVec<K, A>, AllocError>
    ensures locators { IfOk result (λ v. v ≡ locators K.ops base locations.now) }
    ensures in_place { FitsInPlace (length locations.now) → IsOk result }
{
    let mut list = FieldVec::new(alloc);
    for location in locations {
        list.push(base.power(*location))?;
    }
    Ok(list)
}

/// The locators of the locations other than one.
pub(crate) fn other_locators<K: Arithmetic, A: Allocator + Copy>(
    alloc: A,
    base: K,
    locations: &[usize],
    all: &[K],
    location: usize,
) -> Result<FieldVec<K, A>, AllocError>
    requires { all.now ≡ locators K.ops base locations.now }
    ensures locators { IfOk result (λ v. v ≡ locators K.ops base (without location locations.now)) }
    ensures in_place { FitsInPlace (length locations.now) → IsOk result }
{
    let mut others = FieldVec::new(alloc);
    for k in 0..locations.len() {
        if locations[k] != location {
            others.push(all[k])?;
        }
    }
    Ok(others)
}

// Takes the term at the locator `y` out of the items. The last item says nothing any more.
fn knock_out<K: Arithmetic, A: Allocator + Copy>(items: &mut FieldVec<K, A>, y: K)
    ensures size { length items.new ≡ length items.old }
    ensures knocked { (t : ℕ) → suc t < length items.old
        → coefficient K.ops items.new t ≡ knock K.ops y (coefficient K.ops items.old) t }
{
    for i in 1..items.len() {
        let here = items.as_slice()[i - 1];
        let next = items.as_slice()[i];
        items.set(i - 1, next.plus(y.times(here).negated()));
    }
}

// Takes the terms at all locators out.
fn knock_all<K: Arithmetic, A: Allocator + Copy>(items: &mut FieldVec<K, A>, locators: &[K])
    ensures { IsKnockedOut K.ops locators.now items.old items.new }
{
    let mut i = locators.len();
    while i > 0 {
        i -= 1;
        knock_out(items, locators[i]);
    }
}

/// The syndromes without the terms at the locators.
pub(crate) fn without_terms<K: Arithmetic, A: Allocator + Copy>(
    alloc: A,
    syndromes: &[K],
    locators: &[K],
) -> Result<FieldVec<K, A>, AllocError>
    ensures knocked { IfOk result (λ left. IsKnockedOut K.ops locators.now syndromes.now left) }
    ensures in_place { FitsInPlace (length syndromes.now) → IsOk result }
{
    let mut left = FieldVec::from_slice(alloc, syndromes)?;
    knock_all(&mut left, locators);
    Ok(left)
}

/// The product of the differences of a locator from the others.
pub(crate) fn distances<K: Arithmetic>(here: K, others: &[K]) -> K
    ensures { result ≡ gap K.ops here others.now }
{
    let mut product = K::one();
    let mut i = others.len();
    while i > 0 {
        i -= 1;
        product = here.plus(others[i].negated()).times(product);
    }
    product
}
