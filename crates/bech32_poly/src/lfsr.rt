//! Shift registers: the shortest one that generates a list, and the sequence that it goes on with.

ghost use Rattle.std.specs.Prelude.{◌≡◌, ◌+◌, ◌≤◌, ◌<◌, [], ◌∷◌, length, reverse, IfOk, IsOk};
ghost use Rattle.bech32_poly.specs.FieldVec.{FitsInPlace};
ghost use Rattle.bech32_poly.specs.Polynomial.{coefficient};
ghost use Rattle.bech32_poly.specs.Register.{IsShortest, Register, GivesAllOf, GivesNext, back_sum, from_place};
ghost use Rattle.bech32_poly.specs.Window.{act, shifted, IsShortestWindow};

use crate::arithmetic::Arithmetic;
use crate::fieldvec::FieldVec;
use std::alloc::{AllocError, Allocator, Global};
use std::marker::Model;

/// A shortest register for a list of elements, as an iterator over the list's items and then
/// those that the register goes on with, without an end.
#[derive(Drop)]
pub struct LfsrIter<F: Copy, A: Allocator + Copy = Global> {
    coefficients: FieldVec<F, A>,
    // The next items, one for each coefficient: a ring, whose first one stands at `start`.
    ring: FieldVec<F, A>,
    start: usize,
}

impl<F: Copy, A: Allocator + Copy> Model for LfsrIter<F, A> {
    ghost Value = { Register F };

    ghost view = { λ a. record {
      coefficients = a.coefficients;
      coming = from_place a.start a.ring;
    } };

    ghost invariant = { λ a. (length a.ring ≡ length a.coefficients)
        × (0 < length a.ring → a.start < length a.ring) };
}

impl<F: Arithmetic, A: Allocator + Copy> LfsrIter<F, A> {
    /// A shortest register for the items, which are one at least. Its vectors take their memory
    /// from `alloc`; for six items none is needed.
    ///
    /// # Errors
    ///
    /// If memory runs out.
    pub fn berlekamp_massey_in(alloc: A, items: &[F]) -> Result<Self, AllocError>
        requires { 0 < length items.now }
        ensures shortest { IfOk result (λ r. IsShortest F.ops r.coefficients items.now) }
        ensures goes_on { IfOk result (λ r. GivesAllOf F.ops items.now r) }
        ensures in_place { length items.now ≤ 6 → IsOk result }
    {
        let coefficients = match shortest_coefficients(alloc, items) {
            Ok(coefficients) => coefficients,
            Err(refusal) => return Err(refusal),
        };
        match FieldVec::from_slice(alloc, &items[..coefficients.len()]) {
            Ok(ring) => Ok(LfsrIter {
                coefficients,
                ring,
                start: 0,
            }),
            Err(refusal) => Err(refusal),
        }
    }

    /// The coefficients c1, c2, ..: each item from the place of their number on is minus the sum
    /// of ci times the item i places before.
    pub fn coefficients(&self) -> &[F]
        ensures { result.now ≡ self.now.coefficients }
    {
        self.coefficients.as_slice()
    }

    // The item that comes behind those of the ring.
    fn following(&self) -> F
        requires { 0 < length self.now.coefficients }
        ensures { result
            ≡ F.ops.neg (back_sum F.ops self.now.coefficients (coefficient F.ops self.now.coming)
            (length self.now.coefficients)) }
    {
        let (near, far) = self.coefficients.as_slice().split_at(self.start);
        let (newer, older) = self.ring.as_slice().split_at(self.start);
        weighted(near, newer).plus(weighted(far, older)).negated()
    }
}

impl<F: Arithmetic> LfsrIter<F> {
    /// A shortest register for the items, which are one at least.
    ///
    /// # Errors
    ///
    /// If memory runs out, which six items do not need.
    pub fn berlekamp_massey(alloc: Global, items: &[F]) -> Result<Self, AllocError>
        requires { 0 < length items.now }
        ensures shortest { IfOk result (λ r. IsShortest F.ops r.coefficients items.now) }
        ensures goes_on { IfOk result (λ r. GivesAllOf F.ops items.now r) }
        ensures in_place { length items.now ≤ 6 → IsOk result }
    {
        Self::berlekamp_massey_in(alloc, items)
    }
}

impl<F: Arithmetic, A: Allocator + Copy> Iterator for LfsrIter<F, A> {
    type Item = F;

    ghost next_gives = { GivesNext F.ops };

    fn next(&mut self) -> Option<F> {
        let length = self.ring.len();
        if length == 0 {
            return Some(F::zero());
        }
        let following = self.following();
        let item = self.ring.as_slice()[self.start];
        self.ring.set(self.start, following);
        self.start += 1;
        if self.start == length {
            self.start = 0;
        }
        Some(item)
    }
}

impl<F: Copy + Default, A: Allocator + Copy> Clone for LfsrIter<F, A> {
    ghost is_clone = { λ v w. v ≡ w };

    ghost is_infallible = { λ v. FitsInPlace (length v.coefficients) };

    fn clone(&self) -> Result<Self, AllocError> {
        let coefficients = match self.coefficients.clone() {
            Ok(coefficients) => coefficients,
            Err(refusal) => return Err(refusal),
        };
        match self.ring.clone() {
            Ok(ring) => Ok(LfsrIter {
                coefficients,
                ring,
                start: self.start,
            }),
            Err(refusal) => Err(refusal),
        }
    }
}

// The sum of the first coefficient times the last item, the second times the one before it, ..
fn weighted<F: Arithmetic>(coefficients: &[F], items: &[F]) -> F
    requires { length coefficients.now ≡ length items.now }
    ensures { result
        ≡ back_sum F.ops coefficients.now (coefficient F.ops items.now) (length items.now) }
{
    let mut sum = F::zero();
    let mut i = coefficients.len();
    while i > 0 {
        i -= 1;
        sum = coefficients[i].times(items[items.len() - 1 - i]).plus(sum);
    }
    sum
}

// The register's window that begins at `start`.
fn window_sum<F: Arithmetic>(register: &[F], items: &[F], start: usize) -> F
    requires { start + length register.now ≤ length items.now }
    ensures { result ≡ act F.ops register.now (coefficient F.ops items.now) start }
{
    let mut sum = F::zero();
    let mut i = register.len();
    while i > 0 {
        i -= 1;
        sum = register[i].times(items[start + i]).plus(sum);
    }
    sum
}

// A copy with zeros put in below it.
pub(crate) fn shifted_copy<F: Arithmetic, A: Allocator + Copy>(
    alloc: A,
    source: &[F],
    shift: usize,
) -> Result<FieldVec<F, A>, AllocError>
    ensures copy { IfOk result (λ copy. copy ≡ shifted F.ops shift source.now) }
    ensures in_place { FitsInPlace (shift + length source.now) → IsOk result }
{
    let mut copy = FieldVec::new(alloc);
    for _ in 0..shift {
        copy.push(F::zero())?;
    }
    for x in source {
        copy.push(*x)?;
    }
    Ok(copy)
}

// A copy from its last element to its first.
pub(crate) fn turned_copy<F: Copy + Default, A: Allocator + Copy>(
    alloc: A,
    source: &[F],
) -> Result<FieldVec<F, A>, AllocError>
    ensures copy { IfOk result (λ copy. copy ≡ reverse source.now) }
    ensures in_place { FitsInPlace (length source.now) → IsOk result }
{
    let mut copy = FieldVec::new(alloc);
    let mut i = source.len();
    while i > 0 {
        i -= 1;
        copy.push(source[i])?;
    }
    Ok(copy)
}

// The coefficients of a shortest register for the items.
fn shortest_coefficients<F: Arithmetic, A: Allocator + Copy>(
    alloc: A,
    items: &[F],
) -> Result<FieldVec<F, A>, AllocError>
    ensures shortest { IfOk result (λ cs. IsShortest F.ops cs items.now) }
    ensures in_place { length items.now ≤ 6 → IsOk result }
{
    let register = shortest_register(alloc, items)?;
    turned_copy(alloc, &register.as_slice()[..register.len() - 1])
}

// The register of one place.
fn one<F: Arithmetic, A: Allocator + Copy>(alloc: A) -> Result<FieldVec<F, A>, AllocError>
    ensures items { IfOk result (λ v. v ≡ F.ops.one ∷ []) }
    ensures in_place { IsOk result }
{
    let mut v = FieldVec::new(alloc);
    v.push(F::one())?;
    Ok(v)
}

/// A shortest register for the items, from its last coefficient to its first, and a one behind it.
/// For six items no memory is needed.
///
/// # Errors
///
/// If memory runs out.
pub fn shortest_register<F: Arithmetic, A: Allocator + Copy>(
    alloc: A,
    items: &[F],
) -> Result<FieldVec<F, A>, AllocError>
    ensures shortest { IfOk result (λ register. IsShortestWindow F.ops items.now register) }
    ensures in_place { length items.now ≤ 6 → IsOk result }
{
    let mut register = one(alloc)?;
    let mut old = one(alloc)?;
    let mut old_miss = F::one();
    // The register's length is `length`, and its first `right` windows vanish.
    let mut length = 0;
    let mut right = 0;
    for _ in 0..items.len() {
        let miss = window_sum(register.as_slice(), items, right);
        if miss.is_zero() {
            right += 1;
        } else {
            let factor = miss.times(old_miss.inverse()).negated();
            if right < length {
                register.add_multiple(factor, old.as_slice(), length - 1 - right);
                right += 1;
            } else {
                let mut longer = shifted_copy(alloc, register.as_slice(), right + 1 - length)?;
                longer.add_multiple(factor, old.as_slice(), 0);
                old = register;
                register = longer;
                old_miss = miss;
                let before = length;
                length = right + 1;
                right = before;
            }
        }
    }
    Ok(register)
}
