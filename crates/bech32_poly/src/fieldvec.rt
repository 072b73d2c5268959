//! Vectors of field elements whose first places are in the vector itself.

ghost use Rattle.std.specs.Prelude.{◌≡◌, ◌≤◌, ◌<◌, ◌+◌, ◌++◌, ◌∷◌, ◌==◌, [], List, length, slice_set, IfOk, IsOk, OnErr, OnOk};
ghost use Rattle.bech32_poly.specs.FieldVec.{FitsInPlace};
ghost use Rattle.bech32_poly.specs.Division.{zeros};
ghost use Rattle.bech32_poly.specs.Polynomial.{add, scale};
ghost use Rattle.bech32_poly.specs.Remainder.{IsRemainder};
ghost use Rattle.bech32_poly.specs.RootSearch.{multiplied_each};
ghost use Rattle.bech32_poly.specs.Window.{shifted};

use crate::arithmetic::Arithmetic;
use crate::polynomial::divide;
use smallvec::SmallVec;
use std::alloc::{AllocError, Allocator, Global};
use std::marker::Model;

/// The most elements that stand in a vector itself, and need no memory.
pub const NO_ALLOC_MAX_LENGTH: usize = 7;

/// Elements of a field, the first [`NO_ALLOC_MAX_LENGTH`] in place.
#[derive(Drop)]
pub struct FieldVec<F: Copy, A: Allocator + Copy = Global> {
    inner: SmallVec<F, NO_ALLOC_MAX_LENGTH, A>,
}

impl<F: Copy, A: Allocator + Copy> Model for FieldVec<F, A> {
    ghost Value = { List F };

    ghost view = { λ a. a.inner.items };

    ghost invariant = { λ a. 7 ≤ a.inner.capacity };
}

impl<F: Copy + Default, A: Allocator + Copy> FieldVec<F, A> {
    /// No elements.
    pub fn new(alloc: A) -> Self
        ensures { result ≡ [] }
    {
        FieldVec {
            inner: SmallVec::new(alloc),
        }
    }

    /// A copy of the elements. It allocates nothing where they fit in place.
    ///
    /// # Errors
    ///
    /// If memory runs out.
    pub fn from_slice(alloc: A, items: &[F]) -> Result<Self, AllocError>
        ensures ok { IfOk result (λ v. v ≡ items.now) }
        ensures in_place { FitsInPlace (length items.now) → IsOk result }
    {
        let mut copy = Self::new(alloc);
        for item in items {
            copy.push(*item)?;
        }
        Ok(copy)
    }

    /// Adds an element at the end. It allocates nothing where that one fits in place too.
    ///
    /// # Errors
    ///
    /// If memory runs out; the elements are then as before.
    pub fn push(&mut self, x: F) -> Result<(), AllocError>
        ensures ok { OnOk result (self.new ≡ self.old ++ x ∷ []) }
        ensures err { OnErr result (self.new ≡ self.old) }
        ensures in_place { FitsInPlace (length self.old + 1) → IsOk result }
    {
        match self.inner.push(x) {
            Ok(()) => Ok(()),
            Err(_) => Err(AllocError),
        }
    }

    /// The number of elements.
    pub fn len(&self) -> usize
        ensures { result ≡ length self.now }
    {
        self.inner.len()
    }

    /// Whether there is no element.
    pub fn is_empty(&self) -> bool
        ensures { result ≡ (length self.now == 0) }
    {
        self.inner.is_empty()
    }

    /// The elements.
    pub fn as_slice(&self) -> &[F]
        ensures { result.now ≡ self.now }
    {
        self.inner.as_slice()
    }

    /// Puts an element in the place of another.
    pub fn set(&mut self, index: usize, x: F)
        requires { index < length self.old }
        ensures { self.new ≡ slice_set self.old index x }
    {
        self.inner.as_mut_slice()[index] = x;
    }

    /// The allocator.
    pub fn allocator(&self) -> A {
        *self.inner.allocator()
    }
}

impl<F: Arithmetic, A: Allocator + Copy> FieldVec<F, A> {
    /// Adds a multiple of `source`, shifted up.
    pub fn add_multiple(&mut self, factor: F, source: &[F], shift: usize)
        requires { shift + length source.now ≤ length self.old }
        ensures { self.new
            ≡ add F.ops self.old (scale F.ops factor (shifted F.ops shift source.now)) }
    {
        add_multiple(self.inner.as_mut_slice(), factor, source, shift);
    }

    /// Multiplies each element by that at the same place of `factors`.
    pub fn multiply_each(&mut self, factors: &[F])
        requires { length factors.now ≡ length self.old }
        ensures { self.new ≡ multiplied_each F.ops self.old factors.now }
    {
        multiply_each(self.inner.as_mut_slice(), factors);
    }

    // Divides a polynomial by the monic one with the lower coefficients `low`: the remainder
    // comes in the place of zeros.
    pub(crate) fn divide(&mut self, polynomial: &[F], low: &[F])
        requires { self.old ≡ zeros F.ops (length low.now) }
        ensures { IsRemainder F.ops low.now polynomial.now self.new }
    {
        divide(self.inner.as_mut_slice(), polynomial, low);
    }
}

impl<F: Copy + Default, A: Allocator + Copy> Clone for FieldVec<F, A> {
    ghost is_clone = { λ v w. v ≡ w };

    ghost is_infallible = { λ v. FitsInPlace (length v) };

    fn clone(&self) -> Result<Self, AllocError> {
        Self::from_slice(self.allocator(), self.as_slice())
    }
}

// Adds a multiple of `source`, shifted up.
pub(crate) fn add_multiple<F: Arithmetic>(target: &mut [F], factor: F, source: &[F], shift: usize)
    requires { shift + length source.now ≤ length target.old }
    ensures { target.new
        ≡ add F.ops target.old (scale F.ops factor (shifted F.ops shift source.now)) }
{
    for i in 0..source.len() {
        target[shift + i] = target[shift + i].plus(factor.times(source[i]));
    }
}

// Multiplies each element by that at the same place of `factors`.
fn multiply_each<F: Arithmetic>(items: &mut [F], factors: &[F])
    requires { length factors.now ≡ length items.old }
    ensures { items.new ≡ multiplied_each F.ops items.old factors.now }
{
    for i in 0..factors.len() {
        items[i] = items[i].times(factors[i]);
    }
}
