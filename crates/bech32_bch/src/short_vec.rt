//! Vectors whose first places are in the vector itself.

ghost use Rattle.std.specs.Prelude.{◌≡◌, ◌≤◌, ◌+◌, ◌++◌, ◌∷◌, [], List, length, take, IfOk, IsOk, OnErr, OnOk};
ghost use Rattle.bech32_poly.specs.FieldVec.{FitsInPlace};

use bech32_poly::fieldvec::NO_ALLOC_MAX_LENGTH;
use smallvec::SmallVec;
use std::alloc::{AllocError, Allocator, Global};
use std::marker::Model;

/// Items, the first [`NO_ALLOC_MAX_LENGTH`] of them in place.
#[derive(Drop)]
pub struct ShortVec<T: Copy + Default, A: Allocator + Copy = Global> {
    inner: SmallVec<T, NO_ALLOC_MAX_LENGTH, A>,
}

impl<T: Copy + Default, A: Allocator + Copy> Model for ShortVec<T, A> {
    ghost Value = { List T };

    ghost view = { λ a. a.inner.items };

    ghost invariant = { λ a. 7 ≤ a.inner.capacity };
}

impl<T: Copy + Default, A: Allocator + Copy> ShortVec<T, A> {
    /// No items.
    pub fn new(alloc: A) -> Self
        ensures { result ≡ [] }
    {
        ShortVec {
            inner: SmallVec::new(alloc),
        }
    }

    /// A copy of items.
    ///
    /// # Errors
    ///
    /// If memory runs out.
    pub fn from_slice(alloc: A, items: &[T]) -> Result<Self, AllocError>
        ensures ok { IfOk result (λ v. v ≡ items.now) }
        ensures in_place { FitsInPlace (length items.now) → IsOk result }
    {
        let mut copy = Self::new(alloc);
        copy.push_all(items)?;
        Ok(copy)
    }

    // Adds items at the end. It allocates nothing where they fit in place too.
    pub(crate) fn push_all(&mut self, items: &[T]) -> Result<(), AllocError>
        ensures ok { OnOk result (self.new ≡ self.old ++ items.now) }
        ensures in_place { FitsInPlace (length self.old + length items.now) → IsOk result }
    {
        for item in items {
            self.push(*item)?;
        }
        Ok(())
    }

    /// Adds an item at the end. It allocates nothing where that one fits in place too.
    ///
    /// # Errors
    ///
    /// If memory runs out; the items are then as before.
    pub fn push(&mut self, item: T) -> Result<(), AllocError>
        ensures ok { OnOk result (self.new ≡ self.old ++ item ∷ []) }
        ensures err { OnErr result (self.new ≡ self.old) }
        ensures in_place { FitsInPlace (length self.old + 1) → IsOk result }
    {
        match self.inner.push(item) {
            Ok(()) => Ok(()),
            Err(_) => Err(AllocError),
        }
    }

    /// The items without those from place `length` on.
    pub fn truncate(&mut self, length: usize)
        ensures { self.new ≡ take length self.old }
    {
        self.inner.truncate(length);
    }

    /// The number of items.
    pub fn len(&self) -> usize
        ensures { result ≡ length self.now }
    {
        self.inner.len()
    }

    /// The items.
    pub fn as_slice(&self) -> &[T]
        ensures { result.now ≡ self.now }
    {
        self.inner.as_slice()
    }

    /// The allocator.
    pub fn allocator(&self) -> A {
        *self.inner.allocator()
    }
}

impl<T: Copy + Default, A: Allocator + Copy> Clone for ShortVec<T, A> {
    ghost is_clone = { λ v w. v ≡ w };

    ghost is_infallible = { λ v. FitsInPlace (length v) };

    fn clone(&self) -> Result<Self, AllocError> {
        Self::from_slice(self.allocator(), self.as_slice())
    }
}
