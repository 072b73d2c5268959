ghost use Rattle.std.specs.Prelude.{◌≡◌, ◌≤◌, ◌<◌, ◌+◌, ℕ, List, length, map, IfOk, IsOk, MatchOption};
ghost use Rattle.std.specs.Iterator.{YieldsFirst, item_count};
ghost use Rattle.bech32_gf.specs.Field.{power};
ghost use Rattle.bech32_gf.specs.Powers.{powers_of};
ghost use Rattle.bech32_poly.specs.FieldVec.{FitsInPlace};
ghost use Rattle.bech32_poly.specs.RootSearch.{RootSearch, left_of, multiplied_each, root_exponents, total_of, value_after};

use super::coefficients::Polynomial;
use crate::arithmetic::{Arithmetic, Extension};
use crate::fieldvec::FieldVec;
use std::alloc::{AllocError, Allocator, Global};
use std::marker::Model;

/// The exponents whose power of a base is a root of a polynomial, in rising order. From one
/// exponent to the next each term is multiplied once, by the power of the base that stands in it.
#[derive(Drop)]
pub struct RootIter<E: Arithmetic, A: Allocator + Copy = Global> {
    search: Search<E, A>,
}

impl<E: Arithmetic, A: Allocator + Copy> Model for RootIter<E, A> {
    ghost Value = { List ℕ };

    ghost view = { λ a. left_of E.ops E.same a.search };
}

impl<E: Extension, A: Allocator + Copy> RootIter<E, A> {
    /// The exponents from `start` to below `end` whose power of the base is a root of the
    /// polynomial, in rising order. Its vectors take their memory from where the polynomial's does;
    /// for seven coefficients none is needed.
    ///
    /// # Errors
    ///
    /// If memory runs out.
    pub fn new(
        polynomial: &Polynomial<E::Base, A>,
        base: E,
        start: usize,
        end: usize,
    ) -> Result<Self, AllocError>
        ensures roots { IfOk result (λ left.
            left ≡ root_exponents E.ops E.same (map E.embed polynomial.now) base start end) }
        ensures in_place { FitsInPlace (length polynomial.now) → IsOk result }
    {
        let first = base.power(start);
        let mut terms = FieldVec::new(polynomial.allocator());
        let mut factors = FieldVec::new(polynomial.allocator());
        let mut power = E::one();
        let mut factor = E::one();
        for coefficient in polynomial.as_slice() {
            terms.push(E::lift(*coefficient).times(power))?;
            factors.push(factor)?;
            power = power.times(first);
            factor = factor.times(base);
        }
        let search = Search {
            terms,
            factors,
            next: start,
            end,
        };
        Ok(RootIter { search })
    }
}

impl<E: Arithmetic, A: Allocator + Copy> Iterator for RootIter<E, A> {
    type Item = usize;

    ghost next_gives = { YieldsFirst (λ left. left) };

    ghost remaining = { item_count (λ left. left) };

    fn next(&mut self) -> Option<usize> {
        self.search.next_root()
    }
}

// The terms of a polynomial at the power of the base that comes next, with the power of the base
// in each, and how far the exponents go.
#[derive(Drop)]
struct Search<E: Copy, A: Allocator + Copy> {
    terms: FieldVec<E, A>,
    factors: FieldVec<E, A>,
    next: usize,
    end: usize,
}

impl<E: Copy, A: Allocator + Copy> Model for Search<E, A> {
    ghost Value = { RootSearch E };

    ghost view = { λ a. record {
      terms = a.terms;
      factors = a.factors;
      next = a.next;
      end = a.end;
    } };

    ghost invariant = { λ a. length a.factors ≡ length a.terms };
}

impl<E: Arithmetic, A: Allocator + Copy> Search<E, A> {
    // The exponent of the next root, where one is left.
    fn next_root(&mut self) -> Option<usize>
        ensures { YieldsFirst (left_of E.ops E.same) self.old result self.new }
    {
        while let Some(exponent) = self.exponent() {
            if self.step() {
                return Some(exponent);
            }
        }
        None
    }

    // The exponent that comes next, where one is left.
    fn exponent(&self) -> Option<usize>
        ensures { MatchOption result (self.now.end ≤ self.now.next)
            (λ k. (k ≡ self.now.next) × (self.now.next < self.now.end)) }
    {
        if self.next < self.end {
            Some(self.next)
        } else {
            None
        }
    }

    // Whether the power by the next exponent is a root; goes on to the one behind it.
    fn step(&mut self) -> bool
        requires { self.old.next < self.old.end }
        ensures found { result
            ≡ E.same (value_after E.ops self.old.terms self.old.factors 0) E.ops.zero }
        ensures terms { self.new.terms ≡ multiplied_each E.ops self.old.terms self.old.factors }
        ensures factors { self.new.factors ≡ self.old.factors }
        ensures next { self.new.next ≡ self.old.next + 1 }
        ensures end { self.new.end ≡ self.old.end }
    {
        let is_root = total(self.terms.as_slice()).equals(E::zero());
        self.terms.multiply_each(self.factors.as_slice());
        self.next += 1;
        is_root
    }
}

/// The first powers of the base, this many, from that by 0 on. Seven of them need no memory.
///
/// # Errors
///
/// If memory runs out.
pub fn first_powers<F: Arithmetic, A: Allocator + Copy>(
    alloc: A,
    base: F,
    count: usize,
) -> Result<FieldVec<F, A>, AllocError>
    ensures powers { IfOk result (λ v. v ≡ powers_of F.ops base 0 count) }
    ensures in_place { FitsInPlace count → IsOk result }
{
    let mut powers = FieldVec::new(alloc);
    let mut power = F::one();
    for _ in 0..count {
        powers.push(power)?;
        power = power.times(base);
    }
    Ok(powers)
}

/// The sum of the elements.
pub fn total<F: Arithmetic>(items: &[F]) -> F
    ensures { result ≡ total_of F.ops items.now }
{
    let mut sum = F::zero();
    let mut i = items.len();
    while i > 0 {
        i -= 1;
        sum = items[i].plus(sum);
    }
    sum
}
