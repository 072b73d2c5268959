ghost use Rattle.std.specs.Prelude.{◌≡◌, ◌≢◌, ◌≤◌, ◌<◌, ◌+◌, ◌-◌, ℕ, List, length, map, take, reverse, IfOk, IsOk, OnOk};
ghost use Rattle.bech32_gf.specs.Field.{value_at};
ghost use Rattle.bech32_poly.specs.Degree.{IsDegree, HasNoZeroAbove};
ghost use Rattle.bech32_poly.specs.FieldVec.{FitsInPlace};
ghost use Rattle.bech32_poly.specs.Polynomial.{BeginsAs, IsSamePolynomial, coefficient, multiply};
ghost use Rattle.bech32_poly.specs.Remainder.{IsRemainder};

use crate::arithmetic::{Arithmetic, Extension};
use crate::fieldvec::FieldVec;
use crate::lfsr::{shifted_copy, turned_copy};
use std::alloc::{AllocError, Allocator, Global};
use std::marker::Model;

/// A polynomial over a field: a list of coefficients, the constant one first. Zeros at the high
/// end do not matter. Up to seven coefficients need no memory.
#[derive(Drop)]
pub struct Polynomial<F: Copy, A: Allocator + Copy = Global> {
    list: FieldVec<F, A>,
}

impl<F: Copy, A: Allocator + Copy> Model for Polynomial<F, A> {
    ghost Value = { List F };

    ghost view = { λ a. a.list };
}

impl<F: Arithmetic, A: Allocator + Copy> Polynomial<F, A> {
    /// The polynomial with these coefficients, the constant one first. The coefficients of a
    /// remainder, in that order, make its polynomial too.
    ///
    /// # Errors
    ///
    /// If memory runs out.
    pub fn from_slice(alloc: A, coefficients: &[F]) -> Result<Self, AllocError>
        ensures list { IfOk result (λ p. p ≡ coefficients.now) }
        ensures in_place { FitsInPlace (length coefficients.now) → IsOk result }
    {
        Ok(Polynomial {
            list: FieldVec::from_slice(alloc, coefficients)?,
        })
    }

    /// The highest place of a coefficient that is not zero; 0 where there is none.
    pub fn degree(&self) -> usize
        ensures { IsDegree F.ops self.now result }
    {
        trimmed_length(self.list.as_slice()).saturating_sub(1)
    }

    /// The coefficients, the constant one first, without zeros at the high end.
    pub fn coefficients(&self) -> &[F]
        ensures same { IsSamePolynomial F.ops result.now self.now }
        ensures trimmed { HasNoZeroAbove F.ops result.now }
    {
        &self.list.as_slice()[..trimmed_length(self.list.as_slice())]
    }

    /// The coefficient at the place of the degree: zero for the polynomial zero alone.
    pub fn leading_coefficient(&self) -> F
        ensures { (d : ℕ) → IsDegree F.ops self.now d → result ≡ coefficient F.ops self.now d }
    {
        coefficient_of(self.list.as_slice(), self.degree())
    }

    /// The product.
    ///
    /// # Errors
    ///
    /// If memory runs out.
    pub fn multiply(&self, other: &Self) -> Result<Self, AllocError>
        ensures product { IfOk result
            (λ p. IsSamePolynomial F.ops p (multiply F.ops self.now other.now)) }
        ensures size { IfOk result (λ p. length p ≡ length self.now + (length other.now - 1)) }
        ensures in_place { FitsInPlace (length self.now) → length self.now + length other.now ≤ 8
            → IsOk result }
    {
        let (p, q) = (self.list.as_slice(), other.list.as_slice());
        let mut list = FieldVec::new(self.list.allocator());
        push_products(&mut list, p, q, p.len())?;
        push_products(&mut list, p, q, q.len().saturating_sub(1))?;
        Ok(Polynomial { list })
    }

    /// The product without its terms from place `end` on.
    ///
    /// # Errors
    ///
    /// If memory runs out.
    pub fn multiply_below(&self, other: &Self, end: usize) -> Result<Self, AllocError>
        ensures product { IfOk result (λ p.
            IsSamePolynomial F.ops p (take end (multiply F.ops self.now other.now))) }
        ensures size { IfOk result (λ p. length p ≤ end) }
        ensures in_place { FitsInPlace end → IsOk result }
    {
        let (p, q) = (self.list.as_slice(), other.list.as_slice());
        let mut list = FieldVec::new(self.list.allocator());
        let first = end.min(p.len());
        push_products(&mut list, p, q, first)?;
        push_products(&mut list, p, q, q.len().min(end - first))?;
        Ok(Polynomial { list })
    }

    /// The polynomial with the coefficients in the opposite order.
    ///
    /// # Errors
    ///
    /// If memory runs out.
    pub fn reversed(&self) -> Result<Self, AllocError>
        ensures list { IfOk result (λ p. p ≡ reverse self.now) }
        ensures in_place { FitsInPlace (length self.now) → IsOk result }
    {
        Ok(Polynomial {
            list: turned_copy(self.list.allocator(), self.list.as_slice())?,
        })
    }

    /// The remainder by the monic polynomial whose lower coefficients are `low`, the constant one
    /// first. It has a coefficient for each of them, and no more than it takes memory.
    ///
    /// # Errors
    ///
    /// If memory runs out.
    pub fn remainder(&self, low: &[F]) -> Result<Self, AllocError>
        ensures remainder { IfOk result (λ p. IsRemainder F.ops low.now self.now p) }
        ensures in_place { FitsInPlace (length low.now) → IsOk result }
    {
        let mut list = shifted_copy(self.list.allocator(), &[], low.len())?;
        list.divide(self.list.as_slice(), low);
        Ok(Polynomial { list })
    }
}

impl<F: Copy + Default, A: Allocator + Copy> Polynomial<F, A> {
    // The coefficients as they were given.
    pub(crate) fn as_slice(&self) -> &[F]
        ensures { result.now ≡ self.now }
    {
        self.list.as_slice()
    }

    // The allocator.
    pub(crate) fn allocator(&self) -> A {
        self.list.allocator()
    }
}

impl<F: Copy + Default, A: Allocator + Copy> Clone for Polynomial<F, A> {
    ghost is_clone = { λ p q. p ≡ q };

    ghost is_infallible = { λ p. FitsInPlace (length p) };

    fn clone(&self) -> Result<Self, AllocError> {
        Ok(Polynomial {
            list: self.list.clone()?,
        })
    }
}

/// The value of a polynomial at an element of an extension of its field.
pub fn evaluate<E: Extension, A: Allocator + Copy>(polynomial: &Polynomial<E::Base, A>, x: E) -> E
    ensures { result ≡ value_at E.ops x (map E.embed polynomial.now) }
{
    evaluate_in_extension(polynomial.as_slice(), x)
}

// How many coefficients there are without the zeros at the high end.
fn trimmed_length<F: Arithmetic>(p: &[F]) -> usize
    ensures within { result ≤ length p.now }
    ensures above { (n : ℕ) → result ≤ n → coefficient F.ops p.now n ≡ F.ops.zero }
    ensures leads { 0 < result → coefficient F.ops p.now (result - 1) ≢ F.ops.zero }
{
    let mut length = 0;
    for i in 0..p.len() {
        length = if p[i].is_zero() { length } else { i + 1 };
    }
    length
}

// The coefficient at a place, which is zero behind the list.
fn coefficient_of<F: Arithmetic>(p: &[F], n: usize) -> F
    ensures { result ≡ coefficient F.ops p.now n }
{
    if n < p.len() { p[n] } else { F::zero() }
}

/// The value of a polynomial at `x`, by the coefficients from the highest one down.
pub fn evaluate_in_extension<E: Extension>(p: &[E::Base], x: E) -> E
    ensures { result ≡ value_at E.ops x (map E.embed p.now) }
{
    let mut sum = E::zero();
    let mut i = p.len();
    while i > 0 {
        i -= 1;
        sum = E::lift(p[i]).plus(x.times(sum));
    }
    sum
}

// The coefficient of a product at a place.
fn product_coefficient<F: Arithmetic>(p: &[F], q: &[F], n: usize) -> F
    ensures { result ≡ coefficient F.ops (multiply F.ops p.now q.now) n }
{
    let mut sum = F::zero();
    for i in 0..p.len() {
        if i <= n {
            sum = sum.plus(p[i].times(coefficient_of(q, n - i)));
        }
    }
    sum
}

// Goes on with a product, of which the first coefficients stand in the list, by this many more.
fn push_products<F: Arithmetic, A: Allocator + Copy>(
    list: &mut FieldVec<F, A>,
    p: &[F],
    q: &[F],
    count: usize,
) -> Result<(), AllocError>
    requires { BeginsAs F.ops (multiply F.ops p.now q.now) list.old }
    ensures begins { BeginsAs F.ops (multiply F.ops p.now q.now) list.new }
    ensures longer { OnOk result (length list.new ≡ length list.old + count) }
    ensures in_place { FitsInPlace (length list.old + count) → IsOk result }
{
    for _ in 0..count {
        let next = product_coefficient(p, q, list.len());
        list.push(next)?;
    }
    Ok(())
}
