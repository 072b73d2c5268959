//! The operators of the extension fields, each written once over what the fields do.

ghost use Rattle.std.specs.Prelude.{◌≡◌, ◌≢◌, List, ⊤, fold};
ghost use Rattle.std.specs.Iterator.{Drains, IsFinite};

use crate::Fe32Ext;
use std::iter::Sum;
use std::ops::{Add, AddAssign, Div, DivAssign, Mul, MulAssign, Neg, Sub, SubAssign};

/// What the operators of a field do. Its module is private, so that only the fields of this crate
/// have it.
pub trait Arithmetic: Copy {
    ghost zero: { Self };

    ghost sum: { Self → Self → Self };

    ghost product: { Self → Self → Self };

    ghost quotient: { Self → Self → Self };

    /// Zero.
    fn zero_element() -> Self
        ensures { result ≡ zero };

    /// The sum.
    fn sum_with(self, other: Self) -> Self
        ensures { result ≡ sum self other };

    /// The difference, which is the sum: each element is its own negative.
    #[inline]
    final fn difference_with(self, other: Self) -> Self
        ensures { result ≡ sum self other }
    {
        self.sum_with(other)
    }

    /// The product.
    fn product_with(self, other: Self) -> Self
        ensures { result ≡ product self other };

    /// The quotient by an element that is not zero.
    fn quotient_with(self, other: Self) -> Self
        requires { other ≢ zero }
        ensures { result ≡ quotient self other };
}

// Zero plus each item in turn.
fn sum_of_all<E: Arithmetic, I: Iterator<Item = E>>(items: I) -> E
    requires can { I.can_next items }
    requires finite { IsFinite (I.remaining items) }
    ensures { (xs : List E) × (⊤ → Drains I.next_gives items xs) × (result ≡ fold E.sum E.zero xs) }
{
    let mut total = E::zero_element();
    for item in items {
        total = total.sum_with(item);
    }
    total
}

/// The element itself, since its sum with itself is zero.
impl<const DEG: usize> Neg for Fe32Ext<DEG>
where
    Fe32Ext<DEG>: Arithmetic,
{
    type Output = Fe32Ext<DEG>;

    ghost neg_gives = { λ x r. r ≡ x };

    #[inline]
    fn neg(self) -> Fe32Ext<DEG> {
        self
    }
}

/// Zero plus each element in turn.
impl<const DEG: usize> Sum<Fe32Ext<DEG>> for Fe32Ext<DEG>
where
    Fe32Ext<DEG>: Arithmetic,
{
    ghost sum_gives = { λ xs r.
        r ≡ fold ⟦<Fe32Ext<DEG> as Arithmetic>⟧.sum ⟦<Fe32Ext<DEG> as Arithmetic>⟧.zero xs };

    fn sum<I: Iterator<Item = Fe32Ext<DEG>>>(iter: I) -> Fe32Ext<DEG> {
        sum_of_all(iter)
    }
}

/// The sum, place by place.
impl<const DEG: usize> Add<Fe32Ext<DEG>> for Fe32Ext<DEG>
where
    Fe32Ext<DEG>: Arithmetic,
{
    type Output = Fe32Ext<DEG>;

    ghost add_gives = { λ x y r. r ≡ ⟦<Fe32Ext<DEG> as Arithmetic>⟧.sum x y };

    #[inline]
    fn add(self, rhs: Fe32Ext<DEG>) -> Fe32Ext<DEG> {
        self.sum_with(rhs)
    }
}

impl<const DEG: usize> Add<&Fe32Ext<DEG>> for Fe32Ext<DEG>
where
    Fe32Ext<DEG>: Arithmetic,
{
    type Output = Fe32Ext<DEG>;

    ghost add_gives = { λ x y r. r ≡ ⟦<Fe32Ext<DEG> as Arithmetic>⟧.sum x y.now };

    #[inline]
    fn add(self, rhs: &Fe32Ext<DEG>) -> Fe32Ext<DEG> {
        self.sum_with(*rhs)
    }
}

impl<const DEG: usize> Add<Fe32Ext<DEG>> for &Fe32Ext<DEG>
where
    Fe32Ext<DEG>: Arithmetic,
{
    type Output = Fe32Ext<DEG>;

    ghost add_gives = { λ x y r. r ≡ ⟦<Fe32Ext<DEG> as Arithmetic>⟧.sum x.now y };

    #[inline]
    fn add(self, rhs: Fe32Ext<DEG>) -> Fe32Ext<DEG> {
        (*self).sum_with(rhs)
    }
}

impl<const DEG: usize> Add<&Fe32Ext<DEG>> for &Fe32Ext<DEG>
where
    Fe32Ext<DEG>: Arithmetic,
{
    type Output = Fe32Ext<DEG>;

    ghost add_gives = { λ x y r. r ≡ ⟦<Fe32Ext<DEG> as Arithmetic>⟧.sum x.now y.now };

    #[inline]
    fn add(self, rhs: &Fe32Ext<DEG>) -> Fe32Ext<DEG> {
        (*self).sum_with(*rhs)
    }
}

impl<const DEG: usize> AddAssign<Fe32Ext<DEG>> for Fe32Ext<DEG>
where
    Fe32Ext<DEG>: Arithmetic,
{
    ghost add_assign_gives = { λ x y r. r ≡ ⟦<Fe32Ext<DEG> as Arithmetic>⟧.sum x y };

    #[inline]
    fn add_assign(&mut self, rhs: Fe32Ext<DEG>) {
        *self = self.sum_with(rhs);
    }
}

impl<const DEG: usize> AddAssign<&Fe32Ext<DEG>> for Fe32Ext<DEG>
where
    Fe32Ext<DEG>: Arithmetic,
{
    ghost add_assign_gives = { λ x y r. r ≡ ⟦<Fe32Ext<DEG> as Arithmetic>⟧.sum x y.now };

    #[inline]
    fn add_assign(&mut self, rhs: &Fe32Ext<DEG>) {
        *self = self.sum_with(*rhs);
    }
}

/// The difference, which is the sum: each element is its own negative.
impl<const DEG: usize> Sub<Fe32Ext<DEG>> for Fe32Ext<DEG>
where
    Fe32Ext<DEG>: Arithmetic,
{
    type Output = Fe32Ext<DEG>;

    ghost sub_gives = { λ x y r. r ≡ ⟦<Fe32Ext<DEG> as Arithmetic>⟧.sum x y };

    #[inline]
    fn sub(self, rhs: Fe32Ext<DEG>) -> Fe32Ext<DEG> {
        self.difference_with(rhs)
    }
}

impl<const DEG: usize> Sub<&Fe32Ext<DEG>> for Fe32Ext<DEG>
where
    Fe32Ext<DEG>: Arithmetic,
{
    type Output = Fe32Ext<DEG>;

    ghost sub_gives = { λ x y r. r ≡ ⟦<Fe32Ext<DEG> as Arithmetic>⟧.sum x y.now };

    #[inline]
    fn sub(self, rhs: &Fe32Ext<DEG>) -> Fe32Ext<DEG> {
        self.difference_with(*rhs)
    }
}

impl<const DEG: usize> Sub<Fe32Ext<DEG>> for &Fe32Ext<DEG>
where
    Fe32Ext<DEG>: Arithmetic,
{
    type Output = Fe32Ext<DEG>;

    ghost sub_gives = { λ x y r. r ≡ ⟦<Fe32Ext<DEG> as Arithmetic>⟧.sum x.now y };

    #[inline]
    fn sub(self, rhs: Fe32Ext<DEG>) -> Fe32Ext<DEG> {
        (*self).difference_with(rhs)
    }
}

impl<const DEG: usize> Sub<&Fe32Ext<DEG>> for &Fe32Ext<DEG>
where
    Fe32Ext<DEG>: Arithmetic,
{
    type Output = Fe32Ext<DEG>;

    ghost sub_gives = { λ x y r. r ≡ ⟦<Fe32Ext<DEG> as Arithmetic>⟧.sum x.now y.now };

    #[inline]
    fn sub(self, rhs: &Fe32Ext<DEG>) -> Fe32Ext<DEG> {
        (*self).difference_with(*rhs)
    }
}

impl<const DEG: usize> SubAssign<Fe32Ext<DEG>> for Fe32Ext<DEG>
where
    Fe32Ext<DEG>: Arithmetic,
{
    ghost sub_assign_gives = { λ x y r. r ≡ ⟦<Fe32Ext<DEG> as Arithmetic>⟧.sum x y };

    #[inline]
    fn sub_assign(&mut self, rhs: Fe32Ext<DEG>) {
        *self = self.difference_with(rhs);
    }
}

impl<const DEG: usize> SubAssign<&Fe32Ext<DEG>> for Fe32Ext<DEG>
where
    Fe32Ext<DEG>: Arithmetic,
{
    ghost sub_assign_gives = { λ x y r. r ≡ ⟦<Fe32Ext<DEG> as Arithmetic>⟧.sum x y.now };

    #[inline]
    fn sub_assign(&mut self, rhs: &Fe32Ext<DEG>) {
        *self = self.difference_with(*rhs);
    }
}

/// The product of the polynomials in z, reduced by the power of z that the field replaces.
impl<const DEG: usize> Mul<Fe32Ext<DEG>> for Fe32Ext<DEG>
where
    Fe32Ext<DEG>: Arithmetic,
{
    type Output = Fe32Ext<DEG>;

    ghost mul_gives = { λ x y r. r ≡ ⟦<Fe32Ext<DEG> as Arithmetic>⟧.product x y };

    #[inline]
    fn mul(self, rhs: Fe32Ext<DEG>) -> Fe32Ext<DEG> {
        self.product_with(rhs)
    }
}

impl<const DEG: usize> Mul<&Fe32Ext<DEG>> for Fe32Ext<DEG>
where
    Fe32Ext<DEG>: Arithmetic,
{
    type Output = Fe32Ext<DEG>;

    ghost mul_gives = { λ x y r. r ≡ ⟦<Fe32Ext<DEG> as Arithmetic>⟧.product x y.now };

    #[inline]
    fn mul(self, rhs: &Fe32Ext<DEG>) -> Fe32Ext<DEG> {
        self.product_with(*rhs)
    }
}

impl<const DEG: usize> Mul<Fe32Ext<DEG>> for &Fe32Ext<DEG>
where
    Fe32Ext<DEG>: Arithmetic,
{
    type Output = Fe32Ext<DEG>;

    ghost mul_gives = { λ x y r. r ≡ ⟦<Fe32Ext<DEG> as Arithmetic>⟧.product x.now y };

    #[inline]
    fn mul(self, rhs: Fe32Ext<DEG>) -> Fe32Ext<DEG> {
        (*self).product_with(rhs)
    }
}

impl<const DEG: usize> Mul<&Fe32Ext<DEG>> for &Fe32Ext<DEG>
where
    Fe32Ext<DEG>: Arithmetic,
{
    type Output = Fe32Ext<DEG>;

    ghost mul_gives = { λ x y r. r ≡ ⟦<Fe32Ext<DEG> as Arithmetic>⟧.product x.now y.now };

    #[inline]
    fn mul(self, rhs: &Fe32Ext<DEG>) -> Fe32Ext<DEG> {
        (*self).product_with(*rhs)
    }
}

impl<const DEG: usize> MulAssign<Fe32Ext<DEG>> for Fe32Ext<DEG>
where
    Fe32Ext<DEG>: Arithmetic,
{
    ghost mul_assign_gives = { λ x y r. r ≡ ⟦<Fe32Ext<DEG> as Arithmetic>⟧.product x y };

    #[inline]
    fn mul_assign(&mut self, rhs: Fe32Ext<DEG>) {
        *self = self.product_with(rhs);
    }
}

impl<const DEG: usize> MulAssign<&Fe32Ext<DEG>> for Fe32Ext<DEG>
where
    Fe32Ext<DEG>: Arithmetic,
{
    ghost mul_assign_gives = { λ x y r. r ≡ ⟦<Fe32Ext<DEG> as Arithmetic>⟧.product x y.now };

    #[inline]
    fn mul_assign(&mut self, rhs: &Fe32Ext<DEG>) {
        *self = self.product_with(*rhs);
    }
}

/// The product with the inverse of the divisor, which is not zero.
impl<const DEG: usize> Div<Fe32Ext<DEG>> for Fe32Ext<DEG>
where
    Fe32Ext<DEG>: Arithmetic,
{
    type Output = Fe32Ext<DEG>;

    ghost can_div = { λ x y. y ≢ ⟦<Fe32Ext<DEG> as Arithmetic>⟧.zero };

    ghost div_gives = { λ x y r. r ≡ ⟦<Fe32Ext<DEG> as Arithmetic>⟧.quotient x y };

    #[inline]
    fn div(self, rhs: Fe32Ext<DEG>) -> Fe32Ext<DEG> {
        self.quotient_with(rhs)
    }
}

impl<const DEG: usize> Div<&Fe32Ext<DEG>> for Fe32Ext<DEG>
where
    Fe32Ext<DEG>: Arithmetic,
{
    type Output = Fe32Ext<DEG>;

    ghost can_div = { λ x y. y.now ≢ ⟦<Fe32Ext<DEG> as Arithmetic>⟧.zero };

    ghost div_gives = { λ x y r. r ≡ ⟦<Fe32Ext<DEG> as Arithmetic>⟧.quotient x y.now };

    #[inline]
    fn div(self, rhs: &Fe32Ext<DEG>) -> Fe32Ext<DEG> {
        self.quotient_with(*rhs)
    }
}

impl<const DEG: usize> Div<Fe32Ext<DEG>> for &Fe32Ext<DEG>
where
    Fe32Ext<DEG>: Arithmetic,
{
    type Output = Fe32Ext<DEG>;

    ghost can_div = { λ x y. y ≢ ⟦<Fe32Ext<DEG> as Arithmetic>⟧.zero };

    ghost div_gives = { λ x y r. r ≡ ⟦<Fe32Ext<DEG> as Arithmetic>⟧.quotient x.now y };

    #[inline]
    fn div(self, rhs: Fe32Ext<DEG>) -> Fe32Ext<DEG> {
        (*self).quotient_with(rhs)
    }
}

impl<const DEG: usize> Div<&Fe32Ext<DEG>> for &Fe32Ext<DEG>
where
    Fe32Ext<DEG>: Arithmetic,
{
    type Output = Fe32Ext<DEG>;

    ghost can_div = { λ x y. y.now ≢ ⟦<Fe32Ext<DEG> as Arithmetic>⟧.zero };

    ghost div_gives = { λ x y r. r ≡ ⟦<Fe32Ext<DEG> as Arithmetic>⟧.quotient x.now y.now };

    #[inline]
    fn div(self, rhs: &Fe32Ext<DEG>) -> Fe32Ext<DEG> {
        (*self).quotient_with(*rhs)
    }
}

impl<const DEG: usize> DivAssign<Fe32Ext<DEG>> for Fe32Ext<DEG>
where
    Fe32Ext<DEG>: Arithmetic,
{
    ghost can_div_assign = { λ x y. y ≢ ⟦<Fe32Ext<DEG> as Arithmetic>⟧.zero };

    ghost div_assign_gives = { λ x y r. r ≡ ⟦<Fe32Ext<DEG> as Arithmetic>⟧.quotient x y };

    #[inline]
    fn div_assign(&mut self, rhs: Fe32Ext<DEG>) {
        *self = self.quotient_with(rhs);
    }
}

impl<const DEG: usize> DivAssign<&Fe32Ext<DEG>> for Fe32Ext<DEG>
where
    Fe32Ext<DEG>: Arithmetic,
{
    ghost can_div_assign = { λ x y. y.now ≢ ⟦<Fe32Ext<DEG> as Arithmetic>⟧.zero };

    ghost div_assign_gives = { λ x y r. r ≡ ⟦<Fe32Ext<DEG> as Arithmetic>⟧.quotient x y.now };

    #[inline]
    fn div_assign(&mut self, rhs: &Fe32Ext<DEG>) {
        *self = self.quotient_with(*rhs);
    }
}
