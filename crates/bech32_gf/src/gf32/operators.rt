//! The operators of the elements.

ghost use Rattle.std.specs.Prelude.{◌≡◌, ◌≢◌, ◌<◌};
ghost use Rattle.bech32_gf.specs.Gf32.{product, inverse};

use super::{Fe32, LOG, POWERS};
use std::iter::Sum;
use std::ops::{Add, AddAssign, Div, DivAssign, Mul, MulAssign, Neg, Sub, SubAssign};

// The quotient of two values, the second of which is not 0, by logarithms.
#[inline]
fn quotient_by_logs(a: u8, b: u8) -> u8
    requires a_in_field { a < 32 }
    requires b_in_field { b < 32 }
    requires nonzero { b ≢ 0 }
    ensures value { result ≡ product a (inverse b) }
    ensures in_field { result < 32 }
{
    if a == 0 {
        return 0;
    }
    let difference = 31 + LOG[a as usize] - LOG[b as usize];
    POWERS[(difference % 31) as usize]
}

impl Fe32 {
    ghost use Rattle.bech32_gf.specs.Fe32.{add, mul, inv, zero};

    fn difference_with(self, other: Fe32) -> Fe32
        ensures { result ≡ add self other }
    {
        self.sum_with(other)
    }

    fn quotient_with(self, other: Fe32) -> Fe32
        requires { other ≢ zero }
        ensures { result ≡ mul self (inv other) }
    {
        Fe32 {
            value: quotient_by_logs(self.value, other.value),
        }
    }
}

/// Zero.
impl Default for Fe32 {
    ghost use Rattle.bech32_gf.specs.Fe32.{zero};

    ghost is_default = { λ x. x ≡ zero };

    fn default() -> Fe32 {
        Fe32::Q
    }
}

/// The element itself, since its sum with itself is zero.
impl Neg for Fe32 {
    type Output = Fe32;

    ghost neg_gives = { λ x r. r ≡ x };

    #[inline]
    fn neg(self) -> Fe32 {
        self
    }
}

/// Zero plus each element in turn.
impl Sum<Fe32> for Fe32 {
    ghost use Rattle.std.specs.Prelude.{fold};
    ghost use Rattle.bech32_gf.specs.Fe32.{add, zero};

    ghost sum_gives = { λ xs r. r ≡ fold add zero xs };

    fn sum<I: Iterator<Item = Fe32>>(iter: I) -> Fe32 {
        let mut total = Fe32::Q;
        for item in iter {
            total += item;
        }
        total
    }
}

/// The sum of two elements: that of their bits without carry.
impl Add<Fe32> for Fe32 {
    ghost use Rattle.bech32_gf.specs.Fe32.{add};

    type Output = Fe32;

    ghost add_gives = { λ x y r. r ≡ add x y };

    #[inline]
    fn add(self, rhs: Fe32) -> Fe32 {
        self.sum_with(rhs)
    }
}

impl Add<&Fe32> for Fe32 {
    ghost use Rattle.bech32_gf.specs.Fe32.{add};

    type Output = Fe32;

    ghost add_gives = { λ x y r. r ≡ add x y.now };

    #[inline]
    fn add(self, rhs: &Fe32) -> Fe32 {
        self.sum_with(*rhs)
    }
}

impl Add<Fe32> for &Fe32 {
    ghost use Rattle.bech32_gf.specs.Fe32.{add};

    type Output = Fe32;

    ghost add_gives = { λ x y r. r ≡ add x.now y };

    #[inline]
    fn add(self, rhs: Fe32) -> Fe32 {
        (*self).sum_with(rhs)
    }
}

impl Add<&Fe32> for &Fe32 {
    ghost use Rattle.bech32_gf.specs.Fe32.{add};

    type Output = Fe32;

    ghost add_gives = { λ x y r. r ≡ add x.now y.now };

    #[inline]
    fn add(self, rhs: &Fe32) -> Fe32 {
        (*self).sum_with(*rhs)
    }
}

impl AddAssign<Fe32> for Fe32 {
    ghost use Rattle.bech32_gf.specs.Fe32.{add};

    ghost add_assign_gives = { λ x y r. r ≡ add x y };

    #[inline]
    fn add_assign(&mut self, rhs: Fe32) {
        *self = self.sum_with(rhs);
    }
}

impl AddAssign<&Fe32> for Fe32 {
    ghost use Rattle.bech32_gf.specs.Fe32.{add};

    ghost add_assign_gives = { λ x y r. r ≡ add x y.now };

    #[inline]
    fn add_assign(&mut self, rhs: &Fe32) {
        *self = self.sum_with(*rhs);
    }
}

/// The difference of two elements, which is their sum.
impl Sub<Fe32> for Fe32 {
    ghost use Rattle.bech32_gf.specs.Fe32.{add};

    type Output = Fe32;

    ghost sub_gives = { λ x y r. r ≡ add x y };

    #[inline]
    fn sub(self, rhs: Fe32) -> Fe32 {
        self.difference_with(rhs)
    }
}

impl Sub<&Fe32> for Fe32 {
    ghost use Rattle.bech32_gf.specs.Fe32.{add};

    type Output = Fe32;

    ghost sub_gives = { λ x y r. r ≡ add x y.now };

    #[inline]
    fn sub(self, rhs: &Fe32) -> Fe32 {
        self.difference_with(*rhs)
    }
}

impl Sub<Fe32> for &Fe32 {
    ghost use Rattle.bech32_gf.specs.Fe32.{add};

    type Output = Fe32;

    ghost sub_gives = { λ x y r. r ≡ add x.now y };

    #[inline]
    fn sub(self, rhs: Fe32) -> Fe32 {
        (*self).difference_with(rhs)
    }
}

impl Sub<&Fe32> for &Fe32 {
    ghost use Rattle.bech32_gf.specs.Fe32.{add};

    type Output = Fe32;

    ghost sub_gives = { λ x y r. r ≡ add x.now y.now };

    #[inline]
    fn sub(self, rhs: &Fe32) -> Fe32 {
        (*self).difference_with(*rhs)
    }
}

impl SubAssign<Fe32> for Fe32 {
    ghost use Rattle.bech32_gf.specs.Fe32.{add};

    ghost sub_assign_gives = { λ x y r. r ≡ add x y };

    #[inline]
    fn sub_assign(&mut self, rhs: Fe32) {
        *self = self.difference_with(rhs);
    }
}

impl SubAssign<&Fe32> for Fe32 {
    ghost use Rattle.bech32_gf.specs.Fe32.{add};

    ghost sub_assign_gives = { λ x y r. r ≡ add x y.now };

    #[inline]
    fn sub_assign(&mut self, rhs: &Fe32) {
        *self = self.difference_with(*rhs);
    }
}

/// The product of two elements.
impl Mul<Fe32> for Fe32 {
    ghost use Rattle.bech32_gf.specs.Fe32.{mul};

    type Output = Fe32;

    ghost mul_gives = { λ x y r. r ≡ mul x y };

    #[inline]
    fn mul(self, rhs: Fe32) -> Fe32 {
        self.product_with(rhs)
    }
}

impl Mul<&Fe32> for Fe32 {
    ghost use Rattle.bech32_gf.specs.Fe32.{mul};

    type Output = Fe32;

    ghost mul_gives = { λ x y r. r ≡ mul x y.now };

    #[inline]
    fn mul(self, rhs: &Fe32) -> Fe32 {
        self.product_with(*rhs)
    }
}

impl Mul<Fe32> for &Fe32 {
    ghost use Rattle.bech32_gf.specs.Fe32.{mul};

    type Output = Fe32;

    ghost mul_gives = { λ x y r. r ≡ mul x.now y };

    #[inline]
    fn mul(self, rhs: Fe32) -> Fe32 {
        (*self).product_with(rhs)
    }
}

impl Mul<&Fe32> for &Fe32 {
    ghost use Rattle.bech32_gf.specs.Fe32.{mul};

    type Output = Fe32;

    ghost mul_gives = { λ x y r. r ≡ mul x.now y.now };

    #[inline]
    fn mul(self, rhs: &Fe32) -> Fe32 {
        (*self).product_with(*rhs)
    }
}

impl MulAssign<Fe32> for Fe32 {
    ghost use Rattle.bech32_gf.specs.Fe32.{mul};

    ghost mul_assign_gives = { λ x y r. r ≡ mul x y };

    #[inline]
    fn mul_assign(&mut self, rhs: Fe32) {
        *self = self.product_with(rhs);
    }
}

impl MulAssign<&Fe32> for Fe32 {
    ghost use Rattle.bech32_gf.specs.Fe32.{mul};

    ghost mul_assign_gives = { λ x y r. r ≡ mul x y.now };

    #[inline]
    fn mul_assign(&mut self, rhs: &Fe32) {
        *self = self.product_with(*rhs);
    }
}

/// The quotient of an element by another, which may not be zero.
impl Div<Fe32> for Fe32 {
    ghost use Rattle.bech32_gf.specs.Fe32.{mul, inv, zero};

    type Output = Fe32;

    ghost can_div = { λ x y. y ≢ zero };

    ghost div_gives = { λ x y r. r ≡ mul x (inv y) };

    #[inline]
    fn div(self, rhs: Fe32) -> Fe32 {
        self.quotient_with(rhs)
    }
}

impl Div<&Fe32> for Fe32 {
    ghost use Rattle.bech32_gf.specs.Fe32.{mul, inv, zero};

    type Output = Fe32;

    ghost can_div = { λ x y. y.now ≢ zero };

    ghost div_gives = { λ x y r. r ≡ mul x (inv y.now) };

    #[inline]
    fn div(self, rhs: &Fe32) -> Fe32 {
        self.quotient_with(*rhs)
    }
}

impl Div<Fe32> for &Fe32 {
    ghost use Rattle.bech32_gf.specs.Fe32.{mul, inv, zero};

    type Output = Fe32;

    ghost can_div = { λ x y. y ≢ zero };

    ghost div_gives = { λ x y r. r ≡ mul x.now (inv y) };

    #[inline]
    fn div(self, rhs: Fe32) -> Fe32 {
        (*self).quotient_with(rhs)
    }
}

impl Div<&Fe32> for &Fe32 {
    ghost use Rattle.bech32_gf.specs.Fe32.{mul, inv, zero};

    type Output = Fe32;

    ghost can_div = { λ x y. y.now ≢ zero };

    ghost div_gives = { λ x y r. r ≡ mul x.now (inv y.now) };

    #[inline]
    fn div(self, rhs: &Fe32) -> Fe32 {
        (*self).quotient_with(*rhs)
    }
}

impl DivAssign<Fe32> for Fe32 {
    ghost use Rattle.bech32_gf.specs.Fe32.{mul, inv, zero};

    ghost can_div_assign = { λ x y. y ≢ zero };

    ghost div_assign_gives = { λ x y r. r ≡ mul x (inv y) };

    #[inline]
    fn div_assign(&mut self, rhs: Fe32) {
        *self = self.quotient_with(rhs);
    }
}

impl DivAssign<&Fe32> for Fe32 {
    ghost use Rattle.bech32_gf.specs.Fe32.{mul, inv, zero};

    ghost can_div_assign = { λ x y. y.now ≢ zero };

    ghost div_assign_gives = { λ x y r. r ≡ mul x (inv y.now) };

    #[inline]
    fn div_assign(&mut self, rhs: &Fe32) {
        *self = self.quotient_with(*rhs);
    }
}
