//! The field of the integers modulo 7.

ghost use Rattle.std.specs.Prelude.{◌≡◌, ◌≢◌, ◌<◌};
ghost use Rattle.testing_tools.specs.Seven as seven;

use bech32_gf::arithmetic::Arithmetic;
use bech32_gf::field::Field;
use std::fmt;
use std::iter::Sum;
use std::marker::Model;
use std::ops::{Add, AddAssign, Div, DivAssign, Mul, MulAssign, Neg, Sub, SubAssign};

/// An integer modulo 7.
#[derive(Clone, Copy, Debug, PartialEq, Eq, Hash)]
pub struct Seven {
    number: u8,
    ghost below: { number < 7 },
}

impl Model for Seven {
    ghost Value = { seven.Residue };

    ghost view = { λ s. record { number = s.number; below = s.below } };

    ghost inverse = { λ r. record { number = r.number; below = r.below } };
}

impl Seven {
    /// A number modulo 7.
    pub fn new(number: u8) -> Seven
        ensures { result ≡ seven.residue number }
    {
        Seven { number: number % 7 }
    }

    fn sum_with(self, other: Seven) -> Seven
        ensures { result ≡ seven.add self other }
    {
        Seven::new(self.number + other.number)
    }

    fn negated(self) -> Seven
        ensures { result ≡ seven.neg self }
    {
        Seven::new(7 - self.number)
    }

    fn product_with(self, other: Seven) -> Seven
        ensures { result ≡ seven.mul self other }
    {
        Seven::new(self.number * other.number)
    }

    fn inverted(self) -> Seven
        ensures { result ≡ seven.inv self }
    {
        let square = self.product_with(self);
        let fourth = square.product_with(square);
        self.product_with(fourth)
    }
}

impl Default for Seven {
    ghost is_default = { λ x. x ≡ seven.nothing };

    fn default() -> Seven {
        Seven::new(0)
    }
}

impl fmt::Display for Seven {
    fn fmt<W: fmt::Write>(&self, f: &mut fmt::Formatter<W>) -> fmt::Result {
        fmt::Display::fmt(&self.number, f)
    }
}

impl Neg for Seven {
    type Output = Seven;

    ghost neg_gives = { λ x r. r ≡ seven.neg x };

    fn neg(self) -> Seven {
        self.negated()
    }
}

impl Sum<Seven> for Seven {
    ghost use Rattle.std.specs.Prelude.{fold};

    ghost sum_gives = { λ xs r. r ≡ fold seven.add seven.nothing xs };

    fn sum<I: Iterator<Item = Seven>>(iter: I) -> Seven {
        let mut total = Seven::new(0);
        for item in iter {
            total += item;
        }
        total
    }
}

impl Add<Seven> for Seven {
    type Output = Seven;

    ghost add_gives = { λ x y r. r ≡ seven.add x y };

    fn add(self, rhs: Seven) -> Seven {
        self.sum_with(rhs)
    }
}

impl AddAssign<Seven> for Seven {
    ghost add_assign_gives = { λ x y r. r ≡ seven.add x y };

    fn add_assign(&mut self, rhs: Seven) {
        *self = self.sum_with(rhs);
    }
}

impl Sub<Seven> for Seven {
    type Output = Seven;

    ghost sub_gives = { λ x y r. r ≡ seven.add x (seven.neg y) };

    fn sub(self, rhs: Seven) -> Seven {
        self.sum_with(rhs.negated())
    }
}

impl SubAssign<Seven> for Seven {
    ghost sub_assign_gives = { λ x y r. r ≡ seven.add x (seven.neg y) };

    fn sub_assign(&mut self, rhs: Seven) {
        *self = self.sum_with(rhs.negated());
    }
}

impl Mul<Seven> for Seven {
    type Output = Seven;

    ghost mul_gives = { λ x y r. r ≡ seven.mul x y };

    fn mul(self, rhs: Seven) -> Seven {
        self.product_with(rhs)
    }
}

impl MulAssign<Seven> for Seven {
    ghost mul_assign_gives = { λ x y r. r ≡ seven.mul x y };

    fn mul_assign(&mut self, rhs: Seven) {
        *self = self.product_with(rhs);
    }
}

impl Div<Seven> for Seven {
    type Output = Seven;

    ghost can_div = { λ x y. y ≢ seven.nothing };

    ghost div_gives = { λ x y r. r ≡ seven.mul x (seven.inv y) };

    fn div(self, rhs: Seven) -> Seven {
        self.product_with(rhs.inverted())
    }
}

impl DivAssign<Seven> for Seven {
    ghost can_div_assign = { λ x y. y ≢ seven.nothing };

    ghost div_assign_gives = { λ x y r. r ≡ seven.mul x (seven.inv y) };

    fn div_assign(&mut self, rhs: Seven) {
        *self = self.product_with(rhs.inverted());
    }
}

impl Field for Seven {
    ghost use Rattle.std.specs.Prelude.{◌∷◌, [], refl};

    ghost ZERO = { seven.nothing };

    ghost ONE = { seven.one };

    ghost GENERATOR = { seven.generator };

    ghost CHARACTERISTIC = { 7 };

    ghost MULTIPLICATIVE_ORDER = { 6 };

    ghost divisors = { 1 ∷ 2 ∷ 3 ∷ 6 ∷ [] };

    const ZERO: Seven = Seven { number: 0 };

    const ONE: Seven = Seven { number: 1 };

    const GENERATOR: Seven = Seven { number: 3 };

    const CHARACTERISTIC: usize = 7;

    const MULTIPLICATIVE_ORDER: usize = 6;

    const MULTIPLICATIVE_ORDER_FACTORS: &'static [usize] = &[1, 2, 3, 6];

    fn multiplicative_inverse(self) -> Seven {
        self.inverted()
    }

    fn order_factors() -> &'static [usize] {
        Seven::MULTIPLICATIVE_ORDER_FACTORS
    }

    ghost zero_law = { refl };

    ghost one_law = { refl };

    ghost default_law = { λ x h. h };

    ghost eq_law = { seven.eq_is_equal };

    ghost can_add_law = { λ x y. tt };

    ghost add_law = { λ x y r h. h };

    ghost can_add_assign_law = { λ x y. tt };

    ghost add_assign_law = { λ x y r h. h };

    ghost can_sub_law = { λ x y. tt };

    ghost sub_law = { λ x y r h. h };

    ghost can_sub_assign_law = { λ x y. tt };

    ghost sub_assign_law = { λ x y r h. h };

    ghost can_mul_law = { λ x y. tt };

    ghost mul_law = { λ x y r h. h };

    ghost can_mul_assign_law = { λ x y. tt };

    ghost mul_assign_law = { λ x y r h. h };

    ghost can_div_law = { λ x y h. h };

    ghost div_law = { λ x y r nonzero h. h };

    ghost can_div_assign_law = { λ x y h. h };

    ghost div_assign_law = { λ x y r nonzero h. h };

    ghost can_neg_law = { λ x. tt };

    ghost neg_law = { λ x r h. h };

    ghost can_sum_law = { λ xs. tt };

    ghost sum_law = { λ xs r h. h };

    ghost sum_complete_law = { λ r. tt };

    ghost characteristic_law = { seven.characteristic };

    ghost order_law = { seven.power-order };

    ghost generator_law = { seven.generator_order };

    ghost divisors_law = { seven.divisors };

    ghost fits_law = { seven.fits };
}

impl Arithmetic for Seven {
    ghost use Rattle.std.specs.Prelude.{◌==◌};

    ghost ops = { seven.ops };

    ghost same = { λ x y. x.number == y.number };

    fn zero() -> Seven {
        Seven::ZERO
    }

    fn one() -> Seven {
        Seven::ONE
    }

    fn plus(self, other: Seven) -> Seven {
        self + other
    }

    fn times(self, other: Seven) -> Seven {
        self * other
    }

    fn negated(self) -> Seven {
        -self
    }

    fn inverse(self) -> Seven {
        self.inverted()
    }

    fn equals(self, other: Seven) -> bool {
        self == other
    }

    fn is_zero(self) -> bool {
        self.equals(Self::zero())
    }

    ghost laws = { seven.is_field };

    ghost same_law = { seven.eq_is_equal };
}
