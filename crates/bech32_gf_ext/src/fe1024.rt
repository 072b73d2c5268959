//! The field of 1024 elements: pairs with z^2 = z + 1.

ghost use Rattle.std.specs.Prelude.{◌≡◌, ◌≢◌, codes};

use crate::arithmetic::Arithmetic;
use crate::{Fe32Ext, Fe1024, write_two};
use bech32_gf::arithmetic::{self as operations, Extension};
use bech32_gf::field::private::Sealed;
use bech32_gf::field::{Bech32Field, ExtensionField, Field};
use bech32_gf::gf32::Fe32;
use std::fmt;

impl Fe1024 {
    ghost use Rattle.bech32_gf_ext.specs.Fe1024.{low, high, pair, add, mul, inv, zero, norm};

    #[inline]
    fn from_parts(low_part: Fe32, high_part: Fe32) -> Fe1024
        ensures { result ≡ pair low_part high_part }
    {
        Fe32Ext {
            inner: [low_part, high_part],
        }
    }

    #[inline]
    fn parts(self) -> (Fe32, Fe32)
        ensures low { result.0 ≡ low self }
        ensures high { result.1 ≡ high self }
    {
        let [low_part, high_part] = self.inner;
        (low_part, high_part)
    }

    // The product with the conjugate.
    #[inline]
    fn norm(self) -> Fe32
        ensures { result ≡ norm self }
    {
        let (a, b) = self.parts();
        a * a + a * b + b * b
    }

    // The conjugate over the norm.
    fn inverse(self) -> Fe1024
        requires { self ≢ zero }
        ensures { result ≡ inv self }
    {
        let (a, b) = self.parts();
        let norm = self.norm();
        Fe1024::from_parts((a + b) / norm, b / norm)
    }
}

impl Arithmetic for Fe1024 {
    ghost use Rattle.bech32_gf_ext.specs.Fe1024.{add, mul, inv, zero};

    ghost zero = { zero };

    ghost sum = { add };

    ghost product = { mul };

    ghost quotient = { λ x y. mul x (inv y) };

    fn zero_element() -> Fe1024 {
        Fe1024::default()
    }

    #[inline]
    fn sum_with(self, other: Fe1024) -> Fe1024 {
        let (a, b) = self.parts();
        let (c, d) = other.parts();
        Fe1024::from_parts(a + c, b + d)
    }

    // Three products of parts in place of four.
    #[inline]
    fn product_with(self, other: Fe1024) -> Fe1024 {
        let (a, b) = self.parts();
        let (c, d) = other.parts();
        let constant = a * c;
        let square = b * d;
        let whole = (a + b) * (c + d);
        Fe1024::from_parts(constant + square, whole + constant)
    }

    fn quotient_with(self, other: Fe1024) -> Fe1024 {
        self.product_with(other.inverse())
    }
}

/// An element of GF(32) as one of this field: the constant polynomial.
impl From<Fe32> for Fe1024 {
    ghost use Rattle.bech32_gf_ext.specs.Fe1024.{embed};

    ghost from_gives = { λ a r. r ≡ embed a };

    fn from(element: Fe32) -> Fe1024 {
        Fe1024::from_parts(element, Fe32::Q)
    }
}

/// The constant coefficient, where the other one is zero.
///
/// # Errors
///
/// `()` where the element is none of GF(32).
impl TryFrom<Fe1024> for Fe32 {
    ghost use Rattle.std.specs.Prelude.{MatchResult, Some, None};
    ghost use Rattle.bech32_gf_ext.specs.Fe1024.{retract};

    type Error = ();

    ghost try_from_gives = { λ x r.
        MatchResult r (λ a. retract x ≡ Some a) (λ _. retract x ≡ None) };

    fn try_from(element: Fe1024) -> Result<Fe32, ()> {
        let (low_part, high_part) = element.parts();
        if high_part == Fe32::Q {
            Ok(low_part)
        } else {
            Err(())
        }
    }
}

impl Field for Fe1024 {
    ghost use Rattle.std.specs.Prelude.{refl};
    ghost use Rattle.bech32_gf_ext.specs.Fe1024 as elements;
    ghost use Rattle.bech32_gf_ext.specs.laws.Fe1024Laws as laws_of;
    ghost use Rattle.bech32_gf_ext.specs.laws.Fe1024Orders as orders_of;
    ghost use Rattle.bech32_gf_ext.specs.laws.Fe32ExtLaws.{eq_is_equal};

    ghost ZERO = { elements.zero };

    ghost ONE = { elements.one };

    ghost GENERATOR = { elements.generator };

    ghost CHARACTERISTIC = { 2 };

    ghost MULTIPLICATIVE_ORDER = { 1023 };

    ghost divisors = { elements.divisors };

    const ZERO: Fe1024 = Fe32Ext {
        inner: [Fe32::Q, Fe32::Q],
    };

    const ONE: Fe1024 = Fe32Ext {
        inner: [Fe32::P, Fe32::Q],
    };

    const GENERATOR: Fe1024 = Fe32Ext {
        inner: [Fe32::P, Fe32::H],
    };

    const CHARACTERISTIC: usize = 2;

    const MULTIPLICATIVE_ORDER: usize = 1023;

    const MULTIPLICATIVE_ORDER_FACTORS: &'static [usize] = &[1, 3, 11, 31, 33, 93, 341, 1023];

    fn multiplicative_inverse(self) -> Fe1024 {
        self.inverse()
    }

    fn order_factors() -> &'static [usize] {
        Fe1024::MULTIPLICATIVE_ORDER_FACTORS
    }

    ghost zero_law = { refl };

    ghost one_law = { refl };

    ghost default_law = { laws_of.default_is_zero };

    ghost eq_law = { eq_is_equal };

    ghost can_add_law = { λ x y. tt };

    ghost add_law = { λ x y r h. h };

    ghost can_add_assign_law = { λ x y. tt };

    ghost add_assign_law = { λ x y r h. h };

    ghost can_sub_law = { λ x y. tt };

    ghost sub_law = { λ x y r h. h };

    ghost can_sub_assign_law = { λ x y. tt };

    ghost sub_assign_law = { λ x y r h. h };

    ghost can_mul_law = { λ x y. tt };

    ghost mul_law = { λ x y r h. h };

    ghost can_mul_assign_law = { λ x y. tt };

    ghost mul_assign_law = { λ x y r h. h };

    ghost can_div_law = { λ x y h. h };

    ghost div_law = { λ x y r nonzero h. h };

    ghost can_div_assign_law = { λ x y h. h };

    ghost div_assign_law = { λ x y r nonzero h. h };

    ghost can_neg_law = { λ x. tt };

    ghost neg_law = { λ x r h. h };

    ghost can_sum_law = { λ xs. tt };

    ghost sum_law = { λ xs r h. h };

    ghost sum_complete_law = { λ r. tt };

    ghost characteristic_law = { laws_of.characteristic };

    ghost order_law = { orders_of.power-order };

    ghost generator_law = { orders_of.generator-order };

    ghost divisors_law = { orders_of.lists_divisors };

    ghost fits_law = { orders_of.fits };
}

impl ExtensionField for Fe1024 {
    ghost use Rattle.std.specs.Prelude.{refl};
    ghost use Rattle.bech32_gf_ext.specs.Fe1024 as elements;
    ghost use Rattle.bech32_gf_ext.specs.laws.Fe1024Laws as laws_of;

    type BaseField = Fe32;

    ghost DEGREE = { 2 };

    ghost POLYNOMIAL = { elements.polynomial };

    ghost EXT_ELEM = { elements.ext_elem };

    const DEGREE: usize = 2;

    const POLYNOMIAL: Fe1024 = Fe32Ext {
        inner: [Fe32::P, Fe32::P],
    };

    const EXT_ELEM: Fe1024 = Fe32Ext {
        inner: [Fe32::Q, Fe32::P],
    };

    fn to_base(self) -> Option<Fe32> {
        Fe32::try_from(self).ok()
    }

    ghost base_law = { refl };

    ghost from_law = { λ a x h. h };

    ghost polynomial_law = { laws_of.power-ext_elem };
}

impl operations::Arithmetic for Fe1024 {
    ghost use Rattle.bech32_gf_ext.specs.Fe1024 as elements;
    ghost use Rattle.bech32_gf_ext.specs.laws.Fe1024Laws as laws_of;
    ghost use Rattle.bech32_gf_ext.specs.laws.Fe32ExtLaws.{are_equal, eq_is_equal};

    ghost ops = { elements.ops };

    ghost same = { are_equal };

    fn zero() -> Fe1024 {
        Fe1024::ZERO
    }

    fn one() -> Fe1024 {
        Fe1024::ONE
    }

    fn plus(self, other: Fe1024) -> Fe1024 {
        self + other
    }

    fn times(self, other: Fe1024) -> Fe1024 {
        self * other
    }

    fn negated(self) -> Fe1024 {
        -self
    }

    fn inverse(self) -> Fe1024 {
        self.multiplicative_inverse()
    }

    fn equals(self, other: Fe1024) -> bool {
        self == other
    }

    fn is_zero(self) -> bool {
        self.equals(<Fe1024 as operations::Arithmetic>::zero())
    }

    ghost laws = { laws_of.is_field };

    ghost same_law = { eq_is_equal };
}

impl Extension for Fe1024 {
    ghost use Rattle.std.specs.Prelude.{refl};
    ghost use Rattle.bech32_gf.specs.Fe32 as fe32;
    ghost use Rattle.bech32_gf.specs.laws.Fe32Laws as fe32_laws;
    ghost use Rattle.bech32_gf_ext.specs.Fe1024 as elements;
    ghost use Rattle.bech32_gf_ext.specs.laws.Fe1024Laws as laws_of;

    type Base = Fe32;

    ghost base_ops = { fe32.ops };

    ghost embed = { elements.embed };

    ghost retract = { elements.retract };

    fn is_base_zero(x: Fe32) -> bool {
        x == Fe32::Q
    }

    fn lift(x: Fe32) -> Fe1024 {
        Fe1024::from(x)
    }

    fn lower(self) -> Option<Fe32> {
        self.to_base()
    }

    ghost base_laws = { fe32_laws.is_field };

    ghost retract_law = { laws_of.retract-embed };

    ghost embed_retract_law = { laws_of.embed-retract };

    ghost embed_zero_law = { refl };

    ghost embed_one_law = { refl };

    ghost embed_add_law = { laws_of.embed-add };

    ghost embed_neg_law = { λ a. refl };

    ghost embed_mul_law = { laws_of.embed-mul };
}

impl Sealed for Fe1024 {}

// The name, since a clause cannot speak of a constant.
fn name() -> &'static str
    ensures { result.now ≡ codes "Fe1024" }
{
    Fe1024::NAME
}

impl Bech32Field for Fe1024 {
    ghost use Rattle.bech32_gf_ext.specs.ExtensionCode.{fe1024_code};

    ghost rust_code = { fe1024_code };

    const NAME: &'static str = "Fe1024";

    fn format_as_rust_code<W: fmt::Write>(&self, f: &mut fmt::Formatter<W>) -> fmt::Result {
        let (low_part, high_part) = self.parts();
        f.write_str("Fe32Ext { inner: [")?;
        write_two(low_part, high_part, f)?;
        f.write_str("] }")
    }
}
