//! The field of 32768 elements: triples with z^3 = z + 1.

ghost use Rattle.std.specs.Prelude.{◌≡◌, ◌≢◌, codes};

use crate::arithmetic::Arithmetic;
use crate::{Fe32Ext, Fe32768, write_two};
use bech32_gf::arithmetic::{self as operations, Extension};
use bech32_gf::field::private::Sealed;
use bech32_gf::field::{Bech32Field, ExtensionField, Field};
use bech32_gf::gf32::Fe32;
use std::fmt;

impl Fe32768 {
    ghost use Rattle.bech32_gf_ext.specs.Fe32768.{low, middle, high, triple, add, mul, inv, zero};
    ghost use Rattle.bech32_gf.specs.Fe32 as fe32;
    ghost use Rattle.bech32_gf_ext.specs.Cubic.{adjugate₀, adjugate₁, adjugate₂};

    #[inline]
    fn from_parts(low_part: Fe32, middle_part: Fe32, high_part: Fe32) -> Fe32768
        ensures { result ≡ triple low_part middle_part high_part }
    {
        Fe32Ext {
            inner: [low_part, middle_part, high_part],
        }
    }

    #[inline]
    fn parts(self) -> (Fe32, Fe32, Fe32)
        ensures low { result.0 ≡ low self }
        ensures middle { result.1 ≡ middle self }
        ensures high { result.2 ≡ high self }
    {
        let [low_part, middle_part, high_part] = self.inner;
        (low_part, middle_part, high_part)
    }

    // The product of the two conjugates.
    #[inline]
    fn adjugate(self) -> (Fe32, Fe32, Fe32)
        ensures first { result.0 ≡ adjugate₀ fe32.ops (low self) (middle self) (high self) }
        ensures second { result.1 ≡ adjugate₁ fe32.ops (low self) (middle self) (high self) }
        ensures third { result.2 ≡ adjugate₂ fe32.ops (low self) (middle self) (high self) }
    {
        let (a, b, c) = self.parts();
        let b_square = b * b;
        let c_square = c * c;
        let first = a * a + b_square + c_square + b * c;
        let second = c_square + a * b;
        let third = b_square + c_square + a * c;
        (first, second, third)
    }

    // The element whose coefficients are these over a divisor.
    #[inline]
    fn from_quotients(first: Fe32, second: Fe32, third: Fe32, divisor: Fe32) -> Fe32768
        requires { divisor ≢ fe32.zero }
        ensures { let scale = fe32.inv divisor in
            result ≡ triple (fe32.mul first scale) (fe32.mul second scale) (fe32.mul third scale) }
    {
        Fe32768::from_parts(first / divisor, second / divisor, third / divisor)
    }

    // The product of the two conjugates over the norm.
    fn inverse(self) -> Fe32768
        requires { self ≢ zero }
        ensures { result ≡ inv self }
    {
        let (a, b, c) = self.parts();
        let (first, second, third) = self.adjugate();
        let norm = a * first + (b * third + c * second);
        Fe32768::from_quotients(first, second, third, norm)
    }
}

impl Arithmetic for Fe32768 {
    ghost use Rattle.bech32_gf_ext.specs.Fe32768.{add, mul, inv, zero};

    ghost zero = { zero };

    ghost sum = { add };

    ghost product = { mul };

    ghost quotient = { λ x y. mul x (inv y) };

    fn zero_element() -> Fe32768 {
        Fe32768::default()
    }

    #[inline]
    fn sum_with(self, other: Fe32768) -> Fe32768 {
        let (a, b, c) = self.parts();
        let (d, e, f) = other.parts();
        Fe32768::from_parts(a + d, b + e, c + f)
    }

    // Six products of parts in place of nine.
    #[inline]
    fn product_with(self, other: Fe32768) -> Fe32768 {
        let (a, b, c) = self.parts();
        let (d, e, f) = other.parts();
        let constant = a * d;
        let square = b * e;
        let fourth = c * f;
        let low_two = (a + b) * (d + e);
        let ends = (a + c) * (d + f);
        let high_two = (b + c) * (e + f);
        let first = constant + square + fourth + high_two;
        let second = constant + low_two + high_two;
        let third = constant + square + ends;
        Fe32768::from_parts(first, second, third)
    }

    fn quotient_with(self, other: Fe32768) -> Fe32768 {
        self.product_with(other.inverse())
    }
}

/// An element of GF(32) as one of this field: the constant polynomial.
impl From<Fe32> for Fe32768 {
    ghost use Rattle.bech32_gf_ext.specs.Fe32768.{embed};

    ghost from_gives = { λ a r. r ≡ embed a };

    fn from(element: Fe32) -> Fe32768 {
        Fe32768::from_parts(element, Fe32::Q, Fe32::Q)
    }
}

/// The constant coefficient, where the other two are zero.
///
/// # Errors
///
/// `()` where the element is none of GF(32).
impl TryFrom<Fe32768> for Fe32 {
    ghost use Rattle.std.specs.Prelude.{MatchResult, Some, None};
    ghost use Rattle.bech32_gf_ext.specs.Fe32768.{retract};

    type Error = ();

    ghost try_from_gives = { λ x r.
        MatchResult r (λ a. retract x ≡ Some a) (λ _. retract x ≡ None) };

    fn try_from(element: Fe32768) -> Result<Fe32, ()> {
        let (low_part, middle_part, high_part) = element.parts();
        if middle_part == Fe32::Q && high_part == Fe32::Q {
            Ok(low_part)
        } else {
            Err(())
        }
    }
}

impl Field for Fe32768 {
    ghost use Rattle.std.specs.Prelude.{refl};
    ghost use Rattle.bech32_gf_ext.specs.Fe32768 as elements;
    ghost use Rattle.bech32_gf_ext.specs.laws.Fe32768Laws as laws_of;
    ghost use Rattle.bech32_gf_ext.specs.laws.Fe32768Orders as orders_of;
    ghost use Rattle.bech32_gf_ext.specs.laws.Fe32ExtLaws.{eq_is_equal};

    ghost ZERO = { elements.zero };

    ghost ONE = { elements.one };

    ghost GENERATOR = { elements.generator };

    ghost CHARACTERISTIC = { 2 };

    ghost MULTIPLICATIVE_ORDER = { 32767 };

    ghost divisors = { elements.divisors };

    const ZERO: Fe32768 = Fe32Ext {
        inner: [Fe32::Q, Fe32::Q, Fe32::Q],
    };

    const ONE: Fe32768 = Fe32Ext {
        inner: [Fe32::P, Fe32::Q, Fe32::Q],
    };

    const GENERATOR: Fe32768 = Fe32Ext {
        inner: [Fe32::A, Fe32::C, Fe32::Q],
    };

    const CHARACTERISTIC: usize = 2;

    const MULTIPLICATIVE_ORDER: usize = 32767;

    const MULTIPLICATIVE_ORDER_FACTORS: &'static [usize] = &[1, 7, 31, 151, 217, 1057, 4681, 32767];

    fn multiplicative_inverse(self) -> Fe32768 {
        self.inverse()
    }

    fn order_factors() -> &'static [usize] {
        Fe32768::MULTIPLICATIVE_ORDER_FACTORS
    }

    ghost zero_law = { refl };

    ghost one_law = { refl };

    ghost default_law = { laws_of.default_is_zero };

    ghost eq_law = { eq_is_equal };

    ghost can_add_law = { λ x y. tt };

    ghost add_law = { λ x y r h. h };

    ghost can_add_assign_law = { λ x y. tt };

    ghost add_assign_law = { λ x y r h. h };

    ghost can_sub_law = { λ x y. tt };

    ghost sub_law = { λ x y r h. h };

    ghost can_sub_assign_law = { λ x y. tt };

    ghost sub_assign_law = { λ x y r h. h };

    ghost can_mul_law = { λ x y. tt };

    ghost mul_law = { λ x y r h. h };

    ghost can_mul_assign_law = { λ x y. tt };

    ghost mul_assign_law = { λ x y r h. h };

    ghost can_div_law = { λ x y h. h };

    ghost div_law = { λ x y r nonzero h. h };

    ghost can_div_assign_law = { λ x y h. h };

    ghost div_assign_law = { λ x y r nonzero h. h };

    ghost can_neg_law = { λ x. tt };

    ghost neg_law = { λ x r h. h };

    ghost can_sum_law = { λ xs. tt };

    ghost sum_law = { λ xs r h. h };

    ghost sum_complete_law = { λ r. tt };

    ghost characteristic_law = { laws_of.characteristic };

    ghost order_law = { orders_of.power-order };

    ghost generator_law = { orders_of.generator-order };

    ghost divisors_law = { orders_of.lists_divisors };

    ghost fits_law = { orders_of.fits };
}

impl ExtensionField for Fe32768 {
    ghost use Rattle.std.specs.Prelude.{refl};
    ghost use Rattle.bech32_gf_ext.specs.Fe32768 as elements;
    ghost use Rattle.bech32_gf_ext.specs.laws.Fe32768Laws as laws_of;

    type BaseField = Fe32;

    ghost DEGREE = { 3 };

    ghost POLYNOMIAL = { elements.polynomial };

    ghost EXT_ELEM = { elements.ext_elem };

    const DEGREE: usize = 3;

    const POLYNOMIAL: Fe32768 = Fe32Ext {
        inner: [Fe32::P, Fe32::P, Fe32::Q],
    };

    const EXT_ELEM: Fe32768 = Fe32Ext {
        inner: [Fe32::Q, Fe32::P, Fe32::Q],
    };

    fn to_base(self) -> Option<Fe32> {
        Fe32::try_from(self).ok()
    }

    ghost base_law = { refl };

    ghost from_law = { λ a x h. h };

    ghost polynomial_law = { laws_of.power-ext_elem };
}

impl operations::Arithmetic for Fe32768 {
    ghost use Rattle.bech32_gf_ext.specs.Fe32768 as elements;
    ghost use Rattle.bech32_gf_ext.specs.laws.Fe32768Laws as laws_of;
    ghost use Rattle.bech32_gf_ext.specs.laws.Fe32ExtLaws.{are_equal, eq_is_equal};

    ghost ops = { elements.ops };

    ghost same = { are_equal };

    fn zero() -> Fe32768 {
        Fe32768::ZERO
    }

    fn one() -> Fe32768 {
        Fe32768::ONE
    }

    fn plus(self, other: Fe32768) -> Fe32768 {
        self + other
    }

    fn times(self, other: Fe32768) -> Fe32768 {
        self * other
    }

    fn negated(self) -> Fe32768 {
        -self
    }

    fn inverse(self) -> Fe32768 {
        self.multiplicative_inverse()
    }

    fn equals(self, other: Fe32768) -> bool {
        self == other
    }

    fn is_zero(self) -> bool {
        self.equals(<Fe32768 as operations::Arithmetic>::zero())
    }

    ghost laws = { laws_of.is_field };

    ghost same_law = { eq_is_equal };
}

impl Extension for Fe32768 {
    ghost use Rattle.std.specs.Prelude.{refl};
    ghost use Rattle.bech32_gf.specs.Fe32 as fe32;
    ghost use Rattle.bech32_gf.specs.laws.Fe32Laws as fe32_laws;
    ghost use Rattle.bech32_gf_ext.specs.Fe32768 as elements;
    ghost use Rattle.bech32_gf_ext.specs.laws.Fe32768Laws as laws_of;

    type Base = Fe32;

    ghost base_ops = { fe32.ops };

    ghost embed = { elements.embed };

    ghost retract = { elements.retract };

    fn is_base_zero(x: Fe32) -> bool {
        x == Fe32::Q
    }

    fn lift(x: Fe32) -> Fe32768 {
        Fe32768::from(x)
    }

    fn lower(self) -> Option<Fe32> {
        self.to_base()
    }

    ghost base_laws = { fe32_laws.is_field };

    ghost retract_law = { laws_of.retract-embed };

    ghost embed_retract_law = { laws_of.embed-retract };

    ghost embed_zero_law = { refl };

    ghost embed_one_law = { refl };

    ghost embed_add_law = { laws_of.embed-add };

    ghost embed_neg_law = { λ a. refl };

    ghost embed_mul_law = { laws_of.embed-mul };
}

impl Sealed for Fe32768 {}

// The name, since a clause cannot speak of a constant.
fn name() -> &'static str
    ensures { result.now ≡ codes "Fe32768" }
{
    Fe32768::NAME
}

impl Bech32Field for Fe32768 {
    ghost use Rattle.bech32_gf_ext.specs.ExtensionCode.{fe32768_code};

    ghost rust_code = { fe32768_code };

    const NAME: &'static str = "Fe32768";

    fn format_as_rust_code<W: fmt::Write>(&self, f: &mut fmt::Formatter<W>) -> fmt::Result {
        let (low_part, middle_part, high_part) = self.parts();
        f.write_str("Fe32Ext { inner: [")?;
        write_two(low_part, middle_part, f)?;
        f.write_str(", ")?;
        high_part.format_as_rust_code(f)?;
        f.write_str("] }")
    }
}
