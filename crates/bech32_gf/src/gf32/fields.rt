//! The elements as a field, as an extension of their own field, and as a field of bech32 checksums.

ghost use Rattle.std.specs.Prelude.{◌≡◌, codes};

use super::Fe32;
use crate::arithmetic::{Arithmetic, Extension};
use crate::field::private::Sealed;
use crate::field::{Bech32Field, ExtensionField, Field};
use std::fmt;

impl Field for Fe32 {
    ghost use Rattle.std.specs.Prelude.{◌∷◌, [], refl};
    ghost use Rattle.bech32_gf.specs.Fe32 as fe32;
    ghost use Rattle.bech32_gf.specs.laws.Fe32Laws as laws_of;

    ghost ZERO = { fe32.zero };

    ghost ONE = { fe32.one };

    ghost GENERATOR = { fe32.generator };

    ghost CHARACTERISTIC = { 2 };

    ghost MULTIPLICATIVE_ORDER = { 31 };

    ghost divisors = { 1 ∷ 31 ∷ [] };

    const ZERO: Fe32 = Fe32::Q;

    const ONE: Fe32 = Fe32::P;

    const GENERATOR: Fe32 = Fe32::Z;

    const CHARACTERISTIC: usize = 2;

    const MULTIPLICATIVE_ORDER: usize = 31;

    const MULTIPLICATIVE_ORDER_FACTORS: &'static [usize] = &[1, 31];

    fn multiplicative_inverse(self) -> Fe32 {
        Fe32::P / self
    }

    fn order_factors() -> &'static [usize] {
        Fe32::MULTIPLICATIVE_ORDER_FACTORS
    }

    ghost zero_law = { refl };

    ghost one_law = { refl };

    ghost default_law = { λ x h. h };

    ghost eq_law = { laws_of.eq_is_equal };

    ghost can_add_law = { λ x y. tt };

    ghost add_law = { λ x y r h. h };

    ghost can_add_assign_law = { λ x y. tt };

    ghost add_assign_law = { λ x y r h. h };

    ghost can_sub_law = { λ x y. tt };

    ghost sub_law = { λ x y r h. h };

    ghost can_sub_assign_law = { λ x y. tt };

    ghost sub_assign_law = { λ x y r h. h };

    ghost can_mul_law = { λ x y. tt };

    ghost mul_law = { λ x y r h. h };

    ghost can_mul_assign_law = { λ x y. tt };

    ghost mul_assign_law = { λ x y r h. h };

    ghost can_div_law = { λ x y h. h };

    ghost div_law = { λ x y r nonzero h. h };

    ghost can_div_assign_law = { λ x y h. h };

    ghost div_assign_law = { λ x y r nonzero h. h };

    ghost can_neg_law = { λ x. tt };

    ghost neg_law = { λ x r h. h };

    ghost can_sum_law = { λ xs. tt };

    ghost sum_law = { λ xs r h. h };

    ghost sum_complete_law = { λ r. tt };

    ghost characteristic_law = { laws_of.characteristic };

    ghost order_law = { laws_of.power-order };

    ghost generator_law = { laws_of.generator_order };

    ghost divisors_law = { laws_of.divisors };

    ghost fits_law = { laws_of.fits };
}

impl ExtensionField for Fe32 {
    ghost use Rattle.std.specs.Prelude.{refl};
    ghost use Rattle.bech32_gf.specs.Fe32 as fe32;
    ghost use Rattle.bech32_gf.specs.laws.Fe32Laws as laws_of;
    ghost use Rattle.bech32_gf.specs.laws.FieldLaws.{power-one};

    type BaseField = Fe32;

    ghost DEGREE = { 1 };

    ghost POLYNOMIAL = { fe32.one };

    ghost EXT_ELEM = { fe32.one };

    const DEGREE: usize = 1;

    const POLYNOMIAL: Fe32 = Fe32::P;

    const EXT_ELEM: Fe32 = Fe32::P;

    fn to_base(self) -> Option<Fe32> {
        Some(self)
    }

    ghost base_law = { refl };

    ghost from_law = { λ x y h. h };

    ghost polynomial_law = { power-one laws_of.is_field fe32.one };
}

impl Arithmetic for Fe32 {
    ghost use Rattle.std.specs.Prelude.{◌==◌};
    ghost use Rattle.bech32_gf.specs.Fe32 as fe32;
    ghost use Rattle.bech32_gf.specs.laws.Fe32Laws as laws_of;

    ghost ops = { fe32.ops };

    ghost same = { λ x y. x.value == y.value };

    fn zero() -> Fe32 {
        Fe32::ZERO
    }

    fn one() -> Fe32 {
        Fe32::ONE
    }

    fn plus(self, other: Fe32) -> Fe32 {
        self + other
    }

    fn times(self, other: Fe32) -> Fe32 {
        self * other
    }

    fn negated(self) -> Fe32 {
        -self
    }

    fn inverse(self) -> Fe32 {
        self.multiplicative_inverse()
    }

    fn equals(self, other: Fe32) -> bool {
        self == other
    }

    fn is_zero(self) -> bool {
        self == Fe32::ZERO
    }

    ghost laws = { laws_of.is_field };

    ghost same_law = { laws_of.eq_is_equal };
}

impl Extension for Fe32 {
    ghost use Rattle.std.specs.Prelude.{Some, refl};
    ghost use Rattle.bech32_gf.specs.Fe32 as fe32;
    ghost use Rattle.bech32_gf.specs.laws.Fe32Laws as laws_of;

    type Base = Fe32;

    ghost base_ops = { fe32.ops };

    ghost embed = { λ x. x };

    ghost retract = { λ x. Some x };

    fn is_base_zero(x: Fe32) -> bool {
        x == Fe32::Q
    }

    fn lift(x: Fe32) -> Fe32 {
        x
    }

    fn lower(self) -> Option<Fe32> {
        Some(self)
    }

    ghost base_laws = { laws_of.is_field };

    ghost retract_law = { λ x. refl };

    ghost embed_retract_law = { laws_of.same_element };

    ghost embed_zero_law = { refl };

    ghost embed_one_law = { refl };

    ghost embed_add_law = { λ x y. refl };

    ghost embed_neg_law = { λ x. refl };

    ghost embed_mul_law = { λ x y. refl };
}

impl Sealed for Fe32 {}

// The name, since a clause cannot speak of a constant.
fn name() -> &'static str
    ensures { result.now ≡ codes "Fe32" }
{
    Fe32::NAME
}

impl Bech32Field for Fe32 {
    ghost use Rattle.bech32_gf.specs.RustCode.{fe32_code};

    ghost rust_code = { fe32_code };

    const NAME: &'static str = "Fe32";

    fn format_as_rust_code<W: fmt::Write>(&self, f: &mut fmt::Formatter<W>) -> fmt::Result {
        let character = self.to_char();
        if character.is_ascii_digit() {
            write!(f, "Fe32::_{character}")
        } else {
            write!(f, "Fe32::{}", character.to_ascii_uppercase())
        }
    }
}
