//! Whether the roots of a checksum are lawful.

ghost use Rattle.std.specs.Prelude.{◌≡◌, ◌≢◌, ◌≤◌, ◌↔◌, IsTrue};
ghost use Rattle.bech32_gf.specs.Fe32 as fe32;
ghost use Rattle.bech32_gf.specs.Field.{IsOrder, power};
ghost use Rattle.bech32_poly.specs.Embedding.{Embeds};
ghost use Rattle.bech32_checksum.specs.Roots.{generator_at, HasOrderFrom, PowersAreRoots};

use crate::{Checksum, PackedFe32};
use bech32_gf::field::{ExtensionField, MultiplicativeOrder};
use bech32_gf::gf32::Fe32;
use bech32_poly::arithmetic::{Arithmetic, Extension};

/// A field in which errors are located and their values found: it extends that of 32 elements. Each
/// [`ExtensionField`] of [`Fe32`] is one.
pub trait LocatorField: Extension<Base = Fe32> {
    /// The least number from 1 on whose power of this element, which is not zero, is one.
    fn order(self) -> usize
        requires { self ≢ Self.ops.zero }
        ensures { IsOrder Self.ops self result };

    // The base field's operations are those of `Fe32`.
    ghost base_law: { Self.base_ops ≡ fe32.ops };

    ghost embeds_law: { Embeds fe32.ops Self.ops Self.embed };
}

impl<E: ExtensionField<BaseField = Fe32>> LocatorField for E {
    ghost use Rattle.bech32_checksum.specs.laws.LocatorLaws.{embeds};

    fn order(self) -> usize {
        self.multiplicative_order()
    }

    ghost base_law = { E.base_law };

    ghost embeds_law = { embeds _ _ _ _
        E.base_law E.embed_one_law E.embed_add_law E.embed_mul_law };
}

// The value of the generator at an element, by Horner's rule.
fn generator_value<Ck: Checksum>(x: Ck::CorrectionField) -> Ck::CorrectionField
    ensures { result ≡ generator_at Ck.CorrectionField.ops Ck.CorrectionField.embed Ck.code x }
{
    let word = Ck::GENERATOR_SH[0];
    let mut value = Ck::CorrectionField::one();
    for place in (0..Ck::CHECKSUM_LENGTH).rev() {
        let coefficient = Fe32::from_low_bits(word.unpack(place));
        value = Ck::CorrectionField::lift(coefficient).plus(x.times(value));
    }
    value
}

/// Whether the base of the roots is not zero, and its order not below the code length.
pub(super) fn order_is_long_enough<Ck: Checksum>() -> bool
    ensures { IsTrue result ↔ HasOrderFrom Ck.CorrectionField.ops Ck.ROOT_GENERATOR Ck.CODE_LENGTH }
{
    let base = Ck::ROOT_GENERATOR;
    !base.is_zero() && Ck::CODE_LENGTH <= base.order()
}

// Whether the power of the base by an exponent is a root of the generator.
fn is_root<Ck: Checksum>(exponent: usize) -> bool
    ensures { IsTrue result ↔ (generator_at Ck.CorrectionField.ops Ck.CorrectionField.embed Ck.code
        (power Ck.CorrectionField.ops Ck.ROOT_GENERATOR exponent) ≡ Ck.CorrectionField.ops.zero) }
{
    generator_value::<Ck>(Ck::ROOT_GENERATOR.power(exponent)).is_zero()
}

/// Whether each power of the base from the first exponent to the last is a root of the generator.
pub(super) fn powers_are_roots<Ck: Checksum>() -> bool
    requires { Ck.ROOT_EXPONENTS_START ≤ Ck.ROOT_EXPONENTS_END }
    ensures { IsTrue result ↔ PowersAreRoots Ck.CorrectionField.ops Ck.CorrectionField.embed
        Ck.code Ck.ROOT_GENERATOR Ck.ROOT_EXPONENTS_START Ck.ROOT_EXPONENTS_END }
{
    for exponent in Ck::ROOT_EXPONENTS_START..Ck::ROOT_EXPONENTS_END {
        if !is_root::<Ck>(exponent) {
            return false;
        }
    }
    is_root::<Ck>(Ck::ROOT_EXPONENTS_END)
}
