//! Packed rows of six elements by the generator of Bech32 and Bech32m: remainders.

ghost use Rattle.std.specs.Prelude.{ℕ, [], ◌∷◌, List};
ghost use Rattle.bech32_checksum.specs.Code.{IsResidueAfter, IsResidueOf, bech32m};
ghost use Rattle.bech32_checksum.specs.Packed.{HasDigits, IsRowOf, digits};
ghost use Rattle.bech32_gf.specs.Fe32 as fe32;
ghost use Rattle.bech32_gf.specs.declared.gf32.Fe32.{Fe32 as Element};
ghost use Rattle.bech32_poly.specs.Pattern.{monomial};
ghost use Rattle.bech32_poly.specs.Division.{zeros};
ghost use Rattle.bech32_poly.specs.Polynomial.{appended, scale};

use bech32_checksum::{Bech32m, Engine, PackedFe32};
use bech32_gf::gf32::Fe32;

// The generator less its constant term, divided by that and by x, packed, and its products with 2,
// 4, 8 and 16.
pub(crate) const DIVIDED: [u32; 5] = [0x228bf1a8, 0x1703c750, 0x2c972fa9, 0x0b2e5a72, 0x14d895ed];

/// The remainder of a polynomial, of that of x times it.
///
/// The constant term of the given remainder is cancelled by a multiple of the generator.
#[inline(never)]
pub(crate) fn divided_by_x(row: u32) -> u32
    requires { HasDigits 6 row }
    ensures clear { HasDigits 6 result }
    ensures after { IsResidueAfter (λ (n : ℕ). n) bech32m result (fe32.zero ∷ []) row }
    ensures before { (p : List Element) → IsResidueOf (λ (n : ℕ). n) bech32m row (fe32.zero ∷ p)
        → IsResidueOf (λ (n : ℕ). n) bech32m result p }
{
    let low = row % 32;
    let mut divided = row / 32;
    for i in 0..5usize {
        if (low >> i) % 2 == 1 {
            divided = divided ^ DIVIDED[i];
        }
    }
    divided
}

/// The remainder of a polynomial, of that of this power of x times it.
pub(crate) fn divided_by_power(row: u32, power: usize) -> u32
    requires { HasDigits 6 row }
    ensures clear { HasDigits 6 result }
    ensures after { (p : List Element) → IsResidueOf (λ (n : ℕ). n) bech32m result p
        → IsResidueOf (λ (n : ℕ). n) bech32m row (appended p (zeros fe32.ops power)) }
    ensures before { (p : List Element)
        → IsResidueOf (λ (n : ℕ). n) bech32m row (appended p (zeros fe32.ops power))
        → IsResidueOf (λ (n : ℕ). n) bech32m result p }
{
    let mut row = row;
    for more in 0..power {
        row = divided_by_x(row);
    }
    row
}

/// The remainder of the power of x at a location.
#[inline(never)]
pub(crate) fn power_of_x(location: usize) -> u32
    ensures clear { HasDigits 6 result }
    ensures power { IsResidueOf (λ (n : ℕ). n) bech32m result
        (monomial fe32.ops location fe32.one) }
{
    let mut power = Engine::<Bech32m>::new();
    for more in 0..location {
        power.input_fe(Fe32::Q);
    }
    *power.residue()
}

/// A row times an element.
#[inline(never)]
pub(crate) fn times(element: Fe32, row: u32) -> u32
    requires { HasDigits 6 row }
    ensures { IsRowOf 6 (scale fe32.ops element (digits 6 row)) result }
{
    let mut product = 0;
    for i in 0..6 {
        let digit = Fe32::from_low_bits(row.unpack(5 - i));
        product = product * 32 + u32::from((digit * element).to_u8());
    }
    product
}
