//! The products of the generator of BIP-173.

ghost use Rattle.std.specs.Prelude.{◌≡◌, get_or};
ghost use Rattle.bech32_poly.specs.Polynomial.{scale};
ghost use Rattle.bech32_gf.specs.Fe32 as fe32;
ghost use Rattle.bech32_gf.specs.Fe32.{value};
ghost use Rattle.bech32_checksum.specs.Packed.{IsRowOf, sum_of_words};
ghost use Rattle.bech32_checksum.specs.Code.{bech32};
ghost use Rattle.bech32_checksum.specs.laws.CodeLaws.{words};

use super::remainders::remainders;
use bech32_gf::gf32::Fe32;

// The generator's lower coefficients times each element, packed: the remainders at x^6.
pub(super) const PRODUCTS: [u32; 32] = remainders!(6);

// The product of an element and the generator's lower coefficients, packed.
#[inline]
pub(crate) fn product_with(element: Fe32) -> u32
    ensures row { IsRowOf 6 (scale fe32.ops element bech32.generator) result }
    ensures words { result ≡ sum_of_words (λ i. get_or words i 0) 5 (value element) }
{
    PRODUCTS[element.to_u8() as usize]
}
