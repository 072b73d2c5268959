//! The remainder after more elements, by tables.

ghost use Rattle.std.specs.Prelude.{◌≡◌, ◌<◌, ◌^◌, ℕ, get_or};
ghost use Rattle.bech32_gf.specs.Fe32 as fe32;
ghost use Rattle.bech32_gf.specs.Fe32.{value};
ghost use Rattle.bech32_poly.specs.Polynomial.{scale};
ghost use Rattle.bech32_checksum.specs.Code.{IsResidueAfter};
ghost use Rattle.bech32_checksum.specs.Packed.{IsRowOf, sum_of_words};
ghost use Rattle.bech32_checksum.specs.Word.{word_elements};
ghost use Rattle.bech32_descriptor.specs.Code.{descriptor};
ghost use Rattle.bech32_descriptor.specs.laws.CodeLaws.{words};

use crate::powers::POWERS;
use bech32_gf::gf32::Fe32;

// The product of an element and the generator's lower coefficients, packed.
#[inline]
pub(crate) fn product_with(element: Fe32) -> u64
    ensures row { IsRowOf 8 (scale fe32.ops element descriptor.generator) result }
    ensures words { result ≡ sum_of_words (λ i. get_or words i 0) 5 (value element) }
{
    POWERS[0][element.to_u8() as usize]
}

// The remainder after eight more elements. It is a sum: each coefficient of the remainder before is
// eight places higher, so that it has a table; the elements are a remainder as they are.
#[inline]
pub(crate) fn after_word_by_tables(residue: u64, word: u64) -> u64
    requires residue { residue < 2 ^ 40 }
    requires word { word < 2 ^ 40 }
    ensures clear { result < 2 ^ 40 }
    ensures after { IsResidueAfter (λ (n : ℕ). n) descriptor residue (word_elements word) result }
{
    POWERS[7][(residue >> 35) as usize]
        ^ POWERS[6][(residue >> 30) as usize % 32]
        ^ POWERS[5][(residue >> 25) as usize % 32]
        ^ POWERS[4][(residue >> 20) as usize % 32]
        ^ POWERS[3][(residue >> 15) as usize % 32]
        ^ POWERS[2][(residue >> 10) as usize % 32]
        ^ POWERS[1][(residue >> 5) as usize % 32]
        ^ POWERS[0][residue as usize % 32]
        ^ word
}
