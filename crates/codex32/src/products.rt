//! The generators of codex32: their words, the bases of their roots, and their products, of which
//! nothing can be told of the element.

ghost use Rattle.std.specs.Prelude.{◌≡◌, get_or};
ghost use Rattle.bech32_poly.specs.Polynomial.{scale};
ghost use Rattle.bech32_gf.specs.Fe32 as fe32;
ghost use Rattle.bech32_gf.specs.Fe32.{value};
ghost use Rattle.bech32_checksum.specs.Packed.{IsRowOf, sum_of_words};
ghost use Rattle.codex32.specs.Code.{codex32, long_codex32};
ghost use Rattle.codex32.specs.laws.CodeLaws.{words};
ghost use Rattle.codex32.specs.laws.LongCodeLaws.{long_words};

use bech32::primitives::gf32_ext::Fe32Ext;
use bech32::{Fe32, Fe1024};
use codex32_steady::xor_selected;

// The generator of codex32, packed, and its products with 2, 4, 8 and 16.
pub(crate) const WORDS: [u128; 5] = [
    0x19dc500ce73fde210,
    0x1bfae00def77fe529,
    0x1fbd920fffe7bee52,
    0x1739640bdeee3fdad,
    0x07729a039cfc75f5a,
];

// The same of the generator of long strings.
pub(crate) const LONG_WORDS: [u128; 5] = [
    0x3d59d273535ea62d897,
    0x7a9becb6361c6c51507,
    0x543f9b7e6c38d8a2a0e,
    0x0c577eaeccf1990d13c,
    0x1887f74f8dc71b10651,
];

// The powers 9 to 16 of 5 + 5 z, which has order 93, are roots of the generator.
pub(crate) const BASE: Fe1024 = Fe32Ext {
    inner: [Fe32::_9, Fe32::_9],
};

// The powers 1019 to 1026 of 25 + 6 z, which has order 1023, are roots of that of long strings.
pub(crate) const LONG_BASE: Fe1024 = Fe32Ext {
    inner: [Fe32::E, Fe32::X],
};

// The product of an element and the generator's lower coefficients, packed.
#[inline]
pub(crate) fn product_with(element: Fe32) -> u128
    ensures row { IsRowOf 13 (scale fe32.ops element codex32.generator) result }
    ensures words { result ≡ sum_of_words (λ i. get_or words i 0) 5 (value element) }
{
    xor_selected(WORDS, element.to_u8())
}

// The same of the generator of long strings.
#[inline]
pub(crate) fn long_product_with(element: Fe32) -> u128
    ensures row { IsRowOf 15 (scale fe32.ops element long_codex32.generator) result }
    ensures words { result ≡ sum_of_words (λ i. get_or long_words i 0) 5 (value element) }
{
    xor_selected(LONG_WORDS, element.to_u8())
}
