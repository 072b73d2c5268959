//! The field of 32 elements, GF(32) (BIP-173, section Checksum design), and the characters that its
//! elements have in a text (BIP-173, section Bech32).

ghost use Rattle.std.specs.Prelude.{◌≡◌, ◌≢◌, ◌+◌, ◌<◌, ◌≤◌, ◌↔◌, ℕ, true, slice_index, map, IfOk, IfErr, IsOk};
ghost use Rattle.bech32_gf.specs.Gf32.{product};
ghost use Rattle.bech32_gf.specs.Alphabet.{alphabet, is_of_alphabet, value_of, char_of};
ghost use Rattle.bech32_gf.specs.declared.gf32.TheConstants.{LOG, POWERS};

mod alphabetical;
mod conversions;
mod fields;
mod operators;

pub use alphabetical::AlphaIter;
pub use conversions::TryFromError;
use thiserror::Error;

pub mod plain;

// The logarithm to the base 2, whose powers are all values but 0, of each value. 0 has none, and
// its place is not read.
const LOG: [u8; 32] = [
    0, 0, 1, 14, 2, 28, 15, 22, 3, 5, 29, 26, 16, 7, 23, 11, 4, 25, 6, 10, 30, 13, 27, 21, 17, 18,
    8, 19, 24, 9, 12, 20,
];

// The powers of 2, from 1 on.
const POWERS: [u8; 31] = [
    1, 2, 4, 8, 16, 9, 18, 13, 26, 29, 19, 15, 30, 21, 3, 6, 12, 24, 25, 27, 31, 23, 7, 14, 28, 17,
    11, 22, 5, 10, 20,
];

// What the two tables hold: the powers begin with 1, each is 2 times the one before it, and the
// logarithms undo them.
fn tables()
    ensures begin { slice_index POWERS 0 ≡ 1 }
    ensures step { (i : ℕ) → i < 30
        → slice_index POWERS (i + 1) ≡ product 2 (slice_index POWERS i) }
    ensures logarithm { (i : ℕ) → i < 31 → slice_index LOG (slice_index POWERS i) ≡ i }
    ensures power { (v : ℕ) → 0 < v → v < 32 → slice_index POWERS (slice_index LOG v) ≡ v }
{}

// The product with 1, by its definition.
fn product_of_one()
    ensures { (v : ℕ) → v < 32 → product 1 v ≡ v }
{}

// The characters of the elements, in order of their values.
const CHARACTERS: [char; 32] = [
    'q', 'p', 'z', 'r', 'y', '9', 'x', '8', 'g', 'f', '2', 't', 'v', 'd', 'w', '0', 's', '3', 'j',
    'n', '5', '4', 'k', 'h', 'c', 'e', '6', 'm', 'u', 'a', '7', 'l',
];

// The value of each ASCII character in either case, and 255 where it has none.
const VALUES: [u8; 128] = [
    255, 255, 255, 255, 255, 255, 255, 255, 255, 255, 255, 255, 255, 255, 255, 255, 255, 255, 255,
    255, 255, 255, 255, 255, 255, 255, 255, 255, 255, 255, 255, 255, 255, 255, 255, 255, 255, 255,
    255, 255, 255, 255, 255, 255, 255, 255, 255, 255, 15, 255, 10, 17, 21, 20, 26, 30, 7, 5, 255,
    255, 255, 255, 255, 255, 255, 29, 255, 24, 13, 25, 9, 8, 23, 255, 18, 22, 31, 27, 19, 255, 1,
    0, 3, 16, 11, 28, 12, 14, 6, 4, 2, 255, 255, 255, 255, 255, 255, 29, 255, 24, 13, 25, 9, 8, 23,
    255, 18, 22, 31, 27, 19, 255, 1, 0, 3, 16, 11, 28, 12, 14, 6, 4, 2, 255, 255, 255, 255, 255,
];

/// An element of GF(32), with a value from 0 to 31: what one character of a data part stands for
/// (BIP-173, section Bech32).
///
/// The bits of the value are the coefficients of a polynomial over GF(2), the lowest bit that of
/// x^0. A sum is taken bit by bit, without carry, and a product is that of the polynomials, modulo
/// x^5 + x^3 + 1 (BIP-173, section Checksum design). Elements are ordered by their values.
#[derive(Clone, Copy, Debug, PartialEq, Eq, PartialOrd, Ord, Hash)]
pub struct Fe32 {
    value: u8,
    pub ghost in_field: { value < 32 },
}

/// Why a character stands for no element. Each variant holds that character.
#[derive(Clone, Copy, Debug, PartialEq, Eq, Drop, Error)]
pub enum FromCharError {
    /// The character is not ASCII.
    #[error("tried to interpret a character as a GF32 element but it is not ASCII: {0}")]
    NotAscii(char),
    /// The character is ASCII, but not one of the alphabet's 32 in either case.
    #[error("tried to interpret a character as a GF32 element but it is not of the alphabet: {0}")]
    Invalid(char),
}

// The product of two values, by their logarithms.
fn product_by_logs(a: u8, b: u8) -> u8
    requires a_in_field { a < 32 }
    requires b_in_field { b < 32 }
    ensures value { result ≡ product a b }
    ensures in_field { result < 32 }
{
    if a == 0 || b == 0 {
        return 0;
    }
    let sum = LOG[a as usize] + LOG[b as usize];
    POWERS[(sum % 31) as usize]
}

impl Fe32 {
    /// The element 0, whose character is `q`.
    pub const Q: Fe32 = Fe32 { value: 0 };

    /// The element 1, whose character is `p`.
    pub const P: Fe32 = Fe32 { value: 1 };

    /// The element 2, whose character is `z`.
    pub const Z: Fe32 = Fe32 { value: 2 };

    /// The element 3, whose character is `r`.
    pub const R: Fe32 = Fe32 { value: 3 };

    /// The element 4, whose character is `y`.
    pub const Y: Fe32 = Fe32 { value: 4 };

    /// The element 5, whose character is `9`.
    pub const _9: Fe32 = Fe32 { value: 5 };

    /// The element 6, whose character is `x`.
    pub const X: Fe32 = Fe32 { value: 6 };

    /// The element 7, whose character is `8`.
    pub const _8: Fe32 = Fe32 { value: 7 };

    /// The element 8, whose character is `g`.
    pub const G: Fe32 = Fe32 { value: 8 };

    /// The element 9, whose character is `f`.
    pub const F: Fe32 = Fe32 { value: 9 };

    /// The element 10, whose character is `2`.
    pub const _2: Fe32 = Fe32 { value: 10 };

    /// The element 11, whose character is `t`.
    pub const T: Fe32 = Fe32 { value: 11 };

    /// The element 12, whose character is `v`.
    pub const V: Fe32 = Fe32 { value: 12 };

    /// The element 13, whose character is `d`.
    pub const D: Fe32 = Fe32 { value: 13 };

    /// The element 14, whose character is `w`.
    pub const W: Fe32 = Fe32 { value: 14 };

    /// The element 15, whose character is `0`.
    pub const _0: Fe32 = Fe32 { value: 15 };

    /// The element 16, whose character is `s`.
    pub const S: Fe32 = Fe32 { value: 16 };

    /// The element 17, whose character is `3`.
    pub const _3: Fe32 = Fe32 { value: 17 };

    /// The element 18, whose character is `j`.
    pub const J: Fe32 = Fe32 { value: 18 };

    /// The element 19, whose character is `n`.
    pub const N: Fe32 = Fe32 { value: 19 };

    /// The element 20, whose character is `5`.
    pub const _5: Fe32 = Fe32 { value: 20 };

    /// The element 21, whose character is `4`.
    pub const _4: Fe32 = Fe32 { value: 21 };

    /// The element 22, whose character is `k`.
    pub const K: Fe32 = Fe32 { value: 22 };

    /// The element 23, whose character is `h`.
    pub const H: Fe32 = Fe32 { value: 23 };

    /// The element 24, whose character is `c`.
    pub const C: Fe32 = Fe32 { value: 24 };

    /// The element 25, whose character is `e`.
    pub const E: Fe32 = Fe32 { value: 25 };

    /// The element 26, whose character is `6`.
    pub const _6: Fe32 = Fe32 { value: 26 };

    /// The element 27, whose character is `m`.
    pub const M: Fe32 = Fe32 { value: 27 };

    /// The element 28, whose character is `u`.
    pub const U: Fe32 = Fe32 { value: 28 };

    /// The element 29, whose character is `a`.
    pub const A: Fe32 = Fe32 { value: 29 };

    /// The element 30, whose character is `7`.
    pub const _7: Fe32 = Fe32 { value: 30 };

    /// The element 31, whose character is `l`.
    pub const L: Fe32 = Fe32 { value: 31 };

    ghost use Rattle.bech32_gf.specs.Fe32.{value, add, mul, element, element_of};

    // The constants, in order of the alphabet: each is the element of the character that it is
    // named for.
    fn constants() -> [Fe32; 32]
        ensures { map (λ x. char_of (value x)) result ≡ alphabet }
    {
        [
            Fe32::Q,
            Fe32::P,
            Fe32::Z,
            Fe32::R,
            Fe32::Y,
            Fe32::_9,
            Fe32::X,
            Fe32::_8,
            Fe32::G,
            Fe32::F,
            Fe32::_2,
            Fe32::T,
            Fe32::V,
            Fe32::D,
            Fe32::W,
            Fe32::_0,
            Fe32::S,
            Fe32::_3,
            Fe32::J,
            Fe32::N,
            Fe32::_5,
            Fe32::_4,
            Fe32::K,
            Fe32::H,
            Fe32::C,
            Fe32::E,
            Fe32::_6,
            Fe32::M,
            Fe32::U,
            Fe32::A,
            Fe32::_7,
            Fe32::L,
        ]
    }

    /// The element that a character of the alphabet stands for, in either case (BIP-173, section
    /// Bech32).
    ///
    /// # Errors
    ///
    /// [`FromCharError::NotAscii`] for a character that is not ASCII, and
    /// [`FromCharError::Invalid`] for any other that is not of the alphabet.
    pub fn from_char(c: char) -> Result<Fe32, FromCharError>
        ensures accepts { IsOk result ↔ (is_of_alphabet c ≡ true) }
        ensures value { IfOk result (λ x. x ≡ element_of c) }
        ensures not_ascii { 128 ≤ c → result ≡ Err (FromCharError.NotAscii c) }
        ensures invalid { c < 128 → IfErr result (λ e. e ≡ FromCharError.Invalid c) }
    {
        if !c.is_ascii() {
            return Err(FromCharError::NotAscii(c));
        }
        let value = VALUES[c as usize];
        if value > 31 {
            return Err(FromCharError::Invalid(c));
        }
        Ok(Fe32 { value })
    }

    /// The element that a character of the alphabet stands for, in either case, where the caller
    /// shows that the byte is one.
    pub fn from_char_unchecked(c: u8) -> Fe32
        requires { is_of_alphabet c ≡ true }
        ensures { result ≡ element_of c }
    {
        Fe32 {
            value: VALUES[c as usize],
        }
    }

    /// The element whose value is the lowest five bits of a byte. The other three are left out.
    pub fn from_low_bits(bits: u8) -> Fe32
        ensures { result ≡ element bits }
    {
        Fe32 { value: bits % 32 }
    }

    /// The character of the element, in lower case (BIP-173, section Bech32).
    pub fn to_char(self) -> char
        ensures value { result ≡ char_of (value self) }
        ensures ascii { result < 128 }
    {
        CHARACTERS[self.value as usize]
    }

    /// The value of the element, from 0 to 31.
    pub fn to_u8(self) -> u8
        ensures { result ≡ value self }
    {
        self.value
    }

    fn sum_with(self, other: Fe32) -> Fe32
        ensures { result ≡ add self other }
    {
        Fe32 {
            value: self.value ^ other.value,
        }
    }

    fn product_with(self, other: Fe32) -> Fe32
        ensures { result ≡ mul self other }
    {
        Fe32 {
            value: product_by_logs(self.value, other.value),
        }
    }
}
