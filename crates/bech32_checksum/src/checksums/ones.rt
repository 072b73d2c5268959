//! One error by the generator of BIP-173, looked up by its remainder.

ghost use Rattle.std.specs.Prelude.{◌≡◌, ◌≢◌, ◌<◌, ◌+◌, ◌*◌, ◌/◌, ◌%◌, ◌^◌, get_or, length};
ghost use Rattle.bech32_gf.specs.Fe32 as fe32;
ghost use Rattle.bech32_gf.specs.Fe32.{value};
ghost use Rattle.bech32_poly.specs.Polynomial.{scale};
ghost use Rattle.bech32_checksum.specs.Code.{bech32};
ghost use Rattle.bech32_checksum.specs.OneError.{IsSingle, leading, packed};

use super::locations::{ANSWERS, KEYS, MOVES};
use crate::{Lookup, sums};
use bech32_gf::gf32::Fe32;

// The product of each two elements, the first one times 32 and the second added.
const PRODUCTS_OF_TWO: [u8; 1024] = sums!(
    0, 0, 0, 0, 0; 1, 2, 4, 8, 16; 2, 4, 8, 16, 9; 3, 6, 12, 24, 25;
    4, 8, 16, 9, 18; 5, 10, 20, 1, 2; 6, 12, 24, 25, 27; 7, 14, 28, 17, 11;
    8, 16, 9, 18, 13; 9, 18, 13, 26, 29; 10, 20, 1, 2, 4; 11, 22, 5, 10, 20;
    12, 24, 25, 27, 31; 13, 26, 29, 19, 15; 14, 28, 17, 11, 22; 15, 30, 21, 3, 6;
    16, 9, 18, 13, 26; 17, 11, 22, 5, 10; 18, 13, 26, 29, 19; 19, 15, 30, 21, 3;
    20, 1, 2, 4, 8; 21, 3, 6, 12, 24; 22, 5, 10, 20, 1; 23, 7, 14, 28, 17;
    24, 25, 27, 31, 23; 25, 27, 31, 23, 7; 26, 29, 19, 15, 30; 27, 31, 23, 7, 14;
    28, 17, 11, 22, 5; 29, 19, 15, 30, 21; 30, 21, 3, 6, 12; 31, 23, 7, 14, 28;
);

// The inverse of each element; of zero zero.
const INVERSES: [u8; 32] = [
    0, 1, 20, 24, 10, 8, 12, 29, 5, 11, 4, 9, 6, 28, 26, 31, 22, 18, 17, 23, 2, 25, 16, 19, 3, 21,
    14, 30, 13, 7, 27, 15,
];

// The first element that is not zero; zero where there is none.
#[inline]
fn leading_of(list: &[Fe32]) -> Fe32
    ensures { result ≡ leading list.now }
{
    for element in list {
        if *element != Fe32::Q {
            return *element;
        }
    }
    Fe32::Q
}

// The value of a product, by a table.
#[inline]
pub(super) fn product_value(a: Fe32, b: Fe32) -> u32
    ensures value { result ≡ value (fe32.mul a b) }
    ensures below { result < 32 }
{
    PRODUCTS_OF_TWO[32 * a.to_u8() as usize + b.to_u8() as usize] as u32
}

// The inverse of an element that is not zero, by a table.
#[inline]
pub(super) fn inverse_of(a: Fe32) -> Fe32
    requires { a ≢ fe32.zero }
    ensures { result ≡ fe32.inv a }
{
    Fe32::from_low_bits(INVERSES[a.to_u8() as usize])
}

// Six elements, each times a factor, packed, the first one lowest.
#[inline]
fn packed_multiple(list: &[Fe32], factor: Fe32) -> u32
    requires { length list.now ≡ 6 }
    ensures value { result ≡ packed (scale fe32.ops factor list.now) }
    ensures below { result < 2 ^ 30 }
{
    let fifth = product_value(factor, list[4]) + 32 * product_value(factor, list[5]);
    let third = product_value(factor, list[2]) + 32 * (product_value(factor, list[3]) + 32 * fifth);
    product_value(factor, list[0]) + 32 * (product_value(factor, list[1]) + 32 * third)
}

// The slot in which a number stands, if it is the key of a location: it goes by the five lowest
// elements.
#[inline]
fn slot_of(number: u32) -> usize
    ensures { result ≡ (number % 2 ^ 25 * 208833772613 / 2 ^ 34
        + get_or MOVES (number % 2 ^ 25 * 208833772613 / 2 ^ 44 % 512) 0) % 1024 }
{
    let hash = (number % 0x200_0000) as u64 * 208833772613;
    let moved = hash / 0x4_0000_0000 + MOVES[(hash / 0x1000_0000_0000 % 512) as usize] as u64;
    (moved % 1024) as usize
}

// The single error that leaves a residue. There is no table for a residue that is zero or has not
// six elements.
#[inline]
pub(super) fn one_error_by_tables(residue: &[Fe32]) -> Lookup<(usize, Fe32)>
    ensures { IsSingle bech32.generator 1023 residue.now result }
{
    if residue.len() != 6 {
        return Lookup::NoTable;
    }
    let first = leading_of(residue);
    if first == Fe32::Q {
        return Lookup::NoTable;
    }
    let key = packed_multiple(residue, inverse_of(first));
    let slot = slot_of(key);
    if KEYS[slot] != key {
        return Lookup::Absent;
    }
    let answer = ANSWERS[slot];
    let value = product_value(first, Fe32::from_low_bits((answer % 32) as u8));
    Lookup::Found(((answer / 32) as usize, Fe32::from_low_bits(value as u8)))
}
