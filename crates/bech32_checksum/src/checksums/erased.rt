//! The elements at up to three erasures by the generator of BIP-173: elimination in the remainders
//! of the powers of x, each of them packed in 30 bits.

ghost use Rattle.std.specs.Prelude.{◌≡◌, ◌<◌, ◌/◌, ◌^◌, get_or, length, MatchOption, ⊤};
ghost use Rattle.bech32_gf.specs.Fe32 as fe32;
ghost use Rattle.bech32_gf.specs.declared.gf32.Fe32.{Fe32 as Element};
ghost use Rattle.bech32_poly.specs.Polynomial.{add, scale};
ghost use Rattle.bech32_checksum.specs.Code.{bech32};
ghost use Rattle.bech32_checksum.specs.Lookup.{MatchLookup};
ghost use Rattle.bech32_checksum.specs.OneError.{AreOnlyValues, IsPivotOf, packed};
ghost use Rattle.bech32_checksum.specs.Packed.{digits};

use super::ones::{inverse_of, product_value};
use super::powers::POWERS_OF_X;
use crate::Lookup;
use bech32_gf::gf32::Fe32;

// The coefficient of a packed row that begins at a bit.
#[inline]
fn coefficient_at(row: u32, bit: u32) -> Fe32
    requires { bit < 32 }
    ensures { result ≡ fe32.element (row / 2 ^ bit) }
{
    Fe32::from_low_bits(((row >> bit) % 32) as u8)
}

// The product of two elements, by a table.
#[inline]
pub(super) fn product(a: Fe32, b: Fe32) -> Fe32
    ensures { result ≡ fe32.mul a b }
{
    Fe32::from_low_bits(product_value(a, b) as u8)
}

// A packed row, each coefficient times a factor.
#[inline]
pub(super) fn multiple_of(row: u32, factor: Fe32) -> u32
    ensures { result ≡ packed (scale fe32.ops factor (digits 6 row)) }
{
    let fifth = product_value(factor, coefficient_at(row, 20))
        + 32 * product_value(factor, coefficient_at(row, 25));
    let third = product_value(factor, coefficient_at(row, 10))
        + 32 * (product_value(factor, coefficient_at(row, 15)) + 32 * fifth);
    product_value(factor, coefficient_at(row, 0))
        + 32 * (product_value(factor, coefficient_at(row, 5)) + 32 * third)
}

// Where the lowest coefficient of a packed row that is not zero begins, and the inverse of that
// coefficient; none of a row of zeros.
#[inline]
fn pivot_of(row: u32) -> Option<(u32, Fe32)>
    ensures { MatchOption result ⊤ (λ pivot. IsPivotOf row pivot.0 pivot.1) }
{
    let place = row.trailing_zeros() / 5;
    if place >= 6 {
        return None;
    }
    let lowest = coefficient_at(row, 5 * place);
    if lowest == Fe32::Q {
        return None;
    }
    Some((5 * place, inverse_of(lowest)))
}

// By what the row of a pivot has to be multiplied to have another row's coefficient there.
#[inline]
fn factor_of(row: u32, pivot: (u32, Fe32)) -> Fe32
    requires { pivot.0 < 32 }
    ensures { result ≡ fe32.mul (fe32.element (row / 2 ^ pivot.0)) pivot.1 }
{
    product(coefficient_at(row, pivot.0), pivot.1)
}

// The value by which a row has to be multiplied to be the residue. There is no table for a row of
// zeros.
#[inline]
pub(super) fn value_at_one(residue: u32, row: u32) -> Lookup<Fe32>
    requires { residue < 2 ^ 30 }
    ensures { MatchLookup result
        ((v : Element) → digits 6 residue ≡ scale fe32.ops v (digits 6 row) → ⊥)
        (λ value. digits 6 residue ≡ scale fe32.ops value (digits 6 row)) }
{
    let Some(pivot) = pivot_of(row) else {
        return Lookup::NoTable;
    };
    let value = factor_of(residue, pivot);
    if multiple_of(row, value) != residue {
        return Lookup::Absent;
    }
    Lookup::Found(value)
}

// The values by which two rows have to be multiplied for their sum to be the residue. A multiple of
// the second one is taken from the residue and from the first one, so that they have no coefficient
// at its pivot. There is no table for rows of which one is a multiple of the other.
#[inline]
fn values_at_two(residue: u32, first: u32, second: u32) -> Lookup<(Fe32, Fe32)>
    requires { residue < 2 ^ 30 }
    ensures { MatchLookup result
        ((v w : Element) → digits 6 residue
        ≡ add fe32.ops (scale fe32.ops v (digits 6 first))
        (scale fe32.ops w (digits 6 second)) → ⊥)
        (λ values. digits 6 residue
        ≡ add fe32.ops (scale fe32.ops values.0 (digits 6 first))
        (scale fe32.ops values.1 (digits 6 second))) }
{
    let Some(pivot) = pivot_of(second) else {
        return Lookup::NoTable;
    };
    let of_residue = factor_of(residue, pivot);
    let of_first = factor_of(first, pivot);
    match value_at_one(
        residue ^ multiple_of(second, of_residue),
        first ^ multiple_of(second, of_first),
    ) {
        Lookup::Found(value) => Lookup::Found((value, product(value, of_first) + of_residue)),
        Lookup::Absent => Lookup::Absent,
        Lookup::NoTable => Lookup::NoTable,
    }
}

// The values for three rows, found with the third one's pivot.
#[inline]
fn values_at_three(residue: u32, first: u32, second: u32, third: u32) -> Lookup<(Fe32, Fe32, Fe32)>
    requires { residue < 2 ^ 30 }
    ensures { MatchLookup result
        ((v w u : Element) → digits 6 residue
        ≡ add fe32.ops (scale fe32.ops v (digits 6 first))
        (add fe32.ops (scale fe32.ops w (digits 6 second))
        (scale fe32.ops u (digits 6 third))) → ⊥)
        (λ values. digits 6 residue
        ≡ add fe32.ops (scale fe32.ops values.0 (digits 6 first))
        (add fe32.ops (scale fe32.ops values.1 (digits 6 second))
        (scale fe32.ops values.2 (digits 6 third)))) }
{
    let Some(pivot) = pivot_of(third) else {
        return Lookup::NoTable;
    };
    let of_residue = factor_of(residue, pivot);
    let of_first = factor_of(first, pivot);
    let of_second = factor_of(second, pivot);
    let values = match values_at_two(
        residue ^ multiple_of(third, of_residue),
        first ^ multiple_of(third, of_first),
        second ^ multiple_of(third, of_second),
    ) {
        Lookup::Found(values) => values,
        Lookup::Absent => return Lookup::Absent,
        Lookup::NoTable => return Lookup::NoTable,
    };
    let from_second = product(values.1, of_second) + of_residue;
    Lookup::Found((
        values.0,
        values.1,
        product(values.0, of_first) + from_second,
    ))
}

// The packed remainder of x to the power of a location.
#[inline]
fn row_at(location: usize) -> Option<u32>
    ensures { MatchOption result ⊤
        (λ row. (location < 1023) × (row ≡ get_or POWERS_OF_X location 0)) }
{
    if location >= 1023 {
        return None;
    }
    Some(POWERS_OF_X[location])
}

// Six elements packed, the first one lowest.
#[inline]
pub(super) fn packed_list(list: &[Fe32]) -> u32
    requires { length list.now ≡ 6 }
    ensures { result ≡ packed list.now }
{
    let fifth = list[4].to_u8() as u32 + 32 * list[5].to_u8() as u32;
    let third = list[2].to_u8() as u32 + 32 * (list[3].to_u8() as u32 + 32 * fifth);
    list[0].to_u8() as u32 + 32 * (list[1].to_u8() as u32 + 32 * third)
}

// The element at one location that leaves a residue, and two zeros.
#[inline]
fn value_by_row(residue: &[Fe32], locations: &[usize]) -> Lookup<[Fe32; 3]>
    requires six { length residue.now ≡ 6 }
    requires one { length locations.now ≡ 1 }
    ensures { AreOnlyValues bech32.generator residue.now locations.now result }
{
    let Some(first) = row_at(locations[0]) else {
        return Lookup::NoTable;
    };
    match value_at_one(packed_list(residue), first) {
        Lookup::Found(value) => Lookup::Found([value, Fe32::Q, Fe32::Q]),
        Lookup::Absent => Lookup::Absent,
        Lookup::NoTable => Lookup::NoTable,
    }
}

// The elements at two locations that together leave a residue, and a zero.
#[inline]
fn values_by_two_rows(residue: &[Fe32], locations: &[usize]) -> Lookup<[Fe32; 3]>
    requires six { length residue.now ≡ 6 }
    requires two { length locations.now ≡ 2 }
    ensures { AreOnlyValues bech32.generator residue.now locations.now result }
{
    let Some(first) = row_at(locations[0]) else {
        return Lookup::NoTable;
    };
    let Some(second) = row_at(locations[1]) else {
        return Lookup::NoTable;
    };
    match values_at_two(packed_list(residue), first, second) {
        Lookup::Found(values) => Lookup::Found([values.0, values.1, Fe32::Q]),
        Lookup::Absent => Lookup::Absent,
        Lookup::NoTable => Lookup::NoTable,
    }
}

// The elements at three locations that together leave a residue.
#[inline]
fn values_by_three_rows(residue: &[Fe32], locations: &[usize]) -> Lookup<[Fe32; 3]>
    requires six { length residue.now ≡ 6 }
    requires three { length locations.now ≡ 3 }
    ensures { AreOnlyValues bech32.generator residue.now locations.now result }
{
    let Some(first) = row_at(locations[0]) else {
        return Lookup::NoTable;
    };
    let Some(second) = row_at(locations[1]) else {
        return Lookup::NoTable;
    };
    let Some(third) = row_at(locations[2]) else {
        return Lookup::NoTable;
    };
    match values_at_three(packed_list(residue), first, second, third) {
        Lookup::Found(values) => Lookup::Found([values.0, values.1, values.2]),
        Lookup::Absent => Lookup::Absent,
        Lookup::NoTable => Lookup::NoTable,
    }
}

// The elements at up to three locations that together leave a residue. There is no table for a
// residue that has not six elements.
#[inline]
pub(super) fn values_by_rows(residue: &[Fe32], locations: &[usize]) -> Lookup<[Fe32; 3]>
    ensures { AreOnlyValues bech32.generator residue.now locations.now result }
{
    if residue.len() != 6 {
        return Lookup::NoTable;
    }
    match locations.len() {
        1 => value_by_row(residue, locations),
        2 => values_by_two_rows(residue, locations),
        3 => values_by_three_rows(residue, locations),
        _ => Lookup::NoTable,
    }
}
