//! One error beside an element at a known location, by the generator of BIP-173. The generator has
//! three roots in the field of 1,024 elements, and the values of the residue there, its syndromes,
//! tell where alone the error may stand.

ghost use Rattle.std.specs.Prelude.{◌≡◌, ◌<◌, ◌≤◌, ◌+◌, ◌%◌, ◌∷◌, ℕ, [], length};
ghost use Rattle.bech32_gf.specs.Fe32.{value};
ghost use Rattle.bech32_gf.specs.Field.{power};
ghost use Rattle.bech32_gf.specs.declared.gf32.Fe32.{Fe32 as Element};
ghost use Rattle.bech32_gf_ext.specs.Fe1024 as fe1024;
ghost use Rattle.bech32_checksum.specs.Code.{bech32};
ghost use Rattle.bech32_checksum.specs.Lookup.{MatchLookup};
ghost use Rattle.bech32_checksum.specs.OneError.{IsBeside, IsLeftBy};
ghost use Rattle.bech32_checksum.specs.Syndromes.{error_sum, pair_at, sum_beside, syndrome};
ghost use Rattle.bech32_checksum.specs.laws.RootLaws.{base};

use super::erased::{multiple_of, packed_list, value_at_one};
use super::logarithms::{LOGARITHMS, POWERS};
use super::powers::POWERS_OF_X;
use super::syndromes::SYNDROMES;
use crate::Lookup;
use bech32_gf::gf32::Fe32;

// What an element at a place of a residue adds to the syndromes.
#[inline]
fn syndromes_at(place: usize, element: Fe32) -> u32
    requires { place < 6 }
    ensures { (j : ℕ) → j < 3 → pair_at result j ≡ fe1024.mul (fe1024.embed element)
        (power fe1024.ops (power fe1024.ops base (24 + j)) place) }
{
    SYNDROMES[32 * place + element.to_u8() as usize]
}

// The syndromes of a residue, ten bits each.
#[inline]
fn syndromes_of(residue: &[Fe32]) -> u32
    requires { length residue.now ≡ 6 }
    ensures { (j : ℕ) → j < 3 → pair_at result j ≡ syndrome residue.now j }
{
    let last = syndromes_at(4, residue[4]) ^ syndromes_at(5, residue[5]);
    let upper = syndromes_at(2, residue[2]) ^ (syndromes_at(3, residue[3]) ^ last);
    syndromes_at(0, residue[0]) ^ (syndromes_at(1, residue[1]) ^ upper)
}

// The remainder by the order of the base of a number below twice that.
#[inline]
fn around(exponent: usize) -> usize
    requires { exponent < 2046 }
    ensures { result ≡ exponent % 1023 }
{
    if exponent < 1023 {
        return exponent;
    }
    exponent - 1023
}

// An element of the field of 1,024 times a power of the base.
#[inline]
fn times_power(element: u32, exponent: usize) -> u32
    requires element { element < 1024 }
    requires exponent { exponent < 1023 }
    ensures below { result < 1024 }
    ensures product { pair_at result 0
        ≡ fe1024.mul (pair_at element 0) (power fe1024.ops base exponent) }
{
    if element == 0 {
        return 0;
    }
    POWERS[around(LOGARITHMS[element as usize] as usize + exponent)] as u32
}

// The sums of a syndrome and the one before it times a power of the base, of the second syndrome
// and of the third one: what an element at that location adds to the residue is not in them.
#[inline]
fn sums_beside(residue: &[Fe32], location: usize) -> (u32, u32)
    requires six { length residue.now ≡ 6 }
    requires small { location < 1023 }
    ensures below { (result.0 < 1024) × (result.1 < 1024) }
    ensures lower { pair_at result.0 0 ≡ sum_beside residue.now location 0 }
    ensures upper { pair_at result.1 0 ≡ sum_beside residue.now location 1 }
{
    let all = syndromes_of(residue);
    let (first, second, third) = (all % 1024, all / 1024 % 1024, all / 0x10_0000 % 1024);
    (
        second ^ times_power(first, location),
        third ^ times_power(second, location),
    )
}

// The number of the element that an error has to be at another location than that of the element
// beside it, where it leaves the lower sum.
#[inline]
fn value_beside(lower: u32, location: usize, other: usize) -> u32
    requires some { 0 < lower }
    requires lower { lower < 1024 }
    requires location { location < 1023 }
    requires other { other < 1023 }
    ensures { (w : Element) → pair_at lower 0 ≡ error_sum w location other → result ≡ value w }
{
    let apart = POWERS[location] ^ POWERS[other];
    let above = LOGARITHMS[lower as usize] as usize + 1023 - LOGARITHMS[apart as usize] as usize;
    POWERS[(above + 24 * (1023 - other)) % 1023] as u32
}

// The error below a window that alone may stand beside an element at a location. There is no table
// for a residue that the element alone may leave.
#[inline]
fn error_beside(residue: &[Fe32], location: usize, window: usize) -> Lookup<(usize, Fe32)>
    requires six { length residue.now ≡ 6 }
    requires small { location < 1023 }
    requires within { window ≤ 1023 }
    ensures { MatchLookup result
        ((v : Element) (i : ℕ) (w : Element) → i < window
        → IsLeftBy bech32.generator residue.now ((location, v) ∷ (i, w) ∷ []) → ⊥)
        (λ error. ((v : Element) (i : ℕ) (w : Element) → i < window
        → IsLeftBy bech32.generator residue.now ((location, v) ∷ (i, w) ∷ [])
        → (error.0 ≡ i) × (error.1 ≡ w))
        × (error.0 < window)) }
{
    let (lower, upper) = sums_beside(residue, location);
    if lower == 0 && upper == 0 {
        return Lookup::NoTable;
    }
    if lower == 0 || upper == 0 {
        return Lookup::Absent;
    }
    let (from, to) = (LOGARITHMS[lower as usize], LOGARITHMS[upper as usize]);
    let other = around(to as usize + 1023 - from as usize);
    if other >= window {
        return Lookup::Absent;
    }
    let value = value_beside(lower, location, other);
    if value >= 32 {
        return Lookup::Absent;
    }
    Lookup::Found((other, Fe32::from_low_bits(value as u8)))
}

// The element at a location that leaves a residue together with an error. Out of line: few texts
// come here.
#[inline(never)]
fn element_beside(residue: &[Fe32], location: usize, error: (usize, Fe32)) -> Lookup<Fe32>
    requires six { length residue.now ≡ 6 }
    requires small { location < 1023 }
    requires error { error.0 < 1023 }
    ensures { MatchLookup result
        ((v : Element)
        → IsLeftBy bech32.generator residue.now ((location, v) ∷ error ∷ []) → ⊥)
        (λ v. IsLeftBy bech32.generator residue.now ((location, v) ∷ error ∷ [])) }
{
    let row = multiple_of(POWERS_OF_X[error.0], error.1);
    value_at_one(packed_list(residue) ^ row, POWERS_OF_X[location])
}

// The element at a location and the error below a window that together leave a residue. There is no
// table for a residue that the element alone may leave, nor for one that has not six elements. Out
// of line: few texts come here.
#[inline(never)]
pub(super) fn one_beside_by_rows(
    residue: &[Fe32],
    location: usize,
    window: usize,
) -> Lookup<(Fe32, (usize, Fe32))>
    ensures { IsBeside bech32.generator window residue.now location result }
{
    if residue.len() != 6 || window > 1023 || location >= 1023 {
        return Lookup::NoTable;
    }
    let error = match error_beside(residue, location, window) {
        Lookup::Found(error) => error,
        Lookup::Absent => return Lookup::Absent,
        Lookup::NoTable => return Lookup::NoTable,
    };
    match element_beside(residue, location, error) {
        Lookup::Found(element) => Lookup::Found((element, error)),
        Lookup::Absent => Lookup::Absent,
        Lookup::NoTable => Lookup::NoTable,
    }
}
