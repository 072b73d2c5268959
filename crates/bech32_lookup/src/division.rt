//! Remainders of listed patterns, by the checksum's own engine.

ghost use Rattle.std.specs.Prelude.{◌≡◌, ◌≤◌, ◌<◌, ◌↔◌, ℕ, length, IsTrue, MatchOption, ⊤};
ghost use Rattle.bech32_checksum.specs.Code.{IsResidueOf};
ghost use Rattle.bech32_checksum.specs.Packed.{HasDigits, digit_of};
ghost use Rattle.bech32_lookup.specs.TakenOff.{IsTakenOff};
ghost use Rattle.bech32_gf.specs.Fe32 as fe32;
ghost use Rattle.bech32_poly.specs.Pattern.{pattern_polynomial};
ghost use Rattle.bech32_poly.specs.Polynomial.{IsSamePolynomial, coefficient};

use bech32_bch::{highest_location, value_at_location};
use bech32_checksum::{Checksum, Engine, PackedFe32};
use bech32_gf::gf32::Fe32;
use bech32_refusals::MAX_DEGREE;

/// An engine that was given the polynomial of a listed pattern, from its highest location down.
pub fn listed_engine<Ck: Checksum>(listing: &[(usize, Fe32)]) -> Engine<Ck>
    ensures { IsResidueOf Ck.MidstateRepr.number Ck.code result
        (pattern_polynomial fe32.ops listing.now) }
{
    let mut engine = Engine::<Ck>::zero();
    let mut location = highest_location(listing);
    engine.input_fe(value_at_location(listing, location));
    while location > 0 {
        location -= 1;
        engine.input_fe(value_at_location(listing, location));
    }
    engine
}

/// The coefficient that a packed row has at a place.
pub(crate) fn packed_coefficient<R: PackedFe32>(row: &R, place: usize) -> Fe32
    requires { HasDigits R.WIDTH (R.number row.now) }
    ensures { result ≡ digit_of (R.number row.now) place }
{
    if place >= R::WIDTH {
        return Fe32::Q;
    }
    Fe32::from_low_bits(row.unpack(place))
}

/// The coefficient that a list has at a place.
pub(crate) fn listed_coefficient(list: &[Fe32], place: usize) -> Fe32
    ensures { result ≡ coefficient fe32.ops list.now place }
{
    if place < list.len() {
        list[place]
    } else {
        Fe32::Q
    }
}

/// Whether all coefficients of a list from a place on are zero. Each is looked at, so that many can
/// be at a time.
#[inline]
pub(crate) fn ends_at(list: &[Fe32], end: usize) -> bool
    ensures { IsTrue result
        ↔ ((n : ℕ) → end ≤ n → coefficient fe32.ops list.now n ≡ fe32.zero) }
{
    let mut zero = true;
    for place in end..list.len() {
        zero &= list[place] == Fe32::Q;
    }
    zero
}

/// The first coefficients of an error residue, as many as the checksum has characters, where all
/// behind them are zero.
#[inline]
pub(crate) fn trimmed(residue: &[Fe32], size: usize) -> Option<&[Fe32]>
    ensures { MatchOption result ⊤ (λ list. IsSamePolynomial fe32.ops list.now residue.now) }
{
    if residue.len() < size || !ends_at(residue, size) {
        return None;
    }
    Some(&residue[..size])
}

/// Whether a packed row has the coefficients of a list.
pub fn row_equals<R: PackedFe32>(row: &R, list: &[Fe32]) -> bool
    requires { HasDigits R.WIDTH (R.number row.now) }
    ensures { IsTrue result
        ↔ ((n : ℕ) → digit_of (R.number row.now) n ≡ coefficient fe32.ops list.now n) }
{
    let size = R::WIDTH.max(list.len());
    for place in 0..size {
        if packed_coefficient(row, place) != listed_coefficient(list, place) {
            return false;
        }
    }
    true
}

/// What is left of an error residue where one error is taken off; an element is its own negative.
pub fn residue_after_removing<Ck: Checksum>(
    residue: &[Fe32],
    error: (usize, Fe32),
) -> [Fe32; MAX_DEGREE]
    requires { length residue.now ≤ 25 }
    ensures { IsTakenOff fe32.ops Ck.code.generator residue.now error result }
{
    let engine = listed_engine::<Ck>(&[error]);
    let row = engine.residue();
    let mut left = [Fe32::Q; MAX_DEGREE];
    for place in 0..MAX_DEGREE {
        left[place] = listed_coefficient(residue, place) + packed_coefficient(row, place);
    }
    left
}
