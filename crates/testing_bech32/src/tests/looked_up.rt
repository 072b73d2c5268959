//! Corrections that Bech32 and Bech32m look up, at each location.

use crate::tests::compare::same;
use bech32_checksum::{Bech32, Bech32m, Checksum, Engine, Lookup, PackedFe32};
use bech32_gf::gf32::Fe32;
use std::process::Abort;

// The six coefficients of a packed remainder.
fn coefficients(residue: &u32) -> [Fe32; 6] {
    let mut items = [Fe32::Q; 6];
    for place in 0..6 {
        items[place] = Fe32::from_low_bits(residue.unpack(place));
    }
    items
}

// What a value at a location leaves by a checksum.
fn left_by<Ck: Checksum>(location: usize, value: Fe32) -> Ck::MidstateRepr {
    let mut engine = Engine::<Ck>::zero();
    engine.input_fe(value);
    for _ in 0..location {
        engine.input_fe(Fe32::Q);
    }
    *engine.residue()
}

// What a value at a location leaves by Bech32, and so by Bech32m.
fn left(location: usize, value: Fe32) -> u32 {
    left_by::<Bech32>(location, value)
}

// The first location, from the last character, at which an error is not looked up; 1023 for none.
fn first_unknown<Ck: Checksum>() -> usize {
    for location in 0..1023usize {
        let residue = coefficients(&left(location, Fe32::L));
        if Ck::one_error(&residue) != Lookup::Found((location, Fe32::L)) {
            return location;
        }
    }
    1023
}

fn each_location_is_looked_up(rt: &impl Abort) {
    let found = [first_unknown::<Bech32>(), first_unknown::<Bech32m>()];
    same(rt, &found, &[1023; 2]);
}

// Whether an error beside an element is looked up as these are.
fn is_found_beside<Ck: Checksum>(location: usize, other: usize) -> bool {
    let residue = coefficients(&(left(location, Fe32::Z) ^ left(other, Fe32::L)));
    let found = Ck::lookup_error_beside(&residue, location, 1023);
    found == Lookup::Found((Fe32::Z, (other, Fe32::L)))
}

// The first location at which an error beside an element is not looked up: at the next one, and at
// that as far from the other end. 1022 for none.
fn first_unknown_beside<Ck: Checksum>() -> usize {
    for location in 0..1022usize {
        if !is_found_beside::<Ck>(location, location + 1) {
            return location;
        }
        if location < 511 && !is_found_beside::<Ck>(location, 1022 - location) {
            return location;
        }
    }
    1022
}

fn one_error_beside_an_element_is_looked_up(rt: &impl Abort) {
    same(rt, &first_unknown_beside::<Bech32>(), &1022);
}

#[test]
fn errors_are_looked_up(rt: HostRuntime) {
    each_location_is_looked_up(&rt);
    one_error_beside_an_element_is_looked_up(&rt);
}
