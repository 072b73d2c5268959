//! Residues that no mistyped text need leave.

use super::listed::{Listing, corrector_of, is_found};
use crate::tests::compare::same;
use bech32_checksum::{Bech32, Checksum};
use bech32_correction::Corrector;
use bech32_gf::gf32::Fe32;
use bech32_refusals::InvalidResidueError;
use std::alloc::Global;
use std::process::Abort;
use testing_tools::known::times_x;

// The product of the two factors of the generator of Bech32 of which the powers 25 and 26 of the
// base are roots, the constant term first.
const FACTORS: [Fe32; 5] = [Fe32::R, Fe32::Z, Fe32::M, Fe32::_9, Fe32::P];

// The packed row of six elements, that of x^0 lowest.
fn packed(row: &[Fe32; 6]) -> u32 {
    let mut word = 0u32;
    for digit in row.iter().rev() {
        word = (word << 5) | u32::from(digit.to_u8());
    }
    word
}

// The error of a residue of Bech32: what a text leaves beside the target.
fn error_of(residue: u32) -> Option<InvalidResidueError> {
    let actual = residue ^ 1;
    if actual < 1 << 30 {
        Some(InvalidResidueError::new(&actual, &1u32))
    } else {
        None
    }
}

// Whether just this is listed, or nothing is; not if memory runs out.
fn lists<Ck: Checksum>(corrector: &Corrector<Ck>, want: Option<Listing>) -> bool {
    match corrector.bch_errors() {
        Ok(found) => is_found(found, want),
        Err(_) => false,
    }
}

// Whether a corrector, if there is one, lists just this, or nothing.
fn is_listed_by<Ck: Checksum>(found: Option<Corrector<Ck>>, want: Option<Listing>) -> bool {
    match found {
        Some(corrector) => lists(&corrector, want),
        None => false,
    }
}

// Whether Bech32 lists just this for a residue without erasures, or nothing.
fn is_listed(alloc: Global, residue: u32, want: Option<Listing>) -> bool {
    match error_of(residue) {
        Some(error) => is_listed_by(corrector_of::<Bech32, Global>(alloc, &error, None), want),
        None => false,
    }
}

// The product of a + b x and the factors.
fn multiple_of_factors(a: Fe32, b: Fe32) -> [Fe32; 6] {
    let f = FACTORS;
    [
        a * f[0],
        a * f[1] + b * f[0],
        a * f[2] + b * f[1],
        a * f[3] + b * f[2],
        a * f[4] + b * f[3],
        b * f[4],
    ]
}

// How many of the products with a, other than zero, have no listing.
fn unlisted_with(alloc: Global, a: Fe32) -> usize {
    let mut unlisted = 0usize;
    for b in Fe32::iter_alpha() {
        let residue = packed(&multiple_of_factors(a, b));
        if residue != 0 && is_listed(alloc, residue, None) {
            unlisted = unlisted.saturating_add(1);
        }
    }
    unlisted
}

// How many of all products, other than zero, have no listing.
fn unlisted_products(alloc: Global) -> usize {
    let mut unlisted = 0usize;
    for a in Fe32::iter_alpha() {
        unlisted = unlisted.saturating_add(unlisted_with(alloc, a));
    }
    unlisted
}

// The first syndrome is not zero, and the two others are: no pattern of so few errors has them.
fn one_syndrome_of_three(rt: &impl Abort, alloc: Global) {
    same(rt, &unlisted_products(alloc), &1023);
}

// At how many locations from the last a pattern of one error, by long division, is listed as it is.
fn listed_errors(alloc: Global) -> usize {
    let mut power = [Fe32::P, Fe32::Q, Fe32::Q, Fe32::Q, Fe32::Q, Fe32::Q];
    let mut n = 0u8;
    for place in 0..1023usize {
        n = n.wrapping_add(7);
        let value = Fe32::from_low_bits(n % 31 + 1);
        let residue = packed(&power.map(|digit| digit * value));
        if !is_listed(alloc, residue, Some(&[(place, value)])) {
            return place;
        }
        power = times_x(&power);
    }
    1023
}

fn one_error_at_each_location(rt: &impl Abort, alloc: Global) {
    same(rt, &listed_errors(alloc), &1023);
}

// How many residues with these coefficients of x^0 and x^5 alone have no listing.
fn unlisted_pairs(alloc: Global) -> usize {
    let mut unlisted = 0usize;
    for pair in 0..961u32 {
        let residue = (pair % 31 + 1) | ((pair / 31 + 1) << 25);
        if is_listed(alloc, residue, None) {
            unlisted = unlisted.saturating_add(1);
        }
    }
    unlisted
}

// These are the residues of no pattern of one error.
fn two_coefficients(rt: &impl Abort, alloc: Global) {
    same(rt, &unlisted_pairs(alloc), &961);
}

#[test]
fn listings_of_crafted_residues(rt: HostRuntime) {
    one_syndrome_of_three(&rt, rt.alloc());
    one_error_at_each_location(&rt, rt.alloc());
    two_coefficients(&rt, rt.alloc());
}
