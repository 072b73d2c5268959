//! The remainders that single errors leave by Bech32.

use crate::tests::compare::{same, same_items};
use bech32::Fe32;
use testing_tools::known::times_x;

const ONE: [Fe32; 6] = [Fe32::P, Fe32::Q, Fe32::Q, Fe32::Q, Fe32::Q, Fe32::Q];

// Whether the coefficients of x^0 and x^5 alone are not zero.
fn has_two_ends(row: &[Fe32; 6]) -> bool {
    let has_ends = row[0] != Fe32::Q && row[5] != Fe32::Q;
    has_ends && [row[1], row[2], row[3], row[4]] == [Fe32::Q; 4]
}

// A single error at location i leaves a multiple of x^i, so 1023 rows stand for all 31,713 errors.
// None of them has these two coefficients alone: no residue with just these may be listed.
#[test]
fn no_single_error_has_two_ends(rt: HostRuntime) {
    let mut power = ONE;
    for i in 0..1023u32 {
        same(&rt, &(i, has_two_ends(&power)), &(i, false));
        power = times_x(&power);
    }
    // The next row is the first again.
    same_items(&rt, &power, &ONE);
}
