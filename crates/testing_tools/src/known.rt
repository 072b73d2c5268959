//! Values that several tests use.

use bech32_gf::gf32::Fe32;

/// The constants of `Fe32`, in order of their values.
pub const ELEMENTS: [Fe32; 32] = [
    Fe32::Q,
    Fe32::P,
    Fe32::Z,
    Fe32::R,
    Fe32::Y,
    Fe32::_9,
    Fe32::X,
    Fe32::_8,
    Fe32::G,
    Fe32::F,
    Fe32::_2,
    Fe32::T,
    Fe32::V,
    Fe32::D,
    Fe32::W,
    Fe32::_0,
    Fe32::S,
    Fe32::_3,
    Fe32::J,
    Fe32::N,
    Fe32::_5,
    Fe32::_4,
    Fe32::K,
    Fe32::H,
    Fe32::C,
    Fe32::E,
    Fe32::_6,
    Fe32::M,
    Fe32::U,
    Fe32::A,
    Fe32::_7,
    Fe32::L,
];

/// A string of codex32 with four errors.
pub const FOUR_ERRORS: &str = "ms1qtestsqxxxxxxxxxxxxxxxxxxxxxxxxq4nzvca9cmczlq";

/// Its listing with the erasures 44 and 0.
pub const FOUR: [(usize, Fe32); 4] = [(44, Fe32::_0), (0, Fe32::W), (38, Fe32::X), (13, Fe32::X)];

/// A string of codex32 whose last eight characters are lost.
pub const EIGHT_ERRORS: &str = "ms10testsxxxxxxxxxxxxxxxxxxxxxxxxxx4nzvcqqqqqqqq";

/// What they were.
pub const EIGHT: [(usize, Fe32); 8] = [
    (0, Fe32::W),
    (1, Fe32::L),
    (2, Fe32::Z),
    (3, Fe32::C),
    (4, Fe32::M),
    (5, Fe32::C),
    (6, Fe32::_9),
    (7, Fe32::A),
];

/// The lower coefficients of the generator of Bech32, and so of x^6, the constant term first: 18,
/// 29, 21, 20, 22, 29 (BIP-173, Checksum).
pub const LOW: [Fe32; 6] = [Fe32::J, Fe32::A, Fe32::_4, Fe32::_5, Fe32::K, Fe32::A];

/// The remainder of x times a polynomial of degree at most 5 by the generator of Bech32.
pub fn times_x(row: &[Fe32; 6]) -> [Fe32; 6] {
    let top = row[5];
    [
        top * LOW[0],
        row[0] + top * LOW[1],
        row[1] + top * LOW[2],
        row[2] + top * LOW[3],
        row[3] + top * LOW[4],
        row[4] + top * LOW[5],
    ]
}
