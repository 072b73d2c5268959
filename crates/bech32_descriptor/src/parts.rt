//! What each byte adds to the word of three characters: its place in its group, and its share of
//! the number that the groups make.

use crate::alphabet::with_places;

// The place of each byte in its group, so many bits higher, and the number of its group times a
// weight.
macro_rules! parts {
    (($bits:literal, $weight:literal) $($place:literal),*) => {
        [$($place % 32 << $bits | $place / 32 * $weight),*]
    };
}

// What a byte adds as the first of three, as the second and as the third.
pub(crate) const FIRSTS: [u32; 256] = with_places!(parts(15, 9));

pub(crate) const SECONDS: [u32; 256] = with_places!(parts(10, 3));

pub(crate) const THIRDS: [u32; 256] = with_places!(parts(5, 1));
