//! The remainders of two elements at x^6, x^8, x^10 and x^12, packed, by the generator of BIP-173.

use super::remainders::remainders;

// These are one table: a loop that reads all of them has one address.
pub(super) const TWOS: [[u32; 1024]; 4] = [
    remainders!(6, 7),
    remainders!(8, 9),
    remainders!(10, 11),
    remainders!(12, 13),
];
