//! The values of a residue at the roots of the generator of BIP-173.

use crate::sums;

// The values at the powers 24, 25 and 26 of 1 + 6 z, ten bits each, of each element at each place
// of a residue: 32 elements for one place, one place after another.
pub(super) const SYNDROMES: [u32; 192] = sums!(
    0x00100401, 0x00200802, 0x00401004, 0x00802008, 0x01004010;
    0x3c6dbb0c, 0x2acff338, 0x078bc779, 0x0d93affb, 0x19b75aff;
    0x3886ad0a, 0x230d5a14, 0x169e9521, 0x2d29aa42, 0x0ad7d1a4;
    0x2b0e485c, 0x0698b491, 0x0d25e90b, 0x18db7616, 0x31a2cd25;
    0x30a1d244, 0x334305a8, 0x36160b50, 0x3e2c13a9, 0x2e4ca272;
    0x37f78e57, 0x3f7f19a7, 0x2e7ab34e, 0x0ee1e3bc, 0x1dc36671;
);
