//! Products of which one factor is secret.

ghost use Rattle.std.specs.Prelude.{◌≡◌};
ghost use Rattle.bech32_gf.specs.Fe32.{mul};

use bech32_checksum::sums;
use bech32_gf::gf32::Fe32;

// For each element its products with the first five powers of x, six bits for each, the lowest
// first. Those of a sum are the sums, so the rows of 1, 2, 4, 8 and 16 make all.
const ROWS: [u32; 32] = sums!(
    0x1020_4081,
    0x0940_8102,
    0x1225_0204,
    0x0d48_9408,
    0x1a35_2250
);

/// The product of an element, of which all can be told, and another, of which nothing can: no
/// branch and no address depends on it.
#[inline(never)]
pub(crate) fn product(a: Fe32, b: Fe32) -> Fe32
    ensures { result ≡ mul a b }
{
    // Five bits are set at the place of each power of x that b has.
    let masks = (u32::from(b.to_u8()) * 0x0010_8421 & 0x0104_1041) * 31;
    let chosen = ROWS[a.to_u8() as usize] & masks;
    let sum = chosen ^ chosen >> 6 ^ chosen >> 12 ^ chosen >> 18 ^ chosen >> 24;
    Fe32::from_low_bits((sum & 31) as u8)
}
