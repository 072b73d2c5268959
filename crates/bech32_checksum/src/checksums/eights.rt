//! Eight elements at once, by the generator of BIP-173.

ghost use Rattle.std.specs.Prelude.{◌≡◌, ◌<◌, ◌^◌, ◌∷◌, [], map, ℕ};
ghost use Rattle.bech32_gf.specs.Fe32.{value};
ghost use Rattle.bech32_checksum.specs.Packed.{number_of_digits};
ghost use Rattle.bech32_checksum.specs.Code.{bech32, IsResidueAfter};

use super::products::PRODUCTS;
use super::remainders::remainders;
use bech32_gf::gf32::Fe32;

// The remainders of x^7 to x^13 times each element, packed.
const TIMES_X7: [u32; 32] = remainders!(7);

const TIMES_X8: [u32; 32] = remainders!(8);

const TIMES_X9: [u32; 32] = remainders!(9);

const TIMES_X10: [u32; 32] = remainders!(10);

const TIMES_X11: [u32; 32] = remainders!(11);

const TIMES_X12: [u32; 32] = remainders!(12);

const TIMES_X13: [u32; 32] = remainders!(13);

// The row of six elements, the first the highest.
#[inline]
fn row_of(a: Fe32, b: Fe32, c: Fe32, d: Fe32, e: Fe32, f: Fe32) -> u32
    ensures { result ≡ number_of_digits (map value (a ∷ b ∷ c ∷ d ∷ e ∷ f ∷ [])) }
{
    let high = (u32::from(a.to_u8()) * 32 + u32::from(b.to_u8())) * 32 + u32::from(c.to_u8());
    let low = (u32::from(d.to_u8()) * 32 + u32::from(e.to_u8())) * 32 + u32::from(f.to_u8());
    high * 0x8000 + low
}

// The remainder after eight more elements. It is a sum: each coefficient of the remainder before is
// eight places higher, so that it has a table, as have the first two elements; the other six are a
// row as they are. PRODUCTS has the remainders of x^6 times each element.
#[inline]
pub(super) fn after_eight_by_tables(residue: u32, elements: [Fe32; 8]) -> u32
    requires { residue < 2 ^ 30 }
    ensures clear { result < 2 ^ 30 }
    ensures after { IsResidueAfter (λ (n : ℕ). n) bech32 residue elements result }
{
    let [a, b, c, d, e, f, g, h] = elements;
    TIMES_X13[(residue >> 25) as usize]
        ^ TIMES_X12[(residue >> 20) as usize % 32]
        ^ TIMES_X11[(residue >> 15) as usize % 32]
        ^ TIMES_X10[(residue >> 10) as usize % 32]
        ^ TIMES_X9[(residue >> 5) as usize % 32]
        ^ TIMES_X8[residue as usize % 32]
        ^ TIMES_X7[a.to_u8() as usize]
        ^ PRODUCTS[b.to_u8() as usize]
        ^ row_of(c, d, e, f, g, h)
}
