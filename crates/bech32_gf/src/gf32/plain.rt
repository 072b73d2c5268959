//! The product in GF(32) without tables: slower than `*`, and close to its definition
//! (BIP-173, section Checksum design).

ghost use Rattle.std.specs.Prelude.{◌≡◌};
ghost use Rattle.bech32_gf.specs.Fe32.{mul, generator};

use super::Fe32;

// The modulus x^5 + x^3 + 1, with a bit for each power of x.
const MODULUS: u8 = 41;

// The product of an element and 2, which stands for x.
fn doubled(a: Fe32) -> Fe32
    ensures { result ≡ mul a generator }
{
    let twice = a.value * 2;
    Fe32 {
        value: if twice < 32 { twice } else { twice ^ MODULUS },
    }
}

/// The product of two elements, equal to `a * b`: the sum of `a` times x^i for each set bit i of
/// `b`.
///
/// `a` is multiplied by x once for each bit, and reduced modulo x^5 + x^3 + 1 each time.
pub fn product(a: Fe32, b: Fe32) -> Fe32
    ensures { result ≡ mul a b }
{
    let mut sum = Fe32::Q;
    let mut shifted = a;
    for i in 0..5u32 {
        if b.value >> i & 1 == 1 {
            sum += shifted;
        }
        shifted = doubled(shifted);
    }
    sum
}
