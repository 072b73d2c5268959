//! The elements of a data part, and the bytes that they stand for, one at a time.

ghost use Rattle.std.specs.Prelude.{◌≡◌, ◌≤◌, ◌<◌, ◌^◌, ℕ, true, length};
ghost use Rattle.bech32_bits.specs.Bits.{to_bytes};
ghost use Rattle.bech32_checksum.specs.Code.{IsResidueOf, bech32m};
ghost use Rattle.bech32_checksum.specs.TextPolynomial.{text_polynomial};
ghost use Rattle.bech32_encode.specs.Buffers.{IsPut};
ghost use Rattle.bech32_gf.specs.Alphabet.{is_data};
ghost use Rattle.bech32_gf.specs.Fe32.{elements_of};

use crate::bytes::put_byte;
use bech32_checksum::{Bech32m, Engine};
use bech32_gf::gf32::Fe32;

/// The remainder of a text's polynomial, packed.
#[inline(never)]
pub(crate) fn residue_of(part: &[u8], data_part: &[u8]) -> u32
    requires { is_data data_part.now ≡ true }
    ensures residue { IsResidueOf (λ (n : ℕ). n) bech32m result
        (text_polynomial part.now (elements_of data_part.now)) }
    ensures clear { result < 2 ^ 30 }
{
    let mut engine = Engine::<Bech32m>::new();
    engine.input_part(part);
    for c in data_part {
        engine.input_fe(Fe32::from_char_unchecked(*c));
    }
    *engine.residue()
}

/// Puts the bytes of the elements of characters, in either case, at the front of a buffer that has
/// room for them, and returns how many they are; a last part shorter than eight bits is dropped.
#[inline(never)]
pub(crate) fn put_bytes(characters: &[u8], buffer: &mut [u8]) -> usize
    requires data { is_data characters.now ≡ true }
    requires room { length (to_bytes (elements_of characters.now)) ≤ length buffer.old }
    ensures { IsPut (to_bytes (elements_of characters.now)) buffer.old buffer.new result }
{
    let mut count = 0;
    // How many bits are not put yet: the lowest of `held`.
    let mut left = 0u32;
    let mut held = 0;
    for c in characters {
        let element = Fe32::from_char_unchecked(*c).to_u8() as u32;
        let bits = held * 32 + element;
        if left < 3 {
            left += 5;
            held = bits;
            continue;
        }
        left -= 3;
        held = element;
        count = put_byte(((bits >> left) % 256) as u8, count, buffer);
    }
    count
}
