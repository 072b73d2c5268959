//! The bytes of a payload, of whose characters nothing can be told.

ghost use Rattle.std.specs.Prelude.{◌≡◌, ◌≤◌, ◌++◌, true, length, drop};
ghost use Rattle.bech32_bits.specs.Bits.{to_bytes};
ghost use Rattle.bech32_gf.specs.Alphabet.{is_data};
ghost use Rattle.bech32_gf.specs.Fe32.{elements_of};

use crate::put_elements;
use bech32_encode::Fe32IterExt;
use bech32_gf::gf32::Fe32;

// The most characters of a payload: those of 64 bytes.
const MOST: usize = 103;

// Puts the bytes of elements at the front of a buffer that has room for them, and returns how many
// they are.
fn put_bytes(elements: &[Fe32], buffer: &mut [u8]) -> usize
    requires { length (to_bytes elements.now) ≤ length buffer.old }
    ensures count { result ≡ length (to_bytes elements.now) }
    ensures buffer { buffer.new ≡ to_bytes elements.now ++ drop result buffer.old }
{
    let mut count = 0;
    for byte in elements.iter().copied().fes_to_bytes() {
        buffer[count] = byte;
        count += 1;
    }
    count
}

/// Puts the bytes of the elements of characters, in either case, at the front of a buffer that has
/// room for them, and returns how many they are; a last part shorter than eight bits is dropped.
pub fn put_payload_bytes(characters: &[u8], buffer: &mut [u8]) -> usize
    requires data { is_data characters.now ≡ true }
    requires few { length characters.now ≤ 103 }
    requires room { length (to_bytes (elements_of characters.now)) ≤ length buffer.old }
    ensures count { result ≡ length (to_bytes (elements_of characters.now)) }
    ensures buffer { buffer.new ≡ to_bytes (elements_of characters.now) ++ drop result buffer.old }
{
    let mut room = [Fe32::Q; MOST];
    let elements = &mut room[..characters.len()];
    put_elements(elements, characters);
    put_bytes(elements, buffer)
}
