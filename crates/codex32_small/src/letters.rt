//! Characters of the alphabet as they are put.

ghost use Rattle.std.specs.Prelude.{◌≡◌, true, length, map};
ghost use Rattle.bech32_bits.specs.Bits.{to_fes};
ghost use Rattle.bech32_checksum.specs.Encoded.{char_of_element};
ghost use Rattle.bech32_gf.specs.Alphabet.{is_data, is_of_alphabet};
ghost use Rattle.bech32_gf.specs.Fe32.{element_of, elements_of};

use bech32_bits::ByteIterExt;
use codex32_steady::character_of;

/// A character of the alphabet in lower case.
pub(crate) fn in_lower_case(c: u8) -> u8
    requires { is_of_alphabet c ≡ true }
    ensures { result ≡ char_of_element (element_of c) }
{
    c | 32
}

/// Puts characters of the alphabet in lower case.
pub(crate) fn put_characters(target: &mut [u8], characters: &[u8])
    requires size { length target.old ≡ length characters.now }
    requires of_alphabet { is_data characters.now ≡ true }
    ensures { target.new ≡ map char_of_element (elements_of characters.now) }
{
    for i in 0..characters.len() {
        target[i] = in_lower_case(characters[i]);
    }
}

/// Puts the characters of the elements of bytes.
pub(crate) fn put_bytes(target: &mut [u8], bytes: &[u8])
    requires { length target.old ≡ length (to_fes bytes.now) }
    ensures { target.new ≡ map char_of_element (to_fes bytes.now) }
{
    let mut count = 0;
    for element in bytes.iter().copied().bytes_to_fes() {
        target[count] = character_of(element);
        count += 1;
    }
}
