//! The grammar of texts, by cases (BIP-173, Bech32).

ghost use Rattle.std.specs.Prelude.{◌≡◌, ◌↔◌, ◌<◌, ◌+◌, ◌==◌, IsTrue, length, take, drop, position};
ghost use Rattle.std.specs.List.{list_any, list_all};
ghost use Rattle.bech32_gf.specs.Alphabet.{is_of_alphabet, is_data, alphabet, char_of};
ghost use Rattle.bech32_gf.specs.Fe32.{element_of};
ghost use Rattle.bech32_hrp.specs.Hrp.{is_lower, is_upper, is_graphic, is_mixed_case, IsHrp};
ghost use Rattle.bech32_decode.specs.Text.{IsText};

use bech32_gf::gf32::Fe32;

// The characters of the elements, in order of their values.
const CHARACTERS: &[u8; 32] = b"qpzry9x8gf2tvdw0s3jn54khce6mua7l";

fn has_lower(bytes: &[u8]) -> bool
    ensures { result ≡ list_any is_lower bytes.now }
{
    bytes.iter().any(|b| 97 <= *b && *b <= 122)
}

fn has_upper(bytes: &[u8]) -> bool
    ensures { result ≡ list_any is_upper bytes.now }
{
    bytes.iter().any(|b| 65 <= *b && *b <= 90)
}

// Whether letters of both cases stand among bytes.
fn has_both_cases(bytes: &[u8]) -> bool
    ensures { result ≡ is_mixed_case bytes.now }
{
    has_lower(bytes) && has_upper(bytes)
}

fn has_only_graphic(bytes: &[u8]) -> bool
    ensures { result ≡ list_all is_graphic bytes.now }
{
    bytes.iter().all(|b| 33 <= *b && *b <= 126)
}

// Whether bytes are a human-readable part.
fn is_hrp(bytes: &[u8]) -> bool
    ensures { IsTrue result ↔ IsHrp bytes.now }
{
    1 <= bytes.len() && bytes.len() <= 83 && has_only_graphic(bytes) && !has_both_cases(bytes)
}

// Whether a byte stands among bytes.
fn contains(bytes: &[u8], byte: u8) -> bool
    ensures { result ≡ list_any (λ b. b == byte) bytes.now }
{
    bytes.iter().any(|b| *b == byte)
}

// The first place of a byte among bytes.
fn place_of(bytes: &[u8], byte: u8) -> Option<usize>
    ensures { result ≡ position (λ b. b == byte) bytes.now }
{
    bytes.iter().position(|b| *b == byte)
}

// Whether a byte is a character of the alphabet, in either case.
fn is_character(byte: u8) -> bool
    ensures { result ≡ is_of_alphabet byte }
{
    contains(CHARACTERS, byte.to_ascii_lowercase())
}

// Whether bytes are characters of the alphabet, each in either case.
fn are_characters(bytes: &[u8]) -> bool
    ensures { result ≡ is_data bytes.now }
{
    bytes.iter().all(|b| is_character(*b))
}

// Whether a text is a human-readable part, the separator at this place, and a data part.
pub(crate) fn is_text(text: &[u8], at: usize) -> bool
    requires { at < length text.now }
    ensures { IsTrue result ↔ IsText text.now (take at text.now) (drop (at + 1) text.now) }
{
    text[at] == b'1'
        && is_hrp(&text[..at])
        && are_characters(&text[at + 1..])
        && !has_both_cases(text)
}

// The element of a character, by its place in the alphabet.
pub(crate) fn element_of_character(character: u8) -> Fe32
    ensures { result ≡ element_of character }
{
    let place = place_of(CHARACTERS, character.to_ascii_lowercase());
    Fe32::from_low_bits(place.unwrap_or(0) as u8)
}

// The lower-case character of an element.
pub(crate) fn character_of(element: Fe32) -> u8
    ensures { result ≡ char_of element.value }
{
    CHARACTERS[element.to_u8() as usize]
}
