//! Regrouping of whole groups: eight elements are five bytes (BIP-173, Segwit address format).

ghost use Rattle.std.specs.Prelude.{◌≡◌, ◌+◌, ◌*◌, ◌/◌, ◌%◌, ◌^◌, ◌<◌};
ghost use Rattle.bech32_gf.specs.Fe32.{element, value};
ghost use Rattle.bech32_bits.specs.Bits.{to_fes, to_bytes};

use bech32_gf::gf32::Fe32;

// The number of the twenty bits of four elements.
#[inline]
fn word_of_four(a: Fe32, b: Fe32, c: Fe32, d: Fe32) -> u64
    ensures number { result ≡ ((value a * 32 + value b) * 32 + value c) * 32 + value d }
    ensures below { result < 2 ^ 20 }
{
    let front = u64::from(a.to_u8()) * 32 + u64::from(b.to_u8());
    (front * 32 + u64::from(c.to_u8())) * 32 + u64::from(d.to_u8())
}

// The byte of the eight bits that stand above this many lowest bits of a word.
#[inline]
fn byte_in(word: u64, below: u8) -> u8
    requires { below < 64 }
    ensures { result ≡ word / 2 ^ below % 256 }
{
    (word >> below & 255) as u8
}

// The element of the five bits that stand above this many lowest bits of a word.
#[inline]
fn element_in(word: u64, below: u8) -> Fe32
    requires { below < 64 }
    ensures { result ≡ element (word / 2 ^ below) }
{
    Fe32::from_low_bits((word >> below & 31) as u8)
}

/// The five bytes of eight elements: their 40 bits, the first element's highest.
#[inline]
pub fn five_bytes(fes: [Fe32; 8]) -> [u8; 5]
    ensures { result ≡ to_bytes fes }
{
    let [a, b, c, d, e, f, g, h] = fes;
    let word = word_of_four(a, b, c, d) * 0x10_0000 + word_of_four(e, f, g, h);
    [
        byte_in(word, 32),
        byte_in(word, 24),
        byte_in(word, 16),
        byte_in(word, 8),
        byte_in(word, 0),
    ]
}

/// The eight elements of five bytes: their 40 bits, the first byte's highest.
#[inline]
pub fn eight_elements(bytes: [u8; 5]) -> [Fe32; 8]
    ensures { result ≡ to_fes bytes }
{
    let [a, b, c, d, e] = bytes;
    let front = (u64::from(a) * 256 + u64::from(b)) * 256 + u64::from(c);
    let word = (front * 256 + u64::from(d)) * 256 + u64::from(e);
    [
        element_in(word, 35),
        element_in(word, 30),
        element_in(word, 25),
        element_in(word, 20),
        element_in(word, 15),
        element_in(word, 10),
        element_in(word, 5),
        element_in(word, 0),
    ]
}
