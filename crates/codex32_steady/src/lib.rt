//! What codex32 does with secret characters, steadily: no branch and no address depends on them.
//!
//! A table is read at an address that depends on what is looked up, and so it can be told from the
//! time that it takes. Here each value is made of all bits by shifts, masks and sums. Each function
//! has the contract of the plain one of another crate. The test of a byte in `bech32_gf::alphabet`
//! is as steady, and serves here too.
//!
//! What the compiler makes of it is not proved: it is tested in the machine code.
//!
//! `texts` does so with whole texts. `shares` derives texts from texts, whose elements lie on
//! polynomials.
//!
//! Below it: `bech32_decode`, `bech32_encode`.
//! Standard: BIP-173, Bech32 and Checksum; BIP-93.
#![tactic(auto)]

ghost use Rattle.std.specs.Prelude.{◌≡◌, ◌<◌, ◌≤◌, ◌^◌, ◌/◌, ◌%◌, ◌*◌, ◌-◌, bit_and, bit_or, get_or, true, false, length, take, drop, slice_index};
ghost use Rattle.std.specs.List.{list_all};
ghost use Rattle.bech32_gf.specs.Alphabet.{char_of, is_of_alphabet, is_data};
ghost use Rattle.bech32_gf.specs.Fe32.{element_of, elements_of, mul, value};
ghost use Rattle.bech32_hrp.specs.Hrp.{is_graphic, is_mixed_case};
ghost use Rattle.bech32_checksum.specs.Packed.{sum_of_words};
ghost use Rattle.codex32_steady.specs.Masks.{masks_of, repeated_byte};

mod products;
pub mod shares;
pub mod texts;

use crate::products::PRODUCT_BITS;
pub use bech32_gf::alphabet::is_data_byte;
use bech32_gf::gf32::Fe32;

// For each of the five bits of a value, by the keys of characters. Words are read two bits at a
// time, and what is read of them is added up: the second of two bits is that of the next key, for
// which the next word makes up.
const VALUE_BITS: [u64; 5] = [
    0x0015_7172_0319_0000,
    0x059e_c5b9_0049_8000,
    0x0125_fb77_839d_4000,
    0x006d_2fbc_4107_6000,
    0x0011_0549_e175_5000,
];

// For each two bits of an ASCII character, those of the characters of all values, in lower case.
const CHARACTER_BITS: [u64; 4] = [
    0x3567_31af_322b_05a1,
    0xd1d4_a5e0_1545_aa20,
    0xbbba_afaf_fbfa_ffff,
    0x4545_5051_1545_1155,
];

// The two bits from a place of a word on. Of a single bit compilers make the instruction that tests
// one, which memcheck takes for a use of memory.
#[inline]
fn two_bits_of(word: u64, place: u8) -> u8
    requires { place < 64 }
    ensures { result ≡ word / 2 ^ place % 4 }
{
    (word >> place & 3) as u8
}

// A number below 64 that tells the characters of the alphabet apart, but for their cases: the
// lowest five bits, and above them whether it is a letter.
#[inline]
fn key_of(c: u8) -> u8
    ensures value { result ≡ bit_or (bit_and c 31) (bit_and (c / 2) 32) }
    ensures below { result < 64 }
{
    c & 31 | c >> 1 & 32
}

/// The element of a character of the alphabet, in either case.
#[inline(never)]
pub fn element_of_character(c: u8) -> Fe32
    requires { is_of_alphabet c ≡ true }
    ensures { result ≡ element_of c }
{
    let key = key_of(c);
    let low = two_bits_of(VALUE_BITS[0], key)
        + two_bits_of(VALUE_BITS[1], key) * 2
        + two_bits_of(VALUE_BITS[2], key) * 4;
    let high = two_bits_of(VALUE_BITS[3], key) + two_bits_of(VALUE_BITS[4], key) * 2;
    Fe32::from_low_bits(low + high * 8)
}

/// The product of an element, of which all can be told, and that of a character of the alphabet, in
/// either case, of which nothing can.
#[inline(never)]
pub fn multiple_of_character(a: Fe32, c: u8) -> Fe32
    requires { is_of_alphabet c ≡ true }
    ensures { result ≡ mul a (element_of c) }
{
    let row = a.to_u8() as usize * 5;
    let key = key_of(c);
    let low = two_bits_of(PRODUCT_BITS[row], key)
        + two_bits_of(PRODUCT_BITS[row + 1], key) * 2
        + two_bits_of(PRODUCT_BITS[row + 2], key) * 4;
    let high = two_bits_of(PRODUCT_BITS[row + 3], key)
        + two_bits_of(PRODUCT_BITS[row + 4], key) * 2;
    Fe32::from_low_bits(low + high * 8)
}

/// The character of an element, in lower case.
#[inline(never)]
pub fn character_of(x: Fe32) -> u8
    ensures { result ≡ char_of (value x) }
{
    let place = x.to_u8() * 2;
    two_bits_of(CHARACTER_BITS[0], place)
        + two_bits_of(CHARACTER_BITS[1], place) * 4
        + two_bits_of(CHARACTER_BITS[2], place) * 16
        + two_bits_of(CHARACTER_BITS[3], place) * 64
}

// 255 at byte i + 1 for each set bit i, and 0 at each other byte.
#[inline]
fn byte_masks(bits: u8) -> u64
    requires { bits < 32 }
    ensures { result ≡ masks_of bits }
{
    (u64::from(bits) * 0x10_2040_8100 & 0x0101_0101_0100) * 255
}

// The byte at a place, sixteen times.
#[inline]
fn mask_at(masks: u64, place: u8) -> u128
    requires { place < 64 }
    ensures { result ≡ masks / 2 ^ place % 256 * repeated_byte }
{
    let half = (masks >> place & 255) * 0x0101_0101_0101_0101;
    u128::from(half) * 0x1_0000_0000_0000_0001
}

/// The sum without carry of the words at the set bits of a number.
///
/// Each mask is made of a byte that may have been any, for all that a compiler sees: of a single
/// bit it makes a branch.
#[inline]
pub fn xor_selected(words: [u128; 5], bits: u8) -> u128
    requires { bits < 32 }
    ensures { result ≡ sum_of_words (λ i. get_or words i 0) 5 bits }
{
    let masks = byte_masks(bits);
    let [a, b, c, d, e] = words;
    let low = a & mask_at(masks, 8) ^ b & mask_at(masks, 16) ^ c & mask_at(masks, 24);
    low ^ d & mask_at(masks, 32) ^ e & mask_at(masks, 40)
}

/// Whether bytes are of the alphabet. Each is looked at, and only whether all are can be told.
#[inline(never)]
pub fn are_of_alphabet(bytes: &[u8]) -> bool
    ensures { result ≡ is_data bytes.now }
{
    let mut data = true;
    for b in bytes {
        data &= is_data_byte(*b);
    }
    data
}

/// Whether letters of both cases stand among bytes. Each is looked at, and only that can be told.
#[inline(never)]
pub fn has_both_cases(bytes: &[u8]) -> bool
    ensures { result ≡ is_mixed_case bytes.now }
{
    let mut lower = false;
    let mut upper = false;
    for b in bytes {
        lower |= b.is_ascii_lowercase();
        upper |= b.is_ascii_uppercase();
    }
    lower & upper
}

/// Where the bytes at the end of a text begin that are of the alphabet: behind the last that is
/// not. Each is looked at, and only that place can be told.
///
/// It is how many bytes are not of the alphabet, or have one behind them that is not.
#[inline(never)]
pub fn data_start(bytes: &[u8]) -> usize
    ensures bound { result ≤ length bytes.now }
    ensures data { is_data (drop result bytes.now) ≡ true }
    ensures before { 0 < result → is_of_alphabet (slice_index bytes.now (result - 1)) ≡ false }
{
    let mut found = false;
    let mut start = 0;
    for i in 0..bytes.len() {
        found |= !is_data_byte(bytes[bytes.len() - 1 - i]);
        start += usize::from(found);
    }
    start
}

/// How many bytes stand before the first that may not stand in a human-readable part. Each is
/// looked at, and only that number can be told.
#[inline(never)]
pub fn graphic_count(bytes: &[u8]) -> usize
    ensures bound { result ≤ length bytes.now }
    ensures graphic { list_all is_graphic (take result bytes.now) ≡ true }
    ensures behind { result < length bytes.now
        → is_graphic (slice_index bytes.now result) ≡ false }
{
    let mut graphic = true;
    let mut count = 0;
    for b in bytes {
        graphic &= b.is_ascii_graphic();
        count += usize::from(graphic);
    }
    count
}

/// Puts the elements of characters.
pub fn put_elements(elements: &mut [Fe32], characters: &[u8])
    requires size { length elements.old ≡ length characters.now }
    requires of_alphabet { is_data characters.now ≡ true }
    ensures { elements.new ≡ elements_of characters.now }
{
    for i in 0..characters.len() {
        elements[i] = element_of_character(characters[i]);
    }
}
