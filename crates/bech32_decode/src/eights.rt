//! Reads the characters of a data part, eight at a time.

ghost use Rattle.std.specs.Prelude.{◌≡◌, ◌≤◌, ◌+◌, ◌*◌, ◌/◌, ◌%◌, ◌^◌, IsTrue, ◌↔◌, false};
ghost use Rattle.std.specs.Prelude.{length, take};
ghost use Rattle.bech32_gf.specs.Alphabet.{is_of_alphabet};
ghost use Rattle.bech32_gf.specs.Fe32.{element_of, elements_of};
ghost use Rattle.bech32_checksum.specs.Code.{IsResidueAfter};
ghost use Rattle.bech32_checksum.specs.Word.{two_elements, word_elements};
ghost use Rattle.bech32_decode.specs.Cases.{counts_as_lower, counts_as_upper};
ghost use Rattle.bech32_decode.specs.Cases.{lower_count, upper_count};

use crate::places::at_place;
use bech32_checksum::{Checksum, Engine};
use bech32_gf::gf32::Fe32;

/// The word of the first eight characters, and above it how many letters of each case they have:
/// small ones from bit 40 on, and capital ones from bit 52 on. A character that is not of the
/// alphabet counts for both.
#[inline]
pub fn word_of_eight(characters: &[u8]) -> u64
    requires { 8 ≤ length characters.now }
    ensures elements { word_elements result ≡ elements_of (take 8 characters.now) }
    ensures lower { result / 2 ^ 40 % 2 ^ 12 ≡ lower_count (take 8 characters.now) }
    ensures upper { result / 2 ^ 52 ≡ upper_count (take 8 characters.now) }
{
    at_place(0, characters[0])
        + at_place(1, characters[1])
        + at_place(2, characters[2])
        + at_place(3, characters[3])
        + at_place(4, characters[4])
        + at_place(5, characters[5])
        + at_place(6, characters[6])
        + at_place(7, characters[7])
}

/// The element of a character of the alphabet, in either case; zero of any other.
#[inline]
pub fn element_at(character: u8) -> Fe32
    ensures { result ≡ element_of character }
{
    Fe32::from_low_bits((at_place(7, character) % 32) as u8)
}

// The case of a character: 1 for a small letter, 2^12 for a capital one, their sum for a character
// that is not of the alphabet, and 0 for a digit.
#[inline]
fn case_of(character: u8) -> u64
    ensures { result ≡ counts_as_lower character + 2 ^ 12 * counts_as_upper character }
{
    at_place(7, character) / 0x100_0000_0000
}

/// Whether a character is not of the alphabet.
#[inline]
pub fn is_stranger(character: u8) -> bool
    ensures { IsTrue result ↔ (is_of_alphabet character ≡ false) }
{
    case_of(character) == 0x1001
}

// Hands the elements of characters, of which there are at most 1,023, to an engine, in whole groups
// of eight, and returns how many letters of each case these have, as `walk` does.
#[inline]
fn walk_groups<Ck: Checksum>(characters: &[u8], engine: &mut Engine<Ck>) -> u64
    requires { length characters.now ≤ 1023 }
    ensures after { IsResidueAfter Ck.MidstateRepr.number Ck.code engine.old
        (elements_of (take (length characters.now / 8 * 8) characters.now)) engine.new }
    ensures cases { result ≡ lower_count (take (length characters.now / 8 * 8) characters.now)
        + 2 ^ 12 * upper_count (take (length characters.now / 8 * 8) characters.now) }
{
    let mut cases = 0;
    for group in 0..characters.len() / 8 {
        let word = word_of_eight(&characters[group * 8..]);
        engine.input_word(word % 0x100_0000_0000);
        cases += word / 0x100_0000_0000;
    }
    cases
}

// The two elements of the first two characters as a number of ten bits, and above it, from bit 40
// on, how many letters of each case they have, as in `word_of_eight`.
#[inline]
fn two_of(characters: &[u8]) -> u64
    requires { 2 ≤ length characters.now }
    ensures elements { two_elements result ≡ elements_of (take 2 characters.now) }
    ensures lower { result / 2 ^ 40 % 2 ^ 12 ≡ lower_count (take 2 characters.now) }
    ensures upper { result / 2 ^ 52 ≡ upper_count (take 2 characters.now) }
{
    at_place(6, characters[0]) + at_place(7, characters[1])
}

// Hands the elements of characters, of which there are at most 1,023, to an engine, two at a time,
// and returns how many letters of each case they have, as `walk` does.
#[inline(always)]
fn walk_rest<Ck: Checksum>(characters: &[u8], engine: &mut Engine<Ck>) -> u64
    requires { length characters.now ≤ 1023 }
    ensures after { IsResidueAfter Ck.MidstateRepr.number Ck.code engine.old
        (elements_of characters.now) engine.new }
    ensures cases { result ≡ lower_count characters.now + 2 ^ 12 * upper_count characters.now }
{
    let mut cases = 0;
    for pair in 0..characters.len() / 2 {
        let two = two_of(&characters[2 * pair..]);
        engine.input_two((two % 1024) as u32);
        cases += two / 0x100_0000_0000;
    }
    if characters.len() % 2 == 1 {
        let last = characters[characters.len() - 1];
        engine.input_fe(element_at(last));
        cases += case_of(last);
    }
    cases
}

/// Hands the elements of characters, of which there are at most 1,023, to an engine, and returns
/// how many letters of each case they have: small ones below 2^12, and capital ones above. A
/// character that is not of the alphabet counts for both.
#[inline(always)]
pub fn walk<Ck: Checksum>(characters: &[u8], engine: &mut Engine<Ck>) -> u64
    requires { length characters.now ≤ 1023 }
    ensures after { IsResidueAfter Ck.MidstateRepr.number Ck.code engine.old
        (elements_of characters.now) engine.new }
    ensures cases { result ≡ lower_count characters.now + 2 ^ 12 * upper_count characters.now }
{
    let cases = walk_groups(characters, engine);
    cases + walk_rest(&characters[characters.len() / 8 * 8..], engine)
}
