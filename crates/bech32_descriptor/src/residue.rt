//! The remainder that the symbols of a descriptor leave.

ghost use Rattle.std.specs.Prelude.{◌≡◌, ◌<◌, ◌≤◌, ◌+◌, ◌*◌, ◌^◌, ◌↔◌, ℕ, List, ◌∷◌, [], length, map, IsTrue};
ghost use Rattle.bech32_gf.specs.Fe32.{element, ops};
ghost use Rattle.bech32_gf.specs.declared.gf32.Fe32.{Fe32 as Element};
ghost use Rattle.bech32_poly.specs.Remainder.{IsRemainder};
ghost use Rattle.bech32_checksum.specs.Code.{IsResidueAfter};
ghost use Rattle.bech32_descriptor.specs.Code.{descriptor};
ghost use Rattle.bech32_descriptor.specs.Descriptor.{checksum_symbol, group, polynomial_of, symbol, symbols};
ghost use Rattle.bech32_descriptor.specs.Words.{IsWordOfSymbols, number_of_three};

use crate::alphabet::{checksum_place, place};
use crate::code::Descriptor;
use crate::parts::{FIRSTS, SECONDS, THIRDS};
use bech32_checksum::{Checksum, Engine};
use bech32_gf::gf32::Fe32;

// Takes the symbols of three characters.
#[inline]
fn input_three(engine: &mut Engine<Descriptor>, a: u8, b: u8, c: u8)
    ensures { IsResidueAfter (λ x. x) descriptor engine.old
        (symbol a ∷ symbol b ∷ symbol c
        ∷ element (9 * group a + 3 * group b + group c) ∷ []) engine.new }
{
    let first = place(a);
    let second = place(b);
    let third = place(c);
    engine.input_fe(Fe32::from_low_bits(first));
    engine.input_fe(Fe32::from_low_bits(second));
    engine.input_fe(Fe32::from_low_bits(third));
    engine.input_fe(Fe32::from_low_bits(9 * (first / 32) + 3 * (second / 32) + third / 32));
}

// The word of three characters: their places in their groups, and the number of the groups.
#[inline]
fn word_of_three(a: u8, b: u8, c: u8) -> u64
    ensures value { result ≡ number_of_three a b c }
    ensures below { result < 2 ^ 20 }
{
    u64::from(FIRSTS[a as usize]) + u64::from(SECONDS[b as usize]) + u64::from(THIRDS[c as usize])
}

// Takes the symbols of six characters.
#[inline]
fn input_six(engine: &mut Engine<Descriptor>, a: u8, b: u8, c: u8, d: u8, e: u8, f: u8)
    ensures { IsResidueAfter (λ x. x) descriptor engine.old
        (symbol a ∷ symbol b ∷ symbol c ∷ element (9 * group a + 3 * group b + group c)
        ∷ symbol d ∷ symbol e ∷ symbol f ∷ element (9 * group d + 3 * group e + group f)
        ∷ []) engine.new }
{
    engine.input_word(word_of_three(a, b, c) * 0x10_0000 + word_of_three(d, e, f));
}

// Takes the symbols of fewer than three characters at the end.
fn input_few(engine: &mut Engine<Descriptor>, rest: &[u8])
    requires { length rest.now < 3 }
    ensures { IsResidueAfter (λ x. x) descriptor engine.old (symbols rest.now) engine.new }
{
    if rest.len() == 0 {
        return;
    }
    let first = place(rest[0]);
    engine.input_fe(Fe32::from_low_bits(first));
    if rest.len() == 1 {
        engine.input_fe(Fe32::from_low_bits(first / 32));
        return;
    }
    let second = place(rest[1]);
    engine.input_fe(Fe32::from_low_bits(second));
    engine.input_fe(Fe32::from_low_bits(3 * (first / 32) + second / 32));
}

// Takes the symbols of characters, three at a time.
fn input_threes(engine: &mut Engine<Descriptor>, payload: &[u8])
    ensures { IsResidueAfter (λ x. x) descriptor engine.old (symbols payload.now) engine.new }
{
    let mut rest = payload;
    while rest.len() >= 3 {
        input_three(engine, rest[0], rest[1], rest[2]);
        rest = &rest[3..];
    }
    input_few(engine, rest);
}

// Takes the symbols of a descriptor without its checksum.
pub(crate) fn input_characters(engine: &mut Engine<Descriptor>, payload: &[u8])
    ensures { IsResidueAfter (λ x. x) descriptor engine.old (symbols payload.now) engine.new }
{
    let mut rest = payload;
    while rest.len() >= 6 {
        input_six(engine, rest[0], rest[1], rest[2], rest[3], rest[4], rest[5]);
        rest = &rest[6..];
    }
    input_threes(engine, rest);
}

// Takes the elements of a checksum.
fn input_checksum(engine: &mut Engine<Descriptor>, checksum: &[u8])
    ensures { IsResidueAfter (λ x. x) descriptor engine.old
        (map checksum_symbol checksum.now) engine.new }
{
    for b in checksum {
        engine.input_fe(Fe32::from_low_bits(checksum_place(*b)));
    }
}

// The remainder of a text that ends in a mark and a checksum, whatever its characters are.
pub(crate) fn residue_of(text: &[u8]) -> u64
    requires { 9 ≤ length text.now }
    ensures { IsWordOfSymbols result (polynomial_of text.now) }
{
    let mut engine = Engine::<Descriptor>::new();
    input_characters(&mut engine, &text[..text.len() - 9]);
    input_checksum(&mut engine, &text[text.len() - 8..]);
    *engine.residue()
}

// Whether a remainder is the target.
#[inline]
pub(crate) fn is_target(residue: u64) -> bool
    ensures { (p : List Element) → IsWordOfSymbols residue p
        → (IsTrue result ↔ IsRemainder ops descriptor.generator p descriptor.target) }
{
    residue == Descriptor::TARGET_RESIDUE
}
