//! Remainders by the generator of either checksum, one row of elements.

ghost use Rattle.std.specs.Prelude.{◌≡◌, ◌<◌, ◌≤◌, ◌↔◌, List, [], true, length, get_or, map, reverse, IsTrue};
ghost use Rattle.bech32_checksum.specs.Encoded.{char_of_element};
ghost use Rattle.bech32_checksum.specs.TextPolynomial.{IsChecksumOf, text_polynomial};
ghost use Rattle.bech32_gf.specs.Alphabet.{is_data};
ghost use Rattle.bech32_gf.specs.Fe32 as fe32;
ghost use Rattle.bech32_gf.specs.Fe32.{elements_of};
ghost use Rattle.bech32_gf.specs.declared.gf32.Fe32.{Fe32 as Element};
ghost use Rattle.bech32_poly.specs.Division.{remainder_of, step};
ghost use Rattle.bech32_poly.specs.Polynomial.{appended};
ghost use Rattle.codex32_steady.specs.texts.Parts.{ms};
ghost use Rattle.codex32_small.specs.Code.{code_of_kind, coefficients_of};

use crate::product::product;
use bech32_gf::gf32::Fe32;
use codex32_calls::propose::Kind;
use codex32_steady::{character_of, element_of_character};

// The most elements of a remainder.
const MOST: usize = 15;

// The lower coefficients of the generator of short strings, the constant one first.
const GENERATOR: [u8; 13] = [16, 16, 24, 27, 31, 25, 25, 25, 0, 8, 17, 27, 25];

// The same of long strings.
const LONG_GENERATOR: [u8; 15] = [23, 4, 22, 5, 6, 21, 23, 6, 21, 25, 9, 26, 25, 10, 15];

// The target of short strings, the constant coefficient first.
const TARGET: [u8; 13] = [10, 17, 25, 3, 29, 23, 16, 11, 25, 3, 24, 25, 16];

// The same of long strings.
const LONG_TARGET: [u8; 15] = [6, 25, 10, 17, 25, 3, 29, 23, 16, 11, 25, 3, 24, 25, 16];

// The remainder of the polynomial of the human-readable part, which is below each generator.
const START: [u8; 15] = [19, 13, 0, 3, 3, 1, 0, 0, 0, 0, 0, 0, 0, 0, 0];

/// The number of characters of the checksum of strings of a kind.
pub(crate) fn degree_of(kind: Kind) -> usize
    ensures value { result ≡ length (code_of_kind kind).generator }
    ensures few { result ≤ 15 }
{
    match kind {
        Kind::Short => 13,
        Kind::Long => 15,
    }
}

// A row of elements of a checksum.
#[derive(Clone, Copy)]
enum Row {
    // The lower coefficients of the generator.
    Generator,
    // The coefficients of the target.
    Target,
}

// An element of a row, that of the constant coefficient at 0. In line: the row is known there.
#[inline(always)]
fn coefficient_at(row: Row, kind: Kind, i: usize) -> Fe32
    requires { i < length (code_of_kind kind).generator }
    ensures { result ≡ get_or (coefficients_of row (code_of_kind kind)) i fe32.zero }
{
    match row {
        Row::Generator => match kind {
            Kind::Short => Fe32::from_low_bits(GENERATOR[i]),
            Kind::Long => Fe32::from_low_bits(LONG_GENERATOR[i]),
        },
        Row::Target => match kind {
            Kind::Short => Fe32::from_low_bits(TARGET[i]),
            Kind::Long => Fe32::from_low_bits(LONG_TARGET[i]),
        },
    }
}

// Takes the next element below a remainder; what this has at the degree then is taken off.
#[inline(never)]
fn take_in(kind: Kind, rest: &mut [Fe32], next: Fe32)
    requires { length rest.old ≡ length (code_of_kind kind).generator }
    ensures { rest.new ≡ step fe32.ops (code_of_kind kind).generator rest.old next }
{
    let top = rest[rest.len() - 1];
    let mut coming = next;
    for i in 0..rest.len() {
        let here = rest[i];
        rest[i] = coming + product(coefficient_at(Row::Generator, kind, i), top);
        coming = here;
    }
}

// Puts the remainder of the polynomial of the human-readable part.
fn put_start(kind: Kind, rest: &mut [Fe32])
    requires { length rest.old ≡ length (code_of_kind kind).generator }
    ensures { rest.new ≡ remainder_of fe32.ops (code_of_kind kind).generator
        (text_polynomial ms []) }
{
    for i in 0..rest.len() {
        rest[i] = Fe32::from_low_bits(START[i]);
    }
}

// Puts the remainder of the polynomial of the human-readable part and characters.
#[inline(never)]
fn put_remainder(kind: Kind, rest: &mut [Fe32], characters: &[u8])
    requires size { length rest.old ≡ length (code_of_kind kind).generator }
    requires of_alphabet { is_data characters.now ≡ true }
    ensures { rest.new ≡ remainder_of fe32.ops (code_of_kind kind).generator
        (text_polynomial ms (elements_of characters.now)) }
{
    put_start(kind, rest);
    for c in characters {
        take_in(kind, rest, element_of_character(*c));
    }
}

// Takes the elements of the target, the highest first.
fn take_target(kind: Kind, rest: &mut [Fe32])
    requires { length rest.old ≡ length (code_of_kind kind).generator }
    ensures { (p : List Element)
        → rest.old ≡ remainder_of fe32.ops (code_of_kind kind).generator p
        → rest.new ≡ remainder_of fe32.ops (code_of_kind kind).generator
        (appended p (reverse (code_of_kind kind).target)) }
{
    for i in 0..rest.len() {
        take_in(
            kind,
            rest,
            coefficient_at(Row::Target, kind, rest.len() - 1 - i),
        );
    }
}

// Whether elements are those of the target. Each is looked at, and only whether all are the same
// can be told.
fn are_target(kind: Kind, rest: &[Fe32]) -> bool
    requires { length rest.now ≡ length (code_of_kind kind).generator }
    ensures { IsTrue result ↔ (rest.now ≡ (code_of_kind kind).target) }
{
    let mut same = true;
    for i in 0..rest.len() {
        same &= rest[i] == coefficient_at(Row::Target, kind, i);
    }
    same
}

/// Whether the polynomial of the human-readable part and characters leaves the target.
#[inline(never)]
pub(crate) fn has_target(kind: Kind, characters: &[u8]) -> bool
    requires { is_data characters.now ≡ true }
    ensures { IsTrue result ↔ (remainder_of fe32.ops (code_of_kind kind).generator
        (text_polynomial ms (elements_of characters.now)) ≡ (code_of_kind kind).target) }
{
    let mut room = [Fe32::Q; MOST];
    let rest = &mut room[..degree_of(kind)];
    put_remainder(kind, rest, characters);
    are_target(kind, rest)
}

// Puts the characters of elements in reverse.
fn put_reversed(target: &mut [u8], elements: &[Fe32])
    requires { length target.old ≡ length elements.now }
    ensures { target.new ≡ map char_of_element (reverse elements.now) }
{
    for i in 0..elements.len() {
        target[i] = character_of(elements[elements.len() - 1 - i]);
    }
}

/// Puts the characters of the checksum of the elements of characters.
#[inline(never)]
pub(crate) fn put_checksum(kind: Kind, checksum: &mut [u8], characters: &[u8])
    requires size { length checksum.old ≡ length (code_of_kind kind).generator }
    requires of_alphabet { is_data characters.now ≡ true }
    ensures { (elements : List Element)
        × IsChecksumOf (code_of_kind kind) ms (elements_of characters.now) elements
        × (checksum.new ≡ map char_of_element elements) }
{
    let mut room = [Fe32::Q; MOST];
    let rest = &mut room[..degree_of(kind)];
    put_remainder(kind, rest, characters);
    take_target(kind, rest);
    put_reversed(checksum, rest);
}
