//! Puts texts of secret elements.

ghost use Rattle.std.specs.Prelude.{◌≡◌, ◌≤◌, ◌+◌, ◌++◌, length, map, reverse, take, IfOk, string_bytes};
ghost use Rattle.bech32_checksum.specs.Code.{IsResidueOf};
ghost use Rattle.bech32_checksum.specs.Encoded.{char_of_element, spelled, IsEncodedText};
ghost use Rattle.bech32_checksum.specs.Packed.{digits};
ghost use Rattle.bech32_checksum.specs.TextPolynomial.{text_polynomial};
ghost use Rattle.bech32_poly.specs.Polynomial.{appended};
ghost use Rattle.codex32_steady.specs.texts.Parts.{ms};

use crate::character_of;
use bech32_checksum::{Checksum, Engine, PackedFe32};
use bech32_gf::gf32::Fe32;
use std::alloc::{AllocError, Allocator};

// Puts the characters of elements, in lower case, behind the first three.
fn put_characters(text: &mut [u8], elements: &[Fe32])
    requires { length text.old ≡ 3 + length elements.now }
    ensures { text.new ≡ take 3 text.old ++ map char_of_element elements.now }
{
    for i in 0..elements.len() {
        text[3 + i] = character_of(elements[i]);
    }
}

/// Puts `ms1` and the characters of elements, in lower case.
pub fn put_spelled(text: &mut [u8], elements: &[Fe32])
    requires { length text.old ≡ 3 + length elements.now }
    ensures { text.new ≡ spelled ms elements.now }
{
    text[0] = b'm';
    text[1] = b's';
    text[2] = b'1';
    put_characters(text, elements);
}

/// The text of `ms1` and the characters of elements, in lower case.
pub fn spelled_in<A: Allocator>(alloc: A, elements: &[Fe32]) -> Result<String<A>, AllocError>
    requires { length elements.now ≤ 124 }
    ensures { IfOk result (λ s. string_bytes s ≡ spelled ms elements.now) }
{
    let mut text = vec![in alloc; 0u8; 3 + elements.len()]?;
    put_spelled(text.as_mut_slice(), elements);
    // All of it is ASCII: what the call requires is proved.
    Ok(unsafe { String::from_utf8_unchecked(text) })
}

// The remainder of the polynomial of elements with the target behind them, packed.
fn checksum_of<Ck: Checksum>(elements: &[Fe32]) -> Ck::MidstateRepr
    ensures { IsResidueOf Ck.MidstateRepr.number Ck.code result
        (appended (text_polynomial ms elements.now) (reverse Ck.code.target)) }
{
    let mut engine = Engine::<Ck>::new();
    engine.input_part(b"ms");
    for e in elements {
        engine.input_fe(*e);
    }
    engine.input_target_residue();
    *engine.residue()
}

// Puts the characters of the lowest elements of a packed row, the highest first.
fn put_row<R: PackedFe32>(target: &mut [u8], row: R)
    requires { length target.old ≤ R.WIDTH }
    ensures { target.new
        ≡ map char_of_element (reverse (digits (length target.old) (R.number row))) }
{
    let count = target.len();
    for i in 0..count {
        target[i] = character_of(Fe32::from_low_bits(row.unpack(count - 1 - i)));
    }
}

/// Puts the text of elements and their checksum, behind `ms1`.
pub fn put_text<Ck: Checksum>(text: &mut [u8], elements: &[Fe32])
    requires { length text.old ≡ 3 + length elements.now + length Ck.code.generator }
    ensures { IsEncodedText Ck.code ms elements.now text.new }
{
    let (front, behind) = text.split_at_mut(3 + elements.len());
    put_spelled(front, elements);
    put_row(behind, checksum_of::<Ck>(elements));
}
