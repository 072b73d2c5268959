//! The checksum of a descriptor, computed and tested.

ghost use Rattle.std.specs.List.{list_all};
ghost use Rattle.std.specs.Prelude.{◌≡◌, ◌<◌, ◌≤◌, ◌↔◌, Some, length, map, not, position, reverse, IsOk, IsTrue, MatchOption, MatchResult};
ghost use Rattle.bech32_gf.specs.Alphabet.{char_of};
ghost use Rattle.bech32_gf.specs.Fe32.{value};
ghost use Rattle.bech32_checksum.specs.Packed.{digit_of, digits};
ghost use Rattle.bech32_descriptor.specs.Descriptor.{HasParts, IsCheckRefusal, IsChecksum, IsDescriptor, IsDescriptorText, is_checksum_stranger, is_stranger, stranger_in};

use crate::alphabet::{checksum_place, place};
use crate::code::Descriptor;
use crate::error::{CheckError, InvalidCharacter};
use crate::residue::{input_characters, is_target, residue_of};
use bech32_checksum::{Engine, PackedFe32};
use bech32_gf::gf32::Fe32;

// Whether a byte is a character of a descriptor: those are the printed ones of ASCII.
#[inline]
fn is_character(byte: u8) -> bool
    ensures { result ≡ not (is_stranger byte) }
{
    (32 <= byte) & (byte < 127)
}

// Whether all bytes are characters of a descriptor. It reads all of them, whatever they are, so
// that many are compared at once.
fn are_characters(bytes: &[u8]) -> bool
    ensures { result ≡ list_all (λ b. not (is_stranger b)) bytes.now }
{
    let mut all = true;
    for b in bytes {
        all = all & is_character(*b);
    }
    all
}

// The first byte that is no character of a descriptor.
fn first_stranger(payload: &[u8]) -> Option<usize>
    ensures { result ≡ position is_stranger payload.now }
{
    if are_characters(payload) {
        return None;
    }
    payload.iter().position(|b| 94 < place(*b))
}

// The first byte that is no character of a checksum.
fn first_checksum_stranger(checksum: &[u8]) -> Option<usize>
    ensures { result ≡ position is_checksum_stranger checksum.now }
{
    checksum.iter().position(|b| 31 < checksum_place(*b))
}

// Whether a text ends in a mark and eight bytes.
fn has_parts(text: &[u8]) -> bool
    ensures { IsTrue result ↔ HasParts text.now }
{
    if text.len() < 9 {
        return false;
    }
    text[text.len() - 9] == b'#'
}

// The first byte that may not stand where it does.
fn first_in(text: &[u8]) -> Option<usize>
    requires { 9 ≤ length text.now }
    ensures { result ≡ stranger_in text.now }
{
    let n = text.len();
    if let Some(i) = first_stranger(&text[..n - 9]) {
        return Some(i);
    }
    let i = first_checksum_stranger(&text[n - 8..])?;
    Some(n - 8 + i)
}

// Why a text is not in the grammar.
pub(crate) fn grammar_fault(text: &[u8]) -> Option<CheckError>
    ensures { MatchOption result (IsDescriptorText text.now) (λ e. IsCheckRefusal text.now e) }
{
    if !has_parts(text) {
        return Some(CheckError::NoChecksum);
    }
    match first_in(text) {
        Some(i) => Some(CheckError::InvalidCharacter(i)),
        None => None,
    }
}

// The character of an element of a remainder.
fn letter(residue: u64, n: usize) -> u8
    requires { n < 8 }
    ensures { result ≡ char_of (value (digit_of residue n)) }
{
    Fe32::from_low_bits(residue.unpack(n)).to_char() as u8
}

// The characters of a remainder, the highest first.
fn letters(residue: u64) -> [u8; 8]
    ensures { result ≡ map (λ x. char_of (value x)) (reverse (digits 8 residue)) }
{
    [
        letter(residue, 7),
        letter(residue, 6),
        letter(residue, 5),
        letter(residue, 4),
        letter(residue, 3),
        letter(residue, 2),
        letter(residue, 1),
        letter(residue, 0),
    ]
}

/// The checksum of a descriptor, which is given without `#` and checksum: eight characters.
///
/// Its characters are the 95 of BIP-380, which are those of ASCII from the space to `~`. What they
/// say is not read.
///
/// # Errors
///
/// [`InvalidCharacter`] where a byte is none of them, with the place of the first.
pub fn checksum(text: &[u8]) -> Result<[u8; 8], InvalidCharacter>
    ensures { MatchResult result
        (λ checksum. IsChecksum text.now checksum)
        (λ e. position is_stranger text.now ≡ Some e.place) }
{
    if let Some(place) = first_stranger(text) {
        return Err(InvalidCharacter { place });
    }
    let mut engine = Engine::<Descriptor>::new();
    input_characters(&mut engine, text);
    engine.input_target_residue();
    Ok(letters(*engine.residue()))
}

/// Tests a descriptor with its checksum: the characters of BIP-380, `#`, and the eight characters
/// of the checksum, in lower case. What the characters before `#` say is not read.
///
/// # Errors
///
/// The first of: [`CheckError::NoChecksum`] where the text does not end in `#` and eight bytes;
/// [`CheckError::InvalidCharacter`] where a byte before `#` is no character of BIP-380, or one
/// behind it none of a checksum, with the place of the first; [`CheckError::WrongChecksum`].
pub fn check(text: &[u8]) -> Result<(), CheckError>
    ensures value { MatchResult result
        (λ _. IsDescriptor text.now)
        (λ e. IsCheckRefusal text.now e) }
    ensures accepts { IsDescriptor text.now → IsOk result }
{
    if let Some(e) = grammar_fault(text) {
        return Err(e);
    }
    if !is_target(residue_of(text)) {
        return Err(CheckError::WrongChecksum);
    }
    Ok(())
}
