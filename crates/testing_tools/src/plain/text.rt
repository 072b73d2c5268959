//! Texts: whether one is accepted where it is cut at a place, and how one is spelled.

ghost use Rattle.std.specs.Prelude.{◌≡◌, ◌↔◌, ◌<◌, ◌+◌, IfOk, IsTrue, length, map, take, drop};
ghost use Rattle.bech32_gf.specs.Fe32.{elements_of};
ghost use Rattle.bech32_decode.specs.Acceptance.{IsAccepted};
ghost use Rattle.bech32_checksum.specs.Encoded.{spelled, char_of_element};
ghost use Rattle.testing_tools.specs.PlainChecksum.{code_of_plain};

use crate::plain::checksum::PlainChecksum;
use crate::plain::grammar::{character_of, element_of_character, is_text};
use crate::plain::polynomial::{lower_case, polynomial_of_text};
use bech32_gf::gf32::Fe32;
use std::alloc::{AllocError, Global};

// The code length of both checksums, and the number of characters of each.
const CODE_LENGTH: usize = 1023;

const CHECKSUM_LENGTH: usize = 6;

fn elements(alloc: Global, characters: &[u8]) -> Result<Vec<Fe32>, AllocError>
    ensures { IfOk result (λ v. v.items ≡ elements_of characters.now) }
{
    characters
        .iter()
        .map(|c| element_of_character(*c))
        .collect(alloc)
}

fn characters(alloc: Global, elements: &[Fe32]) -> Result<Vec<u8>, AllocError>
    ensures { IfOk result (λ v. v.items ≡ map char_of_element elements.now) }
{
    elements.iter().map(|x| character_of(*x)).collect(alloc)
}

// Whether a checksum accepts a text whose human-readable part ends at a place.
pub(crate) fn accepts_at(
    alloc: Global,
    checksum: PlainChecksum,
    text: &[u8],
    at: usize,
) -> Result<bool, AllocError>
    requires { at < length text.now }
    ensures { IfOk result (λ b. IsTrue b
        ↔ IsAccepted (code_of_plain checksum) text.now
        (take at text.now) (drop (at + 1) text.now)) }
{
    let data_part = &text[at + 1..];
    if !is_text(text, at) || text.len() > CODE_LENGTH || data_part.len() < CHECKSUM_LENGTH {
        return Ok(false);
    }
    let polynomial = polynomial_of_text(alloc, &text[..at], &elements(alloc, data_part)?)?;
    checksum.has_target(alloc, &polynomial)
}

// The text of elements, checksum included, under a human-readable part.
pub(crate) fn spell(alloc: Global, hrp: &[u8], elements: &[Fe32]) -> Result<Vec<u8>, AllocError>
    ensures { IfOk result (λ v. v.items ≡ spelled hrp.now elements.now) }
{
    let mut text = lower_case(alloc, hrp)?;
    text.push(b'1')?;
    text.extend_from_slice(&characters(alloc, elements)?)?;
    Ok(text)
}
