//! Tests the checksum of a data part, and tells of its characters only whether it is right; and of
//! a wrong one, to who looks for errors, by how much it is wrong.

ghost use Rattle.std.specs.Prelude.{◌≡◌, ◌↔◌, true, length, IsTrue, MatchOption, MatchResult};
ghost use Rattle.bech32_gf.specs.Alphabet.{is_data};
ghost use Rattle.bech32_gf.specs.Fe32.{elements_of, ops};
ghost use Rattle.bech32_poly.specs.Remainder.{IsRemainder};
ghost use Rattle.bech32_checksum.specs.Code.{IsResidueAfter};
ghost use Rattle.bech32_checksum.specs.TextPolynomial.{text_polynomial};
ghost use Rattle.bech32_decode.specs.Refusals.{HasValidChecksum, IsChecksumRefusal};
ghost use Rattle.bech32_refusals.specs.ResidueRows.{IsResidueError, error_residue_of};

use crate::element_of_character;
use bech32_checksum::{Checksum, Engine};
use bech32_gf::gf32::Fe32;
use bech32_refusals::{ChecksumError, CodeLengthError, InvalidResidueError};

// Hands the elements of characters to an engine. Each is looked at, and nothing of it can be told.
fn input_elements<Ck: Checksum>(characters: &[u8], engine: &mut Engine<Ck>)
    requires { is_data characters.now ≡ true }
    ensures { IsResidueAfter Ck.MidstateRepr.number Ck.code engine.old
        (elements_of characters.now) engine.new }
{
    for c in characters {
        engine.input_fe(element_of_character(*c));
    }
}

// Whether a remainder is the target. Only that can be told.
#[inline(never)]
fn is_target<Ck: Checksum>(residue: &Ck::MidstateRepr) -> bool
    ensures { IsTrue result ↔ (residue.now ≡ Ck.TARGET_RESIDUE) }
{
    *residue == Ck::TARGET_RESIDUE
}

/// The residue error of a data part behind a human-readable part; none where the checksum is right.
pub fn residue_error_of<Ck: Checksum>(part: &[u8], data_part: &[u8]) -> Option<InvalidResidueError>
    requires { is_data data_part.now ≡ true }
    ensures { MatchOption result
        (IsRemainder ops Ck.code.generator
        (text_polynomial part.now (elements_of data_part.now)) Ck.code.target)
        (λ e. IsResidueError Ck.code (text_polynomial part.now (elements_of data_part.now)) e) }
{
    let mut engine = Engine::<Ck>::new();
    engine.input_part(part);
    input_elements(data_part, &mut engine);
    let residue = *engine.residue();
    if is_target::<Ck>(&residue) {
        return None;
    }
    Some(InvalidResidueError::new(&residue, &Ck::TARGET_RESIDUE))
}

/// Puts what is left of the remainder where the target is taken off, by which errors are found. Out
/// of line: all of it can be told. Where each character is one that was meant, or is changed, it
/// depends on the changes alone.
#[inline(never)]
pub fn put_error_residue(residue: &mut [Fe32], error: &InvalidResidueError)
    requires { length residue.old ≡ 25 }
    ensures { residue.new ≡ error_residue_of error.now }
{
    residue.copy_from_slice(&error.residue());
}

/// Tests the checksum of a data part behind a human-readable part, of a text of this many
/// characters.
///
/// # Errors
///
/// The first of: the text is longer than the code; the data part is shorter than the checksum; the
/// polynomial of the text does not have the target as remainder.
pub fn validate_data_part<Ck: Checksum>(
    count: usize,
    part: &[u8],
    data_part: &[u8],
) -> Result<(), ChecksumError>
    requires { is_data data_part.now ≡ true }
    ensures { MatchResult result
        (λ _. HasValidChecksum Ck.code count part.now data_part.now)
        (λ e. IsChecksumRefusal Ck.code count part.now data_part.now e) }
{
    if count > Ck::CODE_LENGTH {
        return Err(ChecksumError::CodeLength(CodeLengthError {
            encoded_length: count,
            code_length: Ck::CODE_LENGTH,
        }));
    }
    if data_part.len() < Ck::CHECKSUM_LENGTH {
        return Err(ChecksumError::InvalidLength);
    }
    match residue_error_of::<Ck>(part, data_part) {
        None => Ok(()),
        Some(e) => Err(ChecksumError::InvalidResidue(e)),
    }
}
