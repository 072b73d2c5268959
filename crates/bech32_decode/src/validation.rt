//! Tests what was read of a text by a checksum.

ghost use Rattle.std.specs.Prelude.{◌≡◌, ◌≤◌, ◌<◌, ◌*◌, ◌^◌, ℕ, List, length, MatchResult};
ghost use Rattle.bech32_gf.specs.Fe32.{ops};
ghost use Rattle.bech32_gf.specs.declared.gf32.Fe32.{Fe32 as Element};
ghost use Rattle.bech32_poly.specs.Remainder.{IsRemainder};
ghost use Rattle.bech32_checksum.specs.Code.{IsResidueOf};
ghost use Rattle.bech32_decode.specs.Refusals.{HasLengths, IsLengthsRefusal};
ghost use Rattle.bech32_refusals.specs.ResidueRows.{IsResidueError};

use bech32_checksum::Checksum;
use bech32_refusals::{ChecksumError, CodeLengthError, InvalidResidueError};

// Tests that a text of this many bytes is not longer than the code, and that a data part of this
// many characters has room for the checksum.
#[inline]
pub(crate) fn validate_lengths<Ck: Checksum>(
    text_length: usize,
    data_length: usize,
) -> Result<(), ChecksumError>
    ensures { MatchResult result
        (λ _. HasLengths Ck.code text_length data_length)
        (λ e. IsLengthsRefusal Ck.code text_length data_length e
        × ¬ HasLengths Ck.code text_length data_length) }
{
    if text_length > Ck::CODE_LENGTH {
        return Err(ChecksumError::CodeLength(CodeLengthError {
            encoded_length: text_length,
            code_length: Ck::CODE_LENGTH,
        }));
    }
    if data_length < Ck::CHECKSUM_LENGTH {
        return Err(ChecksumError::InvalidLength);
    }
    Ok(())
}

// Tests a remainder.
#[inline]
pub(crate) fn validate_residue<Ck: Checksum>(
    residue: &Ck::MidstateRepr,
) -> Result<(), InvalidResidueError>
    requires { Ck.MidstateRepr.number residue.now < 2 ^ (5 * Ck.CHECKSUM_LENGTH) }
    ensures { (p : List Element) → IsResidueOf Ck.MidstateRepr.number Ck.code residue.now p
        → MatchResult result
        (λ _. IsRemainder ops Ck.code.generator p Ck.code.target)
        (λ e. IsResidueError Ck.code p e) }
{
    if *residue != Ck::TARGET_RESIDUE {
        return Err(InvalidResidueError::new(residue, &Ck::TARGET_RESIDUE));
    }
    Ok(())
}
