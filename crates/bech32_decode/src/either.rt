//! Tests a text by two checksums at once.

ghost use Rattle.std.specs.Prelude.{◌⊎◌, MatchResult};
ghost use Rattle.bech32_checksum.specs.Code.{bech32, bech32m};
ghost use Rattle.bech32_decode.specs.Refusals.{IsValidBy, IsInvalidBy};

use crate::residue::residue_of;
use crate::unchecked::UncheckedHrpstring;
use bech32_checksum::{Bech32, Bech32m, Checksum};
use bech32_refusals::{ChecksumError, InvalidResidueError};

/// Tests the checksum as Bech32m and as Bech32, in one pass: they differ in the target alone.
///
/// # Errors
///
/// That of Bech32m, where neither checksum accepts the text.
pub fn validate_either(unchecked: &UncheckedHrpstring<'_>) -> Result<(), ChecksumError>
    ensures { MatchResult result
        (λ _. IsValidBy bech32m unchecked.now ⊎ IsValidBy bech32 unchecked.now)
        (λ e. IsInvalidBy bech32m unchecked.now e × ¬ IsValidBy bech32 unchecked.now) }
{
    unchecked.validate_lengths::<Bech32m>()?;
    let residue = residue_of::<Bech32m>(unchecked.part(), unchecked.data_part_ascii());
    if residue == Bech32m::TARGET_RESIDUE || residue == Bech32::TARGET_RESIDUE {
        return Ok(());
    }
    Err(ChecksumError::InvalidResidue(InvalidResidueError::new(&residue, &Bech32m::TARGET_RESIDUE)))
}
