//! The residue error of a refused text.

ghost use Rattle.std.specs.Prelude.{◌≡◌, None, Some, MatchOption};
ghost use Rattle.bech32_lookup.specs.Carried.{of_checksum};

use bech32_refusals::{ChecksumError, InvalidResidueError};

/// The residue error that a checksum's refusal holds.
pub fn residue_error_of(error: &ChecksumError) -> Option<&InvalidResidueError>
    ensures { MatchOption result
        (of_checksum error.now ≡ None)
        (λ e. of_checksum error.now ≡ Some e.now) }
{
    match error {
        ChecksumError::InvalidResidue(e) => Some(e),
        _ => None,
    }
}
