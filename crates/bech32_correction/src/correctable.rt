//! Errors that may carry an error residue.

ghost use Rattle.std.specs.Prelude.{◌≡◌, ◌≤◌, ◌<◌, ◌⊎◌, [], Option, None, Some, MatchOption};
ghost use Rattle.bech32_refusals.specs.ResidueRows.{error_residue_of};
ghost use Rattle.bech32_refusals.specs.declared.error.InvalidResidueError.{InvalidResidueError as ResidueError};

use crate::corrector::Corrector;
use bech32_checksum::Checksum;
use bech32_lookup::residue_error_of;
use bech32_refusals::{
    CheckedHrpstringError, ChecksumError, DecodeError, InvalidResidueError, SegwitHrpstringError,
};
use std::alloc::Allocator;

/// An error that may carry the error residue of a text, from which its errors are found.
pub trait CorrectableError {
    // The residue error that it is, or holds at any depth.
    ghost carried: { Self → Option ResidueError };

    /// The residue error that this error is, or holds at any depth.
    fn residue_error(&self) -> Option<&InvalidResidueError>
        ensures { MatchOption result (carried self.now ≡ None)
            (λ e. carried self.now ≡ Some e.now) };

    /// What finds the errors of the refused text, anywhere below the code length. `None` where no
    /// error residue is carried, and for a checksum of no characters.
    final fn correction_context<Ck: Checksum, A: Allocator + Copy>(
        &self,
        alloc: A,
    ) -> Option<Corrector<Ck, A>>
        requires { Ck.lawful }
        ensures { MatchOption result
            ((Ck.CHECKSUM_LENGTH ≡ 0) ⊎ (carried self.now ≡ None))
            (λ c. (0 < Ck.CHECKSUM_LENGTH) × ((e : ResidueError) × (carried self.now ≡ Some e)
            × (c ≡ record {
              residue = error_residue_of e;
              window = Ck.CODE_LENGTH;
              erasures = [];
            }))) }
    {
        self.correction_context_within(alloc, Ck::CODE_LENGTH)
    }

    /// What finds the errors of the refused text, as
    /// [`correction_context`](Self::correction_context) gives it, at locations below `window`, in
    /// characters from the last. A narrow window (the length of the text) takes less time, and
    /// finds no errors before the text.
    final fn correction_context_within<Ck: Checksum, A: Allocator + Copy>(
        &self,
        alloc: A,
        window: usize,
    ) -> Option<Corrector<Ck, A>>
        requires lawful { Ck.lawful }
        requires within { window ≤ Ck.CODE_LENGTH }
        ensures { MatchOption result
            ((Ck.CHECKSUM_LENGTH ≡ 0) ⊎ (carried self.now ≡ None))
            (λ c. (0 < Ck.CHECKSUM_LENGTH) × ((e : ResidueError) × (carried self.now ≡ Some e)
            × (c ≡ record { residue = error_residue_of e; window = window; erasures = [] }))) }
    {
        if Ck::CHECKSUM_LENGTH == 0 {
            return None;
        }
        let error = self.residue_error()?;
        Some(Corrector::new(alloc, error.residue(), window))
    }
}

impl CorrectableError for InvalidResidueError {
    ghost use Rattle.std.specs.Prelude.{Some};

    ghost carried = { λ e. Some e };

    fn residue_error(&self) -> Option<&InvalidResidueError> {
        Some(self)
    }
}

impl CorrectableError for ChecksumError {
    ghost use Rattle.bech32_lookup.specs.Carried.{of_checksum};

    ghost carried = { of_checksum };

    fn residue_error(&self) -> Option<&InvalidResidueError> {
        residue_error_of(self)
    }
}

impl CorrectableError for CheckedHrpstringError {
    ghost use Rattle.bech32_correction.specs.Carried.{of_checked};

    ghost carried = { of_checked };

    fn residue_error(&self) -> Option<&InvalidResidueError> {
        match self {
            CheckedHrpstringError::Checksum(e) => e.residue_error(),
            CheckedHrpstringError::Parse(_) => None,
        }
    }
}

impl CorrectableError for SegwitHrpstringError {
    ghost use Rattle.bech32_correction.specs.Carried.{of_segwit};

    ghost carried = { of_segwit };

    fn residue_error(&self) -> Option<&InvalidResidueError> {
        match self {
            SegwitHrpstringError::Checksum(e) => e.residue_error(),
            _ => None,
        }
    }
}

impl CorrectableError for DecodeError {
    ghost use Rattle.bech32_correction.specs.Carried.{of_decoding};

    ghost carried = { of_decoding };

    fn residue_error(&self) -> Option<&InvalidResidueError> {
        match self {
            DecodeError::Checksum(e) => e.residue_error(),
            DecodeError::Parse(_) | DecodeError::Memory => None,
        }
    }
}
