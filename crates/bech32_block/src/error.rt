//! Why no block is printed.

use std::alloc::AllocError;
use thiserror::Error;

/// Why there is no block for a generator and a target.
#[derive(Clone, Copy, Debug, PartialEq, Eq, Drop, Error)]
pub enum PrintError {
    /// The generator has degree 1, and so has no series of roots.
    #[error("the generator has degree 1")]
    Degree,
    /// The generator has fewer roots in the field than its degree, zero and repetitions aside.
    #[error("the generator has fewer different roots in the field than its degree")]
    NotSplit,
    /// The first root of the longest series is not a power of the series' ratio.
    #[error("the first root of the longest series is no power of the base")]
    NotPowers,
    /// Memory ran out.
    #[error("out of memory")]
    Memory,
}

impl From<AllocError> for PrintError {
    ghost use Rattle.std.specs.Prelude.{◌≡◌};
    ghost use Rattle.bech32_block.specs.declared.error.PrintError.TheVariants.{Memory};

    ghost from_gives = { λ _ r. r ≡ Memory };

    fn from(_: AllocError) -> Self {
        Self::Memory
    }
}
