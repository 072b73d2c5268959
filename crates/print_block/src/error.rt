//! Why no block is printed.

use bech32_block::PrintError;
use bech32_gf::gf32::FromCharError;
use thiserror::Error;

/// Why there is no block for a name, a generator and a target.
#[derive(Clone, Copy, Debug, PartialEq, Eq, Drop, Error)]
pub enum BlockError {
    /// The name is empty.
    #[error("the name is empty")]
    Name,
    /// A character of the generator or of the target stands for no element.
    #[error("{0}")]
    Character(FromCharError),
    /// The generator does not have 1 to 25 coefficients.
    #[error("the generator does not have 1 to 25 coefficients")]
    Generator,
    /// The target does not have as many coefficients as the generator.
    #[error("the target does not have as many coefficients as the generator")]
    Target,
    /// The generator has no block.
    #[error("{0}")]
    Print(PrintError),
    /// Memory ran out.
    #[error("out of memory")]
    Memory,
}
