//! Why a descriptor is refused.

use std::alloc::AllocError;
use thiserror::Error;

/// A character is none of a descriptor's.
#[derive(Clone, Copy, Debug, PartialEq, Eq, Drop, Error)]
#[error("a character may not stand in a descriptor")]
pub struct InvalidCharacter {
    /// How many characters stand before it.
    pub place: usize,
}

/// Why a text is no descriptor with its checksum.
#[derive(Clone, Copy, Debug, PartialEq, Eq, Drop, Error)]
pub enum CheckError {
    /// The text does not end in `#` and eight characters.
    #[error("the text does not end in `#` and eight characters")]
    NoChecksum,
    /// A character may not stand where it does: this many stand before it.
    #[error("a character may not stand in a descriptor, or not in its checksum")]
    InvalidCharacter(usize),
    /// The checksum is wrong.
    #[error("the checksum is wrong")]
    WrongChecksum,
}

/// Why the descriptors that an edit makes are not told.
#[derive(Clone, Copy, Debug, PartialEq, Eq, Drop, Error)]
pub enum MendError {
    /// The text has more than 7,500 characters, or more than 1,400 where two are to be changed.
    #[error("the text has more than 7500 characters (1400 for two changes), too many to be mended")]
    TooLong,
    /// Out of memory.
    #[error("out of memory")]
    Memory,
}

impl From<AllocError> for MendError {
    ghost use Rattle.std.specs.Prelude.{◌≡◌};
    ghost use Rattle.bech32_descriptor.specs.declared.error.MendError.TheVariants.{Memory};

    ghost from_gives = { λ _ r. r ≡ Memory };

    fn from(_: AllocError) -> Self {
        Self::Memory
    }
}
