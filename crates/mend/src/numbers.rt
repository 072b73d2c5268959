//! The numbers of refusals that are this program's own.

/// The number of a word that is not read.
pub const BAD_WORD: u8 = 4;

/// The number of out of memory.
pub const NO_MEMORY: u8 = 91;

/// The number of a text that does not end in a mark and eight characters.
pub const NO_CHECKSUM: u8 = 88;

/// The number of a character that may not stand in a descriptor, or not in its checksum.
pub const NOT_IN_DESCRIPTOR: u8 = 80;

/// The number of a wrong checksum.
pub const WRONG_CHECKSUM: u8 = 33;

/// The number of a text that is too long to be mended.
pub const TOO_LONG: u8 = 89;
