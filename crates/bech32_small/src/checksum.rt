//! The numbers that stand for checksums, and what these differ in.

use bech32::{Bech32, Checksum};

/// The number of Bech32 (BIP-173).
pub const BECH32: u32 = 1;

/// The number of Bech32m (BIP-350).
pub const BECH32M: u32 = 2;

/// The number of Bech32 for long texts.
pub const LONG_BECH32: u32 = 3;

/// The number of Bech32m for long texts.
pub const LONG_BECH32M: u32 = 4;

/// The remainder of a right text by Bech32, packed.
pub const TARGET: u32 = 1;

/// The remainder of a right text by Bech32m, packed.
pub const BECH32M_TARGET: u32 = 0x2bc830a3;

/// The most characters of a text.
pub const MAX_TEXT_LENGTH: usize = Bech32::CODE_LENGTH;

/// The characters of a checksum.
pub const LENGTH: usize = 6;

/// The number of a text that is not UTF-8.
pub const NOT_UTF8: u32 = 2;

/// The number of a checksum's number that is that of none, and of an element's.
pub const BAD_NUMBER: u32 = 4;

/// The number of a text that is too long for its checksum.
pub const TEXT_TOO_LONG: u32 = 31;

/// The number of a data part that is too short for a checksum.
pub const NO_CHECKSUM: u32 = 32;

/// The number of a wrong checksum.
pub const WRONG_CHECKSUM: u32 = 33;

/// The number of a text that nothing mends.
pub const NO_CORRECTION: u32 = 34;

/// The number of an address that is too long.
pub const ADDRESS_TOO_LONG: u32 = 41;

/// The number of bytes whose text would be too long.
pub const ENCODED_TOO_LONG: u32 = 51;

/// The number of a buffer that is too small.
pub const NO_ROOM: u32 = 92;
