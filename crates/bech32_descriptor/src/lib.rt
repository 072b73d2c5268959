//! Output descriptors with their checksum: computed, tested, mended.
//!
//! A descriptor may hold private keys. Nothing of it is kept, and nothing is wiped: the memory of
//! its text, and of all texts that are made of it, is the caller's.
//!
//! Below it: `bech32_checksum`.
//! Standard: BIP-380.
#![tactic(auto)]

mod alphabet;
mod checks;
mod code;
mod edits;
mod error;
mod marks;
mod mends;
mod pairs;
mod parts;
mod places;
mod powers;
mod residue;
mod rows;
mod scratch;
mod steps;
mod walks;

pub use self::checks::{check, checksum};
pub use self::code::Descriptor;
pub use self::edits::{Change, Edit, Mended, MendedTwice, TwoEdits};
pub use self::error::{CheckError, InvalidCharacter, MendError};
pub use self::mends::mend;
pub use self::pairs::{MAX_LENGTH_FOR_TWO, mend_two};
