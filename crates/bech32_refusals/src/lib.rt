//! Why texts are refused or not written, and the rules of segwit addresses.
//!
//! Below it: `bech32_checksum`.
//! Standard: BIP-173, Bech32 and Segwit address format.
#![tactic(auto)]

mod error;
mod residue;
pub mod segwit;
mod texts;

pub use error::{
    CharError, CheckedHrpstringError, ChecksumError, CodeLengthError, InvalidResidueError,
    PaddingError, SegwitCodeLengthError, SegwitHrpstringError, UncheckedHrpstringError,
};
pub use residue::MAX_DEGREE;
pub use texts::{DecodeError, ElementsError, EncodeError, TextError};
