//! The checksums of codex32, its strings and shares, the nearest string to a damaged one, and the
//! numbers of all refusals.
//!
//! Below it: `bech32`, `bech32_numbers`, `codex32_steady`.
//! Standard: BIP-93.
#![tactic(auto)]

mod checksum;
mod damaged;
mod dealing;
mod derivation;
mod detection;
mod encoding;
mod error;
mod frame;
mod header;
mod identifier;
pub mod laws;
mod lengths;
mod long;
mod mending;
mod nearest;
pub mod numbers;
mod products;
mod secrecy;
mod sets;
mod share;
mod splitting;
mod string;
mod threshold;
mod unreadable;

pub use self::checksum::Codex32;
pub use self::damaged::{validate_damaged, validate_damaged_long};
pub use self::derivation::{derive, derive_into, recover};
pub use self::encoding::{encode, encode_into, encode_payload, encode_payload_into};
pub use self::error::{
    Codex32Error, DeriveError, EncodeError, HeaderError, PayloadError, SplitError,
};
pub use self::header::{Header, parse_share_index, validate_header};
pub use self::identifier::Identifier;
pub use self::lengths::{MAX_LENGTH, MAX_LONG_LENGTH, MIN_LENGTH, MIN_LONG_LENGTH};
pub use self::long::LongCodex32;
pub use self::nearest::{propose, propose_long};
pub use self::share::Share;
pub use self::splitting::{random_count, split_into};
pub use self::string::Codex32Str;
pub use self::threshold::Threshold;
