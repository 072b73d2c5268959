//! All texts near a mistyped one that a checksum accepts, and the steps that gather their patterns.
//! `edits`: those that one edit makes.
//!
//! Below it: `bech32_correction`, `bech32_detect`.
//! Standard: BIP-173, Checksum design.
#![tactic(auto)]

pub mod edits;
mod listings;
pub mod search;
mod texts;

pub use self::listings::nearest_listings;
pub use self::texts::{NearTexts, nearest, nearest_to_reading};
