//! The ways in which errors that explain a residue are found.
//!
//! Below it: `bech32_bch`, `bech32_refusals`.
//! Standard: BIP-173, Checksum design.
#![tactic(auto)]

mod carried;
mod correction;
mod division;
mod erased;
mod erasures;
mod looked_up;
mod single;

pub use self::carried::residue_error_of;
pub use self::correction::{bound, correct_by_roots, is_filled};
pub use self::division::{listed_engine, residue_after_removing, row_equals};
pub use self::erased::correct_erased;
pub use self::erasures::extended;
pub use self::looked_up::{
    ShortListing, lookup_erasures, lookup_error_beside_erasure, lookup_single_error,
};
pub use self::single::correct_single;
