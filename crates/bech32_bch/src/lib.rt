//! Correction over any field and an extension of it: where the errors that leave a residue may be,
//! and their values.
//!
//! Below it: `bech32_poly`.
//! Standard: BIP-173, Checksum design.
#![tactic(auto)]

mod decoder;
mod listing;
mod locations;
mod short_vec;
mod syndromes;
mod terms;
mod values;

pub use self::decoder::{Roots, decode_errors};
pub use self::listing::{highest_location, value_at_location};
pub use self::locations::contains;
pub use self::short_vec::ShortVec;
pub use self::terms::locators_of;
pub use bech32_poly::fieldvec::NO_ALLOC_MAX_LENGTH;
