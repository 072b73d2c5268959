//! Correction of mistyped texts: what a checksum says of a text that it refuses, and the corrected
//! text.
//!
//! Below it: `bech32_decode`.
//! Standard: BIP-173, Checksum design.
#![tactic(auto)]

mod correctable;
mod correcting;
mod corrector;
mod erasures;
mod error;
mod errors;
mod given;
mod in_place;
mod mending;
mod no_memory;
mod one_call;
mod question;

pub use self::correctable::CorrectableError;
pub use self::correcting::{Correction, Listing, listing_of_text, listing_of_unchecked};
pub use self::corrector::Corrector;
pub use self::error::CorrectError;
pub use self::errors::ErrorIterator;
pub use self::in_place::{
    CorrectsInPlace, bech32_listing, bech32m_listing, lookup_listing, search_listing,
};
pub use self::mending::{mend, mended_in};
pub use self::no_memory::NoMemory;
pub use self::one_call::{Mended, MendedBy, correct, mended_by};
pub use self::question::Question;
