//! "Did you mean": the addresses of a network that someone may have meant, whatever was typed.
//!
//! Below it: `bech32_near`, `bech32_typed`.
//! Standard: BIP-173; BIP-350.
#![tactic(auto)]

mod added;
mod search;
mod tried;

pub use self::added::Meant;
pub use self::search::{MAX_TYPED_BYTES, meant};
