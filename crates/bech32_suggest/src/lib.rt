//! "Did you mean": the addresses of a network that someone who typed a text may have meant.
//!
//! Below it: `bech32_near`.
//! Standard: BIP-173; BIP-350.
#![tactic(auto)]

mod chance;
mod kept;
mod mendings;
mod suggestions;
mod tried;
mod typed;

pub use self::kept::AsText;
pub use self::mendings::{Mending, Suggestion};
pub use self::suggestions::{suggest, suggest_for_reading, validate_typed};
pub use self::typed::{MAX_TYPED_LENGTH, read_typed};
