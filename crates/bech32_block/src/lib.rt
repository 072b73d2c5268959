//! The printed block of a checksum: from a generator and a target to Rust code that defines it.
//!
//! Below it: `bech32_packing`.
//! Standard: BIP-173, Checksum.
#![tactic(auto)]

mod error;
mod hex;
mod named;
mod print;
mod roots;
mod series;
mod text;

pub use self::error::PrintError;
pub use self::named::NamedField;
pub use self::print::PrintImpl;
