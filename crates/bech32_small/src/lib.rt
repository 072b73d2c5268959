//! The functions of `bech32_calls` for small machines: with the same contracts, by short bodies.
//!
//! No table is larger than that of the 128 ASCII characters, elements and characters come one at a
//! time, and no human-readable part is copied but into the caller's buffer. No function takes any
//! memory.
//!
//! Below it: `bech32_calls`, whose definitions, refusals and places these have.
//! Standard: BIP-173; BIP-350.
#![tactic(auto)]

mod bytes;
mod checksum;
pub mod correct;
pub mod decode;
mod elements;
pub mod encode;
pub mod fault;
mod grammar;
mod input;
mod rows;
mod search;
pub mod segwit;
mod text;
