//! The functions of `bech32_c` for texts, addresses and mending, for small machines: the same
//! declarations and contracts (`include/bech32.h`), over the short bodies of `bech32_small`.
//!
//! What is said of pointers, lengths and buffers at `bech32_c` holds here too.
//!
//! Below it: `bech32_small`, `bech32_numbers`.
//! Standard: BIP-173; BIP-350.
#![tactic(auto)]

pub mod correct;
pub mod decode;
pub mod encode;
pub mod fault;
pub mod message;
pub mod segwit;
#[cfg(test)]
mod tests;
pub mod version;
