//! The functions of `codex32_c` that read, make and derive strings, for small machines: the same
//! declarations and contracts (`include/codex32.h`), over the short bodies of `codex32_small`.
//!
//! What is said of pointers, lengths and buffers at `codex32_c` holds here too.
//!
//! Below it: `codex32_small`, `bech32_numbers`.
//! Standard: BIP-93.
#![tactic(auto)]

pub mod derive;
pub mod encode;
pub mod message;
pub mod share;
#[cfg(test)]
mod tests;
pub mod version;
