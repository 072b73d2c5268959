//! The uses of the library, each a short function: those that the pages of the Rust crate bech32
//! show, then codex32. The test of a file calls them. Callers with contracts of their own, and a
//! checksum declared as one's own.
#![tactic(auto)]

#[cfg(test)]
pub mod callers;
#[cfg(test)]
mod tests;
