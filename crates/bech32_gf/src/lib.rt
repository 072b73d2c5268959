//! The fields of bech32 texts: the laws that their operations keep, and the elements of GF(32).
//!
//! Below it: no crate of this repository.
//! Standard: BIP-173, Bech32 (the alphabet) and Checksum (the field).
#![tactic(auto)]

pub mod alphabet;
pub mod arithmetic;
pub mod field;
pub mod gf32;
