//! Polynomials over fields, shift registers, and the short vectors that they stand in.
//!
//! Below it: `bech32_gf`.
//! Standard: none.
#![tactic(auto)]

pub mod arithmetic;
pub mod fieldvec;
pub mod lfsr;
pub mod polynomial;
