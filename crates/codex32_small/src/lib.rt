//! The functions of `codex32_calls` that read, make and derive strings, for small machines: with
//! the same contracts, by short bodies.
//!
//! The remainder by either generator is one row of elements, which takes one element at a time, and
//! no string is copied but into the caller's buffer. As in `codex32_steady`, no branch and no
//! address depends on secret characters.
//!
//! Below it: `codex32_calls`, whose definitions and refusals these have.
//! Standard: BIP-93.
#![tactic(auto)]

pub mod derive;
pub mod encode;
mod letters;
mod part;
mod product;
mod register;
pub mod share;
