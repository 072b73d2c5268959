//! What the functions of `codex32_c` do, with Rust's types: they return lengths and headers, or a
//! [`Refusal`](refusal::Refusal), whose number a C program gets.
//!
//! What is written stands at the front of the caller's buffers; behind it nothing changes, and on a
//! refusal nothing changes at all. No function takes any memory but what a caller lends to
//! [`propose::nearest_of`].
//!
//! Below it: `codex32`, `caller_memory`.
//! Standard: BIP-93.
#![tactic(auto)]

pub mod derive;
pub mod encode;
pub mod input;
mod output;
pub mod parse;
pub mod propose;
pub mod recover;
pub mod refusal;
pub mod share;
pub mod split;

pub use self::input::Texts;
