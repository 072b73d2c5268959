//! The replies of the program `c32` to the lines of its input.
//!
//! Below it: `codex32`, `line_program`, `b32_replies`.
//! Standard: BIP-93.
#![tactic(auto)]

mod command;
mod count_word;
mod derive;
mod encode;
pub mod laws;
mod parse;
mod propose;
mod refusal;
pub mod reply;
mod share;
mod split;
