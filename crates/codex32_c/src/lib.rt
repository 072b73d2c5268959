//! Codex32 for C programs: the calls of `codex32` over numbers and bytes, as `include/codex32.h`
//! declares them.
//!
//! Each call returns 0, or the number of a refusal (`Numbers.antt` of `codex32_calls`), and then
//! changes nothing but lent memory.
//!
//! A `&[u8]` is a pointer and then a length to C, and a `&mut` a pointer. None of these pointers
//! may be null, but one beside a length of 0, which nothing follows; and what one points to may not
//! overlap with what a `&mut` does.
//!
//! Below it: `codex32_calls`, `caller_memory`, `bech32_numbers`.
//! Standard: BIP-93.
#![tactic(auto)]

pub mod derive;
pub mod encode;
pub mod message;
pub mod parse;
pub mod propose;
pub mod recover;
pub mod share;
pub mod split;
#[cfg(test)]
mod tests;
pub mod version;
