//! Bech32 for C programs: the calls of `bech32` over numbers and bytes, as `include/bech32.h`
//! declares them.
//!
//! Each call returns 0, or the number of a refusal (`specs/Numbers.antt` of `bech32_calls`, which
//! does the work). What it writes stands at the front of the caller's buffers; behind it nothing
//! changes, and on a refusal nothing changes at all, but for a place that is found, lent memory,
//! and what is said of 91 and 92 at `bech32_nearest`, `bech32_near_edits` and `bech32_suggest`, and
//! of 92 at the calls for columns. No call takes any memory but what a caller lends to it.
//!
//! A `&[u8]` or a `&mut [u8]` is a pointer and then a length to C, and a `&mut` a pointer. None of
//! these pointers may be null, but one beside a length of 0, which nothing follows; and what one
//! points to may not overlap with what a `&mut` does.
//!
//! Below it: `bech32_calls`, `bech32_more_calls`, `bech32_numbers`.
//! Standard: BIP-173; BIP-350; BIP-380.
#![tactic(auto)]

pub mod columns;
pub mod confidential;
pub mod correct;
pub mod decode;
pub mod descriptor;
pub mod elements;
pub mod encode;
pub mod engine;
pub mod fault;
mod listed;
pub mod message;
pub mod near_edits;
pub mod nearest;
pub mod segwit;
pub mod strict;
pub mod suggest;
#[cfg(test)]
mod tests;
pub mod version;
