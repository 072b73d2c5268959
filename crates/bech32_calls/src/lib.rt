//! What the functions of `bech32_c` do, with Rust's types: they return lengths, or a
//! [`Refusal`](refusal::Refusal), whose number a C program gets.
//!
//! A checksum is asked for by its number: 1 is Bech32, 2 is Bech32m. What is written stands at the
//! front of the caller's buffers; behind it nothing changes, and on a refusal nothing changes at
//! all. No function takes any memory but what a caller lends to [`nearest::put_nearest`],
//! [`near_edits::put_near_edits`] and [`suggest::put_suggestions`], which put what fits.
//!
//! Below it: `bech32`, `bech32_suggest`, `bech32_numbers`, `caller_memory`.
//! Standard: BIP-173; BIP-350.
#![tactic(auto)]

mod checksum;
pub mod correct;
pub mod decode;
pub mod elements;
pub mod encode;
pub mod engine;
pub mod fault;
pub mod input;
pub mod listed;
pub mod near_edits;
pub mod nearest;
pub mod refusal;
pub mod segwit;
pub mod strict;
pub mod suggest;
