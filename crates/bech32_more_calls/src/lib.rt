//! What `bech32_c` does beside the calls of `bech32_calls`, with Rust's types: columns of texts,
//! descriptors, and confidential addresses of Liquid.
//!
//! Below it: `bech32_calls`, `bech32_descriptor`, `liquid`, `caller_memory`.
//! Standard: BIP-173; BIP-350; BIP-380; the memory layout of Apache Arrow's columns; Elements,
//! `src/blech32.cpp` and `src/key_io.cpp`.
#![tactic(auto)]

pub mod columns;
pub mod confidential;
pub mod descriptor;
