//! What the functions of `bech32_c` for confidential addresses of Liquid do, with Rust's types: as
//! those of `bech32_calls` do.

pub mod address;
pub mod nearest;
pub mod refusal;
