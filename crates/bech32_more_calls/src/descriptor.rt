//! What `bech32_c` does with descriptors, with Rust's types: the calls of `bech32_descriptor` that
//! put into buffers.

pub mod checks;
pub mod mends;
pub mod two_mends;
