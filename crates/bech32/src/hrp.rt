//! Human-readable parts, and those of the Bitcoin networks.

pub use bech32_hrp::{BC, BCRT, Hrp, TB};
