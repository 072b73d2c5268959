//! What bech32 texts are made of: human-readable parts, checksums, groups of bits, and devices.
//!
//! Below it: `bech32_encode`.
//! Standard: BIP-173; BIP-350.
#![tactic(auto)]

pub use bech32_checksum as checksum;
pub use bech32_encode as encode;
pub use bech32_hrp as hrp;
pub use io_traits as device;

/// Iterators that regroup bits, and add checksums.
pub mod iter {
    pub use bech32_bits::{ByteIterExt, BytesToFes, FesToBytes, plain};
    pub use bech32_encode::{Checksummed, Fe32IterExt};
}
