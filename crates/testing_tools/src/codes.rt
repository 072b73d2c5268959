//! Checksums that tests declare, as any other crate may.

mod altered;
mod tiny;
mod wide;

pub use self::altered::Altered;
pub use self::tiny::Tiny;
pub use self::wide::Degree13;
