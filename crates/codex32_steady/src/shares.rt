//! Shares of a secret (BIP-93): texts at indices, whose elements lie on polynomials of degree below
//! their number. Nothing is allocated.

pub mod agreement;
pub mod derive;
pub mod distinct_indices;
pub mod laws;
pub mod share;
pub mod text;
pub mod weights;
