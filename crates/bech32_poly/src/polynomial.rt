//! Polynomials over a field: lists of coefficients, the constant one first.

pub(crate) mod coefficients;
mod division;
pub(crate) mod roots;

pub use coefficients::{Polynomial, evaluate};
pub(crate) use division::divide;
pub use division::remainder;
pub use roots::RootIter;
