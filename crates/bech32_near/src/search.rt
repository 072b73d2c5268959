//! The steps by which all patterns of few errors are gathered that explain a residue.

mod gathering;
mod pairs;
mod sketch;
mod table;
mod terms;

pub use self::gathering::{Listings, gathered};
