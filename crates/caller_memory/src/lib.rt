//! Memory that a caller lends, as an allocator.
//!
//! Below it: no crate of this repository.
//! Standard: none.
#![tactic(auto)]

mod lent;
mod memory;
mod slot;

pub use lent::Lent;
pub use memory::Memory;
