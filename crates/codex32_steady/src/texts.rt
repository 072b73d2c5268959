//! What codex32 does with texts of secret characters, steadily: no branch and no address depends on
//! the characters, but on whether they are of the alphabet, in one case, and have a right checksum;
//! and where they are not, on the place and the kind of the first fault.
//!
//! Each function has the contract of the plain one of another crate.

pub mod data_part;
pub mod parts;
pub mod payload;
pub mod residue;
pub mod text;
