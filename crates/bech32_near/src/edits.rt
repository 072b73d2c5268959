//! All texts that one edit makes of a text, and that a checksum accepts: two neighbours swapped, a
//! character left out, or one put in.

mod edit;
mod error;
mod places;
mod powers;
mod residue;
mod texts;
mod walks;

pub use self::edit::{Change, Edit, NearEdit};
pub use self::error::EditsError;
pub use self::texts::{near_edits, near_edits_of_reading};
