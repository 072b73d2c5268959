//! What a typed text may stand for: slips and frames.
//!
//! Below it: `bech32_gf`.
//! Standard: BIP-173.
#![tactic(auto)]

mod cleaning;
mod frames;
mod fronts;
mod look_alikes;
mod readings;
mod slips;
mod tries;

pub use self::cleaning::clean;
pub use self::frames::{Frames, add_frames, add_next, count_unread, since};
pub use self::fronts::{Front, fronts_of};
pub use self::readings::{count_twos, has_looks, plain, reading};
pub use self::slips::{Frame, Slip, joined};
pub use self::tries::{
    Budget, MAX_TEXTS, MAX_TRIES, MAX_TWOS, Pass, after, front_at, levels_tried, ways_to_read,
};
