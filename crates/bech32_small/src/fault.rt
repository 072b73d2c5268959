//! Says why a text is refused; [`place_of`] says where its fault stands.

ghost use Rattle.bech32_small.specs.Check.{IsNumberOfCheck};

use crate::decode::checked_by;
pub use bech32_calls::fault::place_of;

/// The number of the refusal of a text by the checksum of a number, and 0 where it is accepted: of
/// the first of a number that is not from 1 to 4 (4), a text that is not UTF-8 (2), and its first
/// fault (11 to 15, 21 to 23, 31 to 33).
pub fn number_of(checksum: u32, text: &[u8]) -> u32
    ensures { IsNumberOfCheck checksum text.now result }
{
    match checked_by(checksum, text) {
        Ok(_) => 0,
        Err(number) => number,
    }
}
