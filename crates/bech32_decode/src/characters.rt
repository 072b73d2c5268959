//! The quick tests of the characters of a text.

ghost use Rattle.std.specs.Prelude.{◌≡◌, ◌≤◌, true, length, drop};
ghost use Rattle.bech32_gf.specs.Alphabet.{is_of_alphabet, is_data};

use crate::eights::is_stranger;
use crate::parts::{CharacterTests, parse_fault};
use bech32_gf::alphabet::is_data_byte;
use bech32_hrp::{self as hrp, is_part};

// How many bytes are tested at a time.
const BLOCK: usize = 16;

// Whether a byte is of the alphabet, by the table of the walk: the quicker way for one byte.
#[inline]
fn is_in_alphabet(b: u8) -> bool
    ensures { result ≡ is_of_alphabet b }
{
    !is_stranger(b)
}

// Whether bytes are of the alphabet. Each is looked at, so that many can be at a time, as no table
// can be asked.
#[inline]
fn is_data_block(bytes: &[u8]) -> bool
    ensures { result ≡ is_data bytes.now }
{
    let mut data = true;
    for b in bytes {
        data &= is_data_byte(*b);
    }
    data
}

// Where the blocks at the end of a text begin that are of the alphabet.
#[inline]
fn blocks_start(bytes: &[u8]) -> usize
    ensures bound { result ≤ length bytes.now }
    ensures data { is_data (drop result bytes.now) ≡ true }
{
    let mut start = bytes.len();
    while start >= BLOCK && is_data_block(&bytes[start - BLOCK..start]) {
        start -= BLOCK;
    }
    start
}

/// The quick tests: a branch or an address may depend on any character.
pub(crate) enum Quick {}

impl CharacterTests for Quick {
    fn data_start(bytes: &[u8]) -> usize {
        let mut start = blocks_start(bytes);
        while start > 0 && is_in_alphabet(bytes[start - 1]) {
            start -= 1;
        }
        start
    }

    fn part_fault(front: &str) -> Option<hrp::Error> {
        // The quick test comes first: most texts that come here have a part.
        if is_part(front.as_bytes()) {
            return None;
        }
        parse_fault(front)
    }
}
