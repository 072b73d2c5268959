//! The elements in order of their characters.

ghost use Rattle.std.specs.Prelude.{◌≡◌};
ghost use Rattle.std.specs.Iterator.{YieldsFirst, item_count};
ghost use Rattle.bech32_gf.specs.Alphabetical.{alphabetical, alphabetical_left};

use super::Fe32;

// The characters of the elements, a to z and then 0 to 9.
const ALPHABETICAL: [u8; 32] = [
    b'a', b'c', b'd', b'e', b'f', b'g', b'h', b'j', b'k', b'l', b'm', b'n', b'p', b'q', b'r', b's',
    b't', b'u', b'v', b'w', b'x', b'y', b'z', b'0', b'2', b'3', b'4', b'5', b'6', b'7', b'8', b'9',
];

/// The elements in order of their characters, a to z and then 0 to 9.
#[derive(Clone, Debug, Drop)]
pub struct AlphaIter {
    // How many of them were given.
    given: usize,
}

impl Fe32 {
    /// All elements, in order of their characters: a to z and then 0 to 9.
    pub fn iter_alpha() -> AlphaIter
        ensures { alphabetical_left result ≡ alphabetical }
    {
        AlphaIter { given: 0 }
    }
}

impl Iterator for AlphaIter {
    type Item = Fe32;

    ghost next_gives = { YieldsFirst alphabetical_left };

    ghost remaining = { item_count alphabetical_left };

    fn next(&mut self) -> Option<Fe32> {
        if self.given >= 32 {
            return None;
        }
        let item = Fe32::from_char_unchecked(ALPHABETICAL[self.given]);
        self.given += 1;
        Some(item)
    }
}
