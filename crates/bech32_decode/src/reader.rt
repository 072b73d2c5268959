//! Reads the elements of a data part.

ghost use Rattle.std.specs.Prelude.{◌≡◌, true, length, Some, IfSome};
ghost use Rattle.bech32_gf.specs.Alphabet.{is_data};
ghost use Rattle.bech32_gf.specs.Fe32.{elements_of};

use bech32_gf::gf32::Fe32;
use std::iter::FusedIterator;

/// The elements of characters of the alphabet, in turn.
#[derive(Drop)]
pub struct AsciiToFe32Iter<'s> {
    rest: &'s [u8],
    ghost of_alphabet: { is_data rest.now ≡ true },
}

impl<'s> AsciiToFe32Iter<'s> {
    ghost use Rattle.bech32_decode.specs.Readers.{elements_left};

    /// Reads characters of the alphabet, in either case.
    pub(crate) fn new(rest: &'s [u8]) -> Self
        requires { is_data rest.now ≡ true }
        ensures { elements_left result ≡ elements_of rest.now }
    {
        AsciiToFe32Iter { rest }
    }
}

impl<'s> Iterator for AsciiToFe32Iter<'s> {
    type Item = Fe32;

    ghost use Rattle.std.specs.Iterator.{UpTo, YieldsFirst, item_count};
    ghost use Rattle.std.specs.Iterator.SizeHint.{IsWithinCount};
    ghost use Rattle.bech32_decode.specs.Readers.{elements_left};

    ghost next_gives = { YieldsFirst elements_left };

    ghost remaining = { item_count elements_left };

    #[inline]
    fn next(&mut self) -> Option<Fe32> {
        let (first, rest) = self.rest.split_first()?;
        self.rest = rest;
        Some(Fe32::from_char_unchecked(*first))
    }

    fn size_hint(&self) -> (usize, Option<usize>)
        ensures lower { IsWithinCount result.0 (item_count elements_left self.now) }
        ensures upper { IfSome result.1 (UpTo (item_count elements_left self.now)) }
        ensures exact { result
            ≡ (length (elements_left self.now), Some (length (elements_left self.now))) }
    {
        (self.rest.len(), Some(self.rest.len()))
    }
}

impl<'s> ExactSizeIterator for AsciiToFe32Iter<'s> {
    fn len(&self) -> usize {
        self.rest.len()
    }
}

impl<'s> FusedIterator for AsciiToFe32Iter<'s> {}
