//! The bytes and characters of a human-readable part, in turn, from either end.

ghost use Rattle.std.specs.Prelude.{◌≡◌, IfSome};
ghost use Rattle.bech32_hrp.specs.Hints.{IsHintFor};
ghost use Rattle.bech32_hrp.specs.HrpBytes.{hrp_bytes};

use crate::Hrp;
use std::iter::FusedIterator;

/// The bytes of a human-readable part, in the case that they were parsed in, from either end.
#[derive(Drop)]
pub struct ByteIter<'b> {
    rest: &'b [u8],
}

/// The characters of a human-readable part, in the case that they were parsed in, from either end.
#[derive(Drop)]
pub struct CharIter<'b> {
    bytes: ByteIter<'b>,
}

impl Hrp {
    ghost use Rattle.bech32_hrp.specs.Iterators.{hrp_bytes_to_come, chars_to_come};

    /// The bytes, in the case that they were parsed in.
    pub fn byte_iter(&self) -> ByteIter<'_>
        ensures { hrp_bytes_to_come result ≡ hrp_bytes self.now }
    {
        ByteIter {
            rest: self.as_bytes(),
        }
    }

    /// The characters, in the case that they were parsed in.
    pub fn char_iter(&self) -> CharIter<'_>
        ensures { chars_to_come result ≡ hrp_bytes self.now }
    {
        CharIter {
            bytes: self.byte_iter(),
        }
    }
}

impl<'b> Iterator for ByteIter<'b> {
    type Item = u8;

    ghost use Rattle.std.specs.Iterator.{UpTo, YieldsFirst, item_count};
    ghost use Rattle.std.specs.Iterator.SizeHint.{IsWithinCount};
    ghost use Rattle.bech32_hrp.specs.Iterators.{hrp_bytes_to_come};

    ghost next_gives = { YieldsFirst hrp_bytes_to_come };

    ghost remaining = { item_count hrp_bytes_to_come };

    #[inline]
    fn next(&mut self) -> Option<u8> {
        Some(*self.rest.split_off_first()?)
    }

    fn size_hint(&self) -> (usize, Option<usize>)
        ensures lower { IsWithinCount result.0 (item_count hrp_bytes_to_come self.now) }
        ensures upper { IfSome result.1 (UpTo (item_count hrp_bytes_to_come self.now)) }
        ensures exact { IsHintFor result (hrp_bytes_to_come self.now) }
    {
        (self.len(), Some(self.len()))
    }
}

impl<'b> DoubleEndedIterator for ByteIter<'b> {
    ghost use Rattle.std.specs.Iterator.{YieldsLast};
    ghost use Rattle.bech32_hrp.specs.Iterators.{hrp_bytes_to_come};

    ghost next_back_gives = { YieldsLast hrp_bytes_to_come };

    #[inline]
    fn next_back(&mut self) -> Option<u8> {
        Some(*self.rest.split_off_last()?)
    }
}

impl<'b> ExactSizeIterator for ByteIter<'b> {
    fn len(&self) -> usize {
        self.rest.len()
    }
}

impl<'b> FusedIterator for ByteIter<'b> {}

impl<'b> Iterator for CharIter<'b> {
    type Item = char;

    ghost use Rattle.std.specs.Iterator.{UpTo, YieldsFirst, item_count};
    ghost use Rattle.std.specs.Iterator.SizeHint.{IsWithinCount};
    ghost use Rattle.bech32_hrp.specs.Iterators.{chars_to_come};

    ghost next_gives = { YieldsFirst chars_to_come };

    ghost remaining = { item_count chars_to_come };

    #[inline]
    fn next(&mut self) -> Option<char> {
        Some(char::from(self.bytes.next()?))
    }

    fn size_hint(&self) -> (usize, Option<usize>)
        ensures lower { IsWithinCount result.0 (item_count chars_to_come self.now) }
        ensures upper { IfSome result.1 (UpTo (item_count chars_to_come self.now)) }
        ensures exact { IsHintFor result (chars_to_come self.now) }
    {
        self.bytes.size_hint()
    }
}

impl<'b> DoubleEndedIterator for CharIter<'b> {
    ghost use Rattle.std.specs.Iterator.{YieldsLast};
    ghost use Rattle.bech32_hrp.specs.Iterators.{chars_to_come};

    ghost next_back_gives = { YieldsLast chars_to_come };

    #[inline]
    fn next_back(&mut self) -> Option<char> {
        Some(char::from(self.bytes.next_back()?))
    }
}

impl<'b> ExactSizeIterator for CharIter<'b> {
    fn len(&self) -> usize {
        self.bytes.len()
    }
}

impl<'b> FusedIterator for CharIter<'b> {}
