//! The bytes and characters of a human-readable part in lower case, in turn, from either end.

ghost use Rattle.std.specs.Prelude.{◌≡◌, IfSome};
ghost use Rattle.bech32_hrp.specs.Hints.{IsHintFor};
ghost use Rattle.bech32_hrp.specs.HrpBytes.{lowered_bytes};

use crate::{ByteIter, Hrp};
use std::iter::FusedIterator;

/// The bytes of a human-readable part in lower case, from either end.
#[derive(Drop)]
pub struct LowercaseByteIter<'b> {
    iter: ByteIter<'b>,
}

/// The characters of a human-readable part in lower case, from either end.
#[derive(Drop)]
pub struct LowercaseCharIter<'b> {
    bytes: LowercaseByteIter<'b>,
}

impl Hrp {
    ghost use Rattle.bech32_hrp.specs.Iterators.{lower_bytes_to_come, lower_chars_to_come};

    /// The bytes in lower case.
    pub fn lowercase_byte_iter(&self) -> LowercaseByteIter<'_>
        ensures { lower_bytes_to_come result ≡ lowered_bytes self.now }
    {
        LowercaseByteIter {
            iter: self.byte_iter(),
        }
    }

    /// The characters in lower case.
    pub fn lowercase_char_iter(&self) -> LowercaseCharIter<'_>
        ensures { lower_chars_to_come result ≡ lowered_bytes self.now }
    {
        LowercaseCharIter {
            bytes: self.lowercase_byte_iter(),
        }
    }
}

impl<'b> Iterator for LowercaseByteIter<'b> {
    type Item = u8;

    ghost use Rattle.std.specs.Iterator.{UpTo, YieldsFirst, item_count};
    ghost use Rattle.std.specs.Iterator.SizeHint.{IsWithinCount};
    ghost use Rattle.bech32_hrp.specs.Iterators.{lower_bytes_to_come};

    ghost next_gives = { YieldsFirst lower_bytes_to_come };

    ghost remaining = { item_count lower_bytes_to_come };

    #[inline]
    fn next(&mut self) -> Option<u8> {
        Some(self.iter.next()?.to_ascii_lowercase())
    }

    fn size_hint(&self) -> (usize, Option<usize>)
        ensures lower { IsWithinCount result.0 (item_count lower_bytes_to_come self.now) }
        ensures upper { IfSome result.1 (UpTo (item_count lower_bytes_to_come self.now)) }
        ensures exact { IsHintFor result (lower_bytes_to_come self.now) }
    {
        (self.len(), Some(self.len()))
    }
}

impl<'b> DoubleEndedIterator for LowercaseByteIter<'b> {
    ghost use Rattle.std.specs.Iterator.{YieldsLast};
    ghost use Rattle.bech32_hrp.specs.Iterators.{lower_bytes_to_come};

    ghost next_back_gives = { YieldsLast lower_bytes_to_come };

    #[inline]
    fn next_back(&mut self) -> Option<u8> {
        Some(self.iter.next_back()?.to_ascii_lowercase())
    }
}

impl<'b> ExactSizeIterator for LowercaseByteIter<'b> {
    fn len(&self) -> usize {
        self.iter.len()
    }
}

impl<'b> FusedIterator for LowercaseByteIter<'b> {}

impl<'b> Iterator for LowercaseCharIter<'b> {
    type Item = char;

    ghost use Rattle.std.specs.Iterator.{UpTo, YieldsFirst, item_count};
    ghost use Rattle.std.specs.Iterator.SizeHint.{IsWithinCount};
    ghost use Rattle.bech32_hrp.specs.Iterators.{lower_chars_to_come};

    ghost next_gives = { YieldsFirst lower_chars_to_come };

    ghost remaining = { item_count lower_chars_to_come };

    #[inline]
    fn next(&mut self) -> Option<char> {
        Some(char::from(self.bytes.next()?))
    }

    fn size_hint(&self) -> (usize, Option<usize>)
        ensures lower { IsWithinCount result.0 (item_count lower_chars_to_come self.now) }
        ensures upper { IfSome result.1 (UpTo (item_count lower_chars_to_come self.now)) }
        ensures exact { IsHintFor result (lower_chars_to_come self.now) }
    {
        self.bytes.size_hint()
    }
}

impl<'b> DoubleEndedIterator for LowercaseCharIter<'b> {
    ghost use Rattle.std.specs.Iterator.{YieldsLast};
    ghost use Rattle.bech32_hrp.specs.Iterators.{lower_chars_to_come};

    ghost next_back_gives = { YieldsLast lower_chars_to_come };

    #[inline]
    fn next_back(&mut self) -> Option<char> {
        Some(char::from(self.bytes.next_back()?))
    }
}

impl<'b> ExactSizeIterator for LowercaseCharIter<'b> {
    fn len(&self) -> usize {
        self.bytes.len()
    }
}

impl<'b> FusedIterator for LowercaseCharIter<'b> {}
