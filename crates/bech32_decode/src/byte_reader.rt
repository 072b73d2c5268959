//! Reads the bytes of a data part.

ghost use Rattle.std.specs.Prelude.{◌≡◌, false, true, length, Some, IfSome};
ghost use Rattle.bech32_bits.specs.Bits.{to_bytes};
ghost use Rattle.bech32_gf.specs.Alphabet.{is_data};
ghost use Rattle.bech32_gf.specs.Fe32.{elements_of};

use crate::reader::AsciiToFe32Iter;
use bech32_bits::FesToBytes;
use std::iter::FusedIterator;

/// The bytes of the elements of characters, in turn, with a last part shorter than eight bits
/// dropped (BIP-173, Segwit address format).
#[derive(Drop)]
pub struct ByteIter<'s> {
    iter: FesToBytes<AsciiToFe32Iter<'s>>,
    ghost dropped: { iter.padded ≡ false },
}

impl<'s> ByteIter<'s> {
    ghost use Rattle.bech32_decode.specs.Readers.{bytes_to_come};

    /// Reads characters of the alphabet, in either case.
    pub(crate) fn new(characters: &'s [u8]) -> Self
        requires { is_data characters.now ≡ true }
        ensures { bytes_to_come result ≡ to_bytes (elements_of characters.now) }
    {
        ByteIter {
            iter: FesToBytes::new(AsciiToFe32Iter::new(characters), false),
        }
    }
}

impl<'s> Iterator for ByteIter<'s> {
    type Item = u8;

    ghost use Rattle.std.specs.Iterator.{UpTo, YieldsFirst, item_count};
    ghost use Rattle.std.specs.Iterator.SizeHint.{IsWithinCount};
    ghost use Rattle.bech32_decode.specs.Readers.{bytes_to_come};

    ghost next_gives = { YieldsFirst bytes_to_come };

    ghost remaining = { item_count bytes_to_come };

    #[inline]
    fn next(&mut self) -> Option<u8> {
        self.iter.next()
    }

    fn size_hint(&self) -> (usize, Option<usize>)
        ensures lower { IsWithinCount result.0 (item_count bytes_to_come self.now) }
        ensures upper { IfSome result.1 (UpTo (item_count bytes_to_come self.now)) }
        ensures exact { result
            ≡ (length (bytes_to_come self.now), Some (length (bytes_to_come self.now))) }
    {
        (self.len(), Some(self.len()))
    }
}

impl<'s> ExactSizeIterator for ByteIter<'s> {
    fn len(&self) -> usize {
        self.iter.len()
    }
}

impl<'s> FusedIterator for ByteIter<'s> {}
