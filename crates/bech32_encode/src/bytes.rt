//! The bytes of texts.

ghost use Rattle.std.specs.Prelude.{◌≡◌, ◌+◌, ℕ, List, true, IfSome};
ghost use Rattle.std.specs.Iterator.{Drains, UpTo};
ghost use Rattle.std.specs.Iterator.Runs.{EachRunFrom, SomeRun};
ghost use Rattle.std.specs.Iterator.SizeHint.{IsWithinCount};
ghost use Rattle.bech32_gf.specs.declared.gf32.Fe32.{Fe32 as Element};
ghost use Rattle.bech32_bits.specs.SizeHints.{FollowsHint};

use super::texts::CharIter;
use super::version::WitnessVersionIter;
use crate::Adaptor;
use bech32_checksum::Checksum;
use bech32_gf::gf32::Fe32;
use std::iter::FusedIterator;

/// The characters of a text as bytes; all of them are ASCII.
#[derive(Drop)]
pub struct ByteIter<'hrp, I, Ck: Checksum> {
    chars: CharIter<'hrp, I, Ck>,
}

impl<'hrp, I, Ck: Checksum> Adaptor for ByteIter<'hrp, I, Ck> {
    type Source = WitnessVersionIter<I>;

    type Given = u8;

    ghost source = { λ s. ⟦<CharIter<'hrp, I, Ck> as Adaptor>⟧.source s.chars };

    ghost gives = { λ s. ⟦<CharIter<'hrp, I, Ck> as Adaptor>⟧.gives s.chars };

    ghost more = { λ s. ⟦<CharIter<'hrp, I, Ck> as Adaptor>⟧.more s.chars };
}

impl<'hrp, I: Iterator<Item = Fe32>, Ck: Checksum> ByteIter<'hrp, I, Ck> {
    /// The bytes of the characters that are to come.
    #[inline]
    pub fn new(chars: CharIter<'hrp, I, Ck>) -> Self
        ensures source { ⟦<ByteIter<'hrp, I, Ck> as Adaptor>⟧.source result
            ≡ ⟦<CharIter<'hrp, I, Ck> as Adaptor>⟧.source chars.entry }
        ensures gives { (xs : List Element) → ⟦<ByteIter<'hrp, I, Ck> as Adaptor>⟧.gives result xs
            ≡ ⟦<CharIter<'hrp, I, Ck> as Adaptor>⟧.gives chars.entry xs }
        ensures more { ⟦<ByteIter<'hrp, I, Ck> as Adaptor>⟧.more result
            ≡ ⟦<CharIter<'hrp, I, Ck> as Adaptor>⟧.more chars.entry }
        // A whole walk gives what a whole walk of the characters gives.
        ensures walk { (bytes : List ℕ)
            → Drains ⟦<ByteIter<'hrp, I, Ck> as Iterator>⟧.next_gives result bytes
            → Drains ⟦<CharIter<'hrp, I, Ck> as Iterator>⟧.next_gives chars.entry bytes }
        // The same, as chains of iterators follow it.
        ensures runs { EachRunFrom ⟦<ByteIter<'hrp, I, Ck> as Iterator>⟧.next_gives result (λ p.
            SomeRun ⟦<CharIter<'hrp, I, Ck> as Iterator>⟧.next_gives chars.entry (λ q.
            (p.whole ≡ true → q.whole ≡ true) × (q.items ≡ p.items))) }
    {
        ByteIter { chars }
    }
}

impl<'hrp, I: Iterator<Item = Fe32>, Ck: Checksum> Iterator for ByteIter<'hrp, I, Ck> {
    type Item = u8;

    ghost use Rattle.bech32_bits.specs.Adaptor.{fuse_left};

    ghost can_next = { λ s. ⟦<CharIter<'hrp, I, Ck> as Iterator>⟧.can_next s.chars };

    ghost next_gives = { λ s r t.
        ⟦<CharIter<'hrp, I, Ck> as Iterator>⟧.next_gives s.chars r t.chars };

    ghost remaining = { λ s. ⟦<CharIter<'hrp, I, Ck> as Iterator>⟧.remaining s.chars };

    #[inline]
    fn next(&mut self) -> Option<u8> {
        self.chars.next_byte()
    }

    fn size_hint(&self) -> (usize, Option<usize>)
        ensures lower { IsWithinCount result.0
            (⟦<ByteIter<'hrp, I, Ck> as Iterator>⟧.remaining self.now) }
        ensures upper { IfSome result.1
            (UpTo (⟦<ByteIter<'hrp, I, Ck> as Iterator>⟧.remaining self.now)) }
        ensures rule { FollowsHint (λ n. n + ⟦<ByteIter<'hrp, I, Ck> as Adaptor>⟧.more self.now)
            (fuse_left ⟦<WitnessVersionIter<I> as Iterator>⟧.remaining
            (⟦<ByteIter<'hrp, I, Ck> as Adaptor>⟧.source self.now)) result }
    {
        self.chars.size_hint()
    }
}

impl<'hrp, I: Iterator<Item = Fe32>, Ck: Checksum> FusedIterator for ByteIter<'hrp, I, Ck> {}
