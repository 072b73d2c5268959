//! Texts: a human-readable part, the separator, and the characters of elements and their checksum.

ghost use Rattle.std.specs.Prelude.{◌≡◌, ◌+◌, ◌-◌, ◌≤◌, ◌<◌, List, Some, true, false, length, slice_get, IfSome};
ghost use Rattle.std.specs.Char.{is_ascii};
ghost use Rattle.std.specs.List.{list_all};
ghost use Rattle.std.specs.Iterator.{UpTo, MakesProgress, count_map};
ghost use Rattle.std.specs.Iterator.Adapters.{fuse_source, fuse_done};
ghost use Rattle.std.specs.Iterator.SizeHint.{IsWithinCount};
ghost use Rattle.bech32_gf.specs.declared.gf32.Fe32.{Fe32 as Element};
ghost use Rattle.bech32_encode.specs.TextFrom.{text_front, text_from};
ghost use Rattle.bech32_bits.specs.SizeHints.{FollowsHint};
ghost use Rattle.bech32_bits.specs.Walks.{EachWalkGives, EachRunGives};

use super::version::WitnessVersionIter;
use crate::{Adaptor, Checksummed};
use bech32_bits::hints::longer_hint;
use bech32_checksum::{Checksum, Engine};
use bech32_gf::gf32::Fe32;
use bech32_hrp::Hrp;
use std::iter::{Fuse, FusedIterator};
use std::marker::PhantomData;

/// The characters of a text: the human-readable part in lower case, `1`, and the characters of the
/// elements and of their checksum (BIP-173, Bech32).
#[derive(Drop)]
pub struct CharIter<'hrp, I, Ck: Checksum> {
    // The bytes of the human-readable part, and how many of those and the separator have come.
    hrp: &'hrp [u8],
    place: usize,
    checksummed: Checksummed<WitnessVersionIter<I>, Ck>,
    // The types inside `checksummed`: the borrow checker asks a struct with a lifetime for them.
    inner_types: PhantomData<(Fuse<I>, Engine<Ck>)>,
    ghost short: { length hrp.now ≤ 83 },
    ghost ascii: { list_all is_ascii hrp.now ≡ true },
}

// The byte at a place of a human-readable part in lower case and the separator.
#[inline]
fn front_byte(hrp: &[u8], place: usize) -> u8
    requires within { place ≤ length hrp.now }
    requires ascii { list_all is_ascii hrp.now ≡ true }
    ensures byte { slice_get (text_front hrp.now) place ≡ Some result }
    ensures ascii { result < 128 }
{
    if place < hrp.len() {
        hrp[place].to_ascii_lowercase()
    } else {
        b'1'
    }
}

impl<'hrp, I, Ck: Checksum> Adaptor for CharIter<'hrp, I, Ck> {
    type Source = WitnessVersionIter<I>;

    type Given = char;

    ghost source = { λ s.
        ⟦<Checksummed<WitnessVersionIter<I>, Ck> as Adaptor>⟧.source s.checksummed };

    ghost gives = { λ s xs. text_from s.hrp.now s.place
        (⟦<Checksummed<WitnessVersionIter<I>, Ck> as Adaptor>⟧.gives s.checksummed xs) };

    ghost more = { λ s. ⟦<Checksummed<WitnessVersionIter<I>, Ck> as Adaptor>⟧.more s.checksummed
        + (length s.hrp.now + 1 - s.place) };
}

impl<'hrp, I: Iterator<Item = Fe32>, Ck: Checksum> CharIter<'hrp, I, Ck> {
    ghost use Rattle.bech32_encode.specs.WitnessVersion.{version_steps};
    ghost use Rattle.bech32_checksum.specs.Encoded.{IsEncodedText};
    ghost use Rattle.bech32_hrp.specs.HrpBytes.{hrp_bytes};

    /// The characters of the text of the elements and their checksum.
    pub fn new(hrp: &'hrp Hrp, elements: WitnessVersionIter<I>) -> Self
        ensures source { fuse_source (⟦<CharIter<'hrp, I, Ck> as Adaptor>⟧.source result)
            ≡ elements }
        ensures fresh { fuse_done (⟦<CharIter<'hrp, I, Ck> as Adaptor>⟧.source result) ≡ false }
        ensures gives { (xs : List Element) → IsEncodedText Ck.code (hrp_bytes hrp.now) xs
            (⟦<CharIter<'hrp, I, Ck> as Adaptor>⟧.gives result xs) }
        // A whole walk gives the text of what a whole walk of the elements gives.
        ensures walk { EachWalkGives (version_steps I.next_gives) elements
            ⟦<CharIter<'hrp, I, Ck> as Iterator>⟧.next_gives result
            (IsEncodedText Ck.code (hrp_bytes hrp.now)) }
        ensures runs { EachRunGives (version_steps I.next_gives) elements
            ⟦<CharIter<'hrp, I, Ck> as Iterator>⟧.next_gives result
            (IsEncodedText Ck.code (hrp_bytes hrp.now)) }
    {
        CharIter {
            hrp: hrp.as_bytes(),
            place: 0,
            checksummed: Checksummed::new_hrp(*hrp, elements),
            inner_types: PhantomData,
        }
    }

    // The next character as a byte.
    #[inline]
    pub(crate) fn next_byte(&mut self) -> Option<u8>
        requires { ⟦<CharIter<'hrp, I, Ck> as Iterator>⟧.can_next self.old }
        ensures steps { ⟦<CharIter<'hrp, I, Ck> as Iterator>⟧.next_gives self.old result self.new }
        ensures goes { MakesProgress ⟦<CharIter<'hrp, I, Ck> as Iterator>⟧.can_next
            ⟦<CharIter<'hrp, I, Ck> as Iterator>⟧.remaining self.old result self.new }
    {
        if self.place <= self.hrp.len() {
            let byte = front_byte(self.hrp, self.place);
            self.place += 1;
            return Some(byte);
        }
        match self.checksummed.next() {
            Some(fe) => Some(fe.to_char() as u8),
            None => None,
        }
    }
}

impl<'hrp, I: Iterator<Item = Fe32>, Ck: Checksum> Iterator for CharIter<'hrp, I, Ck> {
    type Item = char;

    ghost use Rattle.bech32_bits.specs.Adaptor.{Adapts, fuse_left};
    ghost use Rattle.bech32_encode.specs.WitnessVersion.{version_steps};

    ghost can_next = { λ s.
        ⟦<Checksummed<WitnessVersionIter<I>, Ck> as Iterator>⟧.can_next s.checksummed };

    ghost next_gives = { λ s r t.
        Adapts (version_steps I.next_gives) ⟦<CharIter<'hrp, I, Ck> as Adaptor>⟧.source
        ⟦<CharIter<'hrp, I, Ck> as Adaptor>⟧.gives s r t × IfSome r (λ c. c < 128) };

    ghost remaining = { λ s. count_map (λ n. n + ⟦<CharIter<'hrp, I, Ck> as Adaptor>⟧.more s)
        (fuse_left ⟦<WitnessVersionIter<I> as Iterator>⟧.remaining
        (⟦<CharIter<'hrp, I, Ck> as Adaptor>⟧.source s)) };

    #[inline]
    fn next(&mut self) -> Option<char> {
        match self.next_byte() {
            Some(byte) => Some(byte as char),
            None => None,
        }
    }

    fn size_hint(&self) -> (usize, Option<usize>)
        ensures lower { IsWithinCount result.0
            (⟦<CharIter<'hrp, I, Ck> as Iterator>⟧.remaining self.now) }
        ensures upper { IfSome result.1
            (UpTo (⟦<CharIter<'hrp, I, Ck> as Iterator>⟧.remaining self.now)) }
        ensures rule { FollowsHint (λ n. n + ⟦<CharIter<'hrp, I, Ck> as Adaptor>⟧.more self.now)
            (fuse_left ⟦<WitnessVersionIter<I> as Iterator>⟧.remaining
            (⟦<CharIter<'hrp, I, Ck> as Adaptor>⟧.source self.now)) result }
    {
        let front = (self.hrp.len() + 1).saturating_sub(self.place);
        longer_hint(self.checksummed.size_hint(), front)
    }
}

impl<'hrp, I: Iterator<Item = Fe32>, Ck: Checksum> FusedIterator for CharIter<'hrp, I, Ck> {}
