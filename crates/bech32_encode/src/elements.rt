//! The elements that a checksum covers, and the checksum.

ghost use Rattle.std.specs.Prelude.{◌≡◌, ◌+◌, ◌++◌, false, List, length, IfSome};
ghost use Rattle.std.specs.Iterator.{UpTo, count_map};
ghost use Rattle.std.specs.Iterator.Adapters.{fuse_source, fuse_done};
ghost use Rattle.std.specs.Iterator.SizeHint.{IsWithinCount};
ghost use Rattle.bech32_gf.specs.declared.gf32.Fe32.{Fe32 as Element};
ghost use Rattle.bech32_bits.specs.SizeHints.{FollowsHint};
ghost use Rattle.bech32_bits.specs.Walks.{EachWalkGives, EachRunGives};

use super::version::WitnessVersionIter;
use crate::{Adaptor, Checksummed};
use bech32_bits::hints::longer_hint;
use bech32_checksum::{Checksum, Engine, HrpFe32Iter};
use bech32_gf::gf32::Fe32;
use bech32_hrp::Hrp;
use std::iter::{Fuse, FusedIterator};
use std::marker::PhantomData;

/// The elements of a human-readable part, then the elements of an iterator, and their checksum
/// (BIP-173, Checksum).
#[derive(Drop)]
pub struct Fe32Iter<'hrp, I, Ck: Checksum> {
    hrp: HrpFe32Iter<'hrp>,
    checksummed: Checksummed<WitnessVersionIter<I>, Ck>,
    // The types inside `checksummed`: the borrow checker asks a struct with a lifetime for them.
    inner_types: PhantomData<(Fuse<I>, Engine<Ck>)>,
}

impl<'hrp, I, Ck: Checksum> Adaptor for Fe32Iter<'hrp, I, Ck> {
    ghost use Rattle.bech32_checksum.specs.HrpFes.{hrp_fes_rest};

    type Source = WitnessVersionIter<I>;

    type Given = Fe32;

    ghost source = { λ s.
        ⟦<Checksummed<WitnessVersionIter<I>, Ck> as Adaptor>⟧.source s.checksummed };

    ghost gives = { λ s xs. hrp_fes_rest s.hrp
        ++ ⟦<Checksummed<WitnessVersionIter<I>, Ck> as Adaptor>⟧.gives s.checksummed xs };

    ghost more = { λ s. ⟦<Checksummed<WitnessVersionIter<I>, Ck> as Adaptor>⟧.more s.checksummed
        + length (hrp_fes_rest s.hrp) };
}

impl<'hrp, I: Iterator<Item = Fe32>, Ck: Checksum> Fe32Iter<'hrp, I, Ck> {
    ghost use Rattle.bech32_checksum.specs.Encoded.{IsEncodedElements};
    ghost use Rattle.bech32_hrp.specs.HrpBytes.{hrp_bytes};
    ghost use Rattle.bech32_encode.specs.WitnessVersion.{version_steps};

    /// The elements of the human-readable part, the elements and their checksum.
    pub fn new(hrp: &'hrp Hrp, elements: WitnessVersionIter<I>) -> Self
        ensures source { fuse_source (⟦<Fe32Iter<'hrp, I, Ck> as Adaptor>⟧.source result)
            ≡ elements }
        ensures fresh { fuse_done (⟦<Fe32Iter<'hrp, I, Ck> as Adaptor>⟧.source result) ≡ false }
        ensures gives { (xs : List Element) → IsEncodedElements Ck.code (hrp_bytes hrp.now) xs
            (⟦<Fe32Iter<'hrp, I, Ck> as Adaptor>⟧.gives result xs) }
        // A whole walk gives what a whole walk of the elements gives, between those of the part and
        // the checksum.
        ensures walk { EachWalkGives (version_steps I.next_gives) elements
            ⟦<Fe32Iter<'hrp, I, Ck> as Iterator>⟧.next_gives result
            (IsEncodedElements Ck.code (hrp_bytes hrp.now)) }
        ensures runs { EachRunGives (version_steps I.next_gives) elements
            ⟦<Fe32Iter<'hrp, I, Ck> as Iterator>⟧.next_gives result
            (IsEncodedElements Ck.code (hrp_bytes hrp.now)) }
    {
        Fe32Iter {
            hrp: HrpFe32Iter::new(hrp),
            checksummed: Checksummed::new_hrp(*hrp, elements),
            inner_types: PhantomData,
        }
    }
}

impl<'hrp, I: Iterator<Item = Fe32>, Ck: Checksum> Iterator for Fe32Iter<'hrp, I, Ck> {
    type Item = Fe32;

    ghost use Rattle.bech32_bits.specs.Adaptor.{Adapts, fuse_left};
    ghost use Rattle.bech32_checksum.specs.HrpFes.{hrp_fes_rest};
    ghost use Rattle.bech32_encode.specs.WitnessVersion.{version_steps};

    ghost can_next = { λ s.
        ⟦<Checksummed<WitnessVersionIter<I>, Ck> as Iterator>⟧.can_next s.checksummed };

    ghost next_gives = { Adapts (version_steps I.next_gives)
        ⟦<Fe32Iter<'hrp, I, Ck> as Adaptor>⟧.source
        ⟦<Fe32Iter<'hrp, I, Ck> as Adaptor>⟧.gives };

    ghost remaining = { λ s. count_map (λ n. n + ⟦<Fe32Iter<'hrp, I, Ck> as Adaptor>⟧.more s)
        (fuse_left ⟦<WitnessVersionIter<I> as Iterator>⟧.remaining
        (⟦<Fe32Iter<'hrp, I, Ck> as Adaptor>⟧.source s)) };

    #[inline]
    fn next(&mut self) -> Option<Fe32> {
        match self.hrp.next() {
            Some(fe) => Some(fe),
            None => self.checksummed.next(),
        }
    }

    fn size_hint(&self) -> (usize, Option<usize>)
        ensures lower { IsWithinCount result.0
            (⟦<Fe32Iter<'hrp, I, Ck> as Iterator>⟧.remaining self.now) }
        ensures upper { IfSome result.1
            (UpTo (⟦<Fe32Iter<'hrp, I, Ck> as Iterator>⟧.remaining self.now)) }
        ensures rule { FollowsHint (λ n. n + ⟦<Fe32Iter<'hrp, I, Ck> as Adaptor>⟧.more self.now)
            (fuse_left ⟦<WitnessVersionIter<I> as Iterator>⟧.remaining
            (⟦<Fe32Iter<'hrp, I, Ck> as Adaptor>⟧.source self.now)) result }
    {
        let (front, _) = self.hrp.size_hint();
        longer_hint(self.checksummed.size_hint(), front)
    }
}

impl<'hrp, I: Iterator<Item = Fe32>, Ck: Checksum> FusedIterator for Fe32Iter<'hrp, I, Ck> {}
