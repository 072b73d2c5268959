//! Elements with their checksum behind them.

ghost use Rattle.std.specs.Prelude.{◌≡◌, ◌≤◌, ◌<◌, ◌+◌, ◌-◌, true, false, List, [], Some, IfSome, IfNone, MatchOption, reverse, unwrap_or};
ghost use Rattle.std.specs.Option.{ForSome};
ghost use Rattle.std.specs.Iterator.{UpTo, count_map};
ghost use Rattle.std.specs.Iterator.Adapters.{fuse_source, fuse_done};
ghost use Rattle.std.specs.Iterator.SizeHint.{IsWithinCount};
ghost use Rattle.bech32_gf.specs.declared.gf32.Fe32.{Fe32 as Element};
ghost use Rattle.bech32_checksum.specs.Packed.{digits};
ghost use Rattle.bech32_bits.specs.SizeHints.{FollowsHint};
ghost use Rattle.bech32_bits.specs.Walks.{EachWalkGives, EachRunGives};

use crate::Adaptor;
use bech32_bits::hints::longer_hint;
use bech32_checksum::{Checksum, Engine, PackedFe32};
use bech32_gf::gf32::Fe32;
use bech32_hrp::Hrp;
use std::alloc::AllocError;
use std::iter::{Fuse, FusedIterator};

/// The elements of an iterator, and then the elements of their checksum.
#[derive(Drop)]
pub struct Checksummed<I, Ck: Checksum> {
    elements: Fuse<I>,
    engine: Engine<Ck>,
    // Once the data has ended: how many elements of the checksum are to come.
    tail: Option<usize>,
    ghost few: { ForSome tail (λ n. n ≤ Ck.CHECKSUM_LENGTH) },
    ghost ended: { ForSome tail (λ _. fuse_done elements ≡ true) },
}

impl<I, Ck: Checksum> Adaptor for Checksummed<I, Ck> {
    ghost use Rattle.bech32_encode.specs.ChecksumElements.{then_checksum};

    type Source = I;

    type Given = Fe32;

    ghost source = { λ s. s.elements };

    ghost gives = { λ s. then_checksum Ck.MidstateRepr.number Ck.code s.engine s.tail };

    ghost more = { λ s. unwrap_or s.tail Ck.CHECKSUM_LENGTH };
}

impl<I: Iterator<Item = Fe32>, Ck: Checksum> Iterator for Checksummed<I, Ck> {
    type Item = Fe32;

    ghost use Rattle.bech32_bits.specs.Adaptor.{Adapts, fuse_can, fuse_left};

    ghost can_next = { λ s. fuse_can I.can_next (⟦<Checksummed<I, Ck> as Adaptor>⟧.source s) };

    ghost next_gives = { Adapts I.next_gives ⟦<Checksummed<I, Ck> as Adaptor>⟧.source
        ⟦<Checksummed<I, Ck> as Adaptor>⟧.gives };

    ghost remaining = { λ s. count_map (λ n. n + ⟦<Checksummed<I, Ck> as Adaptor>⟧.more s)
        (fuse_left I.remaining (⟦<Checksummed<I, Ck> as Adaptor>⟧.source s)) };

    #[inline]
    fn next(&mut self) -> Option<Fe32> {
        match self.elements.next() {
            Some(fe) => {
                self.engine.input_fe(fe);
                Some(fe)
            }
            None => self.next_of_checksum(),
        }
    }

    fn size_hint(&self) -> (usize, Option<usize>)
        ensures lower { IsWithinCount result.0
            (⟦<Checksummed<I, Ck> as Iterator>⟧.remaining self.now) }
        ensures upper { IfSome result.1
            (UpTo (⟦<Checksummed<I, Ck> as Iterator>⟧.remaining self.now)) }
        ensures rule { FollowsHint (λ n. n + ⟦<Checksummed<I, Ck> as Adaptor>⟧.more self.now)
            (fuse_left I.remaining (⟦<Checksummed<I, Ck> as Adaptor>⟧.source self.now)) result }
    {
        longer_hint(
            self.elements.size_hint(),
            self.tail.unwrap_or(Ck::CHECKSUM_LENGTH),
        )
    }
}

impl<I: Iterator<Item = Fe32>, Ck: Checksum> FusedIterator for Checksummed<I, Ck> {}

impl<I: Clone, Ck: Checksum> Clone for Checksummed<I, Ck> {
    ghost use Rattle.bech32_encode.specs.Clones.{IsAdaptorClone};

    ghost is_clone = { IsAdaptorClone ⟦<Fuse<I> as Clone>⟧.is_clone
        ⟦<Checksummed<I, Ck> as Adaptor>⟧.source
        ⟦<Checksummed<I, Ck> as Adaptor>⟧.gives ⟦<Checksummed<I, Ck> as Adaptor>⟧.more };

    ghost is_infallible = { λ s.
        ⟦<Fuse<I> as Clone>⟧.is_infallible (⟦<Checksummed<I, Ck> as Adaptor>⟧.source s) };

    fn clone(&self) -> Result<Self, AllocError> {
        Ok(Checksummed {
            elements: self.elements.clone()?,
            engine: self.engine.clone()?,
            tail: self.tail,
        })
    }
}

impl<I: Iterator<Item = Fe32>, Ck: Checksum> Checksummed<I, Ck> {
    ghost use Rattle.bech32_bits.specs.Adaptor.{then_gives};
    ghost use Rattle.bech32_checksum.specs.TextPolynomial.{IsChecksumOf, IsChecksumOfElements, EndsInChecksum};
    ghost use Rattle.bech32_hrp.specs.HrpBytes.{hrp_bytes};

    /// The elements of an iterator, and then those that make the polynomial of 1, the elements and
    /// them have the target as remainder.
    pub fn new(elements: I) -> Checksummed<I, Ck>
        ensures source { fuse_source (⟦<Checksummed<I, Ck> as Adaptor>⟧.source result) ≡ elements }
        ensures fresh { fuse_done (⟦<Checksummed<I, Ck> as Adaptor>⟧.source result) ≡ false }
        ensures gives { (xs : List Element) → EndsInChecksum (IsChecksumOfElements Ck.code) xs
            (⟦<Checksummed<I, Ck> as Adaptor>⟧.gives result xs) }
        // A whole walk gives what a whole walk of the elements gives, and their checksum.
        ensures walk { EachWalkGives I.next_gives elements
            ⟦<Checksummed<I, Ck> as Iterator>⟧.next_gives result
            (EndsInChecksum (IsChecksumOfElements Ck.code)) }
        ensures runs { EachRunGives I.next_gives elements
            ⟦<Checksummed<I, Ck> as Iterator>⟧.next_gives result
            (EndsInChecksum (IsChecksumOfElements Ck.code)) }
    {
        let elements = elements.fuse();
        Checksummed {
            elements,
            engine: Engine::new(),
            tail: None,
        }
    }

    /// The elements of an iterator, and then their checksum under a human-readable part (BIP-173,
    /// Checksum).
    pub fn new_hrp(hrp: Hrp, elements: I) -> Checksummed<I, Ck>
        ensures source { fuse_source (⟦<Checksummed<I, Ck> as Adaptor>⟧.source result) ≡ elements }
        ensures fresh { fuse_done (⟦<Checksummed<I, Ck> as Adaptor>⟧.source result) ≡ false }
        ensures gives { (xs : List Element)
            → EndsInChecksum (IsChecksumOf Ck.code (hrp_bytes hrp)) xs
            (⟦<Checksummed<I, Ck> as Adaptor>⟧.gives result xs) }
        // A whole walk gives what a whole walk of the elements gives, and their checksum.
        ensures walk { EachWalkGives I.next_gives elements
            ⟦<Checksummed<I, Ck> as Iterator>⟧.next_gives result
            (EndsInChecksum (IsChecksumOf Ck.code (hrp_bytes hrp))) }
        ensures runs { EachRunGives I.next_gives elements
            ⟦<Checksummed<I, Ck> as Iterator>⟧.next_gives result
            (EndsInChecksum (IsChecksumOf Ck.code (hrp_bytes hrp))) }
    {
        let mut engine = Engine::new();
        engine.input_hrp(hrp);
        Checksummed {
            elements: elements.fuse(),
            engine,
            tail: None,
        }
    }

    // Gives the next element of the checksum, where the elements have ended.
    #[inline]
    fn next_of_checksum(&mut self) -> Option<Fe32>
        requires { fuse_done self.old.elements ≡ true }
        ensures elements { self.new.elements ≡ self.old.elements }
        ensures gives { ⟦<Checksummed<I, Ck> as Adaptor>⟧.gives self.old []
            ≡ then_gives result (⟦<Checksummed<I, Ck> as Adaptor>⟧.gives self.new []) }
        ensures nothing_left { IfNone result
            (⟦<Checksummed<I, Ck> as Adaptor>⟧.gives self.new [] ≡ []) }
        ensures goes { IfSome result (λ _.
            ⟦<Checksummed<I, Ck> as Adaptor>⟧.more self.new
            < ⟦<Checksummed<I, Ck> as Adaptor>⟧.more self.old) }
    {
        match self.tail {
            Some(left) => self.next_of_residue(left),
            None => {
                self.engine.input_target_residue();
                self.next_of_residue(Ck::CHECKSUM_LENGTH)
            }
        }
    }

    // Gives the next element of the residue, of which this many are to come.
    #[inline]
    fn next_of_residue(&mut self, left: usize) -> Option<Fe32>
        requires few { left ≤ Ck.CHECKSUM_LENGTH }
        requires ended { fuse_done self.old.elements ≡ true }
        ensures elements { self.new.elements ≡ self.old.elements }
        ensures residue { self.new.engine ≡ self.old.engine }
        ensures tail { self.new.tail ≡ Some (left - 1) }
        ensures given { let number = Ck.MidstateRepr.number self.old.engine in
            reverse (digits left number) ≡ then_gives result (reverse (digits (left - 1) number)) }
        ensures some { MatchOption result (left ≡ 0) (λ _. 0 < left) }
    {
        if left == 0 {
            self.tail = Some(0);
            return None;
        }
        self.tail = Some(left - 1);
        Some(Fe32::from_low_bits(self.engine.residue().unpack(left - 1)))
    }
}
