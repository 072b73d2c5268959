//! Elements behind a witness version.

ghost use Rattle.std.specs.Prelude.{◌≡◌, ◌+◌, ◌++◌, false, option_to_list, IfSome};
ghost use Rattle.std.specs.Iterator.{UpTo, MakesProgress, count_map};
ghost use Rattle.std.specs.Iterator.Adapters.{fuse_source, fuse_done};
ghost use Rattle.std.specs.Iterator.SizeHint.{IsWithinCount};
ghost use Rattle.bech32_bits.specs.SizeHints.{FollowsHint};
ghost use Rattle.bech32_bits.specs.Walks.{EachWalkGives, EachRunGives};

use bech32_bits::hints::longer_hint;
use bech32_gf::gf32::Fe32;
use std::iter::{Fuse, FusedIterator};

/// A witness version, if there is one, and then the elements of an iterator (BIP-173, Segwit
/// address format).
#[derive(Drop)]
pub struct WitnessVersionIter<I> {
    // The version, until it has come.
    version: Option<Fe32>,
    elements: Fuse<I>,
}

impl<I: Iterator<Item = Fe32>> WitnessVersionIter<I> {
    ghost use Rattle.bech32_encode.specs.WitnessVersion.{version_source, version_to_come, version_steps};

    /// The version, if there is one, and then the elements.
    #[inline]
    pub fn new(version: Option<Fe32>, elements: I) -> Self
        ensures source { fuse_source (version_source result) ≡ elements }
        ensures fresh { fuse_done (version_source result) ≡ false }
        ensures version { version_to_come result ≡ version }
        // A whole walk gives the version and what a whole walk of the elements gives.
        ensures walk { EachWalkGives I.next_gives elements (version_steps I.next_gives) result
            (λ xs fes. fes ≡ option_to_list version ++ xs) }
        ensures runs { EachRunGives I.next_gives elements (version_steps I.next_gives) result
            (λ xs fes. fes ≡ option_to_list version ++ xs) }
    {
        WitnessVersionIter {
            version,
            elements: elements.fuse(),
        }
    }
}

impl<I: Iterator<Item = Fe32>> Iterator for WitnessVersionIter<I> {
    type Item = Fe32;

    ghost use Rattle.bech32_bits.specs.Adaptor.{fuse_can, fuse_left};
    ghost use Rattle.bech32_encode.specs.WitnessVersion.{version_source, version_to_come, version_steps, version_more};

    ghost can_next = { λ s. fuse_can I.can_next (version_source s) };

    ghost next_gives = { version_steps I.next_gives };

    ghost remaining = { λ s.
        count_map (λ n. n + version_more s) (fuse_left I.remaining (version_source s)) };

    #[inline]
    fn next(&mut self) -> Option<Fe32>
        requires { fuse_can I.can_next (version_source self.old) }
        ensures steps { version_steps I.next_gives self.old result self.new }
        ensures goes { MakesProgress ⟦<WitnessVersionIter<I> as Iterator>⟧.can_next
            ⟦<WitnessVersionIter<I> as Iterator>⟧.remaining self.old result self.new }
        // While the version is to come, no element is asked for.
        ensures waits { IfSome (version_to_come self.old)
            (λ _. version_source self.new ≡ version_source self.old) }
    {
        match self.version {
            Some(version) => {
                self.version = None;
                Some(version)
            }
            None => self.elements.next(),
        }
    }

    fn size_hint(&self) -> (usize, Option<usize>)
        ensures lower { IsWithinCount result.0
            (⟦<WitnessVersionIter<I> as Iterator>⟧.remaining self.now) }
        ensures upper { IfSome result.1
            (UpTo (⟦<WitnessVersionIter<I> as Iterator>⟧.remaining self.now)) }
        ensures rule { FollowsHint (λ n. n + version_more self.now)
            (fuse_left I.remaining (version_source self.now)) result }
    {
        let more = match self.version {
            Some(_) => 1,
            None => 0,
        };
        longer_hint(self.elements.size_hint(), more)
    }
}

impl<I: Iterator<Item = Fe32>> FusedIterator for WitnessVersionIter<I> {}
