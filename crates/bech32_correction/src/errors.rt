//! The errors of a text, one after another.

ghost use Rattle.std.specs.Prelude.{◌≡◌, List, drop, length, IfSome, Some};
ghost use Rattle.std.specs.Iterator.{UpTo, YieldsFirst, item_count};
ghost use Rattle.std.specs.Iterator.SizeHint.{IsWithinCount};

use bech32_bch::ShortVec;
use bech32_gf::gf32::Fe32;
use std::alloc::{Allocator, Global};
use std::iter::FusedIterator;
use std::marker::Model;

/// An iterator over locations and the elements to add there. Location 0 is the last character. Its
/// walk allocates nothing.
pub type ErrorIterator<A = Global> = ShortIter<(usize, Fe32), A>;

/// An iterator over items, the first seven of them in place.
#[derive(Drop)]
pub struct ShortIter<T: Copy + Default, A: Allocator + Copy = Global> {
    pub(crate) items: ShortVec<T, A>,
    // How many of them came already.
    pub(crate) given: usize,
}

// Contracts see what is left to give.
impl<T: Copy + Default, A: Allocator + Copy> Model for ShortIter<T, A> {
    ghost Value = { List T };

    ghost view = { λ a. drop a.given a.items };
}

impl<T: Copy + Default, A: Allocator + Copy> Iterator for ShortIter<T, A> {
    type Item = T;

    ghost next_gives = { YieldsFirst (λ left. left) };

    ghost remaining = { item_count (λ left. left) };

    fn next(&mut self) -> Option<T> {
        let items = self.items.as_slice();
        if self.given < items.len() {
            let item = items[self.given];
            self.given += 1;
            Some(item)
        } else {
            None
        }
    }

    /// Both bounds are the number of items to come.
    fn size_hint(&self) -> (usize, Option<usize>)
        ensures lower { IsWithinCount result.0 (item_count (λ left. left) self.now) }
        ensures upper { IfSome result.1 (UpTo (item_count (λ left. left) self.now)) }
        ensures exact { result ≡ (length self.now, Some (length self.now)) }
    {
        let left = self.items.len().saturating_sub(self.given);
        (left, Some(left))
    }
}

impl<T: Copy + Default, A: Allocator + Copy> FusedIterator for ShortIter<T, A> {}
