//! Iterators for tests of adaptors: of two items, of fewer items than they say, and of very many.

ghost use Rattle.std.specs.Prelude.{◌≡◌, ◌+◌, ◌-◌, ◌<◌, ◌≤◌, IsSome, IsNone, IfSome};
ghost use Rattle.std.specs.Iterator.{UpTo, at_most};
ghost use Rattle.std.specs.Option.{ForSome};
ghost use Rattle.std.specs.Iterator.SizeHint.{IsWithinCount};

use std::iter::ExactSizeIterator;

/// Gives two items, `None`, and then items again, if it is asked. Its size hint has the lower
/// bound 0.
#[derive(Drop)]
pub struct TwoItems<T> {
    item: T,
    calls: u8,
    upper: Option<usize>,
    ghost upper_holds: { ForSome upper (λ n. 2 ≤ n) },
}

impl<T: Copy> TwoItems<T> {
    ghost use Rattle.testing_tools.specs.Iterators.{times_asked};

    /// Two items, with this upper bound.
    pub fn new(item: T, upper: Option<usize>) -> Self
        requires { ForSome upper (λ n. 2 ≤ n) }
        ensures { times_asked result ≡ 0 }
    {
        TwoItems {
            item,
            calls: 0,
            upper,
        }
    }
}

impl<T: Copy> Iterator for TwoItems<T> {
    ghost use Rattle.testing_tools.specs.Iterators.{times_asked, GivesTwoItems};

    type Item = T;

    ghost can_next = { λ s. times_asked s < 3 };

    ghost next_gives = { GivesTwoItems };

    ghost remaining = { λ s. at_most (2 - times_asked s) };

    fn next(&mut self) -> Option<T> {
        self.calls += 1;
        if self.calls == 3 {
            None
        } else {
            Some(self.item)
        }
    }

    fn size_hint(&self) -> (usize, Option<usize>)
        ensures lower { IsWithinCount result.0 (at_most (2 - times_asked self.now)) }
        ensures upper { IfSome result.1 (UpTo (at_most (2 - times_asked self.now))) }
    {
        (0, self.upper)
    }
}

/// Says that five items come, and gives two.
#[derive(Drop)]
pub struct TwoOfFive<T> {
    item: T,
    given: u8,
    ghost few: { given ≤ 2 },
}

impl<T: Copy> TwoOfFive<T> {
    ghost use Rattle.testing_tools.specs.Iterators.{count_given};

    /// Two items.
    pub fn new(item: T) -> Self
        ensures { count_given result ≡ 0 }
    {
        TwoOfFive { item, given: 0 }
    }
}

impl<T: Copy> Iterator for TwoOfFive<T> {
    ghost use Rattle.testing_tools.specs.Iterators.{count_given};

    type Item = T;

    ghost remaining = { λ s. at_most (5 - count_given s) };

    fn next(&mut self) -> Option<T> {
        if self.given == 2 {
            return None;
        }
        self.given += 1;
        Some(self.item)
    }

    fn size_hint(&self) -> (usize, Option<usize>)
        ensures lower { IsWithinCount result.0 (at_most (5 - count_given self.now)) }
        ensures upper { IfSome result.1 (UpTo (at_most (5 - count_given self.now))) }
    {
        let left = 5 - self.given as usize;
        (left, Some(left))
    }
}

/// Gives as many items as it says, up to 2^64 - 1.
#[derive(Drop)]
pub struct Many<T> {
    item: T,
    left: usize,
}

impl<T: Copy> Many<T> {
    ghost use Rattle.testing_tools.specs.Iterators.{count_left};

    /// This many of one item.
    pub fn new(item: T, left: usize) -> Self
        ensures { count_left result ≡ left }
    {
        Many { item, left }
    }
}

impl<T: Copy> Iterator for Many<T> {
    ghost use Rattle.testing_tools.specs.Iterators.{count_left};

    type Item = T;

    ghost remaining = { λ s. at_most (count_left s) };

    fn next(&mut self) -> Option<T> {
        self.left = self.left.checked_sub(1)?;
        Some(self.item)
    }

    fn size_hint(&self) -> (usize, Option<usize>)
        ensures lower { IsWithinCount result.0 (at_most (count_left self.now)) }
        ensures upper { IfSome result.1 (UpTo (at_most (count_left self.now))) }
    {
        (self.left, Some(self.left))
    }
}

impl<T: Copy> ExactSizeIterator for Many<T> {
    fn len(&self) -> usize {
        self.left
    }
}
