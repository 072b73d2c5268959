//! Comparisons that end a test where they fail.

use std::fmt::Debug;
use std::process::Abort;
use testing_tools::compare::first_difference;

/// Fails where the two differ.
pub fn same<T: PartialEq + Debug>(rt: &impl Abort, got: &T, want: &T) {
    assert_eq!(rt; got, want);
}

/// Fails where the two differ.
pub fn same_items<T: PartialEq + Debug>(rt: &impl Abort, got: &[T], want: &[T]) {
    assert_eq!(rt; got, want);
}

/// Fails where an iterator says otherwise how many items come, or begins with other ones.
pub fn begins<T: PartialEq + Debug + Copy, I: Iterator<Item = T> + Drop>(
    rt: &impl Abort,
    items: I,
    hint: (usize, Option<usize>),
    want: &[T],
)
    requires { I.can_next items }
{
    same(rt, &items.size_hint(), &hint);
    same(rt, &first_difference(items.take(want.len()), want), &None);
}

/// The bounds on how many more items come, where those are exact.
pub fn exactly(left: usize) -> (usize, Option<usize>) {
    (left, Some(left))
}

/// The bounds on how many more items come, and the next item.
pub fn step<T, I: Iterator<Item = T>>(items: &mut I) -> ((usize, Option<usize>), Option<T>)
    requires { I.can_next items.old }
{
    (items.size_hint(), items.next())
}
