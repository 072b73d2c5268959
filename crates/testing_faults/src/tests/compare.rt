//! Comparisons that end a test where they fail.

use std::fmt::Debug;
use std::process::Abort;

/// Fails where the two differ.
pub fn same<T: PartialEq + Debug>(rt: &impl Abort, got: &T, want: &T) {
    assert_eq!(rt; got, want);
}

/// Fails where the two differ.
pub fn same_items<T: PartialEq + Debug>(rt: &impl Abort, got: &[T], want: &[T]) {
    same(rt, &got, &want);
}
