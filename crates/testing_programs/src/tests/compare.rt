//! Comparisons that end a test where they fail.

use std::alloc::Global;
use std::fmt::{Debug, Display};
use std::process::Abort;
use testing_tools::compare::shown;

/// Fails where the two differ.
pub fn same<T: PartialEq + Debug>(rt: &impl Abort, got: &T, want: &T) {
    assert_eq!(rt; got, want);
}

/// Fails where a value prints another text.
pub fn prints<T: Display>(rt: &impl Abort, alloc: Global, value: &T, want: &str) {
    same(rt, &shown(alloc, value).as_str(), &want);
}
