//! Comparisons that end a test where they fail.

use std::alloc::Global;
use std::fmt::{Debug, Display};
use std::process::Abort;
use testing_tools::compare::shown;

/// Fails where the two differ.
pub fn same<T: PartialEq + Debug>(rt: &impl Abort, got: &T, want: &T) {
    assert_eq!(rt; got, want);
}

/// Fails where a value prints another text than the one beside it.
pub fn each_prints<T: Display>(rt: &impl Abort, alloc: Global, rows: &[(T, &str)]) {
    for row in rows {
        same(rt, &shown(alloc, &row.0).as_str(), &row.1);
    }
}
