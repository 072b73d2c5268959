//! Comparisons that end a test where they fail.

use std::alloc::Global;
use std::fmt::{Debug, Display};
use std::process::Abort;
use testing_tools::compare::shown;
use testing_tools::heaps::{InHeap, right_or_wants_memory};

/// Fails where the two differ.
pub fn same<T: PartialEq + Debug>(rt: &impl Abort, got: &T, want: &T) {
    assert_eq!(rt; got, want);
}

/// Fails where a value prints another text.
pub fn prints<T: Display>(rt: &impl Abort, alloc: Global, value: &T, text: &str) {
    same(rt, &shown(alloc, value).as_str(), &text);
}

/// Fails where a call is not right, or out of memory, or is either on each heap.
pub fn is_right_or_wants_memory<C: InHeap>(rt: &impl Abort, alloc: Global, call: &C) {
    right_or_wants_memory(alloc, call, (16, 16)).expect(rt, "right, or out of memory");
}
