//! Comparisons that end a test where they fail.

use std::alloc::Global;
use std::fmt::{Debug, Display};
use std::process::Abort;

/// Fails where the two differ.
pub fn same<T: PartialEq + Debug>(rt: &impl Abort, got: &T, want: &T) {
    assert_eq!(rt; got, want);
}

/// Fails where the two differ.
pub fn same_items<T: PartialEq + Debug>(rt: &impl Abort, got: &[T], want: &[T]) {
    assert_eq!(rt; got, want);
}

/// Fails where a value prints another text than the one beside it.
pub fn each_prints<T: Display>(rt: &impl Abort, alloc: Global, rows: &[(T, &str)]) {
    for row in rows {
        let value = &row.0;
        let shown = format!(in alloc; "{value}").expect(rt, "memory");
        same(rt, &shown.as_str(), &row.1);
    }
}

/// Fails where the characters differ from those of the text.
pub fn same_text(rt: &impl Abort, alloc: Global, got: &[char], want: &str) {
    let want: Vec<char> = want.chars().collect(alloc).expect(rt, "memory");
    same_items(rt, got, &want);
}
