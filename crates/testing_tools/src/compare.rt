//! What tests compare. Only a test may end a program, so these return what they found.

ghost use Rattle.std.specs.Iterator.{IsFinite};

use std::alloc::Global;
use std::fmt::Display;

/// Where an iterator and a list part, and what each has there.
#[derive(Clone, Copy, Debug, PartialEq, Eq)]
pub struct Difference<T> {
    /// How many items are the same before.
    pub at: usize,
    /// What the iterator gives; `None` if it has ended.
    pub got: Option<T>,
    /// What the list has; `None` if it has ended.
    pub want: Option<T>,
}

/// The first difference of what an iterator gives from a list; `None` if it gives just this list.
pub fn first_difference<T: PartialEq + Copy, I: Iterator<Item = T>>(
    items: I,
    want: &[T],
) -> Option<Difference<T>>
    requires can { I.can_next items }
    requires finite { IsFinite (I.remaining items) }
{
    let mut at = 0usize;
    for item in items {
        let got = Some(item);
        let want = want.get(at).copied();
        if got != want {
            return Some(Difference { at, got, want });
        }
        at = at.saturating_add(1);
    }
    let want = want.get(at).copied()?;
    Some(Difference {
        at,
        got: None,
        want: Some(want),
    })
}

/// What a value prints; nothing where there is no memory for it.
pub fn shown<T: Display>(alloc: Global, value: &T) -> String {
    match format!(in alloc; "{value}") {
        Ok(text) => text,
        Err(_) => String::new(alloc),
    }
}
