//! What an iterator says is left, and what it gives then.

use std::alloc::{AllocError, Global};
use std::fmt::Display;

/// The bounds on how many items come: one number where they are exact.
pub fn hint_shown(alloc: Global, hint: (usize, Option<usize>)) -> Result<String, AllocError> {
    let (lower, upper) = hint;
    match upper {
        Some(upper) if upper == lower => format!(in alloc; "{lower}"),
        Some(upper) => format!(in alloc; "{lower}..{upper}"),
        None => format!(in alloc; "{lower}.."),
    }
}

/// Puts a word behind others.
pub fn push_word(text: &mut String, word: &str) -> Result<(), AllocError> {
    if !text.is_empty() {
        text.push(' ')?;
    }
    text.push_str(word)
}

// The bounds of an iterator and its next item, `-` for none.
fn turn<T: Display + Drop, I: Iterator<Item = T>>(
    alloc: Global,
    items: &mut I,
) -> Result<String, AllocError>
    requires { I.can_next items.old }
{
    let bounds = hint_shown(alloc, items.size_hint())?;
    match items.next() {
        Some(item) => format!(in alloc; "{bounds}:{item}"),
        None => format!(in alloc; "{bounds}:-"),
    }
}

/// The same of as many turns.
pub fn turns<T: Display + Drop, I: Iterator<Item = T>>(
    alloc: Global,
    items: &mut I,
    times: usize,
) -> Result<String, AllocError>
    requires always { (s : I) → I.can_next s }
{
    let mut text = String::new(alloc);
    for _ in 0..times {
        let piece = turn(alloc, items)?;
        push_word(&mut text, &piece)?;
    }
    Ok(text)
}
