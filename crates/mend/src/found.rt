//! What is said of texts that were found.

ghost use Rattle.std.specs.Prelude.{◌≡◌, ◌≢◌, ◌+◌, ◌≤◌, ◌++◌, ℕ, List, [], codes, flat_map, if◌then◌else◌, is_ok};
ghost use Rattle.std.specs.Prelude.{vec_len, vec_capacity, IfErr, IfOk, OnOk};
ghost use Rattle.mend.specs.Found.{said_of_found};

use crate::numbers::NO_MEMORY;
use itoa::Buffer;
use line_program::{append, append_any};
use std::alloc::{AllocError, Global};

/// One of the texts that a reply lists.
pub trait Found {
    // What is said of it.
    ghost spelling: { Self → List ℕ };

    /// Adds what is said of it.
    fn push_to(&self, said: &mut Vec<u8>) -> Result<(), AllocError>
        ensures { OnOk result (said.new.items ≡ said.old.items ++ spelling self.now) };
}

/// Adds a word, a place and a text, each with a space before it.
pub fn push_found(
    said: &mut Vec<u8>,
    word: &str,
    place: usize,
    text: &[u8],
) -> Result<(), AllocError>
    ensures { OnOk result
        (said.new.items ≡ said.old.items ++ said_of_found word.now place text.now) }
{
    let mut buffer = Buffer::new();
    said.push(b' ')?;
    said.extend_from_slice(word.as_bytes())?;
    said.push(b' ')?;
    said.extend_from_slice(buffer.format(place).as_bytes())?;
    said.push(b' ')?;
    said.extend_from_slice(text)
}

/// What is said of texts: `ok`, and what is said of each.
pub fn reply_of<T: Found>(alloc: Global, found: &[T]) -> Result<Vec<u8>, AllocError>
    ensures { IfOk result (λ said. said.items ≡ codes "ok" ++ flat_map T.spelling found.now) }
{
    let mut said = Vec::from_slice(alloc, b"ok")?;
    for one in found {
        one.push_to(&mut said)?;
    }
    Ok(said)
}

/// Adds what is said of texts, or leaves all as it was where there are some, and no memory, and
/// returns the number of that.
pub fn append_found<T: Found>(alloc: Global, found: &[T], out: &mut Vec<u8>) -> Result<(), u8>
    requires { vec_len out.old + 2048 ≤ vec_capacity out.old }
    ensures items { out.new.items
        ≡ (if is_ok result then out.old.items ++ (codes "ok" ++ flat_map T.spelling found.now)
        else out.old.items) }
    ensures memory { IfErr result (λ number. (number ≡ 91) × (found.now ≢ [])) }
    ensures room { OnOk result (vec_len out.new + 1 ≤ vec_capacity out.new) }
    ensures capacity { vec_capacity out.old ≤ vec_capacity out.new }
{
    if found.is_empty() {
        append(out, b"ok");
        return Ok(());
    }
    let Ok(said) = reply_of(alloc, found) else {
        return Err(NO_MEMORY);
    };
    match append_any(out, said.as_slice()) {
        Ok(()) => Ok(()),
        Err(_) => Err(NO_MEMORY),
    }
}
