//! Characters that cannot be read.

ghost use Rattle.std.specs.Prelude.{◌≡◌, ◌==◌, IfOk};
ghost use Rattle.codex32.specs.Damaged.{read_character, read_data, unreadable};

use std::alloc::{AllocError, Allocator};

/// Whether a character is `?`: one that cannot be read. Out of line: only that can be told.
#[inline(never)]
pub(crate) fn is_unreadable(c: u8) -> bool
    ensures { result ≡ (c == 63) }
{
    c == b'?'
}

// A character as it is read.
fn read_of(c: u8) -> u8
    ensures { result ≡ read_character c }
{
    if is_unreadable(c) { b'0' } else { c }
}

/// The characters of a data part as they are read: each `?` as `0`.
pub fn read_in<A: Allocator>(alloc: A, damaged: &[u8]) -> Result<Vec<u8, A>, AllocError>
    ensures { IfOk result (λ v. v.items ≡ read_data damaged.now) }
{
    let mut read = Vec::with_capacity(alloc, damaged.len())?;
    for c in damaged {
        read.push(read_of(*c))?;
    }
    Ok(read)
}

/// The locations of each `?` in a data part, of which 0 is the last character.
pub fn unreadable_in<A: Allocator>(alloc: A, data_part: &[u8]) -> Result<Vec<usize, A>, AllocError>
    ensures { IfOk result (λ v. v.items ≡ unreadable data_part.now) }
{
    let mut places = Vec::new(alloc);
    let mut behind = data_part.len();
    for c in data_part {
        behind -= 1;
        if !is_unreadable(*c) {
            continue;
        }
        places.push(behind)?;
    }
    Ok(places)
}
