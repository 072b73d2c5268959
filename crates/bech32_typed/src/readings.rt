//! How a typed data part may be read.

ghost use Rattle.std.specs.Prelude.{◌≡◌, ◌<◌, ◌+◌, ◌/◌, ◌%◌, ◌^◌, ◌==◌, IfOk, false, true};
ghost use Rattle.bech32_gf.specs.Alphabet.{is_of_alphabet};
ghost use Rattle.bech32_typed.specs.Readings.{has_look, has_looks, look, look_of, looks_like_two, plain_look, plain_reading, reading_at, twos};

use bech32_gf::alphabet::is_data_byte;
use std::alloc::{AllocError, Allocator};

// Whether a character is of the alphabet, in either case.
fn is_data(c: u8) -> bool
    ensures { result ≡ is_of_alphabet c }
{
    is_data_byte(c)
}

// Whether a character looks like two of the alphabet.
fn is_two(c: u8) -> bool
    ensures { result ≡ looks_like_two c }
{
    c == b'b' || c == b'i'
}

// What a character looks like.
fn first_look(c: u8) -> u8
    ensures { result ≡ look c }
{
    if is_data(c) {
        return c;
    }
    match c {
        b'1' | b'i' => b'l',
        b'o' => b'0',
        b'b' => b'6',
        _ => b'?',
    }
}

// What a character looks like, of two the first or the second.
fn look_at(c: u8, is_second: bool) -> u8
    ensures { result ≡ look_of is_second c }
{
    match c {
        b'i' if is_second => b'j',
        b'b' if is_second => b'8',
        _ => first_look(c),
    }
}

/// How many characters of a typed data part look like two of the alphabet.
pub fn count_twos(text: &[u8]) -> usize
    ensures { result ≡ twos text.now }
{
    let mut count = 0;
    for c in text {
        if is_two(*c) {
            count += 1;
        }
    }
    count
}

// How many of these characters that look like two come after one.
fn twos_after(c: u8, left: usize) -> usize
    requires { looks_like_two c ≡ true → 0 < left }
    ensures two { looks_like_two c ≡ true → result + 1 ≡ left }
    ensures other { looks_like_two c ≡ false → result ≡ left }
{
    if is_two(c) { left - 1 } else { left }
}

// Whether a character that is not of the alphabet looks like one that is.
fn looks(c: u8) -> bool
    ensures { result ≡ has_look c }
{
    is_two(c) || c == b'1' || c == b'o'
}

/// Whether a character of a typed data part is not of the alphabet, and looks like one that is.
pub fn has_looks(text: &[u8]) -> bool
    ensures { result ≡ has_looks text.now }
{
    for c in text {
        if looks(*c) {
            return true;
        }
    }
    false
}

// Which look a bit of a number chooses.
fn is_second(i: usize, bit: usize) -> bool
    requires { bit < 64 }
    ensures { result ≡ (i / 2 ^ bit % 2 == 1) }
{
    (i >> bit) % 2 == 1
}

/// One reading of a typed data part: a number chooses, bit by bit, between the two looks of each of
/// the [`count_twos`] characters that have two.
pub fn reading<A: Allocator>(alloc: A, text: &[u8], i: usize) -> Result<Vec<u8, A>, AllocError>
    requires { twos text.now < 64 }
    ensures { IfOk result (λ v. v.items ≡ reading_at text.now i) }
{
    let mut read = Vec::new(alloc);
    let mut left = count_twos(text);
    for c in text {
        left = twos_after(*c, left);
        read.push(look_at(*c, is_second(i, left)))?;
    }
    Ok(read)
}

// A character of the alphabet, or `?`.
fn plain_look(c: u8) -> u8
    ensures { result ≡ plain_look c }
{
    if is_data(c) { c } else { b'?' }
}

/// A typed data part where nothing is guessed of characters that are not of the alphabet.
pub fn plain<A: Allocator>(alloc: A, text: &[u8]) -> Result<Vec<u8, A>, AllocError>
    ensures { IfOk result (λ v. v.items ≡ plain_reading text.now) }
{
    let mut read = Vec::new(alloc);
    for c in text {
        read.push(plain_look(*c))?;
    }
    Ok(read)
}
