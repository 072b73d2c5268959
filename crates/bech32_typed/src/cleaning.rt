//! A typed text, as it is read.

ghost use Rattle.std.specs.Prelude.{◌≡◌, ◌≤◌, ◌∷◌, [], IfOk, IfSome, None, drop, length, option_to_list};
ghost use Rattle.std.specs.Char.{to_ascii_lowercase};
ghost use Rattle.std.specs.List.{flat_map};
ghost use Rattle.std.specs.Str.{chars};
ghost use Rattle.bech32_typed.specs.Cleaned.{begins_lower, cleaned, end_of, folded, is_request, narrowed, plain, query_place, trimmed};

use crate::look_alikes::{drops, look_alike_of};
use std::alloc::{AllocError, Allocator};

// A character of full width, as the one of ASCII.
fn narrow(c: u32) -> u32
    ensures { result ≡ narrowed c }
{
    if c >= 0xFF01 && c <= 0xFF5E {
        c - 0xFEE0
    } else {
        c
    }
}

// A character in lower case, if it is one of ASCII.
fn lower(c: u32) -> u32
    ensures { result ≡ to_ascii_lowercase c }
{
    if c >= 65 && c <= 90 { c + 32 } else { c }
}

// A lower-case letter or a digit, or `?`.
fn plain_of(c: u32) -> u8
    ensures { result ≡ plain c }
{
    if (c >= 97 && c <= 122) || (c >= 48 && c <= 57) {
        c as u8
    } else {
        b'?'
    }
}

// What a character is read as, if anything.
fn folded_of(c: char) -> Option<u8>
    ensures { option_to_list result ≡ folded c }
{
    let read = look_alike_of(narrow(c as u32));
    if drops(read) {
        return None;
    }
    Some(plain_of(lower(read)))
}

// The text without the characters at its front for which nothing is read.
fn trim(text: &[char]) -> &[char]
    ensures { result.now ≡ trimmed text.now }
{
    for i in 0..text.len() {
        if !drops(text[i] as u32) {
            return &text[i..];
        }
    }
    &[]
}

// Whether a text has a character at a place, in either case.
fn has_at(text: &[char], i: usize, c: u8) -> bool
    ensures { result ≡ begins_lower (c ∷ []) (drop i text.now) }
{
    i < text.len() && lower(text[i] as u32) == c as u32
}

// Whether a text begins with these characters, in either case.
fn begins(with: &[u8], text: &[char]) -> bool
    ensures { result ≡ begins_lower with.now text.now }
{
    for i in 0..with.len() {
        if !has_at(text, i, with[i]) {
            return false;
        }
    }
    true
}

// The place of the last `?` before the first `=`, where there are both.
fn query(text: &[char]) -> Option<usize>
    ensures value { result ≡ query_place text.now 0 None }
    ensures within { IfSome result (λ i. i ≤ length text.now) }
{
    let mut mark = None;
    for i in 0..text.len() {
        if text[i] == '=' {
            return mark;
        }
        if text[i] == '?' {
            mark = Some(i);
        }
    }
    None
}

// Where the query of a payment request begins, or where the text ends.
fn end(text: &[char]) -> usize
    ensures value { result ≡ end_of text.now }
    ensures within { result ≤ length text.now }
{
    if !begins(b"bitcoin:", trim(text)) {
        return text.len();
    }
    query(text).unwrap_or(text.len())
}

// The characters of a text.
fn chars_of<A: Allocator>(alloc: A, text: &str) -> Result<Vec<char, A>, AllocError>
    ensures { IfOk result (λ v. v.items ≡ chars text.now) }
{
    text.chars().collect(alloc)
}

// Reads characters.
fn fold<A: Allocator>(alloc: A, text: &[char]) -> Result<Vec<u8, A>, AllocError>
    ensures { IfOk result (λ v. v.items ≡ flat_map folded text.now) }
{
    let mut read = Vec::new(alloc);
    for c in text {
        if let Some(one) = folded_of(*c) {
            read.push(one)?;
        }
    }
    Ok(read)
}

/// Reads a typed text: as lower-case letters, digits, and `?` for each character that is read as
/// none. Characters of full width, of Cyrillic and Greek, and with accents are read as the letters
/// that they look like. Nothing is read for spaces, invisible characters and punctuation, and for
/// the query of a payment request (BIP-21).
///
/// # Errors
///
/// If memory runs out.
pub fn clean<A: Allocator + Copy>(alloc: A, typed: &str) -> Result<Vec<u8, A>, AllocError>
    ensures { IfOk result (λ v. v.items ≡ cleaned typed.now) }
{
    let text = chars_of(alloc, typed)?;
    let end = end(text.as_slice());
    fold(alloc, &text.as_slice()[..end])
}
