//! Bytes as elements, and elements as bytes.

use bech32_bits::{ByteIterExt, FesToBytes};
use bech32_gf::gf32::Fe32;
use std::alloc::{AllocError, Global};
use testing_tools::rows::{bytes_of, digits, shown_bytes, word};

// The characters of elements, and `-` for none.
fn shown_elements(alloc: Global, fes: &[Fe32]) -> Result<String, AllocError> {
    if fes.is_empty() {
        return String::from_str(alloc, "-");
    }
    let mut text = String::new(alloc);
    for fe in fes {
        text.push(fe.to_char())?;
    }
    Ok(text)
}

// The elements of bytes.
fn to_elements(alloc: Global, bytes: &[u8]) -> Result<Vec<Fe32>, AllocError> {
    bytes.iter().copied().bytes_to_fes().collect(alloc)
}

// The bytes of elements, with a last part filled or dropped.
fn to_bytes(alloc: Global, fes: &[Fe32], filled: bool) -> Result<Vec<u8>, AllocError> {
    FesToBytes::new(fes.iter().copied(), filled).collect(alloc)
}

// The elements of hex digits.
fn elements_of_hex(alloc: Global, text: &str) -> Result<String, AllocError> {
    let bytes = bytes_of(alloc, text)?;
    let fes = to_elements(alloc, &bytes)?;
    shown_elements(alloc, &fes)
}

// The hex digits of elements.
fn hex_of_elements(alloc: Global, fes: &[Fe32], filled: bool) -> Result<String, AllocError> {
    let bytes = to_bytes(alloc, fes, filled)?;
    shown_bytes(alloc, &bytes)
}

// The hex digits of elements in both ways.
fn both(alloc: Global, fes: &[Fe32]) -> Result<String, AllocError> {
    let dropped = hex_of_elements(alloc, fes, false)?;
    let filled = hex_of_elements(alloc, fes, true)?;
    format!(in alloc; "{dropped}|{filled}")
}

// Both of the elements of these characters.
fn both_of(alloc: Global, text: &str) -> Result<String, AllocError> {
    let fes = digits(alloc, text)?;
    both(alloc, &fes)
}

/// What a row of bytes and elements gives.
pub fn reply(alloc: Global, words: &[&str]) -> Result<String, AllocError> {
    let elements = elements_of_hex(alloc, word(words, 1))?;
    let both = both_of(alloc, word(words, 2))?;
    format!(in alloc; "{elements}|{both}")
}
