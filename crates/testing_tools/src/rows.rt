//! Words of rows, as the programs that print stored runs read and write them.

ghost use Rattle.std.specs.Prelude.{◌<◌};

use bech32_gf::gf32::Fe32;
use std::alloc::{AllocError, Global};

/// What is printed for a row that cannot be read.
pub fn no_row(alloc: Global) -> Result<String, AllocError> {
    String::from_str(alloc, "no row")
}

/// A word of a row, and nothing past the last one.
pub fn word<'a>(words: &[&'a str], i: usize) -> &'a str {
    match words.get(i) {
        Some(word) => word,
        None => "",
    }
}

// The character between two words of a row: a tab if the row has one.
fn separator(row: &str) -> char {
    if row.contains('\t') { '\t' } else { '|' }
}

/// The words of a row.
pub fn words_of<'a>(alloc: Global, row: &'a str) -> Result<Vec<&'a str>, AllocError> {
    row.split(separator(row)).collect(alloc)
}

/// The elements whose characters these are.
pub fn digits(alloc: Global, text: &str) -> Result<Vec<Fe32>, AllocError> {
    let mut items = Vec::new(alloc);
    for c in text.chars() {
        if let Ok(digit) = Fe32::from_char(c) {
            items.push(digit)?;
        }
    }
    Ok(items)
}

// The value of a hex digit.
fn hex_value(digit: u8) -> u8
    ensures { result < 16 }
{
    match digit {
        b'0'..=b'9' => digit - b'0',
        b'a'..=b'f' => digit - b'a' + 10,
        _ => 0,
    }
}

/// The bytes of pairs of hex digits.
pub fn bytes_of(alloc: Global, text: &str) -> Result<Vec<u8>, AllocError> {
    let mut bytes = Vec::new(alloc);
    for pair in text.as_bytes().chunks_exact(2) {
        if let [high, low] = pair {
            bytes.push(hex_value(*high) * 16 + hex_value(*low))?;
        }
    }
    Ok(bytes)
}

// Appends the hex digits of a byte to a text.
fn push_byte(alloc: Global, text: &mut String, byte: u8) -> Result<(), AllocError> {
    let pair = format!(in alloc; "{byte:02x}")?;
    text.push_str(&pair)
}

/// The hex digits of bytes, and `-` for none.
pub fn shown_bytes(alloc: Global, bytes: &[u8]) -> Result<String, AllocError> {
    if bytes.is_empty() {
        return String::from_str(alloc, "-");
    }
    let mut text = String::new(alloc);
    for byte in bytes {
        push_byte(alloc, &mut text, *byte)?;
    }
    Ok(text)
}

/// The characters of bytes.
pub fn characters(alloc: Global, bytes: &[u8]) -> Result<String, AllocError> {
    bytes.iter().copied().map(char::from).collect(alloc)
}
