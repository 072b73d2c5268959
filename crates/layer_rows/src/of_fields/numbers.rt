//! Integers modulo 7 as texts.

use std::alloc::{AllocError, Global};
use testing_tools::seven::Seven;

/// The integers modulo 7 whose digits these are.
pub fn sevens(alloc: Global, text: &str) -> Result<Vec<Seven>, AllocError> {
    let mut items = Vec::new(alloc);
    for digit in text.bytes() {
        if digit.is_ascii_digit() {
            items.push(Seven::new(digit - b'0'))?;
        }
    }
    Ok(items)
}
