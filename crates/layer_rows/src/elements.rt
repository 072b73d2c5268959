//! Field elements as texts, in which an element is its characters.

use bech32_gf::gf32::Fe32;
use bech32_gf_ext::Fe32Ext;
use std::alloc::{AllocError, Global};
use std::fmt::Display;

/// The elements whose characters these are, each of this many.
pub fn extended<const DEG: usize>(
    alloc: Global,
    text: &str,
) -> Result<Vec<Fe32Ext<DEG>>, AllocError> {
    let mut items = Vec::new(alloc);
    let mut inner = [Fe32::Q; DEG];
    let mut i = 0usize;
    for c in text.chars() {
        if let Ok(digit) = Fe32::from_char(c) {
            if i < DEG {
                inner[i] = digit;
                i += 1;
            }
            if i == DEG {
                items.push(Fe32Ext::new(inner))?;
                i = 0;
            }
        }
    }
    Ok(items)
}

// Puts an element behind a text, and a space between the two.
fn push<F: Display>(alloc: Global, text: &mut String, item: &F) -> Result<(), AllocError> {
    if !text.is_empty() {
        text.push(' ')?;
    }
    let piece = format!(in alloc; "{item}")?;
    text.push_str(&piece)
}

/// The text of elements with a space between two, and `-` for none.
pub fn shown<F: Display>(alloc: Global, items: &[F]) -> Result<String, AllocError> {
    if items.is_empty() {
        return String::from_str(alloc, "-");
    }
    let mut text = String::new(alloc);
    for item in items {
        push(alloc, &mut text, item)?;
    }
    Ok(text)
}
