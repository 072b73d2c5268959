//! Packed rows of elements.

use crate::of_fields::declared::row_shown;
use bech32_checksum::{PackedFe32, PackedNull};
use std::alloc::{AllocError, Global};
use testing_tools::rows::{no_row, word};

// The values of the numbers of a word, each below 32.
fn values(alloc: Global, text: &str) -> Result<Vec<u8>, AllocError> {
    let mut values = Vec::new(alloc);
    for part in text.split(' ') {
        if let Ok(value) = part.parse::<u8>() {
            values.push(value % 32)?;
        }
    }
    Ok(values)
}

// The row of values, the highest first; the row of zeros where they are too many.
fn row_of<R: PackedFe32>(values: &[u8]) -> R {
    if values.len() > R::WIDTH || !values.iter().all(|value| *value < 32) {
        return R::ONE ^ R::ONE;
    }
    R::pack(values.iter().copied())
}

// How many elements fit, two rows and their sum.
fn packed<R: PackedFe32>(alloc: Global, a: &[u8], b: &[u8]) -> Result<String, AllocError> {
    let (a, b) = (row_of::<R>(a), row_of::<R>(b));
    let first = row_shown(alloc, a)?;
    let second = row_shown(alloc, b)?;
    let sum = row_shown(alloc, a ^ b)?;
    format!(in alloc; "{}|{first}|{second}|{sum}", R::WIDTH)
}

/// What a row of a type and two lists of values gives.
pub fn reply(alloc: Global, words: &[&str]) -> Result<String, AllocError> {
    let a = values(alloc, word(words, 2))?;
    let b = values(alloc, word(words, 3))?;
    match word(words, 1) {
        "u32" => packed::<u32>(alloc, &a, &b),
        "u64" => packed::<u64>(alloc, &a, &b),
        "u128" => packed::<u128>(alloc, &a, &b),
        "null" => packed::<PackedNull>(alloc, &a, &b),
        _ => no_row(alloc),
    }
}

// The element that comes out of a row of this many, and the row with another one put in below.
fn moved_u32(mut row: u32, degree: &str, add: u8) -> Option<(u8, u32)> {
    let out = match degree {
        "1" if row < 1 << 5 => row.mul_by_x_then_add(1, add % 32),
        "6" if row < 1 << 30 => row.mul_by_x_then_add(6, add % 32),
        _ => return None,
    };
    Some((out, row))
}

fn moved_u64(mut row: u64, degree: &str, add: u8) -> Option<(u8, u64)> {
    let out = match degree {
        "8" if row < 1 << 40 => row.mul_by_x_then_add(8, add % 32),
        "12" if row < 1 << 60 => row.mul_by_x_then_add(12, add % 32),
        _ => return None,
    };
    Some((out, row))
}

fn moved_u128(mut row: u128, degree: &str, add: u8) -> Option<(u8, u128)> {
    let out = match degree {
        "13" if row < 1 << 65 => row.mul_by_x_then_add(13, add % 32),
        "25" if row < 1 << 125 => row.mul_by_x_then_add(25, add % 32),
        _ => return None,
    };
    Some((out, row))
}

// What came out, and the row then.
fn moved_shown<R: PackedFe32>(alloc: Global, moved: Option<(u8, R)>) -> Result<String, AllocError> {
    match moved {
        Some((out, row)) => {
            let row = row_shown(alloc, row)?;
            format!(in alloc; "{out}|{row}")
        }
        None => no_row(alloc),
    }
}

// A row of nothing: what is packed into it, read from it and moved through it.
fn of_nothing(alloc: Global) -> Result<String, AllocError> {
    let mut row = PackedNull::pack([1, 2, 255].into_iter());
    let (read, moved) = (row.unpack(7), row.mul_by_x_then_add(3, 200));
    let is_null = row == PackedNull && PackedNull::ONE ^ row == PackedNull;
    format!(in alloc; "{read}|{moved}|{is_null}")
}

/// What a row of a type, its values, how many they are and another one gives.
pub fn moved_reply(alloc: Global, words: &[&str]) -> Result<String, AllocError> {
    let values = values(alloc, word(words, 2))?;
    let add = word(words, 4).parse::<u8>().unwrap_or(0);
    let degree = word(words, 3);
    match word(words, 1) {
        "u32" => moved_shown(alloc, moved_u32(row_of(&values), degree, add)),
        "u64" => moved_shown(alloc, moved_u64(row_of(&values), degree, add)),
        "u128" => moved_shown(alloc, moved_u128(row_of(&values), degree, add)),
        "null" => of_nothing(alloc),
        _ => no_row(alloc),
    }
}
