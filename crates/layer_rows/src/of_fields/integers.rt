//! Elements of integers.

use bech32_gf::gf32::{Fe32, TryFromError};
use std::alloc::{AllocError, Global};
use std::str::FromStr;
use testing_tools::rows::{no_row, word};

// An element, or why an integer is none.
fn shown(alloc: Global, made: Result<Fe32, TryFromError>) -> Result<String, AllocError> {
    match made {
        Ok(element) => format!(in alloc; "{element}"),
        Err(error) => format!(in alloc; "{error}"),
    }
}

// What comes of the integer of a word.
fn converted<T: FromStr>(alloc: Global, text: &str) -> Result<String, AllocError>
where
    T::Err: Drop,
    Fe32: TryFrom<T, Error = TryFromError>,
{
    match text.parse::<T>() {
        Ok(number) => shown(alloc, Fe32::try_from(number)),
        Err(_) => no_row(alloc),
    }
}

// The element of the lowest five bits of a byte.
fn low_bits(alloc: Global, text: &str) -> Result<String, AllocError> {
    match text.parse::<u8>() {
        Ok(bits) => format!(in alloc; "{}", Fe32::from_low_bits(bits)),
        Err(_) => no_row(alloc),
    }
}

/// What a row of a type and an integer gives.
pub fn reply(alloc: Global, words: &[&str]) -> Result<String, AllocError> {
    let text = word(words, 2);
    match word(words, 1) {
        "u8" => converted::<u8>(alloc, text),
        "u16" => converted::<u16>(alloc, text),
        "u32" => converted::<u32>(alloc, text),
        "u64" => converted::<u64>(alloc, text),
        "u128" => converted::<u128>(alloc, text),
        "i8" => converted::<i8>(alloc, text),
        "i16" => converted::<i16>(alloc, text),
        "i32" => converted::<i32>(alloc, text),
        "i64" => converted::<i64>(alloc, text),
        "i128" => converted::<i128>(alloc, text),
        "low" => low_bits(alloc, text),
        _ => no_row(alloc),
    }
}
