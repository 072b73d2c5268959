//! The elements of characters, and the products of elements.

use crate::elements::shown;
use bech32_gf::gf32::{Fe32, FromCharError, plain};
use std::alloc::{AllocError, Global};
use testing_tools::known::ELEMENTS;
use testing_tools::rows::{digits, no_row, word};

// An element as it is printed, and its value.
fn printed(alloc: Global, x: Fe32) -> Result<String, AllocError> {
    format!(in alloc; "{x}|{x:>3}|{x:?}|{}", u8::from(x))
}

// What a character stands for, or why it stands for nothing.
fn of_character(alloc: Global, c: char) -> Result<String, AllocError> {
    match Fe32::from_char(c) {
        Ok(x) => printed(alloc, x),
        Err(error) => refused(alloc, error),
    }
}

fn refused(alloc: Global, error: FromCharError) -> Result<String, AllocError> {
    format!(in alloc; "{error}")
}

/// What a row of a character gives: its element in each form, or why it has none.
pub fn reply(alloc: Global, words: &[&str]) -> Result<String, AllocError> {
    match word(words, 1).chars().next() {
        Some(c) => of_character(alloc, c),
        None => no_row(alloc),
    }
}

/// The elements in order of their values, then in that of their characters.
pub fn alphabet(alloc: Global) -> Result<String, AllocError> {
    let by_value = shown(alloc, &ELEMENTS)?;
    let by_character: Vec<Fe32> = Fe32::iter_alpha().collect(alloc)?;
    let by_character = shown(alloc, &by_character)?;
    format!(in alloc; "{by_value}|{by_character}")
}

// Puts the product of two elements behind a text, and behind another one that by doubling.
fn push(products: &mut String, others: &mut String, x: Fe32, y: Fe32) -> Result<(), AllocError> {
    products.push((x * y).to_char())?;
    others.push(plain::product(x, y).to_char())
}

// The products of an element and each one, in order of their values: by the table, and by doubling.
fn products(alloc: Global, x: Fe32) -> Result<String, AllocError> {
    let mut products = String::new(alloc);
    let mut others = String::new(alloc);
    for bits in 0..32u8 {
        push(&mut products, &mut others, x, Fe32::from_low_bits(bits))?;
    }
    format!(in alloc; "{products}|{others}")
}

/// What a row of an element gives: its products.
pub fn products_reply(alloc: Global, words: &[&str]) -> Result<String, AllocError> {
    match digits(alloc, word(words, 1))?.first() {
        Some(x) => products(alloc, *x),
        None => no_row(alloc),
    }
}
