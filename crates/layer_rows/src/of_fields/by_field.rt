//! What an element of a field gives, by the name of the field.

use crate::elements::{extended, shown};
use crate::of_fields::powers;
use bech32_gf::field::{Bech32Field, ExtensionField};
use bech32_gf::gf32::Fe32;
use std::alloc::{AllocError, Global};
use testing_tools::code::Code;
use testing_tools::rows::{digits, no_row, word};
use testing_tools::seven::Seven;

// The elements that a field declares.
fn declared_elements<E: ExtensionField + Bech32Field>(alloc: Global) -> Result<String, AllocError> {
    let zero = E::ZERO;
    let least = E::default();
    let one = E::ONE;
    let generator = E::GENERATOR;
    let polynomial = E::POLYNOMIAL;
    let element = E::EXT_ELEM;
    format!(in alloc; "{zero} {least} {one} {generator} {polynomial} {element}")
}

// The elements and numbers that a field declares, and its divisors in both ways.
fn constants<E: ExtensionField + Bech32Field>(alloc: Global) -> Result<String, AllocError> {
    let elements = declared_elements::<E>(alloc)?;
    let numbers = [E::CHARACTERISTIC, E::MULTIPLICATIVE_ORDER, E::DEGREE];
    let numbers = shown(alloc, &numbers)?;
    let factors = shown(alloc, E::MULTIPLICATIVE_ORDER_FACTORS)?;
    let divisors = shown(alloc, E::order_factors())?;
    format!(in alloc; "{}|{elements}|{numbers}|{factors}|{divisors}", E::NAME)
}

// An element as it is printed, and as Rust code.
fn code<E: Bech32Field>(alloc: Global, x: E) -> Result<String, AllocError> {
    format!(in alloc; "{x}|{x:?}|{}", Code(x))
}

// The element of the base field that an element is, and that as one of the field again.
fn base<E: ExtensionField>(alloc: Global, x: E) -> Result<String, AllocError> {
    match x.to_base() {
        Some(base) => format!(in alloc; "{base}|{}", E::from(base)),
        None => String::from_str(alloc, "none"),
    }
}

// What an element of a field over which checksums are corrected gives.
fn reply_over<E: ExtensionField + Bech32Field>(
    alloc: Global,
    x: E,
    words: &[&str],
) -> Result<String, AllocError> {
    match word(words, 0) {
        "constants" => constants::<E>(alloc),
        "code" => code(alloc, x),
        "base" => base(alloc, x),
        _ => powers::reply(alloc, x, words),
    }
}

// The integer of a word modulo 7.
fn seven(text: &str) -> Seven {
    Seven::new(text.parse::<u8>().unwrap_or(0))
}

/// What a row of a field and an element gives.
pub fn reply(alloc: Global, words: &[&str]) -> Result<String, AllocError> {
    let text = word(words, 2);
    match word(words, 1) {
        "Fe32" => match digits(alloc, text)?.first() {
            Some(x) => reply_over::<Fe32>(alloc, *x, words),
            None => no_row(alloc),
        },
        "Fe1024" => match extended::<2>(alloc, text)?.first() {
            Some(x) => reply_over(alloc, *x, words),
            None => no_row(alloc),
        },
        "Fe32768" => match extended::<3>(alloc, text)?.first() {
            Some(x) => reply_over(alloc, *x, words),
            None => no_row(alloc),
        },
        "Seven" => powers::reply(alloc, seven(text), words),
        _ => no_row(alloc),
    }
}
