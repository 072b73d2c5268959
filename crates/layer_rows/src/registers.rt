//! The shortest register of a list.

use crate::elements::{extended, shown};
use bech32_gf::arithmetic::Arithmetic;
use bech32_poly::lfsr::LfsrIter;
use std::alloc::{AllocError, Global};
use std::fmt::Display;
use testing_tools::rows::{digits, no_row, word};

// Whether a register's next item is this one.
fn is_next<F: Arithmetic + PartialEq>(register: &mut LfsrIter<F>, want: &F) -> bool {
    register.next() == Some(*want)
}

// Whether these are a register's next items.
fn gives<F: Arithmetic + PartialEq>(register: &mut LfsrIter<F>, list: &[F]) -> bool {
    for want in list.iter() {
        if !is_next(register, want) {
            return false;
        }
    }
    true
}

// A register's next item; it has one always.
fn item<F: Arithmetic>(register: &mut LfsrIter<F>) -> F {
    register.next().unwrap_or(F::zero())
}

// The next ten items.
fn further<F: Arithmetic>(alloc: Global, register: &mut LfsrIter<F>) -> Result<Vec<F>, AllocError> {
    let mut items = Vec::new(alloc);
    for _ in 0..10u8 {
        items.push(item(register))?;
    }
    Ok(items)
}

// What stands behind the length where there is only one register.
fn only_one<F: Arithmetic + PartialEq + Display>(
    alloc: Global,
    register: &mut LfsrIter<F>,
    list: &[F],
) -> Result<String, AllocError> {
    if !gives(register, list) {
        return String::from_str(alloc, "other items");
    }
    let after = further(alloc, register)?;
    let after = shown(alloc, &after)?;
    let coefficients = shown(alloc, register.coefficients())?;
    format!(in alloc; "{coefficients}|{after}")
}

// The length of a register of a list, and what it gives where it is the only one.
fn shown_register<F: Arithmetic + PartialEq + Display>(
    alloc: Global,
    register: &mut LfsrIter<F>,
    list: &[F],
) -> Result<String, AllocError> {
    let length = register.coefficients().len();
    if length == 0 || list.len() / 2 < length {
        return format!(in alloc; "{length}|-|-");
    }
    let rest = only_one(alloc, register, list)?;
    format!(in alloc; "{length}|{rest}")
}

// The same of a list, if that has any items. That a register fits in memory is known of one over a
// field that is named, so each has a function for itself.
fn reply_of_digits(alloc: Global, text: &str) -> Result<String, AllocError> {
    let list = digits(alloc, text)?;
    if list.is_empty() {
        return no_row(alloc);
    }
    let mut register = LfsrIter::berlekamp_massey(alloc, &list)?;
    shown_register(alloc, &mut register, &list)
}

fn reply_of_pairs(alloc: Global, text: &str) -> Result<String, AllocError> {
    let list = extended::<2>(alloc, text)?;
    if list.is_empty() {
        return no_row(alloc);
    }
    let mut register = LfsrIter::berlekamp_massey(alloc, &list)?;
    shown_register(alloc, &mut register, &list)
}

fn reply_of_triples(alloc: Global, text: &str) -> Result<String, AllocError> {
    let list = extended::<3>(alloc, text)?;
    if list.is_empty() {
        return no_row(alloc);
    }
    let mut register = LfsrIter::berlekamp_massey(alloc, &list)?;
    shown_register(alloc, &mut register, &list)
}

/// What a row of a field and a list gives.
pub fn reply(alloc: Global, words: &[&str]) -> Result<String, AllocError> {
    match word(words, 1) {
        "Fe32" => reply_of_digits(alloc, word(words, 2)),
        "Fe1024" => reply_of_pairs(alloc, word(words, 2)),
        "Fe32768" => reply_of_triples(alloc, word(words, 2)),
        _ => no_row(alloc),
    }
}
