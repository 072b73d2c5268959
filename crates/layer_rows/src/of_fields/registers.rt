//! How registers begin, and go on after a clone; and vectors of elements.

use crate::elements::shown;
use crate::of_fields::numbers::sevens;
use bech32_gf::arithmetic::Arithmetic;
use bech32_gf::gf32::Fe32;
use bech32_poly::fieldvec::FieldVec;
use bech32_poly::lfsr::LfsrIter;
use std::alloc::{AllocError, Global};
use std::fmt::Display;
use testing_tools::rows::{digits, no_row, word};

// A register's next item; it has one always.
fn item<F: Arithmetic>(register: &mut LfsrIter<F>) -> F {
    register.next().unwrap_or(F::zero())
}

// The text of a register's next items.
fn items<F: Arithmetic + Display>(
    alloc: Global,
    register: &mut LfsrIter<F>,
    count: u8,
) -> Result<String, AllocError> {
    let mut items = Vec::new(alloc);
    for _ in 0..count {
        items.push(item(register))?;
    }
    shown(alloc, &items)
}

// How many coefficients a register has, and which, where the list has room for no other register.
fn coefficients<F: Arithmetic + Display>(
    alloc: Global,
    register: &LfsrIter<F>,
    size: usize,
) -> Result<String, AllocError> {
    let list = register.coefficients();
    if size / 2 < list.len() {
        return format!(in alloc; "{}", list.len());
    }
    shown(alloc, list)
}

// The same of a register's clone, and its next items.
fn of_clone<F: Arithmetic + Display>(
    alloc: Global,
    made: Result<LfsrIter<F>, AllocError>,
    size: usize,
    count: u8,
) -> Result<String, AllocError> {
    match made {
        Ok(mut copy) => {
            let coefficients = coefficients(alloc, &copy, size)?;
            let next = items(alloc, &mut copy, count)?;
            format!(in alloc; "{coefficients}|{next}")
        }
        Err(refusal) => Err(refusal),
    }
}

// A register's coefficients, its first items, and the next ones of a clone and of itself.
fn begins<F: Arithmetic + Display>(
    alloc: Global,
    register: &mut LfsrIter<F>,
    size: usize,
    (first, then): (u8, u8),
) -> Result<String, AllocError> {
    let coefficients = coefficients(alloc, register, size)?;
    let beginning = items(alloc, register, first)?;
    let copy = of_clone(alloc, register.clone(), size, then)?;
    let next = items(alloc, register, then)?;
    format!(in alloc; "{coefficients}|{beginning}|{copy}|{next}")
}

// The same of a list of elements, and of one of integers modulo 7, if it has any items.
fn of_elements(alloc: Global, text: &str, counts: (u8, u8)) -> Result<String, AllocError> {
    let list = digits(alloc, text)?;
    if list.is_empty() {
        return no_row(alloc);
    }
    let mut register = LfsrIter::berlekamp_massey(alloc, &list)?;
    begins(alloc, &mut register, list.len(), counts)
}

fn of_sevens(alloc: Global, text: &str, counts: (u8, u8)) -> Result<String, AllocError> {
    let list = sevens(alloc, text)?;
    if list.is_empty() {
        return no_row(alloc);
    }
    let mut register = LfsrIter::berlekamp_massey(alloc, &list)?;
    begins(alloc, &mut register, list.len(), counts)
}

/// What a row of a field, a list and two numbers gives.
pub fn reply(alloc: Global, words: &[&str]) -> Result<String, AllocError> {
    let counts = (
        word(words, 3).parse::<u8>().unwrap_or(0),
        word(words, 4).parse::<u8>().unwrap_or(0),
    );
    match word(words, 1) {
        "Fe32" => of_elements(alloc, word(words, 2), counts),
        "Seven" => of_sevens(alloc, word(words, 2), counts),
        _ => no_row(alloc),
    }
}

// A vector of elements that are put in one after another.
fn vector_of(alloc: Global, list: &[Fe32]) -> Result<FieldVec<Fe32>, AllocError> {
    let mut vector = FieldVec::new(alloc);
    for x in list {
        vector.push(*x)?;
    }
    Ok(vector)
}

// The number of elements, whether there is none, they, and those of a clone.
fn vector_shown(alloc: Global, vector: &FieldVec<Fe32>) -> Result<String, AllocError> {
    let copy = vector.clone()?;
    let items = shown(alloc, vector.as_slice())?;
    let copied = shown(alloc, copy.as_slice())?;
    format!(in alloc; "{}|{}|{items}|{copied}", vector.len(), vector.is_empty())
}

/// What a row of elements and a second list gives: a vector of the first, with the first of the
/// second in its first place.
pub fn vector_reply(alloc: Global, words: &[&str]) -> Result<String, AllocError> {
    let list = digits(alloc, word(words, 1))?;
    let mut vector = vector_of(alloc, &list)?;
    if let Some(x) = digits(alloc, word(words, 2))?.first() {
        if !vector.is_empty() {
            vector.set(0, *x);
        }
    }
    vector_shown(alloc, &vector)
}
