//! Roots and values of polynomials over `Fe32` in `Fe1024`.

use crate::elements::{extended, shown};
use bech32_gf::gf32::Fe32;
use bech32_gf_ext::Fe1024;
use bech32_poly::polynomial::{Polynomial, RootIter, evaluate};
use std::alloc::{AllocError, Global};
use testing_tools::rows::{digits, no_row, word};

// The exponents of the roots among the powers of a base from one number to below another.
fn roots(
    alloc: Global,
    polynomial: &Polynomial<Fe32>,
    base: Fe1024,
    (start, end): (usize, usize),
) -> Result<String, AllocError> {
    let mut exponents = Vec::new(alloc);
    for exponent in RootIter::new(polynomial, base, start, end)? {
        exponents.push(exponent)?;
    }
    shown(alloc, &exponents)
}

// The roots of the polynomial of coefficients.
fn roots_of(
    alloc: Global,
    list: &[Fe32],
    base: Fe1024,
    words: &[&str],
) -> Result<String, AllocError> {
    let polynomial = Polynomial::from_slice(alloc, list)?;
    let numbers = (
        word(words, 3).parse::<usize>(),
        word(words, 4).parse::<usize>(),
    );
    match numbers {
        (Ok(start), Ok(end)) => roots(alloc, &polynomial, base, (start, end)),
        _ => no_row(alloc),
    }
}

/// What a row of coefficients, a base and two exponents gives.
pub fn reply(alloc: Global, words: &[&str]) -> Result<String, AllocError> {
    let list = digits(alloc, word(words, 1))?;
    match extended::<2>(alloc, word(words, 2))?.first() {
        Some(base) => roots_of(alloc, &list, *base, words),
        None => no_row(alloc),
    }
}

// The value of the polynomial of coefficients.
fn value(alloc: Global, list: &[Fe32], x: Fe1024) -> Result<String, AllocError> {
    let polynomial = Polynomial::from_slice(alloc, list)?;
    format!(in alloc; "{}", evaluate(&polynomial, x))
}

/// What a row of coefficients and a place gives.
pub fn value_reply(alloc: Global, words: &[&str]) -> Result<String, AllocError> {
    let list = digits(alloc, word(words, 1))?;
    match extended::<2>(alloc, word(words, 2))?.first() {
        Some(x) => value(alloc, &list, *x),
        None => no_row(alloc),
    }
}
