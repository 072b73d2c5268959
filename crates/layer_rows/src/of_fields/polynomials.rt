//! What polynomials give, over `Fe32` and the integers modulo 7.

use crate::elements::shown;
use crate::of_fields::numbers::sevens;
use bech32_gf::arithmetic::Arithmetic;
use bech32_poly::polynomial::{Polynomial, remainder};
use std::alloc::{AllocError, Global};
use std::fmt::Display;
use testing_tools::rows::{digits, no_row, word};

// The coefficients of a polynomial that was made.
fn coefficients<F: Arithmetic + Display>(
    alloc: Global,
    made: Result<Polynomial<F>, AllocError>,
) -> Result<String, AllocError> {
    match made {
        Ok(polynomial) => shown(alloc, polynomial.coefficients()),
        Err(refusal) => Err(refusal),
    }
}

// Its coefficients, those of its clone and of the one turned round; its degree and its leading
// coefficient.
fn polynomial<F: Arithmetic + Display>(
    alloc: Global,
    p: &Polynomial<F>,
) -> Result<String, AllocError> {
    let list = shown(alloc, p.coefficients())?;
    let copy = coefficients(alloc, p.clone())?;
    let turned = coefficients(alloc, p.reversed())?;
    let (degree, leading) = (p.degree(), p.leading_coefficient());
    format!(in alloc; "{list}|{copy}|{turned}|{degree}|{leading}")
}

// The product of two, and that below a place.
fn product<F: Arithmetic + Display>(
    alloc: Global,
    p: &Polynomial<F>,
    q: &Polynomial<F>,
    end: &str,
) -> Result<String, AllocError> {
    let Ok(end) = end.parse::<usize>() else {
        return no_row(alloc);
    };
    let whole = coefficients(alloc, p.multiply(q))?;
    let below = coefficients(alloc, p.multiply_below(q, end))?;
    format!(in alloc; "{whole}|{below}")
}

// The remainder of a vector of coefficients.
fn rest<F: Arithmetic + Display>(
    alloc: Global,
    list: &[F],
    low: &[F],
) -> Result<String, AllocError> {
    let rest = remainder(alloc, list, low)?;
    shown(alloc, &rest)
}

// What a polynomial gives, with another list of coefficients.
fn reply_of<F: Arithmetic + Display>(
    alloc: Global,
    p: &Polynomial<F>,
    q: &Polynomial<F>,
    (list, low): (&[F], &[F]),
    words: &[&str],
) -> Result<String, AllocError> {
    match word(words, 0) {
        "polynomial" => polynomial(alloc, p),
        "product" => product(alloc, p, q, word(words, 4)),
        _ => {
            let of_vector = rest(alloc, list, low)?;
            let of_polynomial = coefficients(alloc, p.remainder(low))?;
            format!(in alloc; "{of_vector}|{of_polynomial}")
        }
    }
}

/// What a row of a field and one or two lists of coefficients gives.
pub fn reply(alloc: Global, words: &[&str]) -> Result<String, AllocError> {
    match word(words, 1) {
        "Fe32" => {
            let list = digits(alloc, word(words, 2))?;
            let low = digits(alloc, word(words, 3))?;
            let p = Polynomial::from_slice(alloc, &list)?;
            let q = Polynomial::from_slice(alloc, &low)?;
            reply_of(alloc, &p, &q, (&list, &low), words)
        }
        "Seven" => {
            let list = sevens(alloc, word(words, 2))?;
            let low = sevens(alloc, word(words, 3))?;
            let p = Polynomial::from_slice(alloc, &list)?;
            let q = Polynomial::from_slice(alloc, &low)?;
            reply_of(alloc, &p, &q, (&list, &low), words)
        }
        _ => no_row(alloc),
    }
}
