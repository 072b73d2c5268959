//! What code over any field gives.

ghost use Rattle.std.specs.Prelude.{◌≢◌};

use crate::elements::extended;
use bech32_gf::field::{Field, MultiplicativeOrder};
use std::alloc::{AllocError, Global};
use testing_tools::rows::{no_row, word};

// The product, and of the first element its inverse, its order and a power.
fn results<F: Field>(a: F, b: F, exponent: i64) -> (F, F, usize, F)
    requires { a ≢ F.ops.zero }
{
    (
        a * b,
        a.multiplicative_inverse(),
        a.multiplicative_order(),
        a.powi(exponent),
    )
}

// The same of two elements in a list, of which the first one is not zero.
fn reply_to<F: Field>(alloc: Global, items: &[F], exponent: i64) -> Result<String, AllocError> {
    match items {
        [a, b] if *a != F::ZERO => {
            let (product, inverse, order, power) = results(*a, *b, exponent);
            format!(in alloc; "{product}|{inverse}|{order}|{power}")
        }
        _ => no_row(alloc),
    }
}

// The same of two pairs.
fn reply_to_pairs(alloc: Global, text: &str, exponent: i64) -> Result<String, AllocError> {
    let items = extended::<2>(alloc, text)?;
    reply_to(alloc, &items, exponent)
}

// The same of two triples.
fn reply_to_triples(alloc: Global, text: &str, exponent: i64) -> Result<String, AllocError> {
    let items = extended::<3>(alloc, text)?;
    reply_to(alloc, &items, exponent)
}

// The same of the elements of characters, over the field of a name.
fn reply_over(alloc: Global, field: &str, text: &str, exponent: i64) -> Result<String, AllocError> {
    match field {
        "Fe1024" => reply_to_pairs(alloc, text, exponent),
        "Fe32768" => reply_to_triples(alloc, text, exponent),
        _ => no_row(alloc),
    }
}

/// What a row of a field, two elements and an exponent gives.
pub fn reply(alloc: Global, words: &[&str]) -> Result<String, AllocError> {
    let Ok(exponent) = word(words, 4).parse::<i64>() else {
        return no_row(alloc);
    };
    let items = format!(in alloc; "{}{}", word(words, 2), word(words, 3))?;
    reply_over(alloc, word(words, 1), &items, exponent)
}
