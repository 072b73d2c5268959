//! What fields, polynomials, registers and checksums give. A field is `Fe32`, `Fe1024`, `Fe32768`
//! or `Seven`, the integers modulo 7. Rows are:
//!
//! - `integer`, a type and an integer: its element, or why it has none; of the type `low` that of
//!   the lowest five bits;
//! - `character` and a character: its element in each form, or why it has none;
//! - `products` and an element: its products with all, by the table and by doubling;
//! - `alphabet`: the elements in order of their values and of their characters;
//! - `multiple` or `power`, a field, an element and an integer;
//! - `order`, a field and an element: its inverse and its order;
//! - `powers`, a field, an element and places: the power so many places on, time and again;
//! - `range`, a field, an element, two exponents and a number: what the range gives when it is
//!   asked so often;
//! - `constants`, a field and any element: what the field declares;
//! - `code`, a field and an element: as it is printed, and as Rust code;
//! - `base`, a field and an element: the element of `Fe32` that it is;
//! - `forms`, a field, two elements and one of `Fe32`: each form of each operator;
//! - `vector`, elements and another one: a vector of the first, with the other one put in;
//! - `polynomial`, a field and coefficients: these, of a clone, turned round; degree, leading one;
//! - `product`, a field, two polynomials and a place: the product, and that below the place;
//! - `remainder`, a field, coefficients and lower coefficients of a divisor;
//! - `begins`, a field, a list and two numbers: the coefficients of a shortest register, its first
//!   items, and the next ones of a clone and of itself;
//! - `roots`, coefficients, a base and two exponents; `value`, coefficients and a place;
//! - `declared` and a checksum: its constants, and whether its roots are lawful.

mod by_field;
mod characters;
pub mod declared;
mod forms;
mod integers;
mod numbers;
mod polynomials;
mod powers;
mod registers;
mod roots;

use crate::of_parts;
use std::alloc::{AllocError, Global};
use testing_tools::rows::word;

/// What a row gives that begins with one of these words.
pub fn reply(alloc: Global, words: &[&str]) -> Result<String, AllocError> {
    match word(words, 0) {
        "integer" => integers::reply(alloc, words),
        "character" => characters::reply(alloc, words),
        "products" => characters::products_reply(alloc, words),
        "alphabet" => characters::alphabet(alloc),
        "forms" => forms::reply(alloc, words),
        "declared" => declared::reply(alloc, words),
        "roots" => roots::reply(alloc, words),
        "value" => roots::value_reply(alloc, words),
        "vector" => registers::vector_reply(alloc, words),
        "begins" => registers::reply(alloc, words),
        "polynomial" | "product" | "remainder" => polynomials::reply(alloc, words),
        "multiple"
        | "power"
        | "inverse"
        | "order"
        | "powers"
        | "range"
        | "constants"
        | "code"
        | "base" => by_field::reply(alloc, words),
        _ => of_parts::reply(alloc, words),
    }
}
