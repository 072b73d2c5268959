//! Each form of each operator: of values and of borrowed ones.

ghost use Rattle.std.specs.Prelude.{◌≢◌};
ghost use Rattle.bech32_gf.specs.Fe32.{zero};
ghost use Rattle.bech32_gf_ext.specs.Fe1024 as pairs;
ghost use Rattle.bech32_gf_ext.specs.Fe32768 as triples;

use crate::elements::{extended, shown};
use bech32_gf::field::Field;
use bech32_gf::gf32::Fe32;
use bech32_gf_ext::{Fe1024, Fe32768};
use std::alloc::{AllocError, Global};
use testing_tools::rows::{digits, no_row, word};

// Each form of an operator.
macro_rules! each_form {
    ($x:ident $operator:tt $y:ident) => {
        [$x $operator $y, $x $operator &$y, &$x $operator $y, &$x $operator &$y]
    };
}

// What a value is after assigning operators, each by value and borrowed.
macro_rules! each_assigned {
    ($z:ident, $y:ident) => {{
        $z += $y;
        let sum = $z;
        $z -= &$y;
        let difference = $z;
        $z += &$y;
        $z -= $y;
        $z *= $y;
        let product = $z;
        $z /= &$y;
        let quotient = $z;
        $z *= &$y;
        $z /= $y;
        [sum, difference, product, quotient, $z]
    }};
}

// The negative, and the sum of two elements and the first of them again, by an iterator.
macro_rules! negative_and_sum {
    ($x:ident, $y:ident) => {
        [-$x, [$x, $y, $x].into_iter().sum()]
    };
}

// The sum, the difference, the product and the quotient of two elements in each form.
fn of_elements(x: Fe32, y: Fe32) -> [[Fe32; 4]; 4]
    requires { y ≢ zero }
{
    [
        each_form!(x + y),
        each_form!(x - y),
        each_form!(x * y),
        each_form!(x / y),
    ]
}

fn assigned_elements(mut z: Fe32, y: Fe32) -> [Fe32; 5]
    requires { y ≢ zero }
{
    each_assigned!(z, y)
}

// The same of two pairs.
fn of_pairs(x: Fe1024, y: Fe1024) -> [[Fe1024; 4]; 4]
    requires { y ≢ pairs.zero }
{
    [
        each_form!(x + y),
        each_form!(x - y),
        each_form!(x * y),
        each_form!(x / y),
    ]
}

fn assigned_pairs(mut z: Fe1024, y: Fe1024) -> [Fe1024; 5]
    requires { y ≢ pairs.zero }
{
    each_assigned!(z, y)
}

// The product of a pair and an element in each form.
fn scaled_pairs(x: Fe1024, factor: Fe32) -> [Fe1024; 4] {
    each_form!(x * factor)
}

// The same of two triples.
fn of_triples(x: Fe32768, y: Fe32768) -> [[Fe32768; 4]; 4]
    requires { y ≢ triples.zero }
{
    [
        each_form!(x + y),
        each_form!(x - y),
        each_form!(x * y),
        each_form!(x / y),
    ]
}

fn assigned_triples(mut z: Fe32768, y: Fe32768) -> [Fe32768; 5]
    requires { y ≢ triples.zero }
{
    each_assigned!(z, y)
}

fn scaled_triples(x: Fe32768, factor: Fe32) -> [Fe32768; 4] {
    each_form!(x * factor)
}

fn further_elements(x: Fe32, y: Fe32) -> [Fe32; 2] {
    negative_and_sum!(x, y)
}

fn further_pairs(x: Fe1024, y: Fe1024) -> [Fe1024; 2] {
    negative_and_sum!(x, y)
}

fn further_triples(x: Fe32768, y: Fe32768) -> [Fe32768; 2] {
    negative_and_sum!(x, y)
}

// The four forms of each of the four operators, then what stands behind each assigning one, then
// the others.
fn all_shown<F: Field>(
    alloc: Global,
    forms: &[[F; 4]; 4],
    assigned: &[F],
    others: &[F],
) -> Result<String, AllocError> {
    let sums = shown(alloc, &forms[0])?;
    let differences = shown(alloc, &forms[1])?;
    let products = shown(alloc, &forms[2])?;
    let quotients = shown(alloc, &forms[3])?;
    let assigned = shown(alloc, assigned)?;
    let others = shown(alloc, others)?;
    format!(in alloc; "{sums}|{differences}|{products}|{quotients}|{assigned}|{others}")
}

// What a row of two elements gives.
fn reply_of_elements(alloc: Global, text: &str) -> Result<String, AllocError> {
    match digits(alloc, text)?.as_slice() {
        [x, y] if *y != Fe32::Q => {
            let (forms, assigned) = (of_elements(*x, *y), assigned_elements(*x, *y));
            all_shown(alloc, &forms, &assigned, &further_elements(*x, *y))
        }
        _ => no_row(alloc),
    }
}

// What a row of two pairs gives.
fn reply_of_pairs(alloc: Global, text: &str, factor: Fe32) -> Result<String, AllocError> {
    match extended::<2>(alloc, text)?.as_slice() {
        [x, y] if *y != Fe1024::ZERO => {
            let (forms, assigned) = (of_pairs(*x, *y), assigned_pairs(*x, *y));
            let [negative, sum] = further_pairs(*x, *y);
            let [a, b, c, d] = scaled_pairs(*x, factor);
            all_shown(alloc, &forms, &assigned, &[negative, sum, a, b, c, d])
        }
        _ => no_row(alloc),
    }
}

// What a row of two triples gives.
fn reply_of_triples(alloc: Global, text: &str, factor: Fe32) -> Result<String, AllocError> {
    match extended::<3>(alloc, text)?.as_slice() {
        [x, y] if *y != Fe32768::ZERO => {
            let (forms, assigned) = (of_triples(*x, *y), assigned_triples(*x, *y));
            let [negative, sum] = further_triples(*x, *y);
            let [a, b, c, d] = scaled_triples(*x, factor);
            all_shown(alloc, &forms, &assigned, &[negative, sum, a, b, c, d])
        }
        _ => no_row(alloc),
    }
}

/// What a row of a field, two elements and an element of `Fe32` gives.
pub fn reply(alloc: Global, words: &[&str]) -> Result<String, AllocError> {
    let text = word(words, 2);
    let factor = match digits(alloc, word(words, 3))?.first() {
        Some(factor) => *factor,
        None => Fe32::Q,
    };
    match word(words, 1) {
        "Fe32" => reply_of_elements(alloc, text),
        "Fe1024" => reply_of_pairs(alloc, text, factor),
        "Fe32768" => reply_of_triples(alloc, text, factor),
        _ => no_row(alloc),
    }
}
