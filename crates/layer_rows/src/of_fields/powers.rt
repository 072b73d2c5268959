//! Multiples, powers and orders of an element of any field.

ghost use Rattle.std.specs.Prelude.{◌≢◌, ◌≤◌};

use crate::elements::shown;
use bech32_gf::field::{Field, MultiplicativeOrder, Powers, PowersRange};
use std::alloc::{AllocError, Global};
use testing_tools::rows::{no_row, word};

// The element added up this many times.
fn multiple<F: Field>(alloc: Global, x: F, text: &str) -> Result<String, AllocError> {
    match text.parse::<i64>() {
        Ok(n) => format!(in alloc; "{}", x.muli(n)),
        Err(_) => no_row(alloc),
    }
}

// The power of an element that is not zero.
fn power_of<F: Field>(x: F, n: i64) -> F
    requires { x ≢ F.ops.zero }
{
    x.powi(n)
}

// The power of zero, which has none for a negative number.
fn power_of_zero<F: Field>(n: u32) -> F {
    F::ZERO.powi(n as i64)
}

// The power of an element.
fn power<F: Field>(alloc: Global, x: F, text: &str) -> Result<String, AllocError> {
    if x != F::ZERO {
        return match text.parse::<i64>() {
            Ok(n) => format!(in alloc; "{}", power_of(x, n)),
            Err(_) => no_row(alloc),
        };
    }
    match text.parse::<u32>() {
        Ok(n) => format!(in alloc; "{}", power_of_zero::<F>(n)),
        Err(_) => no_row(alloc),
    }
}

// The inverse and the order of an element that is not zero.
fn inverse_and_order<F: Field>(x: F) -> (F, usize)
    requires { x ≢ F.ops.zero }
{
    (x.multiplicative_inverse(), x.multiplicative_order())
}

// The inverse and the order of an element, where it has them.
fn order<F: Field>(alloc: Global, x: F) -> Result<String, AllocError> {
    if x == F::ZERO {
        return String::from_str(alloc, "none");
    }
    let (inverse, order) = inverse_and_order(x);
    format!(in alloc; "{inverse}|{order}")
}

// The power that stands as many places on as a word says, or for another word the next one.
fn item<F: Field>(powers: &mut Powers<F>, place: &str) -> Option<F> {
    match place.parse::<usize>() {
        Ok(n) => powers.nth(n),
        Err(_) => powers.next(),
    }
}

// Powers, each as many places on as a word of a list says.
fn walked<F: Field>(alloc: Global, x: F, places: &str) -> Result<String, AllocError> {
    let mut powers = x.powers();
    let mut items = Vec::new(alloc);
    for place in places.split(' ') {
        if let Some(power) = item(&mut powers, place) {
            items.push(power)?;
        }
    }
    shown(alloc, &items)
}

// The powers of an element from one number to another, which is not below it.
fn range_of<F: Field>(x: F, start: usize, end: usize) -> PowersRange<F>
    requires { start ≤ end }
{
    x.powers_range(start, end)
}

// The items of a range, as many times as it is asked.
fn asked<F: Field>(
    alloc: Global,
    range: &mut PowersRange<F>,
    times: u8,
) -> Result<String, AllocError> {
    let mut items = Vec::new(alloc);
    for _ in 0..times {
        if let Some(power) = range.next() {
            items.push(power)?;
        }
    }
    shown(alloc, &items)
}

// The powers of an element in a range, which is asked a number of times.
fn range<F: Field>(alloc: Global, x: F, words: &[&str]) -> Result<String, AllocError> {
    let numbers = (
        word(words, 3).parse::<usize>(),
        word(words, 4).parse::<usize>(),
        word(words, 5).parse::<u8>(),
    );
    match numbers {
        (Ok(start), Ok(end), Ok(times)) if start <= end => {
            asked(alloc, &mut range_of(x, start, end), times)
        }
        _ => no_row(alloc),
    }
}

/// What a row of a field and an element gives, which may be zero.
pub fn reply<F: Field>(alloc: Global, x: F, words: &[&str]) -> Result<String, AllocError> {
    match word(words, 0) {
        "multiple" => multiple(alloc, x, word(words, 3)),
        "power" => power(alloc, x, word(words, 3)),
        "order" => order(alloc, x),
        "powers" => walked(alloc, x, word(words, 3)),
        "range" => range(alloc, x, words),
        _ => no_row(alloc),
    }
}
