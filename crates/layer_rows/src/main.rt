//! Prints what each row of standard input gives, of the layers below the calls: fields,
//! polynomials, registers, checksums, human-readable parts, bits, encoders, readers, descriptors,
//! and the definitions as slow code. A row is words with `|` between two of them, or a tab:
//!
//! - `register`, a field and a list: the length of a shortest register of the list, and where there
//!   is only one, its coefficients and the ten items after the list;
//! - `field`, a field, two elements and an exponent: the product of the two, and of the first one
//!   its inverse, its order and its power;
//! - `block`, a field, a generator and a target: the block that declares a checksum, or the number
//!   of the refusal;
//! - `appended`, a checksum, a human-readable part and elements: the elements followed by their
//!   checksum, and their text;
//! - `bits`, bytes in hex and elements: the elements of the bytes, and the bytes of the elements
//!   with a last part dropped and with it filled;
//! - `descriptor` and a text: whether it is a descriptor with its checksum, `none` if it ends in
//!   none, or `at` the place of a character that is not allowed; and each descriptor that one edit
//!   makes of it, with the edit, `=` a character changed, `x` two neighbours swapped, `-` one left
//!   out, `+` one put in, and its place from 0;
//! - `checksum` and a descriptor without one: its checksum;
//! - `plain` and a text: which checksum accepts it by the definition;
//! - `defined`, a checksum, a human-readable part and bytes: the text by the definition;
//! - what the modules `of_fields` and `of_parts` list.
//!
//! Elements are their characters, the constant coefficient first; a generator goes from its highest
//! coefficient down, without the leading one; `-` stands for nothing. What the rows in `stdin` give
//! was made twice over and equal, and is in `stdout`: by a reference model written from the
//! definitions alone, and by the Rust crate bech32 0.12.0; descriptors and the rows of `of_fields`
//! and `of_parts` by one model each.
#![tactic(auto)]

mod appended;
mod bits;
mod blocks;
mod descriptors;
mod elements;
mod fields;
mod of_fields;
mod of_parts;
mod plain;
mod registers;
mod rows;

use std::io;

fn main(rt: HostRuntime) -> io::Result<()> {
    for line in rt.lines(rt.alloc()) {
        let reply = rows::reply(rt.alloc(), line?.as_str())?;
        println!(rt; "{reply}")?;
    }
    Ok(())
}
