//! What human-readable parts, groups of bits, encoders and readers give. In turns an iterator says
//! what is left, and gives an item, `-` for none. Rows are:
//!
//! - `part` and a text: its part in each form, or why it is none; `kept` and a text: the part that
//!   is kept of it without a test; `parts`: the constants;
//! - `compared` and two parts: equality, that of their hashes, and their order;
//! - `sides`, a part and letters: what its four iterators give at the front and at the back (`b`);
//! - `pieces` and texts: what a sink gives behind each, and what is read of all;
//! - `message` and the name of a refusal that no row leads to: what it says;
//! - `elements` and bytes, or `bytes` and elements: one as the other in turns;
//! - `regrouped` and bytes: by whole lists, and there and back;
//! - `packed`, a type and two rows: they and their sum; `moved`, a type, a row, how many elements
//!   it has and another one: what comes out as the other one comes in;
//! - `version` and an element, `program` and a length: what the rules of addresses say;
//! - `read` and a text: its parts, untested;
//! - `walk`, a checksum and a text: what one walk says, what the reading says, what the rules say;
//!   or `address` and a text: its version and how many characters its program has;
//! - `address` or `older` and a text: an address, or one of the time before BIP-350;
//! - `residues`, and twice a checksum and a text: whether both are refused for the same;
//! - `encoder`, a checksum, a part, a version, elements and a number: all that makes the text, in
//!   so many turns; `put` with the size of a buffer: what goes into it;
//! - `engine`, a checksum, a part and elements: what is held before the target and behind it;
//! - `checked`, a checksum and a text: its parts and what the rules of addresses say of it;
//!   `shortened`: with its version taken off; `untested`: with its checksum taken off anyway.

mod addresses;
mod bits;
mod by_checksum;
mod encoders;
mod engines;
mod messages;
mod packed;
mod parts;
mod pieces;
mod readers;
mod rules;
mod sides;
mod turns;
mod walks;

use std::alloc::{AllocError, Global};
use testing_tools::rows::{no_row, word};

/// What a row gives that begins with one of these words.
pub fn reply(alloc: Global, words: &[&str]) -> Result<String, AllocError> {
    match word(words, 0) {
        "part" => parts::reply(alloc, words),
        "kept" => parts::kept_reply(alloc, words),
        "parts" => parts::constants(alloc),
        "compared" => parts::compared_reply(alloc, words),
        "sides" => sides::reply(alloc, words),
        "pieces" => pieces::reply(alloc, words),
        "message" => messages::reply(alloc, words),
        "elements" => bits::to_elements_reply(alloc, words),
        "bytes" => bits::to_bytes_reply(alloc, words),
        "regrouped" => bits::plain_reply(alloc, words),
        "packed" => packed::reply(alloc, words),
        "moved" => packed::moved_reply(alloc, words),
        "version" => rules::version_reply(alloc, words),
        "program" => rules::program_reply(alloc, words),
        "read" => readers::reply(alloc, words),
        "walk" => walks::reply(alloc, words),
        "residues" => readers::residues_reply(alloc, words),
        "address" | "older" => addresses::reply(alloc, words),
        "encoder" | "put" | "engine" | "checked" | "shortened" | "untested" => {
            by_checksum::reply(alloc, words)
        }
        _ => no_row(alloc),
    }
}
