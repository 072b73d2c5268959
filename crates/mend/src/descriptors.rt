//! Answers `descriptor`, `descriptor-check` and `descriptor-checksum`.
//!
//! A descriptor may hold private keys. Nothing of it is kept behind its reply; nothing is wiped.

ghost use Rattle.std.specs.Prelude.{◌≡◌, ◌+◌, ◌<◌, ◌≤◌, ◌++◌, ℕ, List, vec_len, vec_capacity, IfErr, OnOk};
ghost use Rattle.line_program.specs.Added.{AddsOrSaysNumber};
ghost use Rattle.mend.specs.Numbers.{number_of_mend_error};
ghost use Rattle.mend.specs.Reply.{IsDescriptorAnswer, IsDescriptorCheckAnswer, IsDescriptorChecksumAnswer, err_at, said_of_mend, word_of_descriptor_change};

use crate::fault::append_place;
use crate::found::{Found, append_found, push_found};
use crate::numbers::{NO_CHECKSUM, NO_MEMORY, NOT_IN_DESCRIPTOR, TOO_LONG, WRONG_CHECKSUM};
use bech32_descriptor::{Change, CheckError, Edit, MendError, Mended, check, checksum, mend};
use line_program::{append, append_refusal};
use std::alloc::{AllocError, Global};

// The word for what is done to a descriptor.
fn change_word(change: Change) -> &'static str
    ensures { result.now ≡ word_of_descriptor_change change }
{
    match change {
        Change::Changed(_) => "changed",
        Change::Swapped => "swapped",
        Change::LeftOut => "left-out",
        Change::PutIn(_) => "put-in",
    }
}

// The number of a refusal.
fn mend_error_number(e: MendError) -> u8
    ensures value { result ≡ number_of_mend_error e }
    ensures small { result < 100 }
{
    match e {
        MendError::TooLong => TOO_LONG,
        MendError::Memory => NO_MEMORY,
    }
}

impl Found for Mended<Vec<u8>> {
    ghost spelling = { λ m. said_of_mend m.edit m.text.items };

    fn push_to(&self, said: &mut Vec<u8>) -> Result<(), AllocError> {
        let word = change_word(self.edit.change);
        push_found(said, word, self.edit.place, self.text.as_slice())
    }
}

/// Adds the descriptors that one edit makes of a text, each with that edit, or leaves all as it was
/// and returns the number of the refusal.
pub fn descriptor(alloc: Global, text: &str, out: &mut Vec<u8>) -> Result<(), u8>
    requires { vec_len out.old + 2048 ≤ vec_capacity out.old }
    ensures small { IfErr result (λ number. number < 100) }
    ensures room { OnOk result (vec_len out.new + 1 ≤ vec_capacity out.new) }
    ensures capacity { vec_capacity out.old ≤ vec_capacity out.new }
    ensures answer { AddsOrSaysNumber (IsDescriptorAnswer text.now) result
        out.old.items out.new.items }
{
    match mend(alloc, text.as_bytes(), 1) {
        Ok(found) => append_found(alloc, found.as_slice(), out),
        Err(e) => Err(mend_error_number(e)),
    }
}

// Adds that a character may not stand where it does, and its place.
fn append_stranger(out: &mut Vec<u8>, place: usize)
    requires { vec_len out.old + 47 ≤ vec_capacity out.old }
    ensures items { out.new.items ≡ out.old.items ++ err_at 80 place }
    ensures size { vec_len out.new ≤ vec_len out.old + 47 }
    ensures capacity { vec_capacity out.old ≤ vec_capacity out.new }
{
    append_refusal(out, NOT_IN_DESCRIPTOR);
    append_place(out, place);
}

/// Adds that a text is a descriptor with its checksum, or why it is none.
pub fn descriptor_check(text: &str, out: &mut Vec<u8>)
    requires { vec_len out.old + 2048 ≤ vec_capacity out.old }
    ensures answer { (said : List ℕ) × IsDescriptorCheckAnswer text.now said
        × (out.new.items ≡ out.old.items ++ said) }
    ensures room { vec_len out.new + 1 ≤ vec_capacity out.new }
    ensures capacity { vec_capacity out.old ≤ vec_capacity out.new }
{
    match check(text.as_bytes()) {
        Ok(()) => append(out, b"ok"),
        Err(CheckError::NoChecksum) => append_refusal(out, NO_CHECKSUM),
        Err(CheckError::InvalidCharacter(place)) => append_stranger(out, place),
        Err(CheckError::WrongChecksum) => append_refusal(out, WRONG_CHECKSUM),
    }
}

/// Adds the checksum of a descriptor, which is given without it, or where the first character
/// stands that may not.
pub fn descriptor_checksum(text: &str, out: &mut Vec<u8>)
    requires { vec_len out.old + 47 ≤ vec_capacity out.old }
    ensures size { vec_len out.new ≤ vec_len out.old + 47 }
    ensures capacity { vec_capacity out.old ≤ vec_capacity out.new }
    ensures answer { (said : List ℕ) × IsDescriptorChecksumAnswer text.now said
        × (out.new.items ≡ out.old.items ++ said) }
{
    match checksum(text.as_bytes()) {
        Ok(letters) => {
            append(out, b"ok ");
            append(out, &letters);
        }
        Err(e) => append_stranger(out, e.place),
    }
}
