//! Answers `edits`.

ghost use Rattle.std.specs.Prelude.{◌≡◌, ◌+◌, ◌<◌, ◌≤◌, map, string_bytes, vec_len, vec_capacity, IfErr, MatchResult, OnOk};
ghost use Rattle.bech32_near.specs.edits.NearEdits.{AreNearEdits, IsEditsRefusal};
ghost use Rattle.b32_replies.specs.Request.{code_of_name};
ghost use Rattle.line_program.specs.Added.{AddsOrSaysNumber};
ghost use Rattle.mend.specs.Reply.{IsEditsAnswer, said_of_edit, word_of_change};

use crate::found::{Found, append_found, push_found};
use b32_replies::ChecksumName;
use bech32::{Bech32, Bech32m, Change, Edit, EditsError, NearEdit, near_edits};
use bech32_numbers::edits_error_number;
use std::alloc::{AllocError, Global};

// The texts that one edit makes of one, by a checksum.
fn edits_by(
    alloc: Global,
    checksum: ChecksumName,
    text: &str,
) -> Result<Vec<NearEdit<String>>, EditsError>
    ensures { MatchResult result
        (λ found. AreNearEdits (code_of_name checksum) text.now
        (map (λ m. (m.edit, string_bytes m.text)) found.items))
        (λ e. IsEditsRefusal (code_of_name checksum) text.now e) }
{
    match checksum {
        ChecksumName::Bech32 => near_edits::<Bech32, _>(alloc, text),
        ChecksumName::Bech32m => near_edits::<Bech32m, _>(alloc, text),
    }
}

// The word for what is done to a text.
fn change_word(change: Change) -> &'static str
    ensures { result.now ≡ word_of_change change }
{
    match change {
        Change::Swapped(_, _) => "swapped",
        Change::LeftOut(_) => "left-out",
        Change::PutIn(_) => "put-in",
    }
}

impl Found for NearEdit<String> {
    ghost spelling = { λ m. said_of_edit m.edit (string_bytes m.text) };

    fn push_to(&self, said: &mut Vec<u8>) -> Result<(), AllocError> {
        let word = change_word(self.edit.change);
        push_found(said, word, self.edit.location, self.text.as_bytes())
    }
}

/// Adds the texts that one edit makes of one, each with that edit, or leaves all as it was and
/// returns the number of the refusal.
pub fn edits(alloc: Global, checksum: ChecksumName, text: &str, out: &mut Vec<u8>) -> Result<(), u8>
    requires { vec_len out.old + 2048 ≤ vec_capacity out.old }
    ensures answer { AddsOrSaysNumber (IsEditsAnswer (code_of_name checksum) text.now)
        result out.old.items out.new.items }
    ensures small { IfErr result (λ number. number < 100) }
    ensures room { OnOk result (vec_len out.new + 1 ≤ vec_capacity out.new) }
    ensures capacity { vec_capacity out.old ≤ vec_capacity out.new }
{
    match edits_by(alloc, checksum, text) {
        Ok(found) => append_found(alloc, found.as_slice(), out),
        Err(e) => Err(edits_error_number(e)),
    }
}
