//! Answers `suggest`.

ghost use Rattle.std.specs.Prelude.{◌≡◌, ◌+◌, ◌<◌, ◌≤◌, string_bytes, vec_len, vec_capacity, IfErr, OnOk};
ghost use Rattle.line_program.specs.Added.{AddsOrSaysNumber};
ghost use Rattle.mend.specs.Reply.{IsSuggestAnswer, said_of_suggestion, word_of_mending};

use crate::found::{Found, append_found, push_found};
use bech32::Hrp;
use bech32_numbers::{edits_error_number, hrp_error_number};
use bech32_suggest::{Mending, Suggestion};
use std::alloc::{AllocError, Global};

// The word for what is done to a typed text.
fn mending_word(mending: Mending) -> &'static str
    ensures { result.now ≡ word_of_mending mending }
{
    match mending {
        Mending::Unchanged => "unchanged",
        Mending::Swapped => "swapped",
        Mending::LeftOut => "left-out",
        Mending::PutIn => "put-in",
        Mending::Replaced => "replaced",
    }
}

impl Found for Suggestion<String> {
    ghost spelling = { λ s. said_of_suggestion (string_bytes s.text, (s.mending, s.place)) };

    fn push_to(&self, said: &mut Vec<u8>) -> Result<(), AllocError> {
        let word = mending_word(self.mending);
        push_found(said, word, self.place, self.text.as_bytes())
    }
}

/// Adds the addresses with a human-readable part that someone who typed a text may have meant, each
/// with what is done to the text, or leaves all as it was and returns the number of the refusal.
pub fn suggest(alloc: Global, part: &str, text: &str, out: &mut Vec<u8>) -> Result<(), u8>
    requires { vec_len out.old + 2048 ≤ vec_capacity out.old }
    ensures answer { AddsOrSaysNumber (IsSuggestAnswer part.now text.now)
        result out.old.items out.new.items }
    ensures small { IfErr result (λ number. number < 100) }
    ensures room { OnOk result (vec_len out.new + 1 ≤ vec_capacity out.new) }
    ensures capacity { vec_capacity out.old ≤ vec_capacity out.new }
{
    let hrp = match Hrp::parse(part) {
        Ok(hrp) => hrp,
        Err(e) => return Err(hrp_error_number(e)),
    };
    match bech32_suggest::suggest(alloc, text, hrp) {
        Ok(found) => append_found(alloc, found.as_slice(), out),
        Err(e) => Err(edits_error_number(e)),
    }
}
