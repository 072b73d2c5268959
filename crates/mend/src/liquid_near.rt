//! Answers `liquid`.

ghost use Rattle.std.specs.Prelude.{◌≡◌, ◌⊎◌, ◌+◌, ◌<◌, ◌≤◌, vec_len, vec_capacity, IfErr, MatchResult, OnOk};
ghost use Rattle.blech32.specs.Words.{blech32_code};
ghost use Rattle.line_program.specs.Added.{AddsOrSaysNumber};
ghost use Rattle.line_program.specs.Refused.{err};
ghost use Rattle.bech32_numbers.specs.Numbers.{number_of_correct_error};
ghost use Rattle.mend.specs.Reply.{IsLiquidAnswer, IsNearTextsRefusal, SaysLiquid};
ghost use Rattle.mend.specs.Request.{liquid_errors_of_word};

use crate::command::errors_in;
use crate::found::reply_of;
use crate::numbers::{BAD_WORD, NO_MEMORY};
use bech32::{CorrectError, nearest};
use bech32_more_calls::confidential::nearest::is_asked;
use bech32_numbers::correct_error_number;
use line_program::append_any;
use liquid::Blech32;
use std::alloc::Global;

// How many errors a word allows: 0 to 3.
fn liquid_errors_in(word: &str) -> Option<usize>
    ensures { result ≡ liquid_errors_of_word word.now }
{
    match word {
        "3" => Some(3),
        _ => errors_in(word),
    }
}

// What is said of the confidential addresses near a text.
fn said_near(
    alloc: Global,
    text: &str,
    given: &[usize],
    errors: usize,
) -> Result<Vec<u8>, CorrectError>
    ensures { MatchResult result
        (λ said. SaysLiquid text.now given.now errors said.items)
        (λ e. IsNearTextsRefusal blech32_code text.now e) }
{
    let near = nearest::<Blech32, _>(alloc, text, given, errors)?.texts;
    Ok(reply_of(alloc, near.as_slice())?)
}

// Adds what is said of texts, or leaves all as it was and returns the number of the refusal.
fn append_said(said: Result<Vec<u8>, CorrectError>, out: &mut Vec<u8>) -> Result<(), u8>
    ensures answer { AddsOrSaysNumber (λ t. MatchResult said
        (λ s. (t ≡ s.items) ⊎ (t ≡ err 91))
        (λ e. t ≡ err (number_of_correct_error e)))
        result out.old.items out.new.items }
    ensures small { IfErr result (λ number. number < 100) }
    ensures room { OnOk result (vec_len out.new + 1 ≤ vec_capacity out.new) }
    ensures capacity { vec_capacity out.old ≤ vec_capacity out.new }
{
    let said = match said {
        Ok(said) => said,
        Err(e) => return Err(correct_error_number(e)),
    };
    if append_any(out, said.as_slice()).is_err() {
        return Err(NO_MEMORY);
    }
    Ok(())
}

/// Adds the confidential addresses near a text, with as few errors as a word says, or leaves all as
/// it was and returns the number of the refusal. Twice the errors, with at most six different
/// locations, may be at most seven.
pub fn liquid(
    alloc: Global,
    text: &str,
    asked: (&[usize], &str),
    out: &mut Vec<u8>,
) -> Result<(), u8>
    ensures answer { AddsOrSaysNumber
        (IsLiquidAnswer text.now asked.entry.0.now asked.entry.1.now)
        result out.old.items out.new.items }
    ensures small { IfErr result (λ number. number < 100) }
    ensures room { OnOk result (vec_len out.new + 1 ≤ vec_capacity out.new) }
    ensures capacity { vec_capacity out.old ≤ vec_capacity out.new }
{
    let (given, errors) = asked;
    let Some(errors) = liquid_errors_in(errors) else {
        return Err(BAD_WORD);
    };
    if !is_asked(given, errors) {
        return Err(BAD_WORD);
    }
    append_said(said_near(alloc, text, given, errors), out)
}
