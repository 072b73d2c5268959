//! Answers `checksum`.

ghost use Rattle.std.specs.Prelude.{◌+◌, ◌<◌, ◌≤◌, vec_len, vec_capacity, IfErr, MatchResult, OnOk};
ghost use Rattle.bech32_decode.specs.Acceptance.{Accepts};
ghost use Rattle.b32_replies.specs.Request.{code_of_name};
ghost use Rattle.line_program.specs.Added.{AddsOrSaysNumber};
ghost use Rattle.mend.specs.Reply.{IsChecksumAnswer, IsRefusedByEither};

use b32_replies::ChecksumName;
use bech32::Bech32m;
use bech32::primitives::decode::CheckedHrpstringError;
use bech32_decode::Reading;
use bech32_numbers::checked_error_number;
use line_program::append;

// Which checksum accepts a text, or why Bech32m refuses it where neither does.
fn accepting(text: &str) -> Result<ChecksumName, CheckedHrpstringError>
    ensures { MatchResult result
        (λ name. Accepts (code_of_name name) text.now)
        (λ e. IsRefusedByEither text.now e) }
{
    let reading = Reading::<Bech32m>::new(text)?;
    if reading.is_accepted() {
        return Ok(ChecksumName::Bech32m);
    }
    reading.validate_either()?;
    Ok(ChecksumName::Bech32)
}

/// Adds which checksum accepts a text, or leaves all as it was and returns the number of the
/// refusal.
pub fn checksum(text: &str, out: &mut Vec<u8>) -> Result<(), u8>
    requires { vec_len out.old + 2048 ≤ vec_capacity out.old }
    ensures answer { AddsOrSaysNumber (IsChecksumAnswer text.now) result
        out.old.items out.new.items }
    ensures small { IfErr result (λ number. number < 100) }
    ensures room { OnOk result (vec_len out.new + 1 ≤ vec_capacity out.new) }
    ensures capacity { vec_capacity out.old ≤ vec_capacity out.new }
{
    match accepting(text) {
        Ok(ChecksumName::Bech32) => append(out, b"ok bech32"),
        Ok(ChecksumName::Bech32m) => append(out, b"ok bech32m"),
        Err(e) => return Err(checked_error_number(e)),
    }
    Ok(())
}
