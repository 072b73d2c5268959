//! Answers `fault`.

ghost use Rattle.std.specs.Prelude.{◌≡◌, ◌+◌, ◌≤◌, ◌++◌, ◌∷◌, ℕ, List, vec_len, vec_capacity, MatchResult};
ghost use Rattle.std.specs.Fmt.{decimal};
ghost use Rattle.bech32_decode.specs.Acceptance.{Accepts};
ghost use Rattle.bech32_decode.specs.Checked.{IsCheckedRefusal};
ghost use Rattle.b32_replies.specs.Request.{code_of_name};
ghost use Rattle.mend.specs.Reply.{IsFaultAnswer};

use b32_replies::ChecksumName;
use bech32::primitives::decode::{CheckedHrpstring, CheckedHrpstringError};
use bech32::{Bech32, Bech32m};
use bech32_calls::fault::place_of;
use bech32_numbers::checked_error_number;
use itoa::Buffer;
use line_program::{append, append_refusal};

// Nothing where the checksum accepts a text, or why it refuses it.
fn tested(checksum: ChecksumName, text: &str) -> Result<(), CheckedHrpstringError>
    ensures { MatchResult result
        (λ _. Accepts (code_of_name checksum) text.now)
        (λ e. IsCheckedRefusal (code_of_name checksum) text.now e) }
{
    match checksum {
        ChecksumName::Bech32 => CheckedHrpstring::new::<Bech32>(text)?,
        ChecksumName::Bech32m => CheckedHrpstring::new::<Bech32m>(text)?,
    };
    Ok(())
}

// Adds a place, and a space before it.
pub(crate) fn append_place(out: &mut Vec<u8>, place: usize)
    requires { vec_len out.old + 41 ≤ vec_capacity out.old }
    ensures items { out.new.items ≡ out.old.items ++ (32 ∷ decimal place) }
    ensures size { vec_len out.new ≤ vec_len out.old + 41 }
    ensures capacity { vec_capacity out.old ≤ vec_capacity out.new }
{
    let mut buffer = Buffer::new();
    append(out, b" ");
    append(out, buffer.format(place).as_bytes());
}

/// Adds why the checksum refuses a text, and where that stands, or that it accepts it.
pub fn fault(checksum: ChecksumName, text: &str, out: &mut Vec<u8>)
    requires { vec_len out.old + 2048 ≤ vec_capacity out.old }
    ensures answer { (said : List ℕ) × IsFaultAnswer (code_of_name checksum) text.now said
        × (out.new.items ≡ out.old.items ++ said) }
    ensures room { vec_len out.new + 1 ≤ vec_capacity out.new }
    ensures capacity { vec_capacity out.old ≤ vec_capacity out.new }
{
    let Err(refusal) = tested(checksum, text) else {
        append(out, b"ok");
        return;
    };
    let number = checked_error_number(refusal);
    let Some(place) = place_of(text.as_bytes(), u32::from(number)) else {
        unreachable!()
    };
    append_refusal(out, number);
    append_place(out, place);
}
