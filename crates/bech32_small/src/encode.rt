//! Encodes bytes.

ghost use Rattle.std.specs.Prelude.{◌≡◌, ◌≤◌, length, IfOk, IfErr, OnErr};
ghost use Rattle.bech32.specs.Long.{max_long_text_length};
ghost use Rattle.bech32_checksum.specs.Code.{Code};
ghost use Rattle.bech32_calls.specs.Checksums.{ForTexts, IsFaultOfTexts};
ghost use Rattle.bech32_calls.specs.Encode.{PutsText, IsEncodeFault};
ghost use Rattle.bech32_calls.specs.Faults.{IsNumberOf};
ghost use Rattle.bech32_small.specs.Target.{PacksTarget};

use crate::checksum::{
    BAD_NUMBER, BECH32, BECH32M, BECH32M_TARGET, ENCODED_TOO_LONG, LONG_BECH32, LONG_BECH32M,
    MAX_TEXT_LENGTH, NO_ROOM, TARGET,
};
use crate::input::test_part;
use crate::text::put_in_room;
use bech32::{Bech32m, MAX_LONG_TEXT_LENGTH};
use bech32_encode::text_length_of_part;

// Puts the text by the checksum with a target and a code length, and returns its length.
#[inline(never)]
fn encoded(
    target: u32,
    most: usize,
    hrp: &[u8],
    bytes: &[u8],
    text: &mut [u8],
) -> Result<usize, u32>
    requires { most ≤ max_long_text_length }
    ensures value { (code : Code) → PacksTarget target code → code.code_length ≡ most
        → IfOk result (λ count. PutsText code hrp.now bytes.now text.old text.new count) }
    ensures refused { (code : Code) → PacksTarget target code → code.code_length ≡ most
        → IfErr result
        (λ n. IsNumberOf (IsEncodeFault hrp.now bytes.now (length text.old) code) n) }
    ensures same { OnErr result (text.new ≡ text.old) }
{
    test_part(hrp)?;
    let count = text_length_of_part::<Bech32m>(hrp, bytes.len());
    if count > most {
        return Err(ENCODED_TOO_LONG);
    }
    if count > text.len() {
        return Err(NO_ROOM);
    }
    Ok(put_in_room(target, hrp, None, bytes, text))
}

/// Puts the text of a human-readable part and bytes by the checksum of a number, in lower case, at
/// the front of a buffer, and returns its length, at most [`MAX_TEXT_LENGTH`], or
/// [`MAX_LONG_TEXT_LENGTH`] by a long one.
///
/// # Errors
///
/// The number of the first of: a number that is not from 1 to 4; a human-readable part that is not
/// UTF-8, or is none; a text of more characters than the checksum allows, or of more than the
/// buffer has room for.
pub fn encoded_by(checksum: u32, hrp: &[u8], bytes: &[u8], text: &mut [u8]) -> Result<usize, u32>
    ensures value { IfOk result (λ count.
        ForTexts checksum (λ code. PutsText code hrp.now bytes.now text.old text.new count)) }
    ensures refused { IfErr result
        (λ n. IsNumberOf
        (IsFaultOfTexts checksum (IsEncodeFault hrp.now bytes.now (length text.old))) n) }
    ensures same { OnErr result (text.new ≡ text.old) }
{
    match checksum {
        BECH32 => encoded(TARGET, MAX_TEXT_LENGTH, hrp, bytes, text),
        BECH32M => encoded(BECH32M_TARGET, MAX_TEXT_LENGTH, hrp, bytes, text),
        LONG_BECH32 => encoded(TARGET, MAX_LONG_TEXT_LENGTH, hrp, bytes, text),
        LONG_BECH32M => encoded(BECH32M_TARGET, MAX_LONG_TEXT_LENGTH, hrp, bytes, text),
        _ => Err(BAD_NUMBER),
    }
}
