//! Encodes bytes.

ghost use Rattle.std.specs.Prelude.{◌≡◌, ◌≤◌, ◌+◌, ◌++◌, ℕ, List, length, option_to_list, IfOk, IfErr, OnErr};
ghost use Rattle.bech32.specs.Long.{max_long_text_length};
ghost use Rattle.bech32_bits.specs.Bits.{to_fes};
ghost use Rattle.bech32_checksum.specs.Encoded.{IsEncodedText};
ghost use Rattle.bech32_encode.specs.Buffers.{IsPut};
ghost use Rattle.bech32_calls.specs.Checksums.{ForTexts, IsFaultOfTexts};
ghost use Rattle.bech32_calls.specs.Encode.{PutsText, IsEncodeFault};

use crate::checksum::by_number;
use crate::input::test_part;
use crate::refusal::Refusal;
use bech32::primitives::encode;
use bech32::{Checksum, Fe32, encoded_length_of_part};

/// Puts the text of a human-readable part, a witness version where there is one, and bytes into a
/// buffer that has room for it, and returns its length.
pub(crate) fn put_in_room<Ck: Checksum>(
    part: &[u8],
    version: Option<Fe32>,
    bytes: &[u8],
    text: &mut [u8],
) -> usize
    requires { length part.now + 1 + length (option_to_list version ++ to_fes bytes.now)
        + length Ck.code.generator ≤ length text.old }
    ensures { (written : List ℕ)
        × IsEncodedText Ck.code part.now
        (option_to_list version ++ to_fes bytes.now) written
        × IsPut written text.old text.new result }
{
    encode::put_text_of_part::<Ck>(part, version, bytes, text)
}

// Puts the text by one checksum, and returns its length.
fn encoded<Ck: Checksum>(hrp: &[u8], bytes: &[u8], text: &mut [u8]) -> Result<usize, Refusal>
    requires { Ck.code.code_length ≤ max_long_text_length }
    ensures value { IfOk result
        (λ count. PutsText Ck.code hrp.now bytes.now text.old text.new count) }
    ensures refused { IfErr result
        (λ e. IsEncodeFault hrp.now bytes.now (length text.old) Ck.code e) }
    ensures same { OnErr result (text.new ≡ text.old) }
{
    test_part(hrp)?;
    let count = encoded_length_of_part::<Ck>(hrp, bytes)?;
    if count > text.len() {
        return Err(Refusal::NoRoom);
    }
    Ok(put_in_room::<Ck>(hrp, None, bytes, text))
}

/// Puts the text of a human-readable part and bytes by the checksum of a number, in lower case, at
/// the front of a buffer, and returns its length, at most [`Bech32::CODE_LENGTH`](bech32::Bech32),
/// or [`bech32::MAX_LONG_TEXT_LENGTH`] by a long one.
///
/// # Errors
///
/// The first of: a number that is not from 1 to 4; a human-readable part that is not UTF-8, or is
/// none; a text of more characters than the checksum allows, or of more than the buffer has room
/// for.
pub fn encoded_by(
    checksum: u32,
    hrp: &[u8],
    bytes: &[u8],
    text: &mut [u8],
) -> Result<usize, Refusal>
    ensures value { IfOk result (λ count.
        ForTexts checksum (λ code. PutsText code hrp.now bytes.now text.old text.new count)) }
    ensures refused { IfErr result
        (λ e. IsFaultOfTexts checksum (IsEncodeFault hrp.now bytes.now (length text.old)) e) }
    ensures same { OnErr result (text.new ≡ text.old) }
{
    by_number!(checksum, encoded(hrp, bytes, text))
}
