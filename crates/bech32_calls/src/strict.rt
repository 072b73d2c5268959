//! Decodes texts that are the only ones of their bytes.

ghost use Rattle.std.specs.Prelude.{◌≡◌, length, IfOk, IfErr, OnErr};
ghost use Rattle.bech32_calls.specs.Checksums.{ForTexts, IsFaultOfTexts};
ghost use Rattle.bech32_calls.specs.Strict.{PutsStrict, IsStrictFault};

use crate::checksum::by_number;
use crate::decode::put_parts;
use crate::refusal::Refusal;
use bech32::Checksum;
use bech32_decode::Reading;

// The same by one checksum.
fn decoded_strict<Ck: Checksum>(
    text: &[u8],
    hrp: &mut [u8],
    bytes: &mut [u8],
) -> Result<(usize, usize), Refusal>
    ensures value { IfOk result
        (λ n. PutsStrict text.now hrp.old hrp.new bytes.old bytes.new n.0 n.1 Ck.code) }
    ensures refused { IfErr result
        (λ e. IsStrictFault text.now (length hrp.old) (length bytes.old) Ck.code e) }
    ensures same { OnErr result ((hrp.new ≡ hrp.old) × (bytes.new ≡ bytes.old)) }
{
    let reading = Reading::<Ck>::from_bytes(text)?;
    reading.validate()?;
    let found = reading.checked();
    found.validate_segwit_padding()?;
    put_parts(reading.hrp, found.data_part_ascii_no_checksum(), hrp, bytes)
}

/// Puts the human-readable part, in the case of the text, and the bytes of a text that the checksum
/// of a number accepts at the fronts of two buffers, and returns their lengths. The text is the
/// only one by this checksum of these, in its case.
///
/// # Errors
///
/// The first of: a number that is not from 1 to 4; a text that is not UTF-8; its first fault; more
/// than four bits behind the last whole byte; bits there that are not all zero; a buffer that is
/// too small.
pub fn decoded_strict_by(
    checksum: u32,
    text: &[u8],
    hrp: &mut [u8],
    bytes: &mut [u8],
) -> Result<(usize, usize), Refusal>
    ensures value { IfOk result (λ n. ForTexts checksum
        (PutsStrict text.now hrp.old hrp.new bytes.old bytes.new n.0 n.1)) }
    ensures refused { IfErr result (λ e. IsFaultOfTexts checksum
        (IsStrictFault text.now (length hrp.old) (length bytes.old)) e) }
    ensures same { OnErr result ((hrp.new ≡ hrp.old) × (bytes.new ≡ bytes.old)) }
{
    by_number!(checksum, decoded_strict(text, hrp, bytes))
}
