//! Reads what a C program gives: texts, human-readable parts, elements.

ghost use Rattle.std.specs.Prelude.{◌≡◌, ◌≤◌, ◌<◌, MatchOption, MatchResult};
ghost use Rattle.std.specs.Str.{IsUtf8};
ghost use Rattle.bech32_gf.specs.Fe32.{element};
ghost use Rattle.bech32_hrp.specs.Hrp.{IsHrp};
ghost use Rattle.bech32_calls.specs.Faults.{IsNumberOf, IsPartFault, IsTextFault};

use crate::checksum::NOT_UTF8;
use crate::elements::residue_of;
use crate::grammar::Short;
use bech32::{Bech32m, Fe32, Hrp};
use bech32_calls::refusal::Refusal;
use bech32_decode::{Reading, parts_by};

/// The text of bytes, if they are UTF-8.
#[inline(never)]
pub(crate) fn text_of(bytes: &[u8]) -> Option<&str>
    ensures { MatchOption result
        (¬ (IsUtf8 bytes.now))
        (λ text. (text.now ≡ bytes.now) × IsUtf8 bytes.now) }
{
    match str::from_utf8(bytes) {
        Ok(text) => Some(text),
        Err(_) => None,
    }
}

/// Reads the text of bytes, and the remainder that it leaves.
///
/// # Errors
///
/// The number of the first of: bytes that are not UTF-8; the first fault of their text.
#[inline(never)]
pub(crate) fn read(bytes: &[u8]) -> Result<Reading<'_, Bech32m>, u32>
    ensures { MatchResult result
        (λ r. r.text.now ≡ bytes.now)
        (λ n. IsNumberOf (IsTextFault bytes.now) n) }
{
    let Some(text) = text_of(bytes) else {
        return Err(NOT_UTF8);
    };
    match parts_by::<Short>(text) {
        Ok((hrp, data_part)) => Ok(Reading {
            text: bytes,
            hrp,
            data_part,
            residue: residue_of(hrp, data_part),
        }),
        Err(e) => Err(Refusal::Text(e).number()),
    }
}

/// Tests that bytes are a human-readable part.
///
/// # Errors
///
/// The number of the first of: bytes that are not UTF-8; the first fault of their text as a
/// human-readable part.
#[inline(never)]
pub(crate) fn test_part(bytes: &[u8]) -> Result<(), u32>
    ensures { MatchResult result
        (λ _. IsHrp bytes.now)
        (λ n. IsNumberOf (IsPartFault bytes.now) n) }
{
    let Some(text) = text_of(bytes) else {
        return Err(NOT_UTF8);
    };
    match Hrp::parse(text) {
        Ok(_) => Ok(()),
        Err(e) => Err(Refusal::Hrp(e).number()),
    }
}

/// The element of a number, which is one up to 31.
pub(crate) fn element_of(number: u32) -> Option<Fe32>
    ensures { MatchOption result
        (31 < number)
        (λ fe. (number ≤ 31) × (fe ≡ element number)) }
{
    if number > 31 {
        return None;
    }
    Some(Fe32::from_low_bits(number as u8))
}
