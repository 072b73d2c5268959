//! Reads what a C program gives: human-readable parts, elements.

ghost use Rattle.std.specs.Prelude.{◌≡◌, ◌≤◌, ◌<◌, Some, MatchResult};
ghost use Rattle.std.specs.Str.{IsUtf8};
ghost use Rattle.bech32_gf.specs.Fe32.{element};
ghost use Rattle.bech32_hrp.specs.Hrp.{IsHrp, hrp_refusal};
ghost use Rattle.bech32_hrp.specs.HrpBytes.{hrp_bytes};
ghost use Rattle.bech32_calls.specs.Faults.{IsPartFault};

use crate::refusal::Refusal;
use bech32::primitives::hrp;
use bech32::{Fe32, Hrp};
use bech32_decode::{NotText, text_of};
use bech32_hrp::is_part;

/// The human-readable part of bytes.
///
/// # Errors
///
/// Bytes that are not UTF-8; else the first fault of their text as a human-readable part.
pub fn part_of(bytes: &[u8]) -> Result<Hrp, Refusal>
    ensures { MatchResult result
        (λ hrp. IsHrp bytes.now × (hrp_bytes hrp ≡ bytes.now))
        (λ e. IsPartFault bytes.now e) }
{
    let text = text_of(bytes)?;
    let hrp = Hrp::parse(text)?;
    Ok(hrp)
}

// The first fault of bytes that are no human-readable part. Out of line: few bytes come here. It is
// small, unlike a refusal: where the result stands is cleared in each call.
#[cold]
#[inline(never)]
fn fault_of_part(bytes: &[u8]) -> Result<hrp::Error, NotText>
    requires { ¬ (IsHrp bytes.now) }
    ensures { MatchResult result
        (λ e. IsUtf8 bytes.now × (hrp_refusal bytes.now ≡ Some e))
        (λ _. ¬ (IsUtf8 bytes.now)) }
{
    let part = text_of(bytes)?;
    match Hrp::parse(part) {
        Err(e) => Ok(e),
        Ok(_) => unreachable!(),
    }
}

/// Tests that bytes are a human-readable part.
///
/// # Errors
///
/// Bytes that are not UTF-8; else the first fault of their text as a human-readable part.
#[inline]
pub fn test_part(bytes: &[u8]) -> Result<(), Refusal>
    ensures { MatchResult result (λ _. IsHrp bytes.now) (λ e. IsPartFault bytes.now e) }
{
    if is_part(bytes) {
        return Ok(());
    }
    match fault_of_part(bytes) {
        Ok(e) => Err(Refusal::Hrp(e)),
        Err(_) => Err(Refusal::NotUtf8),
    }
}

/// The element of a number, which is one up to 31.
///
/// # Errors
///
/// [`Refusal::BadNumber`] above 31.
pub fn element_of(number: u32) -> Result<Fe32, Refusal>
    ensures { MatchResult result
        (λ fe. (number ≤ 31) × (fe ≡ element number))
        (λ e. (31 < number) × (e ≡ Refusal.BadNumber)) }
{
    if number > 31 {
        return Err(Refusal::BadNumber);
    }
    Ok(Fe32::from_low_bits(number as u8))
}
