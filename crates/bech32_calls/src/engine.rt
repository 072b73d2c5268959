//! The engine over a run of elements.

ghost use Rattle.std.specs.Prelude.{◌≡◌, ◌≤◌, ◌++◌, ℕ, List, All, MatchResult};
ghost use Rattle.std.specs.Prelude.{map};
ghost use Rattle.bech32_gf.specs.Fe32.{element};
ghost use Rattle.bech32_checksum.specs.Code.{IsResidueAfter};
ghost use Rattle.bech32_calls.specs.Checksums.{ForChecksum, IsFaultBy};
ghost use Rattle.bech32_calls.specs.Engine.{IsRunResidue, IsRunFault};

use crate::checksum::{BECH32, BECH32M};
use crate::input::element_of;
use crate::refusal::Refusal;
use bech32::primitives::checksum::Engine;
use bech32::{Bech32, Bech32m, Checksum};
use bech32_decode::values::word_of_values;

// Hands the elements of values to an engine, eight at a time, and returns the values that are left,
// fewer than eight.
#[inline]
fn input_eights<'v, Ck: Checksum>(
    values: &'v [u8],
    engine: &mut Engine<Ck>,
) -> Result<&'v [u8], Refusal>
    ensures { MatchResult result
        (λ left. (All (λ x. x ≤ 31) left.now → All (λ x. x ≤ 31) values.now)
        × (taken : List ℕ) × (values.now ≡ taken ++ left.now)
        × IsResidueAfter Ck.MidstateRepr.number Ck.code engine.old (map element taken) engine.new)
        (λ e. IsRunFault values.now Ck.code e) }
{
    let mut rest = values;
    while rest.len() >= 8 {
        let Some(word) = word_of_values(rest) else {
            return Err(Refusal::BadNumber);
        };
        engine.input_word(word);
        rest = &rest[8..];
    }
    Ok(rest)
}

// Hands the elements of values to an engine, one by one.
fn input_each<Ck: Checksum>(values: &[u8], engine: &mut Engine<Ck>) -> Result<(), Refusal>
    ensures { MatchResult result
        (λ _. All (λ x. x ≤ 31) values.now
        × IsResidueAfter Ck.MidstateRepr.number Ck.code
        engine.old (map element values.now) engine.new)
        (λ e. IsRunFault values.now Ck.code e) }
{
    for value in values {
        engine.input_fe(element_of(u32::from(*value))?);
    }
    Ok(())
}

// The remainder of the elements of values, packed.
fn remainder_of_values<Ck: Checksum>(values: &[u8]) -> Result<Ck::MidstateRepr, Refusal>
    ensures { MatchResult result
        (λ r. IsRunResidue Ck.MidstateRepr.number values.now r Ck.code)
        (λ e. IsRunFault values.now Ck.code e) }
{
    let mut engine = Engine::<Ck>::new();
    let left = input_eights(values, &mut engine)?;
    input_each(left, &mut engine)?;
    Ok(*engine.residue())
}

/// The remainder that elements, a byte from 0 to 31 each, leave by the checksum of a number: that
/// of the polynomial 1 with the elements behind it, the first the highest. Its six coefficients are
/// packed, five bits each, the constant term lowest.
///
/// # Errors
///
/// [`Refusal::BadNumber`] for a number that is neither 1 nor 2, and for a byte above 31.
pub fn residue_by(checksum: u32, values: &[u8]) -> Result<u32, Refusal>
    ensures { MatchResult result
        (λ r. ForChecksum checksum (IsRunResidue (λ (n : ℕ). n) values.now r))
        (λ e. IsFaultBy checksum (IsRunFault values.now) e) }
{
    match checksum {
        BECH32 => remainder_of_values::<Bech32>(values),
        BECH32M => remainder_of_values::<Bech32m>(values),
        _ => Err(Refusal::BadNumber),
    }
}
