//! Splits secrets into shares.

ghost use Rattle.std.specs.Prelude.{◌≡◌, length, IfErr, IfOk, IsOk, OnErr};
ghost use Rattle.codex32_calls.specs.Split.{CanSplit, IsSplitFault, PutsSplit};

use crate::input::{identifier_of, threshold_of};
use crate::refusal::Refusal;
use codex32::split_into;

/// Puts shares of a secret at the front of a buffer, one behind another, as [`split_into`] does,
/// and returns the length of each.
pub fn put_split(
    texts: &mut [u8],
    threshold: u32,
    identifier: &[u8],
    secret: &[u8],
    count: usize,
    random: &[u8],
) -> Result<usize, Refusal>
    ensures value { IfOk result
        (PutsSplit threshold identifier.now secret.now random.now count texts.old texts.new) }
    ensures accepts { CanSplit threshold identifier.now secret.now random.now count
        (length texts.old) → IsOk result }
    ensures refused { IfErr result
        (IsSplitFault threshold identifier.now secret.now random.now count (length texts.old)) }
    ensures same { OnErr result (texts.new ≡ texts.old) }
{
    let threshold = threshold_of(threshold)?;
    let identifier = identifier_of(identifier)?;
    Ok(split_into(texts, threshold, identifier, secret, count, random)?)
}
