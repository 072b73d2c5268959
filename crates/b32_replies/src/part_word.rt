//! Human-readable parts as words.

ghost use Rattle.std.specs.Prelude.{◌≡◌, MatchResult, Some, None};
ghost use Rattle.bech32_hrp.specs.Hrp.{IsHrp, hrp_refusal};
ghost use Rattle.bech32_hrp.specs.declared.Error.{Error as HrpError};

use crate::refusal::Refusal;
use bech32::Hrp;
use bech32::primitives::hrp::is_part;

// Why a word is refused that is no human-readable part.
#[cold]
#[inline(never)]
fn refusal_of(word: &str) -> Refusal
    requires { ¬ (IsHrp word.now) }
    ensures { (e : HrpError) × (result ≡ Refusal.Hrp e) × (hrp_refusal word.now ≡ Some e) }
{
    match Hrp::parse(word) {
        Ok(_) => unreachable!(),
        Err(e) => Refusal::Hrp(e),
    }
}

/// The bytes of a word that is a human-readable part. There is no branch at each of them: it would
/// go the wrong way where letters and other characters take turns at random.
#[inline]
pub fn part_of_word(word: &str) -> Result<&[u8], Refusal>
    ensures { MatchResult result
        (λ part. (hrp_refusal word.now ≡ None) × (part.now ≡ word.now) × IsHrp part.now)
        (λ refusal. (e : HrpError) × (refusal ≡ Refusal.Hrp e) × (hrp_refusal word.now ≡ Some e)) }
{
    let part = word.as_bytes();
    if is_part(part) {
        return Ok(part);
    }
    Err(refusal_of(word))
}
