//! The remainder that a human-readable part and elements leave.

ghost use Rattle.std.specs.Prelude.{◌≡◌, ◌↔◌, true, IsTrue, List};
ghost use Rattle.bech32_gf.specs.Alphabet.{is_data};
ghost use Rattle.bech32_gf.specs.Fe32.{elements_of, ops};
ghost use Rattle.bech32_poly.specs.Polynomial.{add};
ghost use Rattle.bech32_gf.specs.declared.gf32.Fe32.{Fe32 as Element};
ghost use Rattle.bech32_checksum.specs.Code.{IsResidueOf};
ghost use Rattle.bech32_checksum.specs.TextPolynomial.{text_polynomial};
ghost use Rattle.bech32_hrp.specs.HrpBytes.{hrp_bytes};
ghost use Rattle.bech32_near.specs.edits.Walks.{LeavesTarget, IsWordOf};

use bech32_checksum::{Checksum, Engine};
use bech32_gf::gf32::Fe32;
use bech32_hrp::Hrp;

// An engine that was given a human-readable part and characters.
pub(crate) fn engine_of<Ck: Checksum>(hrp: Hrp, characters: &[u8]) -> Engine<Ck>
    requires { is_data characters.now ≡ true }
    ensures { IsResidueOf Ck.MidstateRepr.number Ck.code result
        (text_polynomial (hrp_bytes hrp) (elements_of characters.now)) }
{
    let mut engine = Engine::<Ck>::new();
    engine.input_hrp(hrp);
    for b in characters {
        engine.input_fe(Fe32::from_char_unchecked(*b));
    }
    engine
}

// The remainder of an engine.
#[inline]
pub(crate) fn word_of<Ck: Checksum>(engine: &Engine<Ck>) -> Ck::MidstateRepr
    ensures { (p : List Element) → IsResidueOf Ck.MidstateRepr.number Ck.code engine.now p
        → IsWordOf Ck.MidstateRepr.number Ck.code result p }
{
    *engine.residue()
}

// Whether a remainder is the target.
#[inline]
pub(crate) fn is_target<Ck: Checksum>(residue: Ck::MidstateRepr) -> bool
    ensures { (p : List Element) → IsWordOf Ck.MidstateRepr.number Ck.code residue p
        → (IsTrue result ↔ LeavesTarget Ck.code p) }
{
    residue == Ck::TARGET_RESIDUE
}

// The sum of two remainders.
#[inline]
pub(crate) fn sum_of<Ck: Checksum>(x: Ck::MidstateRepr, y: Ck::MidstateRepr) -> Ck::MidstateRepr
    ensures { (p : List Element) (q : List Element) → IsWordOf Ck.MidstateRepr.number Ck.code x p
        → IsWordOf Ck.MidstateRepr.number Ck.code y q
        → IsWordOf Ck.MidstateRepr.number Ck.code result (add ops p q) }
{
    x ^ y
}
