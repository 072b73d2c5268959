//! The remainder that a text leaves.

ghost use Rattle.std.specs.Prelude.{◌≡◌, ◌<◌, ◌*◌, ◌^◌, ◌++◌, ℕ, true, List};
ghost use Rattle.bech32_gf.specs.Alphabet.{is_data};
ghost use Rattle.bech32_gf.specs.Fe32.{elements_of};
ghost use Rattle.bech32_checksum.specs.Code.{IsResidueAfter, IsResidueOf};
ghost use Rattle.bech32_checksum.specs.TextPolynomial.{text_polynomial};

use crate::eights::word_of_eight;
use crate::reader::AsciiToFe32Iter;
use bech32_checksum::{Checksum, Engine};

// Hands the elements of characters to an engine, eight at a time, and returns the characters that
// are left, fewer than eight.
#[inline]
fn input_eights<'s, Ck: Checksum>(characters: &'s [u8], engine: &mut Engine<Ck>) -> &'s [u8]
    requires { is_data characters.now ≡ true }
    ensures of_alphabet { is_data result.now ≡ true }
    ensures residue { (taken : List ℕ) × (characters.now ≡ taken ++ result.now)
        × IsResidueAfter Ck.MidstateRepr.number Ck.code engine.old (elements_of taken) engine.new }
{
    let mut rest = characters;
    while rest.len() >= 8 {
        engine.input_word(word_of_eight(rest) % 0x100_0000_0000);
        rest = &rest[8..];
    }
    rest
}

// The remainder of a text's polynomial, packed. Out of line: most texts are walked over.
#[inline(never)]
pub(crate) fn residue_of<Ck: Checksum>(part: &[u8], data_part: &[u8]) -> Ck::MidstateRepr
    requires { is_data data_part.now ≡ true }
    ensures residue { IsResidueOf Ck.MidstateRepr.number Ck.code result
        (text_polynomial part.now (elements_of data_part.now)) }
    ensures clear { Ck.MidstateRepr.number result < 2 ^ (5 * Ck.CHECKSUM_LENGTH) }
{
    let mut engine = Engine::<Ck>::new();
    engine.input_part(part);
    let left = input_eights(data_part, &mut engine);
    for fe in AsciiToFe32Iter::new(left) {
        engine.input_fe(fe);
    }
    *engine.residue()
}
