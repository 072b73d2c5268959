//! Bech32 and Bech32m for long texts, as invoices (BOLT 11), nostr and age have them.
//!
//! Up to 1,023 characters they accept what the short ones do. Above that nothing is promised of how
//! far accepted texts lie apart, and texts are not corrected: 1,023 is the order of the roots, so a
//! wrong character leaves the same remainder as one 1,023 locations away (at location 1,200 the
//! same as at 177). So neither is a [`CorrectingChecksum`](crate::CorrectingChecksum).

ghost use Rattle.std.specs.Prelude.{refl};
ghost use Rattle.std.proofs.Common.{ap};
ghost use Rattle.bech32_checksum.specs.Roots.{HasLawfulRoots};
ghost use Rattle.bech32.specs.Long.{long, max_long_text_length};

use bech32_checksum::{Bech32, Bech32m, Checksum};
use bech32_gf::gf32::Fe32;
use std::marker::PhantomData;

/// The most characters of a long text: those of the longest invoices (BOLT 11).
pub const MAX_LONG_TEXT_LENGTH: usize = 7089;

/// Bech32 (BIP-173) for texts of up to [`MAX_LONG_TEXT_LENGTH`] characters.
pub type LongBech32 = Long<Bech32>;

/// Bech32m (BIP-350) for texts of up to [`MAX_LONG_TEXT_LENGTH`] characters.
pub type LongBech32m = Long<Bech32m>;

/// `Ck` for texts of up to [`MAX_LONG_TEXT_LENGTH`] characters: nothing but this length differs.
#[derive(Copy, Clone)]
pub struct Long<Ck> {
    of: PhantomData<Ck>,
}

impl<Ck: Checksum> Checksum for Long<Ck> {
    type MidstateRepr = Ck::MidstateRepr;

    type CorrectionField = Ck::CorrectionField;

    ghost ROOT_GENERATOR = { Ck.ROOT_GENERATOR };

    ghost ROOT_EXPONENTS_START = { Ck.ROOT_EXPONENTS_START };

    ghost ROOT_EXPONENTS_END = { Ck.ROOT_EXPONENTS_END };

    ghost CODE_LENGTH = { max_long_text_length };

    ghost CHECKSUM_LENGTH = { Ck.CHECKSUM_LENGTH };

    ghost GENERATOR_SH = { Ck.GENERATOR_SH };

    ghost TARGET_RESIDUE = { Ck.TARGET_RESIDUE };

    ghost code = { long Ck.code };

    ghost bound = { Ck.bound };

    ghost lawful = { HasLawfulRoots Ck.CorrectionField.ops Ck.CorrectionField.embed
        (long Ck.code) Ck.ROOT_GENERATOR Ck.ROOT_EXPONENTS_START Ck.ROOT_EXPONENTS_END };

    const ROOT_GENERATOR: Ck::CorrectionField = Ck::ROOT_GENERATOR;

    const ROOT_EXPONENTS_START: usize = Ck::ROOT_EXPONENTS_START;

    const ROOT_EXPONENTS_END: usize = Ck::ROOT_EXPONENTS_END;

    const CODE_LENGTH: usize = MAX_LONG_TEXT_LENGTH;

    const CHECKSUM_LENGTH: usize = Ck::CHECKSUM_LENGTH;

    const GENERATOR_SH: [Ck::MidstateRepr; 5] = Ck::GENERATOR_SH;

    const TARGET_RESIDUE: Ck::MidstateRepr = Ck::TARGET_RESIDUE;

    #[inline]
    fn generator_times(element: Fe32) -> Ck::MidstateRepr {
        Ck::generator_times(element)
    }

    #[inline]
    fn after_eight(residue: Ck::MidstateRepr, elements: [Fe32; 8]) -> Ck::MidstateRepr {
        Ck::after_eight(residue, elements)
    }

    #[inline]
    fn after_word(residue: Ck::MidstateRepr, word: u64) -> Ck::MidstateRepr {
        Ck::after_word(residue, word)
    }

    #[inline]
    fn after_two(residue: Ck::MidstateRepr, two: u32) -> Ck::MidstateRepr {
        Ck::after_two(residue, two)
    }

    #[inline]
    fn after_target(residue: Ck::MidstateRepr) -> Ck::MidstateRepr {
        Ck::after_target(residue)
    }

    ghost packing_laws = { Ck.packing_laws };

    ghost code_law = { ap long Ck.code_law };

    ghost degree_law = { Ck.degree_law };

    ghost code_length_law = { refl };

    ghost bound_law = { Ck.bound_law };

    ghost lawful_law = { (λ h. h, λ h. h) };
}
