//! The checksum of long codex32 strings (BIP-93, Long codex32 Strings).

ghost use Rattle.std.specs.Prelude.{refl};
ghost use Rattle.codex32.specs.Code.{long_codex32};
ghost use Rattle.codex32.specs.laws.LongCodeLaws as codes;
ghost use Rattle.codex32.specs.laws.LongRootLaws.{long_base, long_codex32_roots};
ghost use Rattle.bech32_gf_ext.specs.Fe1024 as fe1024;
ghost use Rattle.bech32_checksum.specs.Roots.{HasLawfulRoots};

use crate::products::{LONG_BASE, LONG_WORDS, long_product_with};
use bech32::{Checksum, CorrectingChecksum, Fe32, Fe1024};

/// The checksum of long codex32 strings: degree 15, for texts of at most 1,023 characters, of which
/// the strings have 125 to 127 (BIP-93, Long codex32 Strings). Four wrong characters, or eight that
/// cannot be read, have one correction.
#[derive(Copy, Clone)]
pub enum LongCodex32 {}

impl Checksum for LongCodex32 {
    type MidstateRepr = u128;

    type CorrectionField = Fe1024;

    ghost ROOT_GENERATOR = { long_base };

    ghost ROOT_EXPONENTS_START = { 1019 };

    ghost ROOT_EXPONENTS_END = { 1026 };

    ghost CODE_LENGTH = { 1023 };

    ghost CHECKSUM_LENGTH = { 15 };

    ghost GENERATOR_SH = { codes.long_words };

    ghost TARGET_RESIDUE = { 0x43381e570bf4798ab26 };

    ghost code = { long_codex32 };

    ghost bound = { 8 };

    ghost lawful = { HasLawfulRoots fe1024.ops fe1024.embed long_codex32 long_base 1019 1026 };

    const ROOT_GENERATOR: Fe1024 = LONG_BASE;

    const ROOT_EXPONENTS_START: usize = 1019;

    const ROOT_EXPONENTS_END: usize = 1026;

    const CODE_LENGTH: usize = 1023;

    const CHECKSUM_LENGTH: usize = 15;

    const GENERATOR_SH: [u128; 5] = LONG_WORDS;

    const TARGET_RESIDUE: u128 = 0x43381e570bf4798ab26;

    #[inline]
    fn generator_times(element: Fe32) -> u128 {
        long_product_with(element)
    }

    ghost packing_laws = { codes.long_codex32_keeps };

    ghost code_law = { codes.long_codex32_is_packed };

    ghost bound_law = { refl };

    ghost lawful_law = { (λ h. h, λ h. h) };
}

impl CorrectingChecksum for LongCodex32 {
    ghost lawful_roots = { λ some. long_codex32_roots };
}
