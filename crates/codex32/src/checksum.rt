//! The checksum of codex32 (BIP-93, Checksum).

ghost use Rattle.std.specs.Prelude.{refl};
ghost use Rattle.codex32.specs.Code.{codex32, max_length};
ghost use Rattle.codex32.specs.laws.CodeLaws as codes;
ghost use Rattle.codex32.specs.laws.RootLaws.{base, codex32_roots};
ghost use Rattle.bech32_gf_ext.specs.Fe1024 as fe1024;
ghost use Rattle.bech32_checksum.specs.Roots.{HasLawfulRoots};

use crate::lengths::MAX_LENGTH;
use crate::products::{BASE, WORDS, product_with};
use bech32::{Checksum, CorrectingChecksum, Fe32, Fe1024};

/// The checksum of codex32: degree 13, for texts of at most [`MAX_LENGTH`] characters (BIP-93,
/// Checksum). Four wrong characters, or eight that cannot be read, have one correction.
#[derive(Copy, Clone)]
pub enum Codex32 {}

impl Checksum for Codex32 {
    type MidstateRepr = u128;

    type CorrectionField = Fe1024;

    ghost ROOT_GENERATOR = { base };

    ghost ROOT_EXPONENTS_START = { 9 };

    ghost ROOT_EXPONENTS_END = { 16 };

    ghost CODE_LENGTH = { max_length };

    ghost CHECKSUM_LENGTH = { 13 };

    ghost GENERATOR_SH = { codes.words };

    ghost TARGET_RESIDUE = { 0x10ce0795c2fd1e62a };

    ghost code = { codex32 };

    ghost bound = { 8 };

    ghost lawful = { HasLawfulRoots fe1024.ops fe1024.embed codex32 base 9 16 };

    const ROOT_GENERATOR: Fe1024 = BASE;

    const ROOT_EXPONENTS_START: usize = 9;

    const ROOT_EXPONENTS_END: usize = 16;

    const CODE_LENGTH: usize = MAX_LENGTH;

    const CHECKSUM_LENGTH: usize = 13;

    const GENERATOR_SH: [u128; 5] = WORDS;

    const TARGET_RESIDUE: u128 = 0x10ce0795c2fd1e62a;

    #[inline]
    fn generator_times(element: Fe32) -> u128 {
        product_with(element)
    }

    ghost packing_laws = { codes.codex32_keeps };

    ghost code_law = { codes.codex32_is_packed };

    ghost bound_law = { refl };

    ghost lawful_law = { (λ h. h, λ h. h) };
}

impl CorrectingChecksum for Codex32 {
    ghost lawful_roots = { λ some. codex32_roots };
}
