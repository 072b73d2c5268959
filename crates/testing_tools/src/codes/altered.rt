//! Checksums with the words of Bech32.

ghost use Rattle.std.specs.Prelude.{refl};
ghost use Rattle.bech32_gf.specs.Fe32 as fe32;
ghost use Rattle.bech32_gf_ext.specs.Fe1024.{pair};
ghost use Rattle.bech32_checksum.specs.laws.CodeLaws as codes;
ghost use Rattle.testing_tools.specs.TestWords.{code_6};
ghost use Rattle.bech32_gf_ext.specs.Fe1024 as fe1024;
ghost use Rattle.bech32_checksum.specs.Roots.{HasLawfulRoots, singleton_bound};

use bech32_checksum::Checksum;
use bech32_gf::gf32::Fe32;
use bech32_gf_ext::{Fe32Ext, Fe1024};

const WORDS: [u32; 5] = [0x3b6a57b2, 0x26508e6d, 0x1ea119fa, 0x3d4233dd, 0x2a1462b3];

/// Bech32 with other exponents, and for texts of another length.
#[derive(Copy, Clone)]
pub enum Altered<const FIRST: usize, const LAST: usize, const LONGEST: usize> {}

impl<const FIRST: usize, const LAST: usize, const LONGEST: usize> Checksum
    for Altered<FIRST, LAST, LONGEST> {
    type MidstateRepr = u32;

    type CorrectionField = Fe1024;

    ghost ROOT_GENERATOR = { pair fe32.one (fe32.element 6) };

    ghost ROOT_EXPONENTS_START = { FIRST };

    ghost ROOT_EXPONENTS_END = { LAST };

    ghost CODE_LENGTH = { LONGEST };

    ghost CHECKSUM_LENGTH = { 6 };

    ghost GENERATOR_SH = { codes.words };

    ghost TARGET_RESIDUE = { 1 };

    ghost code = { code_6 LONGEST };

    ghost bound = { singleton_bound FIRST LAST };

    ghost lawful = { HasLawfulRoots fe1024.ops fe1024.embed
        (code_6 LONGEST) (pair fe32.one (fe32.element 6)) FIRST LAST };

    const ROOT_GENERATOR: Fe1024 = Fe32Ext {
        inner: [Fe32::P, Fe32::X],
    };

    const ROOT_EXPONENTS_START: usize = FIRST;

    const ROOT_EXPONENTS_END: usize = LAST;

    const CODE_LENGTH: usize = LONGEST;

    const CHECKSUM_LENGTH: usize = 6;

    const GENERATOR_SH: [u32; 5] = WORDS;

    const TARGET_RESIDUE: u32 = 1;

    ghost packing_laws = { codes.bech32_keeps };

    ghost code_law = { refl };

    ghost degree_law = { refl };

    ghost code_length_law = { refl };

    ghost bound_law = { refl };

    ghost lawful_law = { (λ h. h, λ h. h) };
}
