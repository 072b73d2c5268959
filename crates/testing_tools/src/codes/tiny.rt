//! A checksum of degree 2.

ghost use Rattle.std.specs.Prelude.{refl};
ghost use Rattle.bech32_gf.specs.Fe32 as fe32;
ghost use Rattle.testing_tools.specs.TestWords.{words_2, words_2_keep, code_2};
ghost use Rattle.bech32_checksum.specs.Roots.{HasLawfulRoots, singleton_bound};

use bech32_checksum::Checksum;
use bech32_gf::gf32::Fe32;

/// The generator x^2 + 6 x + 8, whose roots are the element 2 and its square, for texts of 31
/// characters. The exponents of its roots go from 1 to `LAST`.
#[derive(Copy, Clone)]
pub enum Tiny<const LAST: usize> {}

impl<const LAST: usize> Checksum for Tiny<LAST> {
    type MidstateRepr = u32;

    type CorrectionField = Fe32;

    ghost ROOT_GENERATOR = { fe32.element 2 };

    ghost ROOT_EXPONENTS_START = { 1 };

    ghost ROOT_EXPONENTS_END = { LAST };

    ghost CODE_LENGTH = { 31 };

    ghost CHECKSUM_LENGTH = { 2 };

    ghost GENERATOR_SH = { words_2 };

    ghost TARGET_RESIDUE = { 1 };

    ghost code = { code_2 };

    ghost bound = { singleton_bound 1 LAST };

    ghost lawful = { HasLawfulRoots fe32.ops (λ x. x) code_2 (fe32.element 2) 1 LAST };

    const ROOT_GENERATOR: Fe32 = Fe32::Z;

    const ROOT_EXPONENTS_START: usize = 1;

    const ROOT_EXPONENTS_END: usize = LAST;

    const CODE_LENGTH: usize = 31;

    const CHECKSUM_LENGTH: usize = 2;

    const GENERATOR_SH: [u32; 5] = [0xc8, 0x190, 0x309, 0x332, 0x36d];

    const TARGET_RESIDUE: u32 = 1;

    ghost packing_laws = { words_2_keep };

    ghost code_law = { refl };

    ghost degree_law = { refl };

    ghost code_length_law = { refl };

    ghost bound_law = { refl };

    ghost lawful_law = { (λ h. h, λ h. h) };
}
