//! A checksum in wider words than those of the standards.

ghost use Rattle.std.specs.Prelude.{refl};
ghost use Rattle.bech32_gf.specs.Fe32.{element};
ghost use Rattle.bech32_gf_ext.specs.Fe1024.{pair};
ghost use Rattle.testing_tools.specs.TestWords.{words_13, words_13_keep, code_13};
ghost use Rattle.bech32_gf_ext.specs.Fe1024 as fe1024;
ghost use Rattle.bech32_checksum.specs.Roots.{HasLawfulRoots};

use bech32_checksum::Checksum;
use bech32_gf::gf32::Fe32;
use bech32_gf_ext::{Fe32Ext, Fe1024};

/// The checksum of codex32 (BIP-93), of degree 13, in a `u128`, for texts of at most this many
/// characters.
#[derive(Copy, Clone)]
pub enum Degree13<const LONGEST: usize> {}

impl<const LONGEST: usize> Checksum for Degree13<LONGEST> {
    type MidstateRepr = u128;

    type CorrectionField = Fe1024;

    ghost ROOT_GENERATOR = { pair (element 5) (element 5) };

    ghost ROOT_EXPONENTS_START = { 9 };

    ghost ROOT_EXPONENTS_END = { 16 };

    ghost CODE_LENGTH = { LONGEST };

    ghost CHECKSUM_LENGTH = { 13 };

    ghost GENERATOR_SH = { words_13 };

    ghost TARGET_RESIDUE = { 0x10ce0795c2fd1e62a };

    ghost code = { code_13 LONGEST };

    ghost bound = { 8 };

    ghost lawful = { HasLawfulRoots fe1024.ops fe1024.embed
        (code_13 LONGEST) (pair (element 5) (element 5)) 9 16 };

    const ROOT_GENERATOR: Fe1024 = Fe32Ext {
        inner: [Fe32::_9, Fe32::_9],
    };

    const ROOT_EXPONENTS_START: usize = 9;

    const ROOT_EXPONENTS_END: usize = 16;

    const CODE_LENGTH: usize = LONGEST;

    const CHECKSUM_LENGTH: usize = 13;

    const GENERATOR_SH: [u128; 5] = [
        0x19dc500ce73fde210,
        0x1bfae00def77fe529,
        0x1fbd920fffe7bee52,
        0x1739640bdeee3fdad,
        0x07729a039cfc75f5a,
    ];

    const TARGET_RESIDUE: u128 = 0x10ce0795c2fd1e62a;

    ghost packing_laws = { words_13_keep };

    ghost code_law = { refl };

    ghost degree_law = { refl };

    ghost code_length_law = { refl };

    ghost bound_law = { refl };

    ghost lawful_law = { (λ h. h, λ h. h) };
}
