//! Lawful roots, and roots with one thing wrong.

ghost use Rattle.std.specs.Prelude.{◌<◌, refl};
ghost use Rattle.bech32_gf.specs.Fe32 as fe32;
ghost use Rattle.bech32_checksum.specs.Roots.{HasLawfulRoots, singleton_bound};
ghost use Rattle.testing_parts.specs.TestWords.{words_1, words_1_keep, code_1};

use crate::tests::compare::same_items;
use bech32_checksum::Checksum;
use bech32_gf::gf32::Fe32;
use testing_tools::codes::Altered;

// The generator x + 1, for texts of `LONGEST` characters: each power of the base 1, whose order is
// 1, is a root.
#[derive(Copy, Clone)]
enum Degree1<const LAST: usize, const LONGEST: usize> {}

impl<const LAST: usize, const LONGEST: usize> Checksum for Degree1<LAST, LONGEST> {
    type MidstateRepr = u32;

    type CorrectionField = Fe32;

    ghost ROOT_GENERATOR = { fe32.one };

    ghost ROOT_EXPONENTS_START = { 3 };

    ghost ROOT_EXPONENTS_END = { LAST };

    ghost CODE_LENGTH = { LONGEST };

    ghost CHECKSUM_LENGTH = { 1 };

    ghost GENERATOR_SH = { words_1 };

    ghost TARGET_RESIDUE = { 1 };

    ghost code = { code_1 LONGEST };

    ghost bound = { singleton_bound 3 LAST };

    ghost lawful = { HasLawfulRoots fe32.ops (λ x. x) (code_1 LONGEST) fe32.one 3 LAST };

    const ROOT_GENERATOR: Fe32 = Fe32::P;

    const ROOT_EXPONENTS_START: usize = 3;

    const ROOT_EXPONENTS_END: usize = LAST;

    const CODE_LENGTH: usize = LONGEST;

    const CHECKSUM_LENGTH: usize = 1;

    const GENERATOR_SH: [u32; 5] = [1, 2, 4, 8, 16];

    const TARGET_RESIDUE: u32 = 1;

    ghost packing_laws = { words_1_keep };

    ghost code_law = { refl };

    ghost degree_law = { refl };

    ghost code_length_law = { refl };

    ghost bound_law = { refl };

    ghost lawful_law = { (λ h. h, λ h. h) };
}

// How many roots stand in a row.
fn roots_in_a_row<Ck: Checksum>() -> usize
    requires positive { 0 < Ck.CHECKSUM_LENGTH }
    requires lawful { HasLawfulRoots Ck.CorrectionField.ops Ck.CorrectionField.embed
        Ck.code Ck.ROOT_GENERATOR Ck.ROOT_EXPONENTS_START Ck.ROOT_EXPONENTS_END }
{
    Ck::ROOT_EXPONENTS_END - Ck::ROOT_EXPONENTS_START + 1
}

// How many roots stand in a row, where they pass the test.
fn tested<Ck: Checksum>() -> Option<usize> {
    if !Ck::sanity_check() {
        None
    } else if Ck::CHECKSUM_LENGTH > 0 {
        Some(roots_in_a_row::<Ck>())
    } else {
        Some(0)
    }
}

// The same of Bech32 with other exponents, and for texts of another length.
fn altered<const FIRST: usize, const LAST: usize, const LONGEST: usize>() -> Option<usize> {
    tested::<Altered<FIRST, LAST, LONGEST>>()
}

// The same of the generator x + 1, from the exponent 3 on.
fn degree_1<const LAST: usize, const LONGEST: usize>() -> Option<usize> {
    tested::<Degree1<LAST, LONGEST>>()
}

#[test]
fn altered_roots(rt: HostRuntime) {
    let lawful = [
        altered::<24, 26, 1023>(),
        altered::<24, 24, 1>(),
        // The same powers once more.
        altered::<1047, 1049, 1023>(),
        // As many roots as the degree.
        degree_1::<3, 1>(),
    ];
    same_items(&rt, &lawful, &[Some(3), Some(1), Some(3), Some(1)]);
    let unlawful = [
        altered::<24, 26, 1024>(),
        altered::<24, 27, 1023>(),
        altered::<23, 26, 1023>(),
        altered::<27, 27, 1023>(),
        altered::<25, 24, 1023>(),
        altered::<0, { usize::MAX }, 1023>(),
        // A base of order 1 in a code as long as that of Bech32.
        degree_1::<3, 1023>(),
        // One root more than the degree.
        degree_1::<4, 1>(),
    ];
    same_items(&rt, &unlawful, &[None; 8]);
}
