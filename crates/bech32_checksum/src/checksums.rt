//! The checksums of the standards, and the absence of one.

ghost use Rattle.std.specs.Prelude.{◌∷◌, [], ◌^◌, ◌-◌, refl};
ghost use Rattle.std.proofs.Common.{arith};
ghost use Rattle.bech32_gf.specs.Fe32 as fe32;
ghost use Rattle.bech32_gf_ext.specs.Fe1024 as fe1024;
ghost use Rattle.bech32_checksum.specs.laws.PackedLaws as packed;
ghost use Rattle.bech32_checksum.specs.Code.{no_checksum, bech32, bech32m};
ghost use Rattle.bech32_checksum.specs.laws.CodeLaws as codes;
ghost use Rattle.bech32_checksum.specs.laws.RootLaws as roots;
ghost use Rattle.bech32_checksum.specs.Roots.{HasLawfulRoots};

mod beside;
mod eights;
mod erased;
mod locations;
mod logarithms;
mod ones;
mod powers;
mod products;
mod remainders;
mod syndromes;
mod twos;
mod words;

use self::beside::one_beside_by_rows;
use self::eights::after_eight_by_tables;
use self::erased::values_by_rows;
use self::ones::one_error_by_tables;
use self::products::product_with;
use self::words::{after_row_by_tables, after_two_by_table, after_word_by_tables};
use crate::packed::PackedNull;
use crate::{Checksum, CorrectingChecksum, Lookup};
use bech32_gf::gf32::Fe32;
use bech32_gf_ext::{Fe32Ext, Fe1024};

/// No checksum: degree 0, and a text of any length.
#[derive(Copy, Clone)]
pub enum NoChecksum {}

impl Checksum for NoChecksum {
    type MidstateRepr = PackedNull;

    type CorrectionField = Fe32;

    ghost ROOT_GENERATOR = { fe32.one };

    ghost ROOT_EXPONENTS_START = { 0 };

    ghost ROOT_EXPONENTS_END = { 0 };

    ghost CODE_LENGTH = { 2 ^ 64 - 1 };

    ghost CHECKSUM_LENGTH = { 0 };

    ghost GENERATOR_SH = { record {} ∷ record {} ∷ record {} ∷ record {} ∷ record {} ∷ [] };

    ghost TARGET_RESIDUE = { record {} };

    ghost code = { no_checksum };

    ghost bound = { 1 };

    ghost lawful = { HasLawfulRoots fe32.ops (λ x. x) no_checksum fe32.one 0 0 };

    const ROOT_GENERATOR: Fe32 = Fe32::P;

    const ROOT_EXPONENTS_START: usize = 0;

    const ROOT_EXPONENTS_END: usize = 0;

    const CODE_LENGTH: usize = usize::MAX;

    const CHECKSUM_LENGTH: usize = 0;

    const GENERATOR_SH: [PackedNull; 5] = [PackedNull; 5];

    const TARGET_RESIDUE: PackedNull = PackedNull;

    ghost packing_laws = { packed.null_keeps _ _ refl };

    ghost code_law = { refl };

    ghost bound_law = { refl };

    ghost lawful_law = { (λ h. h, λ h. h) };
}

impl CorrectingChecksum for NoChecksum {
    ghost lawful_roots = { roots.no_checksum_roots };
}

// The generator of BIP-173, packed, and its products with 2, 4, 8 and 16.
const WORDS: [u32; 5] = [0x3b6a57b2, 0x26508e6d, 0x1ea119fa, 0x3d4233dd, 0x2a1462b3];

// The powers 24 to 26 of 1 + 6 z, which has order 1023, are roots of that generator.
const BASE: Fe1024 = Fe32Ext {
    inner: [Fe32::P, Fe32::X],
};

/// The checksum of BIP-173: degree 6, target 1.
#[derive(Copy, Clone)]
pub enum Bech32 {}

impl Checksum for Bech32 {
    type MidstateRepr = u32;

    type CorrectionField = Fe1024;

    ghost ROOT_GENERATOR = { fe1024.pair fe32.one (fe32.element 6) };

    ghost ROOT_EXPONENTS_START = { 24 };

    ghost ROOT_EXPONENTS_END = { 26 };

    ghost CODE_LENGTH = { 1023 };

    ghost CHECKSUM_LENGTH = { 6 };

    ghost GENERATOR_SH = { codes.words };

    ghost TARGET_RESIDUE = { 1 };

    ghost code = { bech32 };

    ghost bound = { 3 };

    ghost lawful = { HasLawfulRoots fe1024.ops fe1024.embed bech32 roots.base 24 26 };

    const ROOT_GENERATOR: Fe1024 = BASE;

    const ROOT_EXPONENTS_START: usize = 24;

    const ROOT_EXPONENTS_END: usize = 26;

    const CODE_LENGTH: usize = 1023;

    const CHECKSUM_LENGTH: usize = 6;

    const GENERATOR_SH: [u32; 5] = WORDS;

    const TARGET_RESIDUE: u32 = 1;

    #[inline]
    fn generator_times(element: Fe32) -> u32 {
        product_with(element)
    }

    #[inline]
    fn after_eight(residue: u32, elements: [Fe32; 8]) -> u32 {
        after_eight_by_tables(residue, elements)
    }

    #[inline]
    fn after_word(residue: u32, word: u64) -> u32 {
        after_word_by_tables(residue, word)
    }

    #[inline]
    fn after_two(residue: u32, two: u32) -> u32 {
        after_two_by_table(residue, two)
    }

    #[inline]
    fn after_target(residue: u32) -> u32 {
        after_row_by_tables(residue, 1)
    }

    #[inline]
    fn one_error(residue: &[Fe32]) -> Lookup<(usize, Fe32)> {
        one_error_by_tables(residue)
    }

    #[inline]
    fn lookup_values(residue: &[Fe32], locations: &[usize]) -> Lookup<[Fe32; 3]> {
        values_by_rows(residue, locations)
    }

    #[inline]
    fn lookup_error_beside(
        residue: &[Fe32],
        location: usize,
        window: usize,
    ) -> Lookup<(Fe32, (usize, Fe32))> {
        one_beside_by_rows(residue, location, window)
    }

    ghost packing_laws = { codes.bech32_keeps };

    ghost code_law = { codes.bech32_is_packed };

    ghost bound_law = { refl };

    ghost lawful_law = { (λ h. h, λ h. h) };
}

impl CorrectingChecksum for Bech32 {
    ghost lawful_roots = { roots.bech32_roots };
}

/// The checksum of BIP-350: that of BIP-173 with another target.
#[derive(Copy, Clone)]
pub enum Bech32m {}

impl Checksum for Bech32m {
    type MidstateRepr = u32;

    type CorrectionField = Fe1024;

    ghost ROOT_GENERATOR = { ⟦<Bech32 as Checksum>⟧.ROOT_GENERATOR };

    ghost ROOT_EXPONENTS_START = { ⟦<Bech32 as Checksum>⟧.ROOT_EXPONENTS_START };

    ghost ROOT_EXPONENTS_END = { ⟦<Bech32 as Checksum>⟧.ROOT_EXPONENTS_END };

    ghost CODE_LENGTH = { ⟦<Bech32 as Checksum>⟧.CODE_LENGTH };

    ghost CHECKSUM_LENGTH = { ⟦<Bech32 as Checksum>⟧.CHECKSUM_LENGTH };

    ghost GENERATOR_SH = { ⟦<Bech32 as Checksum>⟧.GENERATOR_SH };

    ghost TARGET_RESIDUE = { 0x2bc830a3 };

    ghost code = { bech32m };

    ghost bound = { ⟦<Bech32 as Checksum>⟧.bound };

    ghost lawful = { HasLawfulRoots fe1024.ops fe1024.embed bech32m roots.base 24 26 };

    const ROOT_GENERATOR: Fe1024 = BASE;

    const ROOT_EXPONENTS_START: usize = Bech32::ROOT_EXPONENTS_START;

    const ROOT_EXPONENTS_END: usize = Bech32::ROOT_EXPONENTS_END;

    const CODE_LENGTH: usize = Bech32::CODE_LENGTH;

    const CHECKSUM_LENGTH: usize = Bech32::CHECKSUM_LENGTH;

    const GENERATOR_SH: [u32; 5] = WORDS;

    const TARGET_RESIDUE: u32 = 0x2bc830a3;

    #[inline]
    fn generator_times(element: Fe32) -> u32 {
        Bech32::generator_times(element)
    }

    #[inline]
    fn after_eight(residue: u32, elements: [Fe32; 8]) -> u32 {
        Bech32::after_eight(residue, elements)
    }

    #[inline]
    fn after_word(residue: u32, word: u64) -> u32 {
        Bech32::after_word(residue, word)
    }

    #[inline]
    fn after_two(residue: u32, two: u32) -> u32 {
        Bech32::after_two(residue, two)
    }

    #[inline]
    fn after_target(residue: u32) -> u32 {
        after_row_by_tables(residue, 0x2bc830a3)
    }

    #[inline]
    fn one_error(residue: &[Fe32]) -> Lookup<(usize, Fe32)> {
        Bech32::one_error(residue)
    }

    #[inline]
    fn lookup_values(residue: &[Fe32], locations: &[usize]) -> Lookup<[Fe32; 3]> {
        Bech32::lookup_values(residue, locations)
    }

    #[inline]
    fn lookup_error_beside(
        residue: &[Fe32],
        location: usize,
        window: usize,
    ) -> Lookup<(Fe32, (usize, Fe32))> {
        Bech32::lookup_error_beside(residue, location, window)
    }

    ghost packing_laws = { packed.retargeted codes.bech32_keeps (Prim.omega arith) };

    ghost code_law = { codes.bech32m_is_packed };

    ghost bound_law = { refl };

    ghost lawful_law = { (λ h. h, λ h. h) };
}

impl CorrectingChecksum for Bech32m {
    ghost lawful_roots = { roots.bech32m_roots };
}
