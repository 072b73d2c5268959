//! The checksum of descriptors.

ghost use Rattle.std.specs.Prelude.{refl};
ghost use Rattle.bech32_gf.specs.Fe32.{element};
ghost use Rattle.bech32_gf_ext.specs.Fe32768 as fe32768;
ghost use Rattle.bech32_checksum.specs.Roots.{HasLawfulRoots};
ghost use Rattle.bech32_descriptor.specs.Code.{descriptor};
ghost use Rattle.bech32_descriptor.specs.laws.CodeLaws.{descriptor_is_packed, descriptor_keeps, words};

use crate::steps::{after_word_by_tables, product_with};
use bech32_checksum::Checksum;
use bech32_gf::gf32::Fe32;
use bech32_gf_ext::{Fe32Ext, Fe32768};

/// The checksum of output descriptors (BIP-380): degree 8, target 1. What it is computed from is
/// not characters, but the symbols that [`checksum`](crate::checksum) makes of them.
#[derive(Copy, Clone)]
pub enum Descriptor {}

impl Checksum for Descriptor {
    type MidstateRepr = u64;

    type CorrectionField = Fe32768;

    ghost ROOT_GENERATOR = { fe32768.triple (element 11) (element 8) (element 15) };

    ghost ROOT_EXPONENTS_START = { 1056 };

    ghost ROOT_EXPONENTS_END = { 1058 };

    ghost CODE_LENGTH = { 32767 };

    ghost CHECKSUM_LENGTH = { 8 };

    ghost GENERATOR_SH = { words };

    ghost TARGET_RESIDUE = { 1 };

    ghost code = { descriptor };

    ghost bound = { 3 };

    ghost lawful = { HasLawfulRoots fe32768.ops fe32768.embed
        descriptor (fe32768.triple (element 11) (element 8) (element 15)) 1056 1058 };

    const ROOT_GENERATOR: Fe32768 = Fe32Ext {
        inner: [Fe32::T, Fe32::G, Fe32::_0],
    };

    const ROOT_EXPONENTS_START: usize = 1056;

    const ROOT_EXPONENTS_END: usize = 1058;

    const CODE_LENGTH: usize = 32767;

    const CHECKSUM_LENGTH: usize = 8;

    const GENERATOR_SH: [u64; 5] = [
        0xf5dee51989,
        0xa9fdca3312,
        0x1bab10e32d,
        0x3706b1677a,
        0x644d626ffd,
    ];

    const TARGET_RESIDUE: u64 = 1;

    #[inline]
    fn generator_times(element: Fe32) -> u64 {
        product_with(element)
    }

    #[inline]
    fn after_word(residue: u64, word: u64) -> u64 {
        after_word_by_tables(residue, word)
    }

    ghost packing_laws = { descriptor_keeps };

    ghost code_law = { descriptor_is_packed };

    ghost degree_law = { refl };

    ghost code_length_law = { refl };

    ghost bound_law = { refl };

    ghost lawful_law = { (λ h. h, λ h. h) };
}
