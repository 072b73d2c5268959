//! The checksum Blech32, as `examples/block/run` prints it.
//!
//! Below it: `bech32_checksum`, `bech32_gf_ext`, `bech32_gf`.
//! Standard: none.
#![tactic(auto)]

ghost use Rattle.std.specs.Prelude.{refl};
ghost use Rattle.bech32_gf.specs.Fe32.{element};
ghost use Rattle.bech32_gf_ext.specs.Fe1024.{pair};
ghost use Rattle.bech32_gf_ext.specs.Fe1024 as fe1024;
ghost use Rattle.bech32_checksum.specs.Roots.{HasLawfulRoots};
ghost use Rattle.blech32.specs.Words.{blech32_code, blech32_is_packed, blech32_words, blech32_words_keep};
ghost use Rattle.blech32.specs.Roots.{blech32_roots};

use bech32_checksum::{Checksum, CorrectingChecksum};
use bech32_gf::gf32::Fe32;
use bech32_gf_ext::{Fe32Ext, Fe1024};

/// The checksum Blech32: degree 12, for texts of at most 1023 characters. The lines that begin with
/// `ghost` say its constants once more, for the prover, and the laws that they keep.
#[derive(Copy, Clone)]
pub enum Blech32 {}

impl Checksum for Blech32 {
    type MidstateRepr = u64;

    type CorrectionField = Fe1024;

    ghost ROOT_GENERATOR = { pair (element 30) (element 1) };

    ghost ROOT_EXPONENTS_START = { 1 };

    ghost ROOT_EXPONENTS_END = { 6 };

    ghost CODE_LENGTH = { 1023 };

    ghost CHECKSUM_LENGTH = { 12 };

    ghost GENERATOR_SH = { blech32_words };

    ghost TARGET_RESIDUE = { 1 };

    ghost code = { blech32_code };

    ghost bound = { 6 };

    ghost lawful = { HasLawfulRoots fe1024.ops fe1024.embed
        blech32_code (pair (element 30) (element 1)) 1 6 };

    const ROOT_GENERATOR: Fe1024 = Fe32Ext {
        inner: [Fe32::_7, Fe32::P],
    };

    const ROOT_EXPONENTS_START: usize = 1;

    const ROOT_EXPONENTS_END: usize = 6;

    const CODE_LENGTH: usize = 1023;

    const CHECKSUM_LENGTH: usize = 12;

    const GENERATOR_SH: [u64; 5] = [
        0x7d52fba40bd886,
        0x5e8dbf1a03950c,
        0x1c3a3c74072a18,
        0x385d72fa0e5139,
        0x7093e5a608865b,
    ];

    const TARGET_RESIDUE: u64 = 1;

    ghost packing_laws = { blech32_words_keep };

    ghost code_law = { blech32_is_packed };

    ghost degree_law = { refl };

    ghost code_length_law = { refl };

    ghost bound_law = { refl };

    ghost lawful_law = { (λ h. h, λ h. h) };
}

impl CorrectingChecksum for Blech32 {
    ghost lawful_roots = { blech32_roots };
}
