//! The packed words that define a checksum.
//!
//! Below it: `bech32_checksum`.
//! Standard: BIP-173, Checksum.
#![tactic(auto)]

ghost use Rattle.std.specs.Prelude.{◌≡◌, ◌≤◌, ◌<◌, ℕ, length};
ghost use Rattle.bech32_checksum.specs.Code.{code_of};
ghost use Rattle.bech32_checksum.specs.PackingLaws.{KeepsPackingLaws};
ghost use Rattle.bech32_packing.specs.Words.{code_of_written, packed_times, width_of};

use bech32_gf::gf32::Fe32;

/// The words of a checksum: its generator times 1, 2, 4, 8 and 16, and its target, each packed.
#[derive(Clone, Copy)]
pub struct Words {
    /// Those of the generator.
    pub generator: [u128; 5],
    /// That of the target.
    pub target: u128,
}

// The products of elements and a factor, packed; the first is the highest.
#[tactic(auto, using(crate::proofs::Packing::packed_more, crate::proofs::Packing::room))]
fn packed(elements: &[Fe32], factor: Fe32) -> u128
    requires { length elements.now ≤ 25 }
    ensures { result ≡ packed_times factor elements.now }
{
    let mut word = 0;
    for element in elements {
        word = word * 32 + (*element * factor).to_u8() as u128;
    }
    word
}

impl Words {
    /// The generator is given by its coefficients below the leading one. The highest is the first,
    /// of the target too.
    pub fn pack(generator: &[Fe32], target: &[Fe32]) -> Words
        requires some { 0 < length generator.now }
        requires few { length generator.now ≤ 25 }
        requires as_many { length target.now ≡ length generator.now }
        ensures laws { KeepsPackingLaws (λ (n : ℕ). n)
            (width_of (length generator.now)) (length generator.now)
            result.generator result.target }
        ensures packed { (code_length : ℕ) →
            code_of (λ (n : ℕ). n) code_length (length generator.now) result.generator result.target
            ≡ code_of_written generator.now target.now code_length }
    {
        Words {
            generator: [
                packed(generator, Fe32::P),
                packed(generator, Fe32::Z),
                packed(generator, Fe32::Y),
                packed(generator, Fe32::G),
                packed(generator, Fe32::S),
            ],
            target: packed(target, Fe32::P),
        }
    }
}
