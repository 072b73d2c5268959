//! The checksums by name, and their generators and targets as lists of elements.

ghost use Rattle.std.specs.Prelude.{◌≡◌, ◌↔◌, IfOk, IsTrue, map};
ghost use Rattle.bech32_gf.specs.Fe32.{ops, element};
ghost use Rattle.bech32_poly.specs.Remainder.{IsRemainder};
ghost use Rattle.bech32_checksum.specs.TextPolynomial.{IsChecksumOf};
ghost use Rattle.testing_tools.specs.PlainChecksum.{code_of_plain};

use crate::plain::polynomial::polynomial_of_text;
use bech32_gf::gf32::Fe32;
use bech32_poly::polynomial::remainder;
use std::alloc::{AllocError, Global};

/// A checksum by its name.
#[derive(Clone, Copy, Debug, PartialEq, Eq)]
pub enum PlainChecksum {
    /// That of BIP-173.
    Bech32,
    /// That of BIP-350.
    Bech32m,
}

// The elements of six values.
fn elements(values: [u8; 6]) -> [Fe32; 6]
    ensures { result ≡ map element values }
{
    let [a, b, c, d, e, f] = values;
    [
        Fe32::from_low_bits(a),
        Fe32::from_low_bits(b),
        Fe32::from_low_bits(c),
        Fe32::from_low_bits(d),
        Fe32::from_low_bits(e),
        Fe32::from_low_bits(f),
    ]
}

impl PlainChecksum {
    // The lower coefficients of the generator, the constant term first.
    pub(crate) fn generator(self) -> [Fe32; 6]
        ensures { result ≡ (code_of_plain self).generator }
    {
        elements([18, 29, 21, 20, 22, 29])
    }

    // The coefficients of the target, the constant term first.
    pub(crate) fn target(self) -> [Fe32; 6]
        ensures { result ≡ (code_of_plain self).target }
    {
        match self {
            PlainChecksum::Bech32 => elements([1, 0, 0, 0, 0, 0]),
            PlainChecksum::Bech32m => elements([3, 5, 12, 16, 28, 21]),
        }
    }

    // Whether a polynomial, the constant term first, has the target as remainder.
    pub(crate) fn has_target(self, alloc: Global, polynomial: &[Fe32]) -> Result<bool, AllocError>
        ensures { IfOk result (λ b. IsTrue b
            ↔ IsRemainder ops (code_of_plain self).generator polynomial.now
            (code_of_plain self).target) }
    {
        let rest = remainder(alloc, polynomial, &self.generator())?;
        let target = self.target();
        Ok(rest.as_slice() == target.as_slice())
    }

    // The checksum of elements under a human-readable part.
    pub(crate) fn checksum_of(
        self,
        alloc: Global,
        hrp: &[u8],
        elements: &[Fe32],
    ) -> Result<Vec<Fe32>, AllocError>
        ensures { IfOk result
            (λ v. IsChecksumOf (code_of_plain self) hrp.now elements.now v.items) }
    {
        let mut target = self.target();
        target.reverse();
        let mut all = Vec::from_slice(alloc, elements)?;
        all.extend_from_slice(&target)?;
        let polynomial = polynomial_of_text(alloc, hrp, &all)?;
        let mut rest = remainder(alloc, &polynomial, &self.generator())?;
        rest.reverse();
        Ok(rest)
    }
}
