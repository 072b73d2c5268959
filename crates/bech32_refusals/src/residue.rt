//! Remainders kept in place.

ghost use Rattle.std.specs.Prelude.{◌≡◌, ◌<◌, ◌*◌, ◌^◌, ℕ, length};
ghost use Rattle.bech32_gf.specs.Fe32.{ops};
ghost use Rattle.bech32_poly.specs.Polynomial.{add, coefficient};
ghost use Rattle.bech32_checksum.specs.Packed.{digit_of};
ghost use Rattle.bech32_refusals.specs.ResidueText.{shown};

use bech32_checksum::PackedFe32;
use bech32_gf::gf32::Fe32;
use std::fmt;

/// The number of coefficients of a residue: no checksum has a higher degree.
pub const MAX_DEGREE: usize = 25;

/// A remainder: its coefficients, the constant term first, with zeros behind them. Two are equal
/// where their polynomials are.
#[derive(Clone, Copy, Debug, PartialEq, Eq)]
pub(crate) struct Residue {
    digits: [Fe32; MAX_DEGREE],
    ghost full: { length digits ≡ 25 },
}

impl Residue {
    /// The remainder that a packed row of elements stands for.
    pub(crate) fn new<R: PackedFe32>(packed: &R) -> Residue
        requires { R.number packed.now < 2 ^ (5 * R.WIDTH) }
        ensures { (n : ℕ) → coefficient ops result.digits n ≡ digit_of (R.number packed.now) n }
    {
        let mut digits = [Fe32::Q; MAX_DEGREE];
        for i in 0..R::WIDTH {
            digits[i] = Fe32::from_low_bits(packed.unpack(i));
        }
        Residue { digits }
    }

    /// The coefficients of the difference from another, which is the sum: an element is its own
    /// negative.
    pub(crate) fn less(&self, other: &Residue) -> [Fe32; MAX_DEGREE]
        ensures { result ≡ add ops self.now.digits other.now.digits }
    {
        let mut digits = self.digits;
        for i in 0..MAX_DEGREE {
            digits[i] = digits[i] + other.digits[i];
        }
        digits
    }

    // The coefficients up to the highest that is not zero, and one of zero.
    fn shown(&self) -> &[Fe32]
        ensures { result.now ≡ shown self.now.digits }
    {
        let mut shown = 1;
        for i in 0..MAX_DEGREE {
            shown = if self.digits[i] == Fe32::Q {
                shown
            } else {
                i + 1
            };
        }
        &self.digits[..shown]
    }
}

/// Shows the characters of the coefficients, the constant term first, up to the highest that is not
/// zero, and `q` for zero.
impl fmt::Display for Residue {
    ghost use Rattle.std.specs.Prelude.{Some};
    ghost use Rattle.bech32_refusals.specs.ResidueText.{residue_text};

    ghost output = { λ r. Some (residue_text r.digits) };

    fn fmt<W: fmt::Write>(&self, f: &mut fmt::Formatter<W>) -> fmt::Result {
        for digit in self.shown() {
            f.write_char(digit.to_char())?;
        }
        Ok(())
    }
}
