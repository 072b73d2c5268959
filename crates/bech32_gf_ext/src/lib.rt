//! The extension fields of GF(32): pairs with z^2 = z + 1, and triples with z^3 = z + 1.
//!
//! Below it: `bech32_gf`.
//! Standard: BIP-173, Checksum design; BIP-93, Generation of valid checksum.
#![tactic(auto)]

ghost use Rattle.std.specs.Prelude.{◌≡◌, length};
ghost use Rattle.std.specs.Fmt.{WritesOnOk};
ghost use Rattle.bech32_gf.specs.RustCode.{two_code};

mod arithmetic;
mod fe1024;
mod fe32768;

use bech32_gf::field::Bech32Field;
use bech32_gf::gf32::Fe32;
use std::fmt;
use std::ops::Mul;

/// An element of an extension field of GF(32): a polynomial in z whose coefficients are `inner`,
/// the constant one first.
///
/// The field of degree 2 has z^2 = z + 1, the one of degree 3 has z^3 = z + 1. Its elements are
/// exactly these values, so equality is that of `inner`.
#[derive(Clone, Copy, PartialEq, Eq, Hash)]
pub struct Fe32Ext<const DEG: usize> {
    /// The coefficients of the powers of z, from z^0 on.
    pub inner: [Fe32; DEG],
    pub ghost full: { length inner ≡ DEG },
}

/// The field of 1024 elements, in which z^2 = z + 1.
pub type Fe1024 = Fe32Ext<2>;

/// The field of 32768 elements, in which z^3 = z + 1.
pub type Fe32768 = Fe32Ext<3>;

impl<const DEG: usize> Fe32Ext<DEG> {
    ghost use Rattle.std.specs.Prelude.{◌≡◌};
    ghost use Rattle.bech32_gf_ext.specs.Fe32Ext.{scaled};

    /// The element with these coefficients, the constant one first.
    pub fn new(inner: [Fe32; DEG]) -> Self
        ensures { result.inner ≡ inner.entry }
    {
        Self { inner }
    }

    fn scaled_by(self, factor: Fe32) -> Self
        ensures { result ≡ scaled self.entry factor }
    {
        let mut coefficients = self.inner;
        for i in 0..DEG {
            coefficients[i] = coefficients[i] * factor;
        }
        Self {
            inner: coefficients,
        }
    }
}

// Writes two coefficients as Rust code.
fn write_two<W: fmt::Write>(first: Fe32, second: Fe32, f: &mut fmt::Formatter<W>) -> fmt::Result
    ensures writes { WritesOnOk W.write_str_gives f.old result (two_code first second) f.new }
{
    first.format_as_rust_code(f)?;
    f.write_str(", ")?;
    second.format_as_rust_code(f)
}

impl<const DEG: usize> Default for Fe32Ext<DEG> {
    ghost use Rattle.std.specs.Prelude.{◌≡◌, replicate};
    ghost use Rattle.bech32_gf.specs.Fe32.{zero};

    ghost is_default = { λ x. x.inner ≡ replicate DEG zero };

    fn default() -> Self {
        Self {
            inner: [Fe32::Q; DEG],
        }
    }
}

impl<const DEG: usize> fmt::Display for Fe32Ext<DEG> {
    ghost use Rattle.std.specs.Prelude.{Some};
    ghost use Rattle.bech32_gf_ext.specs.Fe32Ext.{text_of};

    ghost output = { λ x. Some (text_of x) };

    fn fmt<W: fmt::Write>(&self, f: &mut fmt::Formatter<W>) -> fmt::Result {
        for element in &self.inner {
            f.write_char(element.to_char())?;
        }
        Ok(())
    }
}

impl<const DEG: usize> fmt::Debug for Fe32Ext<DEG> {
    ghost use Rattle.std.specs.Prelude.{Some};
    ghost use Rattle.bech32_gf_ext.specs.Fe32Ext.{text_of};

    ghost debug_output = { λ x. Some (text_of x) };

    fn fmt<W: fmt::Write>(&self, f: &mut fmt::Formatter<W>) -> fmt::Result {
        fmt::Display::fmt(self, f)
    }
}

impl<const DEG: usize> Mul<Fe32> for Fe32Ext<DEG> {
    ghost use Rattle.std.specs.Prelude.{◌≡◌};
    ghost use Rattle.bech32_gf_ext.specs.Fe32Ext.{scaled};

    type Output = Fe32Ext<DEG>;

    ghost mul_gives = { λ x y r. r ≡ scaled x y };

    fn mul(self, rhs: Fe32) -> Fe32Ext<DEG> {
        self.scaled_by(rhs)
    }
}

impl<const DEG: usize> Mul<&Fe32> for Fe32Ext<DEG> {
    ghost use Rattle.std.specs.Prelude.{◌≡◌};
    ghost use Rattle.bech32_gf_ext.specs.Fe32Ext.{scaled};

    type Output = Fe32Ext<DEG>;

    ghost mul_gives = { λ x y r. r ≡ scaled x y.now };

    fn mul(self, rhs: &Fe32) -> Fe32Ext<DEG> {
        self.scaled_by(*rhs)
    }
}

impl<const DEG: usize> Mul<Fe32> for &Fe32Ext<DEG> {
    ghost use Rattle.std.specs.Prelude.{◌≡◌};
    ghost use Rattle.bech32_gf_ext.specs.Fe32Ext.{scaled};

    type Output = Fe32Ext<DEG>;

    ghost mul_gives = { λ x y r. r ≡ scaled x.now y };

    fn mul(self, rhs: Fe32) -> Fe32Ext<DEG> {
        (*self).scaled_by(rhs)
    }
}

impl<const DEG: usize> Mul<&Fe32> for &Fe32Ext<DEG> {
    ghost use Rattle.std.specs.Prelude.{◌≡◌};
    ghost use Rattle.bech32_gf_ext.specs.Fe32Ext.{scaled};

    type Output = Fe32Ext<DEG>;

    ghost mul_gives = { λ x y r. r ≡ scaled x.now y.now };

    fn mul(self, rhs: &Fe32) -> Fe32Ext<DEG> {
        (*self).scaled_by(*rhs)
    }
}
