//! Rows of elements, packed into integers.

ghost use Rattle.std.specs.Prelude.{◌≡◌, ◌↔◌, ◌<◌, ◌≤◌, bit_xor, ℕ, IsTrue, refl};
ghost use Rattle.std.proofs.Common.{arith, rules};
ghost use Rattle.std.specs.Mem.{type_size};
ghost use Rattle.std.specs.Iterator.{IsFinite};
ghost use Rattle.std.specs.Iterator.Runs.{EachRunFrom, WholeRun, AllItems};
ghost use Rattle.bech32_gf.specs.Fe32 as fe32;
ghost use Rattle.bech32_checksum.specs.Packed.{digit_of, HasDigits, Packs, highest_digit, pushed_digits};
ghost use Rattle.bech32_checksum.specs.laws.PackedLaws as packed;

mod integers;

use std::ops::BitXor;

/// An integer that packs a row of elements, five bits each, the one of x^0 lowest.
pub trait PackedFe32: Copy + PartialEq + Eq + BitXor<Self, Output = Self> {
    // The number whose digits to the base 32 are the row.
    ghost number: { Self → ℕ };

    ghost ONE: { Self };

    ghost WIDTH: { ℕ };

    /// The row of the constant polynomial 1.
    const ONE: Self;

    /// The number of elements that fit.
    const WIDTH: usize;

    /// Packs the elements of the values that an iterator gives, at most `WIDTH` of them and each
    /// below 32. The first value is the highest element.
    fn pack<I: Iterator<Item = u8>>(iter: I) -> Self
        requires can { I.can_next iter }
        requires finite { IsFinite (I.remaining iter) }
        requires fits { EachRunFrom I.next_gives iter (λ p.
            (p.len ≤ WIDTH) × AllItems p (λ value. value < 32)) }
        ensures { 0 < WIDTH → WholeRun I.next_gives iter (λ p. Packs p.items (number result)) }
    {
        // The row of zeros.
        let mut row = Self::ONE ^ Self::ONE;
        for value in iter {
            row.mul_by_x_then_add(Self::WIDTH, value);
        }
        row
    }

    /// The value of the element at place `n`, that is the coefficient of x^n.
    fn unpack(&self, n: usize) -> u8
        requires { n < WIDTH }
        ensures value { result ≡ (digit_of (number self.now) n).value }
        ensures below { result < 32 };

    /// Multiplies the polynomial by x and adds `add` as its constant term. Takes its coefficient of
    /// x^(degree - 1) out first, and returns that.
    fn mul_by_x_then_add(&mut self, degree: usize, add: u8) -> u8
        requires positive { 0 < WIDTH → 0 < degree }
        requires within { degree ≤ WIDTH }
        requires clear { HasDigits degree (number self.old) }
        requires in_field { add < 32 }
        ensures highest { 0 < WIDTH → result ≡ highest_digit degree (number self.old) }
        ensures others { 0 < WIDTH → number self.new ≡ pushed_digits degree (number self.old) add }
        ensures empty { WIDTH ≡ 0 → result ≡ 0 };

    // A value takes 16 bytes at most, and so has 25 elements at most.
    ghost size_law: { type_size Self.row ≤ 16 };

    ghost wide_law: { WIDTH ≤ 25 };

    ghost one_law: { 0 < WIDTH → number ONE ≡ 1 };

    ghost empty_law: { (x : Self) → WIDTH ≡ 0 → number x ≡ 0 };

    ghost can_bitxor_law: { (x y : Self) → Self.can_bitxor x y };

    ghost bitxor_law: { (x y r : Self) → Self.bitxor_gives x y r
        → number r ≡ bit_xor (number x) (number y) };

    // It adds the elements at each place.
    ghost sum_law: { (x y r : Self) → Self.bitxor_gives x y r
        → (n : ℕ)
        → digit_of (number r) n ≡ fe32.add (digit_of (number x) n) (digit_of (number y) n) };

    ghost same_number_law: { (x y : Self) → number x ≡ number y → x ≡ y };

    ghost eq_law: { (x y : Self) → IsTrue (Self.eq x y) ↔ (x ≡ y) };
}

/// The row that holds no element, of a checksum of degree 0.
#[derive(Copy, Clone, Debug, PartialEq, Eq)]
pub struct PackedNull;

impl BitXor<PackedNull> for PackedNull {
    type Output = PackedNull;

    #[inline]
    fn bitxor(self, _other: PackedNull) -> PackedNull {
        PackedNull
    }
}

impl PackedFe32 for PackedNull {
    ghost number = { λ _. 0 };

    ghost ONE = { record {} };

    ghost WIDTH = { 0 };

    const ONE: Self = PackedNull;

    const WIDTH: usize = 0;

    /// Takes any iterator, and asks it for nothing.
    #[inline]
    fn pack<I: Iterator<Item = u8>>(_iter: I) -> Self
        ensures { result ≡ record {} }
    {
        PackedNull
    }

    /// Zero at each place.
    #[inline]
    fn unpack(&self, _n: usize) -> u8
        ensures { result ≡ 0 }
    {
        0
    }

    /// Zero, whatever the degree and the element.
    #[inline]
    fn mul_by_x_then_add(&mut self, degree: usize, _add: u8) -> u8
        ensures { result ≡ 0 }
    {
        self.unpack(degree)
    }

    ghost size_law = { Prim.omega arith };

    ghost wide_law = { Prim.omega arith };

    ghost one_law = { λ h. absurd (Prim.omega arith) };

    ghost empty_law = { λ x _. refl };

    ghost can_bitxor_law = { λ x y. tt };

    ghost bitxor_law = { λ x y r h. refl };

    ghost sum_law = { λ x y r h. packed.xor_digits 0 0 0 refl };

    ghost same_number_law = { λ x y h. refl };

    ghost eq_law = { Prim.search rules };
}
