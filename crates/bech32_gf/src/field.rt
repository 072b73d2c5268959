//! Fields, extension fields and the powers of their elements.
//!
//! The laws of a field are part of [`Field`]: what is proved over any `F: Field` holds of each of
//! its implementations.

ghost use Rattle.std.specs.Prelude.{◌≡◌, ◌≢◌, ◌↔◌, ◌+◌, ◌-◌, ◌<◌, ◌≤◌, ◌<ℤ◌, ℕ, pos, List, Some, Option, IsTrue, fold};
ghost use Rattle.std.specs.Iterator.{YieldsFirst, item_count};
ghost use Rattle.std.specs.Fmt.{WritesOnOk};
ghost use Rattle.bech32_gf.specs.Field.{IsOrder, IsCharacteristic, ListsDivisors, IsPositiveI64};
ghost use Rattle.bech32_gf.specs.Field.{power, signed_power, signed_multiple};
ghost use Rattle.bech32_gf.specs.Powers.{powers_of, powers_left, base_of, next_of, power_after, GivesNextPower};

use crate::arithmetic::{Arithmetic, Extension};
use std::fmt;
use std::hash::Hash;
use std::iter::Sum;
use std::ops::{Add, AddAssign, Div, DivAssign, Mul, MulAssign, Neg, Sub, SubAssign};

/// A finite field, with its laws. What its operators do is said in [`Arithmetic`], which a field of
/// your own implements beside this.
pub trait Field: Arithmetic
    + Copy
    + PartialEq
    + Eq
    + Default
    + Hash
    + fmt::Debug
    + fmt::Display
    + Sum<Self>
    + Add<Self, Output = Self>
    + Sub<Self, Output = Self>
    + AddAssign<Self>
    + SubAssign<Self>
    + Mul<Self, Output = Self>
    + MulAssign<Self>
    + Div<Self, Output = Self>
    + DivAssign<Self>
    + Neg<Output = Self> {
    ghost ZERO: { Self };

    ghost ONE: { Self };

    ghost GENERATOR: { Self };

    ghost CHARACTERISTIC: { ℕ };

    ghost MULTIPLICATIVE_ORDER: { ℕ };

    // The factors of the order, which no ghost member of their constant's name can hold.
    ghost divisors: { List ℕ };

    /// The neutral element of the sum.
    const ZERO: Self;

    /// The neutral element of the product.
    const ONE: Self;

    /// An element whose powers are all elements but [`ZERO`](Field::ZERO).
    const GENERATOR: Self;

    /// The least number from 1 on of ones whose sum is zero.
    const CHARACTERISTIC: usize;

    /// How many elements there are besides [`ZERO`](Field::ZERO).
    const MULTIPLICATIVE_ORDER: usize;

    /// All divisors of [`MULTIPLICATIVE_ORDER`](Field::MULTIPLICATIVE_ORDER), 1 and itself among
    /// them, in rising order.
    const MULTIPLICATIVE_ORDER_FACTORS: &'static [usize];

    /// The element whose product with this one, which is not zero, is one.
    fn multiplicative_inverse(self) -> Self
        requires { self ≢ Self.ops.zero }
        ensures { result ≡ Self.ops.inv self };

    /// The divisors of the order:
    /// [`MULTIPLICATIVE_ORDER_FACTORS`](Field::MULTIPLICATIVE_ORDER_FACTORS).
    fn order_factors() -> &'static [usize]
        ensures { result.now ≡ divisors };

    /// This element added up this many times, or its negative for a negative number.
    fn muli(&self, n: i64) -> Self
        ensures { result ≡ signed_multiple Self.ops self.now n }
    {
        let mut base = if n >= 0 { *self } else { -*self };
        let mut times = n.unsigned_abs() % Self::CHARACTERISTIC as u64;
        let mut sum = Self::ZERO;
        while times > 0 {
            if times % 2 == 1 {
                sum += base;
            }
            base = base + base;
            times /= 2;
        }
        sum
    }

    /// This element multiplied by itself this many times, or its inverse for a negative number, for
    /// which the element may not be zero. Power 0 is one, of zero too.
    fn powi(&self, n: i64) -> Self
        requires { n <ℤ pos 0 → self.now ≢ Self.ops.zero }
        ensures { result ≡ signed_power Self.ops self.now n }
    {
        let base = if n >= 0 {
            *self
        } else {
            self.multiplicative_inverse()
        };
        base.power(n.unsigned_abs() as usize)
    }

    /// All powers of this element, from power 0 on and without an end.
    fn powers(self) -> Powers<Self>
        ensures base { base_of result ≡ self }
        ensures next { next_of result ≡ Self.ops.one }
    {
        Powers {
            base: self,
            next: Self::ONE,
        }
    }

    /// The powers of this element from one number to another, which is not below it, both included.
    final fn powers_range(self, start: usize, end: usize) -> PowersRange<Self>
        requires { start ≤ end }
        ensures { powers_left Self.ops result ≡ powers_of Self.ops self start (end - start + 1) }
    {
        let mut powers = self.powers();
        powers.advance(start);
        PowersRange {
            powers,
            more: Some(end - start),
        }
    }

    ghost zero_law: { ZERO ≡ Self.ops.zero };

    ghost one_law: { ONE ≡ Self.ops.one };

    ghost default_law: { (x : Self) → Self.is_default x → x ≡ Self.ops.zero };

    ghost eq_law: { (x y : Self) → IsTrue (Self.eq x y) ↔ (x ≡ y) };

    ghost can_add_law: { (x y : Self) → Self.can_add x y };

    ghost add_law: { (x y r : Self) → Self.add_gives x y r → r ≡ Self.ops.add x y };

    ghost can_add_assign_law: { (x y : Self) → Self.can_add_assign x y };

    ghost add_assign_law: { (x y r : Self) → Self.add_assign_gives x y r → r ≡ Self.ops.add x y };

    ghost can_sub_law: { (x y : Self) → Self.can_sub x y };

    ghost sub_law: { (x y r : Self) → Self.sub_gives x y r → r ≡ Self.ops.add x (Self.ops.neg y) };

    ghost can_sub_assign_law: { (x y : Self) → Self.can_sub_assign x y };

    ghost sub_assign_law: { (x y r : Self) → Self.sub_assign_gives x y r
        → r ≡ Self.ops.add x (Self.ops.neg y) };

    ghost can_mul_law: { (x y : Self) → Self.can_mul x y };

    ghost mul_law: { (x y r : Self) → Self.mul_gives x y r → r ≡ Self.ops.mul x y };

    ghost can_mul_assign_law: { (x y : Self) → Self.can_mul_assign x y };

    ghost mul_assign_law: { (x y r : Self) → Self.mul_assign_gives x y r → r ≡ Self.ops.mul x y };

    ghost can_div_law: { (x y : Self) → y ≢ Self.ops.zero → Self.can_div x y };

    ghost div_law: { (x y r : Self) → y ≢ Self.ops.zero → Self.div_gives x y r
        → r ≡ Self.ops.mul x (Self.ops.inv y) };

    ghost can_div_assign_law: { (x y : Self) → y ≢ Self.ops.zero → Self.can_div_assign x y };

    ghost div_assign_law: { (x y r : Self) → y ≢ Self.ops.zero → Self.div_assign_gives x y r
        → r ≡ Self.ops.mul x (Self.ops.inv y) };

    ghost can_neg_law: { (x : Self) → Self.can_neg x };

    ghost neg_law: { (x r : Self) → Self.neg_gives x r → r ≡ Self.ops.neg x };

    ghost can_sum_law: { (xs : List Self) → Self.can_sum xs };

    ghost sum_law: { (xs : List Self) (r : Self) → Self.sum_gives xs r
        → r ≡ fold Self.ops.add Self.ops.zero xs };

    // A sum takes every item.
    ghost sum_complete_law: { (r : Self) → Self.is_complete r };

    ghost characteristic_law: { IsCharacteristic Self.ops CHARACTERISTIC };

    ghost order_law: { (x : Self) → x ≢ Self.ops.zero
        → power Self.ops x MULTIPLICATIVE_ORDER ≡ Self.ops.one };

    ghost generator_law: { IsOrder Self.ops GENERATOR MULTIPLICATIVE_ORDER };

    ghost divisors_law: { ListsDivisors MULTIPLICATIVE_ORDER divisors };

    ghost fits_law: { IsPositiveI64 CHARACTERISTIC × IsPositiveI64 MULTIPLICATIVE_ORDER };
}

/// The order of an element. It has a trait of its own, implemented for every field, since names in
/// a trait may not differ only in case, as its name and that of
/// [`MULTIPLICATIVE_ORDER`](Field::MULTIPLICATIVE_ORDER) would.
pub trait MultiplicativeOrder: Field {
    /// The least number from 1 on whose power of this element, which is not zero, is one.
    final fn multiplicative_order(&self) -> usize
        requires { self.now ≢ Self.ops.zero }
        ensures { IsOrder Self.ops self.now result }
    {
        for divisor in Self::order_factors() {
            if self.powi(*divisor as i64) == Self::ONE {
                return *divisor;
            }
        }
        unreachable!()
    }
}

impl<F: Field> MultiplicativeOrder for F {}

/// A field that a base field with one more element makes. How the base field lies in it is said in
/// [`Extension`], which a field of your own implements beside this.
pub trait ExtensionField: Field
    + From<Self::BaseField>
    + Extension<Base = <Self as ExtensionField>::BaseField> {
    /// The field that is extended.
    type BaseField: Field;

    ghost DEGREE: { ℕ };

    ghost POLYNOMIAL: { Self };

    ghost EXT_ELEM: { Self };

    /// How many elements of the base field make one of this field.
    const DEGREE: usize;

    /// The power [`DEGREE`](ExtensionField::DEGREE) of [`EXT_ELEM`](ExtensionField::EXT_ELEM).
    const POLYNOMIAL: Self;

    /// The element that the base field is extended by.
    const EXT_ELEM: Self;

    /// The element of the base field that this element is, where it is one.
    fn to_base(self) -> Option<Self::BaseField>
        ensures { result ≡ Self.retract self };

    ghost base_law: { Self.base_ops ≡ Self.BaseField.ops };

    ghost from_law: { (x : Self.BaseField) (y : Self) → Self.from_gives x y → y ≡ Self.embed x };

    ghost polynomial_law: { power Self.ops EXT_ELEM DEGREE ≡ POLYNOMIAL };
}

#[doc(hidden)]
pub mod private {
    /// Keeps [`Bech32Field`](super::Bech32Field) to the fields of this repository: the crate
    /// `bech32` does not give this module on.
    pub trait Sealed {}
}

/// A field over which bech32 checksums are corrected.
pub trait Bech32Field: private::Sealed + Field {
    // The Rust code of an element.
    ghost rust_code: { Self → List ℕ };

    /// The name of the type.
    const NAME: &'static str;

    /// Writes the element as Rust code.
    ///
    /// # Errors
    ///
    /// An error of the writer.
    fn format_as_rust_code<W: fmt::Write>(&self, f: &mut fmt::Formatter<W>) -> fmt::Result
        ensures writes { WritesOnOk W.write_str_gives f.old result (rust_code self.now) f.new };
}

/// The powers of an element from power 0 on, without an end.
#[derive(Drop)]
pub struct Powers<F: Field> {
    base: F,
    next: F,
}

impl<F: Field> Powers<F> {
    // Passes over this many powers.
    fn advance(&mut self, n: usize)
        ensures base { base_of self.new ≡ base_of self.old }
        ensures next { next_of self.new ≡ power_after F.ops self.old n }
    {
        self.next *= self.base.power(n);
    }

    /// The power that stands this many places on; the next one is the one behind it.
    pub fn nth(&mut self, n: usize) -> Option<F>
        ensures item { result ≡ Some (power_after F.ops self.old n) }
        ensures base { base_of self.new ≡ base_of self.old }
        ensures next { next_of self.new ≡ power_after F.ops self.old (n + 1) }
    {
        self.advance(n);
        self.next()
    }
}

impl<F: Field> Iterator for Powers<F> {
    type Item = F;

    ghost next_gives = { GivesNextPower F.ops };

    fn next(&mut self) -> Option<F> {
        let item = self.next;
        self.next *= self.base;
        Some(item)
    }
}

/// The powers of an element from one number to another, both included.
#[derive(Drop)]
pub struct PowersRange<F: Field> {
    powers: Powers<F>,
    // How many follow the next one; `None` where none is left.
    more: Option<usize>,
}

impl<F: Field> Iterator for PowersRange<F> {
    type Item = F;

    ghost next_gives = { YieldsFirst (powers_left F.ops) };

    ghost remaining = { item_count (powers_left F.ops) };

    fn next(&mut self) -> Option<F> {
        let more = self.more?;
        self.more = more.checked_sub(1);
        self.powers.next()
    }
}
