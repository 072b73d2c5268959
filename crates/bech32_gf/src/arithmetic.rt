//! The operations of a field as calls whose contracts are equations.
//!
//! Each [`Field`](crate::field::Field) is an [`Arithmetic`], and each
//! [`ExtensionField`](crate::field::ExtensionField) an [`Extension`]. `Field` has eighteen traits
//! above it, and a proof over any field carries each of them through each call. What is generic
//! over [`Arithmetic`] carries three, and is proved in half the time.

ghost use Rattle.std.specs.Prelude.{◌≡◌, ◌≢◌, ◌↔◌, IsTrue, Bool, Option, Some};
ghost use Rattle.bech32_gf.specs.Field.{Ops, IsField, KeepsSums, KeepsProducts, power};

/// The operations of a field.
pub trait Arithmetic: Copy + Default {
    ghost ops: { Ops Self };

    // Tells whether two elements are the same.
    ghost same: { Self → Self → Bool };

    /// Zero.
    fn zero() -> Self
        ensures { result ≡ ops.zero };

    /// One.
    fn one() -> Self
        ensures { result ≡ ops.one };

    /// The sum.
    fn plus(self, other: Self) -> Self
        ensures { result ≡ ops.add self other };

    /// The product.
    fn times(self, other: Self) -> Self
        ensures { result ≡ ops.mul self other };

    /// The negative.
    fn negated(self) -> Self
        ensures { result ≡ ops.neg self };

    /// The element whose product with this one, which is not zero, is one.
    fn inverse(self) -> Self
        requires { self ≢ ops.zero }
        ensures { result ≡ ops.inv self };

    /// The power by a number, by squares.
    final fn power(self, n: usize) -> Self
        ensures { result ≡ power ops self n }
    {
        let mut base = self;
        let mut exponent = n;
        let mut product = Self::one();
        while exponent > 0 {
            if exponent % 2 == 1 {
                product = product.times(base);
            }
            base = base.times(base);
            exponent /= 2;
        }
        product
    }

    /// Whether this is the same element.
    fn equals(self, other: Self) -> bool
        ensures { result ≡ same self other };

    /// Whether this is zero.
    fn is_zero(self) -> bool
        ensures { IsTrue result ↔ (self ≡ ops.zero) };

    ghost laws: { IsField ops };

    ghost same_law: { (x y : Self) → IsTrue (same x y) ↔ (x ≡ y) };
}

/// The embedding of a field in one that extends it.
pub trait Extension: Arithmetic {
    /// The field that is extended.
    type Base: Copy + Default;

    // The operations of the base field. They are no bound on it, since a proof would carry that
    // too.
    ghost base_ops: { Ops Self.Base };

    // The element that an element of the base field is here, and back where it is one.
    ghost embed: { Self.Base → Self };

    ghost retract: { Self → Option Self.Base };

    /// Whether an element of the base field is zero.
    fn is_base_zero(x: Self::Base) -> bool
        ensures { IsTrue result ↔ (x ≡ base_ops.zero) };

    /// The element of this field that an element of the base field is.
    fn lift(x: Self::Base) -> Self
        ensures { result ≡ embed x };

    /// The element of the base field that this element is, where it is one.
    fn lower(self) -> Option<Self::Base>
        ensures { result ≡ retract self };

    ghost base_laws: { IsField base_ops };

    ghost retract_law: { (x : Self.Base) → retract (embed x) ≡ Some x };

    ghost embed_retract_law: { (x : Self.Base) (y : Self) → retract y ≡ Some x → embed x ≡ y };

    ghost embed_zero_law: { embed base_ops.zero ≡ Self.ops.zero };

    ghost embed_one_law: { embed base_ops.one ≡ Self.ops.one };

    ghost embed_add_law: { KeepsSums base_ops Self.ops embed };

    ghost embed_neg_law: { (x : Self.Base) → embed (base_ops.neg x) ≡ Self.ops.neg (embed x) };

    ghost embed_mul_law: { KeepsProducts base_ops Self.ops embed };
}
