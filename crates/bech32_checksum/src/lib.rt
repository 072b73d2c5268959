//! Checksums of elements: the words that define one, and the engine that computes it.
//!
//! Below it: `bech32_gf_ext`, `bech32_poly`, `bech32_hrp`.
//! Standard: BIP-173, Checksum; BIP-350, Bech32m.
#![tactic(auto)]

ghost use Rattle.std.specs.Prelude.{◌≡◌, ◌<◌, ◌^◌, ◌↔◌, ◌/◌, map, reverse, get_or, ℕ, List, IsTrue, MatchOption, length, ◌∷◌, [], ⊤};
ghost use Rattle.bech32_gf.specs.Fe32 as fe32;
ghost use Rattle.bech32_gf.specs.Fe32.{value};
ghost use Rattle.bech32_poly.specs.Polynomial.{scale};
ghost use Rattle.bech32_hrp.specs.Hrp.{lowered};
ghost use Rattle.bech32_checksum.specs.Packed.{HasDigits, IsRowOf, sum_of_words};
ghost use Rattle.bech32_checksum.specs.Code.{Code, code_of, IsResidueOf, IsResidueAfter};
ghost use Rattle.bech32_checksum.specs.OneError.{AreOnlyValues, IsBeside, IsLeftBy, IsSingle, valued};
ghost use Rattle.bech32_checksum.specs.PackingLaws.{KeepsPackingLaws};
ghost use Rattle.bech32_checksum.specs.Word.{IsResidueAfterTwo, IsResidueAfterWord};
ghost use Rattle.bech32_checksum.specs.Roots.{HasLawfulRoots, singleton_bound};
ghost use Rattle.bech32_checksum.specs.laws.WordLaws.{code_length_of, degree_of};

mod checksums;
mod hrp_fes;
mod lookups;
mod packed;
mod roots;
mod tables;
mod word;

pub use self::checksums::{Bech32, Bech32m, NoChecksum};
pub use self::hrp_fes::HrpFe32Iter;
pub use self::lookups::Lookup;
pub use self::packed::{PackedFe32, PackedNull};
pub use self::roots::LocatorField;
use self::word::elements_in;
use bech32_gf::gf32::Fe32;
use bech32_hrp::Hrp;
use std::alloc::AllocError;
use std::fmt::Debug;
use std::marker::Model;

/// A checksum: a code with a monic generator over the elements, and the remainder that right texts
/// leave (BIP-173, Checksum).
pub trait Checksum {
    /// An integer that can hold a remainder by the generator.
    type MidstateRepr: PackedFe32;

    /// The field in which errors are located and their values found.
    type CorrectionField: LocatorField;

    ghost ROOT_GENERATOR: { Self.CorrectionField };

    ghost ROOT_EXPONENTS_START: { ℕ };

    ghost ROOT_EXPONENTS_END: { ℕ };

    ghost CODE_LENGTH: { ℕ };

    ghost CHECKSUM_LENGTH: { ℕ };

    ghost GENERATOR_SH: { List Self.MidstateRepr };

    ghost TARGET_RESIDUE: { Self.MidstateRepr };

    // The generator's lower coefficients, the target and the greatest length.
    ghost code: { Code };

    // The number of roots that serve to find errors: twice the number of errors that are found, and
    // that of the erasures, are together no more.
    ghost bound: { ℕ };

    // The roots are lawful, as `sanity_check` tests it.
    ghost lawful: { Type 0 };

    /// The base whose powers are the roots of the generator that serve to find errors.
    const ROOT_GENERATOR: Self::CorrectionField;

    /// The exponent of the first of these roots.
    const ROOT_EXPONENTS_START: usize;

    /// The exponent of the last of them, which is one too.
    const ROOT_EXPONENTS_END: usize;

    /// The greatest number of characters of a text for which the checksum is meant.
    const CODE_LENGTH: usize;

    /// The degree of the generator, which is the number of characters of a checksum.
    const CHECKSUM_LENGTH: usize;

    /// The lower coefficients of the generator, packed, and their products with 2, 4, 8 and 16.
    const GENERATOR_SH: [Self::MidstateRepr; 5];

    /// The remainder of a right text, packed.
    const TARGET_RESIDUE: Self::MidstateRepr;

    /// The product of an element and the generator's lower coefficients, packed: the sum of the
    /// words at the set bits of the element's value.
    ///
    /// The provided one sums the words. Whoever defines a checksum may read a table in its place,
    /// and shows that it holds these sums.
    #[inline]
    fn generator_times(element: Fe32) -> Self::MidstateRepr
        ensures row { IsRowOf CHECKSUM_LENGTH (scale fe32.ops element code.generator)
            (Self.MidstateRepr.number result) }
        ensures words { Self.MidstateRepr.number result ≡ sum_of_words
            (λ i. Self.MidstateRepr.number (get_or GENERATOR_SH i TARGET_RESIDUE))
            5 (value element) }
    {
        let bits = element.to_u8();
        // The row of zeros.
        let mut sum = Self::MidstateRepr::ONE ^ Self::MidstateRepr::ONE;
        for i in 0..5 {
            if (bits >> i) % 2 == 1 {
                sum = sum ^ Self::GENERATOR_SH[i];
            }
        }
        sum
    }

    /// The remainder after one more element, packed.
    #[inline]
    fn after_one(residue: Self::MidstateRepr, element: Fe32) -> Self::MidstateRepr
        requires { HasDigits CHECKSUM_LENGTH (Self.MidstateRepr.number residue) }
        ensures clear { HasDigits CHECKSUM_LENGTH (Self.MidstateRepr.number result) }
        ensures after { IsResidueAfter Self.MidstateRepr.number code residue (element ∷ []) result }
    {
        let mut next = residue;
        let xn = next.mul_by_x_then_add(Self::CHECKSUM_LENGTH, element.to_u8());
        next ^ Self::generator_times(Fe32::from_low_bits(xn))
    }

    /// The remainder after eight more elements, packed. The first of them comes first.
    ///
    /// The provided one takes them one after another. Whoever defines a checksum may read tables in
    /// its place, and shows that they leave the same remainder.
    #[inline]
    fn after_eight(residue: Self::MidstateRepr, elements: [Fe32; 8]) -> Self::MidstateRepr
        requires { HasDigits CHECKSUM_LENGTH (Self.MidstateRepr.number residue) }
        ensures clear { HasDigits CHECKSUM_LENGTH (Self.MidstateRepr.number result) }
        ensures after { IsResidueAfter Self.MidstateRepr.number code residue elements result }
    {
        let mut next = residue;
        for element in elements {
            next = Self::after_one(next, element);
        }
        next
    }

    /// The remainder after eight more elements, which stand in a word of 40 bits, the first of them
    /// highest, packed.
    ///
    /// The provided one takes them apart. Whoever defines a checksum may read tables in its place,
    /// as for [`Self::after_eight`].
    #[inline]
    fn after_word(residue: Self::MidstateRepr, word: u64) -> Self::MidstateRepr
        requires residue { HasDigits CHECKSUM_LENGTH (Self.MidstateRepr.number residue) }
        requires word { word < 2 ^ 40 }
        ensures clear { HasDigits CHECKSUM_LENGTH (Self.MidstateRepr.number result) }
        ensures after { IsResidueAfterWord Self.MidstateRepr.number code residue word result }
    {
        Self::after_eight(residue, elements_in(word))
    }

    /// The remainder after two more elements, which stand in a number of ten bits, the first of
    /// them higher, packed.
    ///
    /// The provided one takes them one after another. Whoever defines a checksum may read a table
    /// in its place, as for [`Self::after_eight`].
    #[inline]
    fn after_two(residue: Self::MidstateRepr, two: u32) -> Self::MidstateRepr
        requires residue { HasDigits CHECKSUM_LENGTH (Self.MidstateRepr.number residue) }
        requires two { two < 2 ^ 10 }
        ensures clear { HasDigits CHECKSUM_LENGTH (Self.MidstateRepr.number result) }
        ensures after { IsResidueAfterTwo Self.MidstateRepr.number code residue two result }
    {
        let next = Self::after_one(residue, Fe32::from_low_bits((two / 32) as u8));
        Self::after_one(next, Fe32::from_low_bits((two % 32) as u8))
    }

    /// The remainder after the elements of the target, the highest first, packed.
    ///
    /// The provided one takes them one after another, as [`Self::after_eight`] does.
    #[inline]
    fn after_target(residue: Self::MidstateRepr) -> Self::MidstateRepr
        requires { HasDigits CHECKSUM_LENGTH (Self.MidstateRepr.number residue) }
        ensures clear { HasDigits CHECKSUM_LENGTH (Self.MidstateRepr.number result) }
        ensures after { IsResidueAfter Self.MidstateRepr.number code residue
            (reverse code.target) result }
    {
        let mut next = residue;
        for i in 0..Self::CHECKSUM_LENGTH {
            let place = Self::CHECKSUM_LENGTH - 1 - i;
            next = Self::after_one(
                next,
                Fe32::from_low_bits(Self::TARGET_RESIDUE.unpack(place)),
            );
        }
        next
    }

    /// The only single error below the code length that leaves a residue.
    ///
    /// The provided one has no table. Whoever defines a checksum may read tables.
    #[inline]
    fn one_error(_residue: &[Fe32]) -> Lookup<(usize, Fe32)>
        ensures { IsSingle code.generator CODE_LENGTH _residue.now result }
    {
        Lookup::NoTable
    }

    /// The elements at up to three locations that together leave a residue.
    ///
    /// The provided one has no table. Whoever defines a checksum may read tables.
    #[inline]
    fn lookup_values(_residue: &[Fe32], _locations: &[usize]) -> Lookup<[Fe32; 3]>
        ensures { AreOnlyValues code.generator _residue.now _locations.now result }
    {
        Lookup::NoTable
    }

    /// The elements at up to three locations that together leave a residue, if
    /// [`Self::lookup_values`] finds them.
    #[inline]
    fn values_at(residue: &[Fe32], locations: &[usize]) -> Option<[Fe32; 3]>
        ensures { MatchOption result ⊤
            (λ values. IsLeftBy code.generator residue.now (valued locations.now values)) }
    {
        match Self::lookup_values(residue, locations) {
            Lookup::Found(values) => Some(values),
            Lookup::Absent | Lookup::NoTable => None,
        }
    }

    /// The element at a location and the single error below a window that together leave a residue.
    ///
    /// The provided one has no table. Whoever defines a checksum may read tables.
    #[inline]
    fn lookup_error_beside(
        _residue: &[Fe32],
        _location: usize,
        _window: usize,
    ) -> Lookup<(Fe32, (usize, Fe32))>
        ensures { IsBeside code.generator _window _residue.now _location result }
    {
        Lookup::NoTable
    }

    /// Whether the roots are lawful: the base is not zero, its order is the code length or more,
    /// the first exponent is not above the last, which is less than the degree above it, and each
    /// power of the base from the one to the other is a root of the generator. At degree 0 nothing
    /// is asked of them.
    ///
    /// Whoever defines a checksum should call it in a test. That the words agree with one another
    /// needs none: it is among the laws that each implementation proves.
    final fn sanity_check() -> bool
        ensures { IsTrue result ↔ lawful }
    {
        if Self::CHECKSUM_LENGTH == 0 {
            return true;
        }
        let (start, end) = (Self::ROOT_EXPONENTS_START, Self::ROOT_EXPONENTS_END);
        if end < start || Self::CHECKSUM_LENGTH <= end - start {
            return false;
        }
        roots::order_is_long_enough::<Self>() && roots::powers_are_roots::<Self>()
    }

    // The words keep the packing laws.
    ghost packing_laws: { KeepsPackingLaws Self.MidstateRepr.number Self.MidstateRepr.WIDTH
        CHECKSUM_LENGTH GENERATOR_SH TARGET_RESIDUE };

    // The code is that of the words, and so has these sizes.
    ghost code_law: { code
        ≡ code_of Self.MidstateRepr.number
        CODE_LENGTH CHECKSUM_LENGTH GENERATOR_SH TARGET_RESIDUE };

    ghost degree_law: { length code.generator ≡ CHECKSUM_LENGTH } = { degree_of
        Self.MidstateRepr.number CODE_LENGTH CHECKSUM_LENGTH GENERATOR_SH TARGET_RESIDUE code_law };

    ghost code_length_law: { code.code_length ≡ CODE_LENGTH } = { code_length_of
        Self.MidstateRepr.number CODE_LENGTH CHECKSUM_LENGTH GENERATOR_SH TARGET_RESIDUE code_law };

    ghost bound_law: { bound ≡ singleton_bound ROOT_EXPONENTS_START ROOT_EXPONENTS_END };

    ghost lawful_law: { lawful ↔ HasLawfulRoots Self.CorrectionField.ops Self.CorrectionField.embed
        code ROOT_GENERATOR ROOT_EXPONENTS_START ROOT_EXPONENTS_END };
}

/// A checksum that is proved to have lawful roots, so that texts can be corrected by it: what
/// [`Checksum::sanity_check`] tests is a law here.
pub trait CorrectingChecksum: Checksum {
    ghost lawful_roots: { Self.lawful };
}

/// Computes the remainder of a polynomial whose coefficients come one after another, the highest
/// first.
///
/// An engine starts at the polynomial 1: each text has a coefficient 1 above those of its
/// characters (BIP-173, Checksum).
#[derive(Drop)]
#[derive_where(PartialEq, Eq)]
#[derive_where(Debug; Ck::MidstateRepr: Debug)]
pub struct Engine<Ck: Checksum> {
    residue: Ck::MidstateRepr,
}

// Contracts see the packed remainder of what an engine was given.
impl<Ck: Checksum> Model for Engine<Ck> {
    ghost Value = { Ck.MidstateRepr };

    ghost view = { λ engine. engine.residue };

    ghost invariant = { λ engine.
        HasDigits Ck.CHECKSUM_LENGTH (Ck.MidstateRepr.number engine.residue) };

    ghost inverse = { λ residue. record { residue = residue } };
}

/// Never an error.
impl<Ck: Checksum> Clone for Engine<Ck> {
    ghost is_clone = { λ x y. y ≡ x };

    ghost is_infallible = { λ _. ⊤ };

    #[inline]
    fn clone(&self) -> Result<Self, AllocError> {
        Ok(Engine {
            residue: self.residue,
        })
    }
}

impl<Ck: Checksum> Default for Engine<Ck> {
    ghost is_default = { λ engine.
        IsResidueOf Ck.MidstateRepr.number Ck.code engine (fe32.one ∷ []) };

    fn default() -> Self {
        Self::new()
    }
}

impl<Ck: Checksum> Engine<Ck> {
    ghost use Rattle.bech32_checksum.specs.TextPolynomial.{hrp_elements};
    ghost use Rattle.bech32_hrp.specs.HrpBytes.{hrp_bytes};

    /// An engine that was given nothing.
    #[inline]
    pub fn new() -> Self
        ensures { IsResidueOf Ck.MidstateRepr.number Ck.code result (fe32.one ∷ []) }
    {
        Engine {
            residue: Ck::MidstateRepr::ONE,
        }
    }

    /// An engine that was given nothing, and has no coefficient 1 above what it is given: it
    /// computes the remainder of a polynomial as it is.
    #[inline]
    pub fn zero() -> Self
        ensures { IsResidueOf Ck.MidstateRepr.number Ck.code result [] }
    {
        Engine {
            residue: Ck::MidstateRepr::ONE ^ Ck::MidstateRepr::ONE,
        }
    }

    /// The remainder of what was given so far.
    #[inline]
    pub fn residue(&self) -> &Ck::MidstateRepr
        ensures value { result.now ≡ self.now }
        ensures clear { HasDigits Ck.CHECKSUM_LENGTH (Ck.MidstateRepr.number result.now) }
    {
        &self.residue
    }

    /// Takes the next element.
    #[inline]
    pub fn input_fe(&mut self, e: Fe32)
        ensures { IsResidueAfter Ck.MidstateRepr.number Ck.code self.old (e ∷ []) self.new }
    {
        self.residue = Ck::after_one(self.residue, e);
    }

    /// Takes the next eight elements, the first of them first.
    #[inline]
    pub fn input_eight(&mut self, elements: [Fe32; 8])
        ensures { IsResidueAfter Ck.MidstateRepr.number Ck.code self.old elements self.new }
    {
        self.residue = Ck::after_eight(self.residue, elements);
    }

    /// Takes the eight elements of a word of 40 bits, the highest first.
    #[inline]
    pub fn input_word(&mut self, word: u64)
        requires { word < 2 ^ 40 }
        ensures { IsResidueAfterWord Ck.MidstateRepr.number Ck.code self.old word self.new }
    {
        self.residue = Ck::after_word(self.residue, word);
    }

    /// Takes the two elements of a number of ten bits, the higher first.
    #[inline]
    pub fn input_two(&mut self, two: u32)
        requires { two < 2 ^ 10 }
        ensures { IsResidueAfterTwo Ck.MidstateRepr.number Ck.code self.old two self.new }
    {
        self.residue = Ck::after_two(self.residue, two);
    }

    /// Takes the elements of the target, the highest first.
    ///
    /// The remainder is then the checksum of what was given before: its elements, the highest
    /// first, put in the target's place, make the target the polynomial's remainder.
    #[inline]
    pub fn input_target_residue(&mut self)
        ensures { IsResidueAfter Ck.MidstateRepr.number Ck.code self.old
            (reverse Ck.code.target) self.new }
    {
        self.residue = Ck::after_target(self.residue);
    }

    // Takes the highest three bits of each byte, in lower case.
    #[inline]
    fn input_high_bits(&mut self, bytes: &[u8])
        ensures { IsResidueAfter Ck.MidstateRepr.number Ck.code self.old
            (map (λ b. fe32.element (b / 32)) (lowered bytes.now)) self.new }
    {
        for b in bytes {
            self.input_fe(Fe32::from_low_bits(b.to_ascii_lowercase() / 32));
        }
    }

    // Takes the lowest five bits of each byte, in lower case.
    #[inline]
    fn input_low_bits(&mut self, bytes: &[u8])
        ensures { IsResidueAfter Ck.MidstateRepr.number Ck.code self.old
            (map fe32.element (lowered bytes.now)) self.new }
    {
        for b in bytes {
            self.input_fe(Fe32::from_low_bits(b.to_ascii_lowercase()));
        }
    }

    /// Takes the elements of a human-readable part: the high bits of each byte, a zero, the low
    /// bits of each (BIP-173, Checksum). The case of its letters does not count.
    pub fn input_hrp(&mut self, hrp: Hrp)
        ensures { IsResidueAfter Ck.MidstateRepr.number Ck.code self.old
            (hrp_elements (hrp_bytes hrp)) self.new }
    {
        self.input_part(hrp.as_bytes());
    }

    /// Takes the elements of a human-readable part that is given as bytes, as [`Engine::input_hrp`]
    /// does.
    #[inline]
    pub fn input_part(&mut self, part: &[u8])
        ensures { IsResidueAfter Ck.MidstateRepr.number Ck.code self.old
            (hrp_elements part.now) self.new }
    {
        self.input_high_bits(part);
        self.input_fe(Fe32::Q);
        self.input_low_bits(part);
    }
}
