//! What finds the errors in a text.

ghost use Rattle.std.specs.Prelude.{◌≡◌, ◌≤◌, ◌<◌, ◌↔◌, [], length, IfOk, IsOk, IsTrue, MatchOption, OnErr, OnOk};
ghost use Rattle.std.specs.List.{AllByRecursion};
ghost use Rattle.bech32_bch.specs.Erasures.{AreErasures, with_erasures};
ghost use Rattle.bech32_bch.specs.Search.{locators};
ghost use Rattle.bech32_lookup.specs.TakenOff.{IsTakenOff};
ghost use Rattle.bech32_lookup.specs.Question.{IsAnswerTo, Question};
ghost use Rattle.bech32_correction.specs.Given.{AreWithin, IsAnswerWith, up_to, with_given};
ghost use Rattle.bech32_gf.specs.Fe32 as fe32;
ghost use Rattle.bech32_poly.specs.FieldVec.{FitsInPlace};

use crate::erasures::{are_below, distinct_below};
use crate::errors::{ErrorIterator, ShortIter};
use crate::given::{listing_below, listing_given};
use crate::question::{Question, end_of};
use bech32_bch::{ShortVec, locators_of};
use bech32_checksum::Checksum;
use bech32_gf::gf32::Fe32;
use bech32_lookup::{bound, extended, residue_after_removing};
use bech32_poly::fieldvec::FieldVec;
use bech32_refusals::MAX_DEGREE;
use std::alloc::{AllocError, Allocator, Global};
use std::fmt;
use std::marker::{Model, PhantomData};

/// Finds the errors in a text from the error residue that it leaves: the remainder of its
/// polynomial less the checksum's target. Location 0 is the last character.
#[derive(Drop)]
pub struct Corrector<Ck: Checksum, A: Allocator + Copy = Global> {
    erasures: ShortVec<usize, A>,
    // The locators of the erasures.
    known: FieldVec<Ck::CorrectionField, A>,
    residue: [Fe32; MAX_DEGREE],
    window: usize,
    of: PhantomData<Ck>,
}

impl<Ck: Checksum, A: Allocator + Copy> Model for Corrector<Ck, A> {
    ghost Value = { Question };

    ghost view = { λ a. record { residue = a.residue; window = a.window; erasures = a.erasures } };

    ghost invariant = { λ a. (a.window ≤ Ck.CODE_LENGTH) × AreErasures a.window a.erasures
        × (a.known ≡ locators Ck.CorrectionField.ops Ck.ROOT_GENERATOR a.erasures)
        × (Ck.lawful × (0 < length Ck.code.generator)) };
}

/// A clone allocates nothing up to seven erasures.
impl<Ck: Checksum, A: Allocator + Copy> Clone for Corrector<Ck, A> {
    ghost is_clone = { λ v w. v ≡ w };

    ghost is_infallible = { λ v. FitsInPlace (length v.erasures) };

    fn clone(&self) -> Result<Self, AllocError> {
        Ok(Corrector {
            erasures: self.erasures.clone()?,
            known: self.known.clone()?,
            residue: self.residue,
            window: self.window,
            of: PhantomData,
        })
    }
}

/// Shows what contracts see: the error residue, the window and the erasures.
impl<Ck: Checksum, A: Allocator + Copy> fmt::Debug for Corrector<Ck, A> {
    fn fmt<W: fmt::Write>(&self, f: &mut fmt::Formatter<W>) -> fmt::Result {
        f.debug_struct("Corrector")
            .field("residue", &self.residue)
            .field("window", &self.window)
            .field("erasures", &self.erasures.as_slice())
            .finish()
    }
}

impl<Ck: Checksum, A: Allocator + Copy> Corrector<Ck, A> {
    /// A corrector of an error residue, with no erasures.
    pub fn new(alloc: A, residue: [Fe32; MAX_DEGREE], window: usize) -> Self
        requires lawful { Ck.lawful × (0 < length Ck.code.generator) }
        requires within { window ≤ Ck.CODE_LENGTH }
        ensures { result ≡ record { residue = residue; window = window; erasures = [] } }
    {
        Corrector {
            erasures: ShortVec::new(alloc),
            known: FieldVec::new(alloc),
            residue,
            window,
            of: PhantomData,
        }
    }

    /// The number of roots of the generator that serve to find errors: as many erasures have one
    /// answer, and half as many errors. It is at most the degree.
    pub fn singleton_bound(&self) -> usize
        ensures value { result ≡ Ck.bound }
        ensures few { result ≤ length Ck.code.generator }
    {
        // Tells the proof what is true of every corrector.
        let _ = &self.window;
        bound::<Ck>()
    }

    /// Below this, in characters from the last, all errors are looked for.
    pub fn window(&self) -> usize
        ensures value { result ≡ self.now.window }
        ensures within { result ≤ Ck.CODE_LENGTH }
    {
        self.window
    }

    /// Whether all these locations are below the window, as [`add_erasures`](Self::add_erasures)
    /// and [`with`](Self::with) want them.
    pub fn are_within(&self, locations: &[usize]) -> bool
        ensures { IsTrue result ↔ AllByRecursion (λ i. i < self.now.window) locations.now }
    {
        are_below(locations, self.window)
    }

    /// Adds locations that are known to be wrong; one that is there already is not added again.
    /// Where it is not known that they are all below the window, [`are_within`](Self::are_within)
    /// tells.
    ///
    /// # Errors
    ///
    /// If memory runs out; the erasures are then as before. Seven need none.
    pub fn add_erasures(&mut self, locations: &[usize]) -> Result<(), AllocError>
        requires { AllByRecursion (λ i. i < self.old.window) locations.now }
        ensures residue { self.new.residue ≡ self.old.residue }
        ensures window { self.new.window ≡ self.old.window }
        ensures ok { OnOk result
            (self.new.erasures ≡ with_erasures self.old.erasures locations.now) }
        ensures err { OnErr result (self.new ≡ self.old) }
        ensures in_place { FitsInPlace (length (with_erasures self.old.erasures locations.now))
            → IsOk result }
    {
        let before = self.erasures.len();
        match extended(&mut self.erasures, Ck::ROOT_GENERATOR, locations) {
            Ok(known) => {
                self.known = known;
                Ok(())
            }
            Err(e) => {
                self.erasures.truncate(before);
                Err(e)
            }
        }
    }

    /// A corrector of the same error residue with these locations as erasures, each once, in the
    /// order in which they came first. `None` where one is not below the window, or they are more
    /// than the [`singleton_bound`](Self::singleton_bound).
    ///
    /// # Errors
    ///
    /// If memory runs out. Seven erasures need none, nor does a checksum of at most six characters.
    pub fn with(&self, given: &[usize]) -> Result<Option<Self>, AllocError>
        ensures value { IfOk result (λ found. MatchOption found
            (AreWithin self.now.window Ck.bound given.now → ⊥)
            (λ c. AreWithin self.now.window Ck.bound given.now
            × (c ≡ with_given self.now given.now))) }
        ensures in_place { length Ck.code.generator ≤ 6 → IsOk result }
        ensures few { FitsInPlace (length (with_erasures [] given.now)) → IsOk result }
    {
        let (residue, window) = (self.residue, self.window);
        let (alloc, most) = (self.allocator(), bound::<Ck>());
        let Some(erasures) = distinct_below(alloc, given, window, most)? else {
            return Ok(None);
        };
        let known = locators_of(alloc, Ck::ROOT_GENERATOR, erasures.as_slice())?;
        Ok(Some(Corrector {
            erasures,
            known,
            residue,
            window,
            of: PhantomData,
        }))
    }

    /// The errors as [`bch_errors`](Self::bch_errors) lists them, in a vector, with the erasures of
    /// the question in place of the corrector's own. Returns `None`, too, if one of them is not
    /// below the window, or is above the highest location that is searched.
    ///
    /// # Errors
    ///
    /// Those of [`bch_errors`](Self::bch_errors).
    pub fn listing(
        &self,
        question: Question<'_>,
    ) -> Result<Option<ShortVec<(usize, Fe32), A>>, AllocError>
        ensures answer { IfOk result (λ answer. IsAnswerWith Ck.code Ck.bound
            (up_to self.now question.entry.highest) question.entry.erasures.now answer) }
        ensures in_place { length Ck.code.generator ≤ 6 → IsOk result }
    {
        let end = end_of(question.highest, self.window);
        let (alloc, residue) = (self.allocator(), &self.residue);
        listing_given::<Ck, A>(alloc, end, residue, question.erasures, PhantomData)
    }

    /// The errors as [`bch_errors`](Self::bch_errors) lists them, in a vector.
    ///
    /// # Errors
    ///
    /// Those of [`bch_errors`](Self::bch_errors).
    pub fn own_listing(&self) -> Result<Option<ShortVec<(usize, Fe32), A>>, AllocError>
        ensures answer { IfOk result (λ answer. IsAnswerTo Ck.code Ck.bound self.now answer) }
        ensures in_place { length Ck.code.generator ≤ 6 → IsOk result }
    {
        let alloc = self.erasures.allocator();
        let (window, residue) = (self.window, &self.residue);
        listing_below::<Ck, A>(alloc, window, residue, &self.erasures, &self.known)
    }

    /// The errors that explain the error residue, and the elements at the erasures: the one pattern
    /// below the window that has the error residue as remainder and has so few errors outside the
    /// erasures that twice their number and that of the erasures are at most the
    /// [`singleton_bound`](Self::singleton_bound). `None` where there is no such pattern.
    ///
    /// # Errors
    ///
    /// If memory runs out. For a checksum of at most six characters nothing is allocated.
    pub fn bch_errors(&self) -> Result<Option<ErrorIterator<A>>, AllocError>
        ensures lawful { Ck.lawful }
        ensures answer { IfOk result (λ answer. IsAnswerTo Ck.code Ck.bound self.now answer) }
        ensures in_place { length Ck.code.generator ≤ 6 → IsOk result }
    {
        // Tells the proof what is true of every corrector.
        let _ = &self.window;
        match self.own_listing()? {
            Some(items) => Ok(Some(ShortIter { items, given: 0 })),
            None => Ok(None),
        }
    }

    /// The erasures, in the order in which they were added.
    pub fn erasures(&self) -> &[usize]
        ensures value { result.now ≡ self.now.erasures }
        ensures lawful { AreErasures self.now.window self.now.erasures }
    {
        self.erasures.as_slice()
    }

    /// The error residue: its coefficients, the constant one first, with zeros behind them.
    pub fn residue(&self) -> &[Fe32]
        ensures { result.now ≡ self.now.residue }
    {
        &self.residue
    }

    /// The allocator.
    pub fn allocator(&self) -> A {
        self.erasures.allocator()
    }

    /// The corrector of what is left of the error residue where an error is taken off.
    ///
    /// # Errors
    ///
    /// If memory runs out. Seven erasures need none.
    pub fn without_error(&self, error: (usize, Fe32)) -> Result<Self, AllocError>
        ensures window { IfOk result (λ left. left.window ≡ self.now.window) }
        ensures erasures { IfOk result (λ left. left.erasures ≡ self.now.erasures) }
        ensures residue { IfOk result (λ left.
            IsTakenOff fe32.ops Ck.code.generator self.now.residue error left.residue) }
        ensures in_place { FitsInPlace (length self.now.erasures) → IsOk result }
    {
        let mut left = self.clone()?;
        left.residue = residue_after_removing::<Ck>(&self.residue, error);
        Ok(left)
    }
}
