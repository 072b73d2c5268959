//! By which finder the listing is found that explains an error residue, and this listing where
//! locations are given as erasures.

ghost use Rattle.std.specs.Prelude.{◌≡◌, ◌≤◌, ◌<◌, ◌+◌, ℕ, List, length, IfOk, IsOk};
ghost use Rattle.bech32_bch.specs.Erasures.{AreErasures};
ghost use Rattle.bech32_bch.specs.Search.{locators};
ghost use Rattle.bech32_checksum.specs.Lookup.{IfLookedUp};
ghost use Rattle.bech32_lookup.specs.Question.{IsAnswerTo};
ghost use Rattle.bech32_poly.specs.FieldVec.{FitsInPlace};
ghost use Rattle.bech32_correction.specs.Given.{IsAnswerWith};

use crate::corrector::Corrector;
use crate::erasures::distinct_below;
use bech32_bch::{ShortVec, locators_of};
use bech32_checksum::{Checksum, Lookup};
use bech32_gf::gf32::Fe32;
use bech32_lookup::{
    bound, correct_by_roots, correct_erased, correct_single, is_filled, lookup_erasures,
};
use bech32_poly::fieldvec::FieldVec;
use std::alloc::{AllocError, Allocator};
use std::marker::PhantomData;

// What the checksum looks up for one to three erasures.
#[inline(always)]
fn looked_up<Ck: Checksum, A: Allocator + Copy>(
    alloc: A,
    window: usize,
    residue: &[Fe32],
    erasures: &[usize],
) -> Result<Lookup<ShortVec<(usize, Fe32), A>>, AllocError>
    requires lawful { Ck.lawful × (0 < length Ck.code.generator) }
    requires within { window ≤ Ck.CODE_LENGTH }
    requires bound { Ck.bound ≡ 3 }
    ensures answer { IfOk result (λ found. IfLookedUp found (λ answer. IsAnswerTo Ck.code Ck.bound
        (record { residue = residue.now; window = window; erasures = erasures.now }) answer)) }
    ensures in_place { IsOk result }
{
    match lookup_erasures::<Ck>(window, residue, erasures) {
        Lookup::Found(listing) => {
            let copy = ShortVec::from_slice(alloc, listing.as_slice())?;
            Ok(Lookup::Found(copy))
        }
        Lookup::Absent => Ok(Lookup::Absent),
        Lookup::NoTable => Ok(Lookup::NoTable),
    }
}

/// The errors below the window, and the elements at the erasures, that explain an error residue.
/// `known` are the locators of the erasures, where an error can stand beside them. This is the one
/// place that chooses a finder.
///
/// # Errors
///
/// If memory runs out. For a checksum of at most six characters nothing is allocated.
#[inline(always)]
pub(crate) fn listing_below<Ck: Checksum, A: Allocator + Copy>(
    alloc: A,
    window: usize,
    residue: &[Fe32],
    erasures: &ShortVec<usize, A>,
    known: &FieldVec<Ck::CorrectionField, A>,
) -> Result<Option<ShortVec<(usize, Fe32), A>>, AllocError>
    requires lawful { Ck.lawful × (0 < length Ck.code.generator) }
    requires within { window ≤ Ck.CODE_LENGTH }
    requires erased { AreErasures window erasures.now }
    requires known { length erasures.now + 2 ≤ Ck.bound
        → known.now ≡ locators Ck.CorrectionField.ops Ck.ROOT_GENERATOR erasures.now }
    ensures answer { IfOk result (λ answer. IsAnswerTo Ck.code Ck.bound
        (record { residue = residue.now; window = window; erasures = erasures.now }) answer) }
    ensures in_place { length Ck.code.generator ≤ 6 → IsOk result }
{
    let (erased, most) = (erasures.len(), bound::<Ck>());
    if erased == 0 && most >= 2 && most <= 3 {
        return correct_single::<Ck, A>(alloc, window, residue);
    }
    if most == 3 {
        match looked_up::<Ck, A>(alloc, window, residue, erasures.as_slice())? {
            Lookup::Found(listing) => return Ok(Some(listing)),
            Lookup::Absent => return Ok(None),
            Lookup::NoTable => {}
        }
    }
    if erased > most {
        return Ok(None);
    }
    if most - erased < 2 {
        return correct_erased::<Ck, A>(alloc, window, residue, erasures);
    }
    correct_by_roots::<Ck, A>(alloc, window, residue, erasures, known)
}

// The locators of erasures, where an error can stand beside them: else they are not needed.
#[inline]
fn needed_locators<Ck: Checksum, A: Allocator + Copy>(
    alloc: A,
    erasures: &ShortVec<usize, A>,
    _sizes: PhantomData<Corrector<Ck, A>>,
) -> Result<FieldVec<Ck::CorrectionField, A>, AllocError>
    requires { Ck.lawful × (0 < length Ck.code.generator) }
    ensures locators { IfOk result (λ known. length erasures.now + 2 ≤ Ck.bound
        → known ≡ locators Ck.CorrectionField.ops Ck.ROOT_GENERATOR erasures.now) }
    ensures in_place { FitsInPlace (length erasures.now) → IsOk result }
{
    if is_filled::<Ck>(erasures.len()) {
        return Ok(FieldVec::new(alloc));
    }
    locators_of(alloc, Ck::ROOT_GENERATOR, erasures.as_slice())
}

/// The errors below the window, and the elements at the given locations, that explain an error
/// residue: what [`Corrector::listing`] answers, without a corrector. The last argument holds
/// nothing: what a corrector holds stands in the signature by it, or the prover does not know its
/// size.
///
/// # Errors
///
/// If memory runs out. For a checksum of at most six characters nothing is allocated.
#[inline(always)]
pub(crate) fn listing_given<Ck: Checksum, A: Allocator + Copy>(
    alloc: A,
    window: usize,
    residue: &[Fe32],
    given: &[usize],
    _sizes: PhantomData<Corrector<Ck, A>>,
) -> Result<Option<ShortVec<(usize, Fe32), A>>, AllocError>
    requires lawful { Ck.lawful × (0 < length Ck.code.generator) }
    requires within { window ≤ Ck.CODE_LENGTH }
    ensures answer { (before : List ℕ) → IfOk result (λ answer. IsAnswerWith Ck.code Ck.bound
        (record { residue = residue.now; window = window; erasures = before }) given.now answer) }
    ensures in_place { length Ck.code.generator ≤ 6 → IsOk result }
{
    let Some(erasures) = distinct_below(alloc, given, window, bound::<Ck>())? else {
        return Ok(None);
    };
    let known = needed_locators::<Ck, A>(alloc, &erasures, PhantomData)?;
    listing_below::<Ck, A>(alloc, window, residue, &erasures, &known)
}
