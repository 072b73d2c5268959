//! The errors in an error residue of a checksum.

ghost use Rattle.std.specs.Prelude.{◌≡◌, ◌≤◌, ◌<◌, ◌+◌, ◌↔◌, length, IfOk, IsOk, IsTrue};
ghost use Rattle.bech32_bch.specs.Erasures.{AreErasures};
ghost use Rattle.bech32_bch.specs.Pattern.{HasRemainder};
ghost use Rattle.bech32_bch.specs.Search.{locators};
ghost use Rattle.bech32_gf.specs.Fe32 as fe32;
ghost use Rattle.bech32_lookup.specs.Question.{IsAnswerTo};

use crate::{listed_engine, row_equals};
use bech32_bch::{Roots, ShortVec, decode_errors};
use bech32_checksum::Checksum;
use bech32_gf::gf32::Fe32;
use bech32_poly::fieldvec::FieldVec;
use std::alloc::{AllocError, Allocator};

/// The number of roots of the generator that serve to find errors.
pub fn bound<Ck: Checksum>() -> usize
    requires { Ck.lawful × (0 < length Ck.code.generator) }
    ensures { result ≡ Ck.bound }
{
    Ck::ROOT_EXPONENTS_END - Ck::ROOT_EXPONENTS_START + 1
}

/// Whether this many erasures use up the bound: no error can stand beside them.
pub fn is_filled<Ck: Checksum>(erased: usize) -> bool
    requires { Ck.lawful × (0 < length Ck.code.generator) }
    ensures { IsTrue result ↔ ((erased ≤ Ck.bound) × (Ck.bound < erased + 2)) }
{
    let most = bound::<Ck>();
    erased <= most && most - erased < 2
}

// The second division: whether the polynomial of a listed pattern has the error residue as
// remainder.
fn has_residue<Ck: Checksum>(listing: &[(usize, Fe32)], residue: &[Fe32]) -> bool
    ensures { IsTrue result ↔ HasRemainder fe32.ops Ck.code.generator residue.now listing.now }
{
    let engine = listed_engine::<Ck>(listing);
    row_equals(engine.residue(), residue)
}

/// The errors below the window, and the elements at the erasures, that explain the error residue,
/// by the generator's roots: for any bound and any erasures. `known` are the locators of the
/// erasures.
///
/// # Errors
///
/// If memory runs out. For a checksum of at most six characters nothing is allocated.
pub fn correct_by_roots<Ck: Checksum, A: Allocator + Copy>(
    alloc: A,
    window: usize,
    residue: &[Fe32],
    erasures: &ShortVec<usize, A>,
    known: &FieldVec<Ck::CorrectionField, A>,
) -> Result<Option<ShortVec<(usize, Fe32), A>>, AllocError>
    requires lawful { Ck.lawful × (0 < length Ck.code.generator) }
    requires within { window ≤ Ck.CODE_LENGTH }
    requires erased { AreErasures window erasures.now }
    requires known { known.now ≡ locators Ck.CorrectionField.ops Ck.ROOT_GENERATOR erasures.now }
    ensures answer { IfOk result (λ answer. IsAnswerTo Ck.code Ck.bound
        (record { residue = residue.now; window = window; erasures = erasures.now }) answer) }
    ensures in_place { length Ck.code.generator ≤ 6 → IsOk result }
{
    let roots = Roots {
        base: Ck::ROOT_GENERATOR,
        start: Ck::ROOT_EXPONENTS_START,
        count: bound::<Ck>(),
    };
    let Some(listing) = decode_errors(alloc, roots, window, residue, erasures, known)? else {
        return Ok(None);
    };
    if has_residue::<Ck>(listing.as_slice(), residue) {
        Ok(Some(listing))
    } else {
        Ok(None)
    }
}
