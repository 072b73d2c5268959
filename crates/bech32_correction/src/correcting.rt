//! What a checksum says of a mistyped text.

ghost use Rattle.std.specs.Prelude.{◌≡◌, ◌≤◌, ℕ, List, length, Err, IfOk, IsOk, MatchResult};
ghost use Rattle.bech32_correction.specs.Mistyped.{IsCorrectRefusal, IsCorrectorOf, IsListedCorrection, IsReadAs, IsReadRefusal};
ghost use Rattle.bech32_correction.specs.declared.error.CorrectError.TheVariants.{Memory};

use crate::error::CorrectError;
use crate::{Corrector, Question};
use bech32_bch::ShortVec;
use bech32_checksum::{Checksum, CorrectingChecksum};
use bech32_decode::{Reading, UncheckedHrpstring};
use bech32_gf::gf32::Fe32;
use bech32_refusals::ChecksumError;
use std::alloc::{AllocError, Allocator, Global};

/// Locations, of which 0 is the last character, and the element to add at each.
pub type Listing<A = Global> = ShortVec<(usize, Fe32), A>;

/// What a checksum says of a text.
#[derive(Drop)]
pub enum Correction<M, C = ()> {
    /// It accepts the text.
    Accepted,
    /// It accepts the text with this correction, the only one within the bound on errors.
    Mended(M),
    /// There is no correction within the bound on errors. The corrector of the text, with no
    /// erasures yet, may look further.
    Unexplained(C),
}

// What the corrector of a text says, where the given locations are erasures.
#[inline]
fn listing_by<Ck: Checksum, A: Allocator + Copy>(
    corrector: Corrector<Ck, A>,
    erasures: &[usize],
) -> Result<Correction<Listing<A>, Corrector<Ck, A>>, AllocError>
    ensures value { (text : List ℕ) → IsCorrectorOf Ck.code text corrector
        → IfOk result (λ answer. IsListedCorrection Ck.code Ck.bound text erasures.now answer) }
    ensures in_place { length Ck.code.generator ≤ 6 → IsOk result }
{
    let question = Question {
        erasures,
        highest: None,
    };
    match corrector.listing(question)? {
        Some(listing) => Ok(Correction::Mended(listing)),
        None => Ok(Correction::Unexplained(corrector)),
    }
}

// What a checksum says of a text that was read.
fn listing_of_reading<Ck: CorrectingChecksum, A: Allocator + Copy>(
    alloc: A,
    reading: &Reading<'_, Ck>,
    erasures: &[usize],
) -> Result<Correction<Listing<A>, Corrector<Ck, A>>, CorrectError>
    ensures value { MatchResult result
        (λ answer. IsListedCorrection Ck.code Ck.bound
        reading.now.text.now erasures.now answer)
        (λ e. IsCorrectRefusal Ck.code reading.now.text.now e) }
    ensures in_place { length Ck.code.generator ≤ 6 → result ≡ Err Memory → ⊥ }
{
    reading.validate_lengths()?;
    if reading.has_target() {
        return Ok(Correction::Accepted);
    }
    let window = reading.data_part.len();
    let corrector = Corrector::<Ck, A>::new(alloc, reading.error_residue(), window);
    Ok(listing_by(corrector, erasures)?)
}

/// What a checksum says of a text, where the given locations are erasures: whether it accepts the
/// text, and else the only listing within the bound on errors that corrects it.
///
/// # Errors
///
/// As [`CheckedHrpstring::new`](bech32_decode::CheckedHrpstring::new), but for a wrong checksum.
/// Out of memory is returned only for a text that is refused for a wrong checksum.
pub fn listing_of_text<Ck: CorrectingChecksum, A: Allocator + Copy>(
    alloc: A,
    text: &str,
    erasures: &[usize],
) -> Result<Correction<Listing<A>, Corrector<Ck, A>>, CorrectError>
    ensures value { MatchResult result
        (λ answer. IsListedCorrection Ck.code Ck.bound text.now erasures.now answer)
        (λ e. IsCorrectRefusal Ck.code text.now e) }
    ensures in_place { length Ck.code.generator ≤ 6 → result ≡ Err Memory → ⊥ }
{
    let reading = Reading::<Ck>::new(text)?;
    listing_of_reading::<Ck, A>(alloc, &reading, erasures)
}

/// What a checksum says of a text in its parts, where the given locations are erasures, as
/// [`listing_of_text`] says it of a text.
///
/// # Errors
///
/// The checksum's refusal of the text, but for a wrong checksum. Out of memory is returned only for
/// a text that is refused for a wrong checksum; for a checksum of at most six characters no memory
/// is taken.
pub fn listing_of_unchecked<Ck: CorrectingChecksum, A: Allocator + Copy>(
    alloc: A,
    unchecked: &UncheckedHrpstring<'_>,
    erasures: &[usize],
) -> Result<Correction<Listing<A>, Corrector<Ck, A>>, CorrectError>
    ensures value { MatchResult result
        (λ answer. (text : List ℕ) → IsReadAs text unchecked.now
        → IsListedCorrection Ck.code Ck.bound text erasures.now answer)
        (λ e. IsReadRefusal Ck.code unchecked.now e) }
    ensures in_place { length Ck.code.generator ≤ 6 → result ≡ Err Memory → ⊥ }
{
    let Err(refusal) = unchecked.validate_checksum::<Ck>() else {
        return Ok(Correction::Accepted);
    };
    let ChecksumError::InvalidResidue(error) = refusal else {
        return Err(CorrectError::from(refusal));
    };
    let window = unchecked.data_part_ascii().len();
    let corrector = Corrector::<Ck, A>::new(alloc, error.residue(), window);
    Ok(listing_by(corrector, erasures)?)
}
