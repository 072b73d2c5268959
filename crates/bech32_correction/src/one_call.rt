//! A mistyped text corrected by one call.

ghost use Rattle.std.specs.Prelude.{◌≡◌, ◌≤◌, ℕ, List, Err, IfOk, MatchResult, length, string_bytes};
ghost use Rattle.bech32_gf.specs.Fe32.{elements_of, ops};
ghost use Rattle.bech32_gf.specs.declared.gf32.Fe32.{Fe32 as Element};
ghost use Rattle.bech32_checksum.specs.Encoded.{spelled};
ghost use Rattle.bech32_correction.specs.MendedElements.{mended};
ghost use Rattle.bech32_correction.specs.Mistyped.{IsCorrectRefusal, IsCorrectionBy, IsCorrectorOf, IsListingOf, IsMendedBy, IsPlacedIn};
ghost use Rattle.bech32_correction.specs.declared.error.CorrectError.TheVariants.{Memory};
ghost use Rattle.bech32_decode.specs.Text.{IsText};

use crate::Corrector;
use crate::correcting::{Correction, Listing, listing_of_text};
use crate::error::CorrectError;
use crate::mending::mended_in;
use bech32_checksum::CorrectingChecksum;
use std::alloc::{AllocError, Allocator, Global};

/// How a text is corrected: a [`Listing`], and the corrected text.
#[derive(Drop)]
pub struct MendedBy<L, S> {
    /// Locations in characters from the last, which is 0, and the element that is added at each:
    /// the erasures as they were given, then the errors, 0 first where it is one of them, the
    /// others falling.
    pub listing: L,
    /// The corrected text, in lower case.
    pub text: S,
}

/// How a text is corrected, with memory of an allocator.
pub type Mended<A = Global> = MendedBy<Listing<A>, String<A>>;

/// The text with the listing added.
///
/// # Errors
///
/// If memory runs out.
pub fn mended_by<A: Allocator + Copy>(
    alloc: A,
    text: &str,
    listing: Listing<A>,
) -> Result<Mended<A>, AllocError>
    requires { IsPlacedIn text.now listing }
    ensures same { IfOk result (λ m. m.listing ≡ listing) }
    ensures spelling { IfOk result (λ m. (hrp data_part : List ℕ) → IsText text.now hrp data_part
        → string_bytes m.text ≡ spelled hrp (mended ops listing (elements_of data_part))) }
{
    let text = mended_in(alloc, text, listing.as_slice())?;
    Ok(MendedBy { listing, text })
}

/// What a checksum says of a text (BIP-173, Checksum design), with memory from `alloc`: that it
/// accepts it; else the only correction of the data part with so few wrong characters outside
/// `erasures` that twice their number, with that of the erasures, is at most the bound (3 for
/// [`Bech32`](bech32_checksum::Bech32) and [`Bech32m`](bech32_checksum::Bech32m): one wrong
/// character, or three erasures); or that there is none.
///
/// `erasures` are locations that are known to be wrong, in characters from the last, which is 0;
/// one that is given twice counts once. Where one is not in the data part, or they are more than
/// the bound, there is no correction.
///
/// A correction is a guess: with more wrong characters than the bound allows it may be another text
/// than the one that was meant. Compare it with the source before it is used.
///
/// # Errors
///
/// As [`CheckedHrpstring::new`](bech32_decode::CheckedHrpstring::new), but for a wrong checksum.
/// Out of memory is returned only for a text that is refused for a wrong checksum; for a checksum
/// of at most six characters only in place of a correction.
pub fn correct<Ck: CorrectingChecksum, A: Allocator + Copy>(
    alloc: A,
    text: &str,
    erasures: &[usize],
) -> Result<Correction<Mended<A>, Corrector<Ck, A>>, CorrectError>
    ensures value { MatchResult result
        (λ answer. IsCorrectionBy (λ m. IsMendedBy Ck.code Ck.bound text.now erasures.now
        m.listing (string_bytes m.text)) (λ c. IsCorrectorOf Ck.code text.now c)
        Ck.code Ck.bound text.now erasures.now answer)
        (λ e. IsCorrectRefusal Ck.code text.now e) }
    ensures in_place { length Ck.code.generator ≤ 6 → result ≡ Err Memory
        → (listing : List (ℕ × Element))
        × IsListingOf Ck.code Ck.bound text.now erasures.now listing }
{
    match listing_of_text::<Ck, A>(alloc, text, erasures)? {
        Correction::Accepted => Ok(Correction::Accepted),
        Correction::Mended(listing) => Ok(Correction::Mended(mended_by(alloc, text, listing)?)),
        Correction::Unexplained(corrector) => Ok(Correction::Unexplained(corrector)),
    }
}
