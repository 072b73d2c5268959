//! All texts near a mistyped one.

ghost use Rattle.std.specs.Prelude.{◌≡◌, ◌<◌, ℕ, List, length, map, IfOk, MatchResult, OnErr, string_bytes};
ghost use Rattle.std.specs.List.{AllByRecursion};
ghost use Rattle.bech32_correction.specs.Mistyped.{IsMendedText, IsPlacedIn};
ghost use Rattle.bech32_decode.specs.Refusals.{HasLengths};
ghost use Rattle.bech32_near.specs.NearTexts.{AreNearestListings, AreNearTexts, IsNearestRefusal, IsOutOfMemory, IsSearch, IsSearcherOf};

use crate::listings::nearest_listings;
use crate::search::Listings;
use bech32_checksum::{Checksum, CorrectingChecksum};
use bech32_correction::{CorrectError, Corrector, Mended, mended_by};
use bech32_decode::Reading;
use std::alloc::{AllocError, Allocator};

/// The texts near a text, and what may look further.
#[derive(Drop)]
pub struct NearTexts<T, C> {
    /// The texts, each with the listing that mends the given one to it.
    pub texts: T,
    /// The corrector of the given text, with no erasures yet. None where the checksum has no
    /// characters.
    pub corrector: Option<C>,
}

// The listings of the text of which this is the corrector. None where a given location is not in
// the data part.
fn listings_within<Ck: Checksum, A: Allocator + Copy>(
    alloc: A,
    corrector: &Corrector<Ck, A>,
    given: &[usize],
    errors: usize,
) -> Result<Listings<A>, AllocError>
    ensures all { IfOk result (λ listings. (text : List ℕ) → 0 < length Ck.code.generator
        → IsSearcherOf Ck.code text corrector.now
        → AreNearestListings Ck.code Ck.bound text given.now errors listings.items) }
    ensures memory { OnErr result ((text : List ℕ) → 0 < length Ck.code.generator
        → IsSearcherOf Ck.code text corrector.now
        → IsOutOfMemory Ck.code Ck.bound text given.now errors) }
{
    match corrector.with(given)? {
        Some(erased) => nearest_listings(&erased, errors),
        None => Ok(Vec::new(alloc)),
    }
}

// Each listing with the text that it mends.
fn mended_all<A: Allocator + Copy>(
    alloc: A,
    text: &str,
    listings: Listings<A>,
) -> Result<Vec<Mended<A>, A>, AllocError>
    requires { AllByRecursion (λ listing. IsPlacedIn text.now listing) listings.items }
    ensures same { IfOk result (λ texts. map (λ m. m.listing) texts.items ≡ listings.items) }
    ensures each { IfOk result (λ texts.
        AllByRecursion (λ m. IsMendedText m.listing text.now (string_bytes m.text)) texts.items) }
    ensures memory { OnErr result (0 < length listings.items) }
{
    let mut texts = Vec::with_capacity(alloc, listings.len())?;
    for listing in listings {
        let mended = mended_by(alloc, text, listing)?;
        texts.push(mended)?;
    }
    Ok(texts)
}

// The text that was read.
fn text_of<'s, Ck: Checksum>(reading: &Reading<'s, Ck>) -> &'s str
    ensures { result.now ≡ reading.now.text.now }
{
    // A text of the grammar is ASCII: what the call requires is proved.
    unsafe { str::from_utf8_unchecked(reading.text) }
}

/// The texts near a text that was read, as [`nearest`] has them, with memory from `alloc`.
///
/// # Errors
///
/// Out of memory, as of [`nearest`].
pub fn nearest_to_reading<Ck: CorrectingChecksum, A: Allocator + Copy>(
    alloc: A,
    reading: &Reading<'_, Ck>,
    erasures: &[usize],
    errors: usize,
) -> Result<NearTexts<Vec<Mended<A>, A>, Corrector<Ck, A>>, AllocError>
    requires { HasLengths Ck.code
        (length reading.now.text.now) (length reading.now.data_part.now) }
    ensures { MatchResult result
        (λ near. AreNearTexts Ck.code Ck.bound reading.now.text.now erasures.now errors
        (map (λ m. (m.listing, string_bytes m.text)) near.texts.items)
        × IsSearch Ck.code reading.now.text.now near.corrector)
        (λ _. IsOutOfMemory Ck.code Ck.bound reading.now.text.now erasures.now errors) }
{
    if Ck::CHECKSUM_LENGTH == 0 {
        return Ok(NearTexts {
            texts: Vec::new(alloc),
            corrector: None,
        });
    }
    let residue = reading.error_residue();
    let corrector = Corrector::<Ck, A>::new(alloc, residue, reading.data_part.len());
    let listings = listings_within(alloc, &corrector, erasures, errors)?;
    let texts = mended_all(alloc, text_of(reading), listings)?;
    Ok(NearTexts {
        texts,
        corrector: Some(corrector),
    })
}

/// All texts that the checksum accepts, and that differ from this one in at most `errors`
/// characters of the data part outside `erasures`, with memory from `alloc`: the human-readable
/// part and the length are the same. Each is in lower case, with the listing that mends this text
/// to it, in the order of [`nearest_listings`]; where the checksum accepts this text, it is itself
/// the first.
///
/// `erasures` are locations that are known to be wrong, in characters from the last, which is 0;
/// one that is given twice counts once. Where one is not in the data part, or they are more than
/// the bound, there are no texts; nor for a checksum of no characters.
///
/// It is meant for up to two errors: [`nearest_listings`] says what time more of them take. By
/// [`Bech32`](bech32_checksum::Bech32) and [`Bech32m`](bech32_checksum::Bech32m), and a data part
/// of up to 89 characters, two errors without erasures have one text at most (BIP-173, Checksum
/// design): the right one, if at most two characters are wrong. So they have by each checksum that
/// detects four errors in the data part.
///
/// A text that is found is a guess: compare it with the source before it is used.
///
/// # Errors
///
/// As [`CheckedHrpstring::new`](bech32_decode::CheckedHrpstring::new), but for a wrong checksum.
/// Out of memory is returned only for a text that is refused for nothing else: it is accepted, or
/// its checksum is wrong. For a checksum of at most six characters it is returned only where the
/// erasures are in the data part and within the bound; and where twice `errors`, with the number of
/// the erasures, is at most the bound, only where a text is near. Past the bound, memory is also
/// taken to search with: [`nearest_listings`] says for what.
pub fn nearest<Ck: CorrectingChecksum, A: Allocator + Copy>(
    alloc: A,
    text: &str,
    erasures: &[usize],
    errors: usize,
) -> Result<NearTexts<Vec<Mended<A>, A>, Corrector<Ck, A>>, CorrectError>
    ensures { MatchResult result
        (λ near. AreNearTexts Ck.code Ck.bound text.now erasures.now errors
        (map (λ m. (m.listing, string_bytes m.text)) near.texts.items)
        × IsSearch Ck.code text.now near.corrector)
        (λ e. IsNearestRefusal Ck.code Ck.bound text.now erasures.now errors e) }
{
    let reading = Reading::<Ck>::new(text)?;
    reading.validate_lengths()?;
    Ok(nearest_to_reading::<Ck, A>(alloc, &reading, erasures, errors)?)
}
