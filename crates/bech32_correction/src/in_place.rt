//! What a checksum says of a mistyped text, without memory: for checksums of at most six
//! characters.

ghost use Rattle.std.specs.Prelude.{◌≡◌, ◌≤◌, ◌<◌, ◌∷◌, [], length, Ok, IsOk, MatchOption, MatchResult, refl};
ghost use Rattle.std.proofs.Common.{arith};
ghost use Rattle.bech32_gf.specs.Fe32.{elements_of, ops};
ghost use Rattle.bech32_poly.specs.Remainder.{IsRemainder};
ghost use Rattle.bech32_checksum.specs.Code.{bech32, bech32m};
ghost use Rattle.bech32_checksum.specs.Lookup.{MatchLookup};
ghost use Rattle.bech32_checksum.specs.TextPolynomial.{text_polynomial};
ghost use Rattle.bech32_decode.specs.Refusals.{HasLengths};
ghost use Rattle.bech32_correction.specs.Given.{IsAnswerWith};
ghost use Rattle.bech32_correction.specs.Mistyped.{HasNoListing, IsListedInPlace, IsListingOf, IsRefusal};
ghost use Rattle.bech32_correction.specs.declared.correcting.Correction.TheVariants.{Mended, Unexplained};

use crate::correcting::{Correction, Listing};
use crate::given::listing_given;
use crate::no_memory::NoMemory;
use bech32_checksum::{Bech32, Bech32m, CorrectingChecksum, Lookup};
use bech32_decode::Reading;
use bech32_gf::gf32::Fe32;
use bech32_lookup::{ShortListing, lookup_erasures, lookup_single_error};
use bech32_refusals::CheckedHrpstringError;
use std::alloc::AllocError;
use std::marker::PhantomData;

// What is answered where memory was enough.
#[inline(always)]
fn answer_of(found: Result<Option<Listing<NoMemory>>, AllocError>) -> Option<Listing<NoMemory>>
    requires { IsOk found }
    ensures { found ≡ Ok result }
{
    match found {
        Ok(answer) => answer,
        Err(_) => unreachable!(),
    }
}

/// A checksum by which texts are corrected without memory: it has at most six characters.
pub trait CorrectsInPlace: CorrectingChecksum {
    /// The listing that explains an error residue below a window, where the given locations are
    /// erasures.
    fn listing_of_residue(
        residue: &[Fe32],
        window: usize,
        erasures: &[usize],
    ) -> Option<Listing<NoMemory>>
        requires { window ≤ Self.CODE_LENGTH }
        ensures { IsAnswerWith Self.code Self.bound
            (record { residue = residue.now; window = window; erasures = [] })
            erasures.now result };

    // Three of the roots serve to find errors, and there are characters.
    ghost three_law: { Self.bound ≡ 3 };

    ghost some_law: { 0 < length Self.code.generator };
}

impl CorrectsInPlace for Bech32 {
    #[inline(always)]
    fn listing_of_residue(
        residue: &[Fe32],
        window: usize,
        erasures: &[usize],
    ) -> Option<Listing<NoMemory>> {
        answer_of(listing_given::<Self, NoMemory>(NoMemory, window, residue, erasures, PhantomData))
    }

    ghost three_law = { refl };

    ghost some_law = { Prim.omega arith };
}

impl CorrectsInPlace for Bech32m {
    #[inline(always)]
    fn listing_of_residue(
        residue: &[Fe32],
        window: usize,
        erasures: &[usize],
    ) -> Option<Listing<NoMemory>> {
        answer_of(listing_given::<Self, NoMemory>(NoMemory, window, residue, erasures, PhantomData))
    }

    ghost three_law = { refl };

    ghost some_law = { Prim.omega arith };
}

// The error that mends a text that was read, and that the checksum refuses for its residue, where
// there are no erasures.
#[inline(always)]
fn error_of_read<Ck: CorrectsInPlace>(reading: &Reading<'_, Ck>) -> Lookup<(usize, Fe32)>
    requires lengths { HasLengths Ck.code
        (length reading.now.text.now) (length reading.now.data_part.now) }
    requires refused { IsRemainder ops Ck.code.generator
        (text_polynomial reading.now.hrp.now (elements_of reading.now.data_part.now))
        Ck.code.target → ⊥ }
    ensures { MatchLookup result
        (HasNoListing Ck.code Ck.bound reading.now.text.now [])
        (λ error. IsListingOf Ck.code Ck.bound reading.now.text.now [] (error ∷ [])) }
{
    let residue = reading.error_residue();
    lookup_single_error::<Ck>(reading.data_part.len(), &residue[..Ck::CHECKSUM_LENGTH])
}

// The listing at one to three erasures, and an error beside a single one, that mends a text that
// was read, and that the checksum refuses for its residue.
#[inline(always)]
fn erased_of_read<Ck: CorrectsInPlace>(
    reading: &Reading<'_, Ck>,
    erasures: &[usize],
) -> Lookup<ShortListing>
    requires lengths { HasLengths Ck.code
        (length reading.now.text.now) (length reading.now.data_part.now) }
    requires refused { IsRemainder ops Ck.code.generator
        (text_polynomial reading.now.hrp.now (elements_of reading.now.data_part.now))
        Ck.code.target → ⊥ }
    ensures { MatchLookup result
        (HasNoListing Ck.code Ck.bound reading.now.text.now erasures.now)
        (λ listing. IsListingOf Ck.code Ck.bound reading.now.text.now erasures.now listing) }
{
    let residue = reading.error_residue();
    lookup_erasures::<Ck>(
        reading.data_part.len(),
        &residue[..Ck::CHECKSUM_LENGTH],
        erasures,
    )
}

/// The listing that mends a text that was read, and that the checksum refuses for its residue,
/// where the given locations are erasures. [`Lookup::NoTable`] if the checksum has no table.
#[inline(always)]
pub fn lookup_listing<Ck: CorrectsInPlace>(
    reading: &Reading<'_, Ck>,
    erasures: &[usize],
) -> Lookup<ShortListing>
    requires lengths { HasLengths Ck.code
        (length reading.now.text.now) (length reading.now.data_part.now) }
    requires refused { IsRemainder ops Ck.code.generator
        (text_polynomial reading.now.hrp.now (elements_of reading.now.data_part.now))
        Ck.code.target → ⊥ }
    ensures { MatchLookup result
        (HasNoListing Ck.code Ck.bound reading.now.text.now erasures.now)
        (λ listing. IsListingOf Ck.code Ck.bound reading.now.text.now erasures.now listing) }
{
    if erasures.is_empty() {
        return match error_of_read(reading) {
            Lookup::Found(error) => Lookup::Found(ShortListing::of_one(error)),
            Lookup::Absent => Lookup::Absent,
            Lookup::NoTable => Lookup::NoTable,
        };
    }
    erased_of_read(reading, erasures)
}

// A listing that was looked up.
fn listed(found: &ShortListing) -> Listing<NoMemory>
    ensures { result ≡ found.now }
{
    match Listing::from_slice(NoMemory, found.as_slice()) {
        Ok(listing) => listing,
        Err(_) => unreachable!(),
    }
}

/// The listing that mends a text that was read, and that the checksum refuses for its residue,
/// where the given locations are erasures, by a search. It takes no memory.
#[inline(always)]
pub fn search_listing<Ck: CorrectsInPlace>(
    reading: &Reading<'_, Ck>,
    erasures: &[usize],
) -> Option<Listing<NoMemory>>
    requires lengths { HasLengths Ck.code
        (length reading.now.text.now) (length reading.now.data_part.now) }
    requires refused { IsRemainder ops Ck.code.generator
        (text_polynomial reading.now.hrp.now (elements_of reading.now.data_part.now))
        Ck.code.target → ⊥ }
    ensures { MatchOption result
        (HasNoListing Ck.code Ck.bound reading.now.text.now erasures.now)
        (λ listing. IsListingOf Ck.code Ck.bound reading.now.text.now erasures.now listing) }
{
    let residue = reading.error_residue();
    let window = reading.data_part.len();
    Ck::listing_of_residue(&residue[..Ck::CHECKSUM_LENGTH], window, erasures)
}

// The same listing: looked up if the checksum has a table, otherwise by a search.
#[inline(always)]
fn listing_of_read<Ck: CorrectsInPlace>(
    reading: &Reading<'_, Ck>,
    erasures: &[usize],
) -> Option<Listing<NoMemory>>
    requires lengths { HasLengths Ck.code
        (length reading.now.text.now) (length reading.now.data_part.now) }
    requires refused { IsRemainder ops Ck.code.generator
        (text_polynomial reading.now.hrp.now (elements_of reading.now.data_part.now))
        Ck.code.target → ⊥ }
    ensures { MatchOption result
        (HasNoListing Ck.code Ck.bound reading.now.text.now erasures.now)
        (λ listing. IsListingOf Ck.code Ck.bound reading.now.text.now erasures.now listing) }
{
    match lookup_listing(reading, erasures) {
        Lookup::Found(found) => Some(listed(&found)),
        Lookup::Absent => None,
        Lookup::NoTable => search_listing(reading, erasures),
    }
}

// What a listing that is looked for says of a text.
#[inline]
fn said_by(listing: Option<Listing<NoMemory>>) -> Correction<Listing<NoMemory>>
    ensures { MatchOption listing
        (result ≡ Unexplained tt)
        (λ l. result ≡ Mended l) }
{
    match listing {
        Some(listing) => Correction::Mended(listing),
        None => Correction::Unexplained(()),
    }
}

// What a checksum says of a text that was read, where the given locations are erasures; its refusal
// of the text, but for a wrong checksum.
fn said_of_read<Ck: CorrectsInPlace>(
    reading: &Reading<'_, Ck>,
    erasures: &[usize],
) -> Result<Correction<Listing<NoMemory>>, CheckedHrpstringError>
    ensures { MatchResult result
        (λ answer. IsListedInPlace Ck.code Ck.bound reading.now.text.now erasures.now answer)
        (λ e. IsRefusal Ck.code reading.now.text.now e) }
{
    reading.validate_lengths()?;
    if reading.has_target() {
        return Ok(Correction::Accepted);
    }
    Ok(said_by(listing_of_read(reading, erasures)))
}

/// What Bech32 says of a text, where the given locations are erasures. It takes no memory.
///
/// # Errors
///
/// As [`CheckedHrpstring::new`](bech32_decode::CheckedHrpstring::new), but for a wrong checksum.
pub fn bech32_listing(
    text: &str,
    erasures: &[usize],
) -> Result<Correction<Listing<NoMemory>>, CheckedHrpstringError>
    ensures { MatchResult result
        (λ answer. IsListedInPlace bech32 3 text.now erasures.now answer)
        (λ e. IsRefusal bech32 text.now e) }
{
    let reading = Reading::<Bech32>::new(text)?;
    said_of_read(&reading, erasures)
}

/// What Bech32m says of a text, where the given locations are erasures. It takes no memory.
///
/// # Errors
///
/// As [`bech32_listing`].
pub fn bech32m_listing(
    text: &str,
    erasures: &[usize],
) -> Result<Correction<Listing<NoMemory>>, CheckedHrpstringError>
    ensures { MatchResult result
        (λ answer. IsListedInPlace bech32m 3 text.now erasures.now answer)
        (λ e. IsRefusal bech32m text.now e) }
{
    let reading = Reading::<Bech32m>::new(text)?;
    said_of_read(&reading, erasures)
}
