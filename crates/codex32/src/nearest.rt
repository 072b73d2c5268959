//! The nearest text to a damaged one.

ghost use Rattle.std.specs.Prelude.{◌≡◌, ◌≤◌, ◌+◌, ◌++◌, ◌∷◌, None, ℕ, length, true, IfOk, MatchOption, MatchResult, string_bytes, refl};
ghost use Rattle.codex32.specs.Lengths.{may_have};
ghost use Rattle.codex32.specs.declared.lengths.Lengths.{Lengths as Which};
ghost use Rattle.codex32.specs.laws.LengthLaws.{long_fits, short_fits};
ghost use Rattle.codex32.specs.Damaged.{read_text};
ghost use Rattle.codex32.specs.Nearest.{HasOneNearest, HasOneNearestLong, AreAdditions, AreFramedParts, IsMendedAt, IsNearestAnswer, IsNearestAnswerBy, IsNearestLongAnswer, IsProposeLongRefusal, IsProposeRefusal, IsProposeRefusalBy, IsUnlisted};
ghost use Rattle.codex32.specs.Strings.{frame_refusal, frame_refusal_by, long_frame_refusal};

use crate::damaged::damaged_parts;
use crate::lengths::Lengths;
use crate::mending::mended_in;
use crate::unreadable::{read_in, unreadable_in};
use crate::{Codex32, Codex32Error, LongCodex32};
use bech32::primitives::correction::{Corrector, Listing, MAX_DEGREE, Question};
use bech32::{CorrectingChecksum, Fe32};
use codex32_steady::texts::residue::{put_error_residue, residue_error_of};
use std::alloc::{AllocError, Allocator};
use std::marker::PhantomData;

// A checksum that strings end in. Its bound is 8, and so long strings have room for it.
trait StringChecksum: CorrectingChecksum {
    ghost lengths: { Which };

    // Which strings end in it.
    fn lengths() -> Lengths
        ensures { result ≡ lengths };

    ghost eight: { Self.bound ≡ 8 };

    ghost fits: { (n : ℕ) → may_have lengths n ≡ true
        → (n ≤ Self.code.code_length) × (length Self.code.generator + 3 ≤ n) };
}

impl StringChecksum for Codex32 {
    ghost use Rattle.codex32.specs.declared.lengths.Lengths.TheVariants.{Short};

    ghost lengths = { Short };

    fn lengths() -> Lengths {
        Lengths::Short
    }

    ghost eight = { refl };

    ghost fits = { short_fits };
}

impl StringChecksum for LongCodex32 {
    ghost use Rattle.codex32.specs.declared.lengths.Lengths.TheVariants.{Long};

    ghost lengths = { Long };

    fn lengths() -> Lengths {
        Lengths::Long
    }

    ghost eight = { refl };

    ghost fits = { long_fits };
}

// What is to be added to the elements of a text in its parts, where the characters at the given
// locations are unreadable. It holds the allocator by reference, and its last argument names a
// corrector, as that of its callers does, so that the prover knows the size of one.
//
// Of the characters nothing can be told but whether the checksum accepts them, and else the error
// residue, to the finder.
fn unreadable_listing_in<'a, Ck: StringChecksum, A: Allocator>(
    alloc: &'a A,
    part: &[u8],
    data_part: &[u8],
    given: &[usize],
    _sizes: PhantomData<Corrector<Ck, &'a A>>,
) -> Result<Option<Listing<&'a A>>, AllocError>
    requires { AreFramedParts (may_have Ck.lengths) part.now data_part.now }
    ensures { IfOk result (λ found. MatchOption found
        (IsUnlisted Ck.code (part.now ++ (49 ∷ data_part.now)) given.now)
        (λ listing. AreAdditions Ck.code (part.now ++ (49 ∷ data_part.now)) given.now listing)) }
{
    if given.len() > 8 {
        return Ok(None);
    }
    let Some(error) = residue_error_of::<Ck>(part, data_part) else {
        return Ok(Some(Listing::new(alloc)));
    };
    let mut residue = [Fe32::Q; MAX_DEGREE];
    put_error_residue(&mut residue, &error);
    let corrector = Corrector::<Ck, &'a A>::new(alloc, residue, data_part.len());
    corrector.listing(Question {
        erasures: given,
        highest: None,
    })
}

// The text in lower case that is mended by that listing, where there is one.
fn nearest_read_in<'a, Ck: StringChecksum, A: Allocator + Copy>(
    alloc: &'a A,
    part: &[u8],
    data_part: &[u8],
    given: &[usize],
    sizes: PhantomData<Corrector<Ck, &'a A>>,
) -> Result<Option<String<A>>, AllocError>
    requires { AreFramedParts (may_have Ck.lengths) part.now data_part.now }
    ensures { IfOk result (λ answer. MatchOption answer
        (IsUnlisted Ck.code (part.now ++ (49 ∷ data_part.now)) given.now)
        (λ s. IsMendedAt Ck.code part.now data_part.now given.now (string_bytes s))) }
{
    let Some(listing) = unreadable_listing_in::<Ck, A>(alloc, part, data_part, given, sizes)? else {
        return Ok(None);
    };
    let mended = mended_in(*alloc, data_part, listing.as_slice())?;
    Ok(Some(mended))
}

// The nearest text by a checksum, or why none is looked for.
fn proposed_in<'a, Ck: StringChecksum, A: Allocator + Copy>(
    alloc: &'a A,
    text: &str,
    sizes: PhantomData<Corrector<Ck, &'a A>>,
) -> Result<Option<String<A>>, Codex32Error>
    ensures { MatchResult result
        (λ answer. (frame_refusal_by (may_have Ck.lengths) (read_text text.now) ≡ None)
        × IsNearestAnswerBy Ck.code string_bytes text.now answer)
        (λ e. IsProposeRefusalBy (may_have Ck.lengths) text.now e) }
{
    let (part, damaged) = damaged_parts(Ck::lengths(), text)?;
    let read = read_in(*alloc, damaged.as_bytes())?;
    let places = unreadable_in(*alloc, damaged.as_bytes())?;
    let nearest = nearest_read_in::<Ck, A>(alloc, part.as_bytes(), &read, &places, sizes)?;
    Ok(nearest)
}

/// The nearest text to a damaged codex32 string, with memory from `alloc`. Each `?` behind the last
/// `1` is a character that cannot be read.
///
/// It is the text in lower case with the same human-readable part and length that [`Codex32`]
/// accepts, where twice the number of changed characters, with the number of the unreadable ones,
/// is at most 8: so at most four changes where each character can be read. There is at most one
/// such text. Returns `None` if there is none. Neither threshold nor share index is tested. The
/// text need not be the one that was meant.
///
/// # Errors
///
/// That of [`validate_damaged`], before anything is allocated; otherwise out of memory, in place of
/// any answer.
pub fn propose<A: Allocator + Copy>(alloc: A, text: &str) -> Result<Option<String<A>>, Codex32Error>
    ensures value { IfOk result (λ answer. IsNearestAnswer string_bytes text.now answer) }
    ensures only { HasOneNearest text.now }
    ensures refused { MatchResult result
        (λ _. frame_refusal (read_text text.now) ≡ None)
        (λ e. IsProposeRefusal text.now e) }
{
    proposed_in::<Codex32, A>(&alloc, text, PhantomData)
}

/// The nearest text to a damaged long string, of 125 to 127 characters, with memory from `alloc`:
/// as [`propose`] has it of a codex32 string, by the checksum [`LongCodex32`].
///
/// # Errors
///
/// That of [`validate_damaged_long`](crate::validate_damaged_long), before anything is allocated;
/// otherwise out of memory, in place of any answer.
pub fn propose_long<A: Allocator + Copy>(
    alloc: A,
    text: &str,
) -> Result<Option<String<A>>, Codex32Error>
    ensures value { IfOk result (λ answer. IsNearestLongAnswer string_bytes text.now answer) }
    ensures only { HasOneNearestLong text.now }
    ensures refused { MatchResult result
        (λ _. long_frame_refusal (read_text text.now) ≡ None)
        (λ e. IsProposeLongRefusal text.now e) }
{
    proposed_in::<LongCodex32, A>(&alloc, text, PhantomData)
}
