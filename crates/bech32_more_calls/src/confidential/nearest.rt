//! Lists the texts near to a mistyped one, by Blech32.

ghost use Rattle.std.specs.Prelude.{◌≡◌, ◌↔◌, ◌<◌, ◌≤◌, ◌*◌, ◌⊎◌, [], length, map, string_bytes, IfErr, IsTrue, MatchResult};
ghost use Rattle.std.specs.List.{AllByRecursion};
ghost use Rattle.bech32_bch.specs.Erasures.{with_erasures};
ghost use Rattle.bech32_correction.specs.Given.{AreWithin};
ghost use Rattle.bech32_decode.specs.Refusals.{HasLengths};
ghost use Rattle.bech32_near.specs.NearTexts.{AreNearTexts, IsOutOfMemory};
ghost use Rattle.caller_memory.specs.Memory.{IsKept};
ghost use Rattle.bech32_calls.specs.Correct.{IsResidueFault};
ghost use Rattle.bech32_calls.specs.Listing.{ReturnsMemory, IfAllPut, IfNotAllPut};
ghost use Rattle.bech32_calls.specs.Nearest.{IsRead};
ghost use Rattle.blech32.specs.Words.{blech32_code};
ghost use Rattle.bech32_more_calls.specs.confidential.Nearest.{IsLiquidAsked, IsLiquidNearFaultOrKept, PutsFirstLiquidNear, PutsLiquidNear, liquid_bound};

use bech32::Mended;
use bech32_bch::{ShortVec, contains};
use bech32_calls::listed::{Listed, give_memory_back, list_texts};
use bech32_calls::refusal::Refusal;
use bech32_correction::NoMemory;
use bech32_decode::Reading;
use bech32_near::nearest_to_reading;
use caller_memory::{Lent, Memory};
use liquid::Blech32;
use std::alloc::{AllocError, Allocator};

// The most errors that are looked for.
const MOST_ERRORS: usize = 3;

// The most that twice the errors, with the different given locations, may be.
const MOST_SOUGHT: usize = 7;

// The most given locations that are searched with.
const MOST_GIVEN: usize = 6;

// Whether the different ones of the locations are at most this many, seven or less.
fn are_few(given: &[usize], most: usize) -> bool
    requires { most ≤ 7 }
    ensures { IsTrue result ↔ (length (with_erasures [] given.now) ≤ most) }
{
    let mut distinct = ShortVec::new(NoMemory);
    for location in given {
        if contains(distinct.as_slice(), *location) {
            continue;
        }
        if distinct.len() == most {
            return false;
        }
        distinct.push(*location).unwrap();
    }
    true
}

// Whether all locations are below a limit.
fn are_below(given: &[usize], limit: usize) -> bool
    ensures { IsTrue result ↔ AllByRecursion (λ i. i < limit) given.now }
{
    for location in given {
        if *location >= limit {
            return false;
        }
    }
    true
}

/// Whether so many errors may be looked for where these locations are known to be wrong: at most
/// three, and twice the errors, with the different locations, are at most seven, or the locations
/// are more than six, beside which there is nothing to search.
pub fn is_asked(given: &[usize], errors: usize) -> bool
    ensures { IsTrue result ↔ IsLiquidAsked given.now errors }
{
    if errors > MOST_ERRORS {
        return false;
    }
    are_few(given, MOST_SOUGHT - 2 * errors) || !are_few(given, MOST_GIVEN)
}

// Whether all locations are in a data part of this many characters, and no more than are searched
// with.
fn is_searched(given: &[usize], window: usize) -> bool
    ensures { IsTrue result ↔ AreWithin window liquid_bound given.now }
{
    are_below(given, window) && are_few(given, MOST_GIVEN)
}

// Reads a text, and tests its lengths.
fn read_to_mend(bytes: &[u8]) -> Result<Reading<'_, Blech32>, Refusal>
    ensures { MatchResult result
        (λ r. (r.text.now ≡ bytes.now)
        × HasLengths blech32_code (length r.text.now) (length r.data_part.now))
        (λ e. IsResidueFault bytes.now blech32_code e) }
{
    let reading = Reading::<Blech32>::from_bytes(bytes)?;
    reading.validate_lengths()?;
    Ok(reading)
}

// The texts that are near to one that was read.
fn near_to<'a, A: Allocator>(
    alloc: &'a A,
    reading: &Reading<'_, Blech32>,
    given: &[usize],
    errors: usize,
) -> Result<Vec<Mended<&'a A>, &'a A>, AllocError>
    requires { HasLengths blech32_code
        (length reading.now.text.now) (length reading.now.data_part.now) }
    ensures { MatchResult result
        (λ near. AreNearTexts blech32_code liquid_bound reading.now.text.now given.now errors
        (map (λ m. (m.listing, string_bytes m.text)) near.items))
        (λ _. IsOutOfMemory blech32_code liquid_bound reading.now.text.now given.now errors) }
{
    let near = nearest_to_reading::<Blech32, &A>(alloc, reading, given, errors)?;
    Ok(near.texts)
}

// Puts the texts near to one that was read, where there is something to search, at the front of a
// buffer, or as many whole ones as fit.
fn put_near(
    memory: &mut Memory,
    reading: &Reading<'_, Blech32>,
    given: &[usize],
    errors: usize,
    texts: &mut [u8],
) -> Result<Listed, Refusal>
    requires lengths { HasLengths blech32_code
        (length reading.now.text.now) (length reading.now.data_part.now) }
    requires asked { IsLiquidAsked given.now errors }
    requires searched { AreWithin (length reading.now.data_part.now) liquid_bound given.now }
    ensures all { IfAllPut result (PutsLiquidNear blech32_code
        reading.now.text.now given.now errors texts.old texts.new) }
    ensures first { IfNotAllPut result (PutsFirstLiquidNear blech32_code
        reading.now.text.now given.now errors texts.old texts.new) }
    ensures room { IfNotAllPut result
        (λ count. length texts.old < count * length reading.now.text.now) }
    ensures refused { IfErr result (λ e. IsLiquidNearFaultOrKept blech32_code
        reading.now.text.now given.now errors memory.old memory.new e) }
    ensures same { IfErr result (λ e. (texts.new ≡ texts.old)
        ⊎ ((e ≡ Refusal.Memory) × IsKept memory.old memory.new)) }
    ensures memory { ReturnsMemory memory.old memory.new result }
{
    let lent = Lent::new(memory.take());
    let listed = list_texts(near_to(&lent.arena(), reading, given, errors), texts);
    give_memory_back(lent, memory, listed)
}

/// Puts all texts near to a mistyped one, by Blech32, at the front of a buffer, in lower case and
/// one behind another, each as long as that one, and tells how many they are. They differ from it
/// in at most `errors` characters, 0 to 3, of the data part outside `given`, the locations of at
/// most six characters that are known to be wrong; location 0 is the last character. Twice the
/// errors, with these, may be at most seven. With more than six there are no texts, nor with one
/// that is not in the data part. Where they do not fit, which is only where all together are longer
/// than the buffer, as many whole ones as do are put, the first. They are worked out in `memory`,
/// which comes back whole.
///
/// # Errors
///
/// The first of: more than three errors, or more than seven, where twice the errors and at most six
/// different given locations are added; a text that is not UTF-8; its first fault, but for a wrong
/// checksum, all before any memory is taken. [`Refusal::Memory`] where `memory` does not suffice:
/// then `memory` and the buffer are as they were, or `memory` had bytes and has none, and the
/// buffer may have changed. It is not returned where more than six different locations are given,
/// or one that is not in the data part.
///
/// With no more errors, nothing but [`Refusal::Memory`] where Blech32 accepts the text, or refuses
/// it for its residue alone.
pub fn put_nearest(
    memory: &mut Memory,
    bytes: &[u8],
    given: &[usize],
    errors: usize,
    texts: &mut [u8],
) -> Result<Listed, Refusal>
    ensures all { IfAllPut result (PutsLiquidNear blech32_code
        bytes.now given.now errors texts.old texts.new) }
    ensures first { IfNotAllPut result (PutsFirstLiquidNear blech32_code
        bytes.now given.now errors texts.old texts.new) }
    ensures room { IfNotAllPut result (λ count. length texts.old < count * length bytes.now) }
    ensures accepts { IsLiquidAsked given.now errors → IsRead bytes.now blech32_code
        → IfErr result (λ e. e ≡ Refusal.Memory) }
    ensures refused { IfErr result (λ e. IsLiquidNearFaultOrKept blech32_code
        bytes.now given.now errors memory.old memory.new e) }
    ensures same { IfErr result (λ e. (texts.new ≡ texts.old)
        ⊎ ((e ≡ Refusal.Memory) × IsKept memory.old memory.new)) }
    ensures memory { ReturnsMemory memory.old memory.new result }
{
    if !is_asked(given, errors) {
        return Err(Refusal::BadNumber);
    }
    let reading = read_to_mend(bytes)?;
    if !is_searched(given, reading.data_part.len()) {
        return Ok(Listed {
            count: 0,
            fit: true,
        });
    }
    put_near(memory, &reading, given, errors, texts)
}
