//! Derives codex32 strings from others of their set.

ghost use Rattle.std.specs.Prelude.{◌≡◌, ◌≤◌, ◌<◌, ◌==◌, ◌↔◌, ◌⊎◌, ℕ, List, true, length, take, IfErr, IfOk, IsOk, IsTrue, MatchResult, OnErr};
ghost use Rattle.std.specs.List.{AllByRecursion, sum};
ghost use Rattle.bech32_encode.specs.Buffers.{IsPut};
ghost use Rattle.bech32_gf.specs.Fe32 as fe32;
ghost use Rattle.bech32_gf.specs.Fe32.{element_of, elements_of};
ghost use Rattle.bech32_numbers.specs.Refused.{IsNumberBy};
ghost use Rattle.codex32.specs.Derive.{IsDeriveIntoRefusal, IsDerivedString, IsOfSet, IsSetRefusal, IsWholeSet, count_of, indices_of, rows_of, size_of};
ghost use Rattle.codex32.specs.Header.{header_elements};
ghost use Rattle.codex32.specs.HeaderParts.{points_of};
ghost use Rattle.codex32.specs.Share.{AreSharesOf, IsShareOf};
ghost use Rattle.codex32_calls.specs.Derive.{CanDerive, IsAsked, IsDeriveFault, IsTextsFault, PutsDerived, are_lengths, texts_of};
ghost use Rattle.codex32_calls.specs.Faults.{IsNumberOfCodex32};
ghost use Rattle.codex32_calls.specs.Share.{IsEitherFault};
ghost use Rattle.codex32.specs.Numbers.{number_of_derive_error};
ghost use Rattle.codex32_steady.specs.shares.Shares.{IsGiven};
ghost use Rattle.codex32_small.specs.Parts.{HasHeader, share_of_part, shares_of};

use crate::part::Part;
use crate::share::data_part_of;
use bech32_gf::gf32::Fe32;
use codex32::numbers::{derive_error_number, header_error_number};
use codex32::{DeriveError, Header, Identifier, Threshold};
use codex32_calls::input::share_index_of;
use codex32_steady::shares::agreement::interpolate_if_consistent;
use codex32_steady::shares::distinct_indices::are_indices_distinct;
use codex32_steady::texts::text::put_spelled;

// The most strings of a set.
const MOST: usize = 32;

// The most elements of a string: those behind three characters of 127.
const LONGEST: usize = 124;

// The number of lengths that are not those of texts.
const BAD_LENGTHS: u32 = 4;

// The number of fewer strings than the threshold.
const TOO_FEW: u32 = 74;

// The number of a buffer that is too small.
const NO_ROOM: u32 = 92;

// The header of a data part, whose first characters were tested.
fn header_in(data_part: &[u8]) -> Header
    requires { HasHeader data_part.now }
    ensures { header_elements result ≡ elements_of (take 6 data_part.now) }
{
    let Some(threshold) = Threshold::new(data_part[0] - b'0') else {
        unreachable!()
    };
    let identifier = Identifier::new([
        Fe32::from_char_unchecked(data_part[1]),
        Fe32::from_char_unchecked(data_part[2]),
        Fe32::from_char_unchecked(data_part[3]),
        Fe32::from_char_unchecked(data_part[4]),
    ]);
    let share_index = Fe32::from_char_unchecked(data_part[5]);
    match Header::new(threshold, identifier, share_index) {
        Ok(header) => header,
        Err(_) => unreachable!(),
    }
}

// The part of a text.
#[inline(never)]
fn part_of(text: &[u8]) -> Result<Part<'_>, u32>
    ensures { MatchResult result
        (λ p. IsShareOf text.now (share_of_part p))
        (λ n. IsNumberOfCodex32 (IsEitherFault text.now) n) }
{
    let characters = data_part_of(text)?;
    Ok(Part {
        header: header_in(characters),
        characters,
    })
}

// Whether two parts are of one set.
fn is_of_set(first: &Part<'_>, other: &Part<'_>) -> bool
    ensures { IsTrue result ↔ IsOfSet (share_of_part first.now) (share_of_part other.now) }
{
    if first.header.threshold() != other.header.threshold() {
        return false;
    }
    if first.header.identifier() != other.header.identifier() {
        return false;
    }
    first.characters.len() == other.characters.len()
}

// Whether parts are all of the set of the first.
fn are_of_set(first: &Part<'_>, parts: &[Part<'_>]) -> bool
    ensures { IsTrue result
        ↔ AllByRecursion (λ p. IsOfSet (share_of_part first.now) (share_of_part p)) parts.now }
{
    for i in 0..parts.len() {
        if !is_of_set(first, &parts[i]) {
            return false;
        }
    }
    true
}

// How many strings give the others: the threshold, or one where that is 0.
fn count_by(threshold: Threshold) -> usize
    ensures value { result ≡ points_of threshold }
    ensures few { result ≤ 9 }
{
    usize::from(threshold.number()).max(1)
}

// Tests all but the elements of parts, and returns how many of them give the others.
fn validate_set(parts: &[Part<'_>], index: Fe32) -> Result<usize, DeriveError>
    ensures outcome { MatchResult result
        (λ n. IsWholeSet (shares_of parts.now) index × (n ≡ count_of (shares_of parts.now)))
        (λ e. IsSetRefusal (shares_of parts.now) index e) }
    ensures few { IfOk result (λ n. (n ≤ 9) × (n ≤ length parts.now)) }
{
    let Some(first) = parts.first() else {
        return Err(DeriveError::TooFew);
    };
    if !are_of_set(first, parts) {
        return Err(DeriveError::OtherSet);
    }
    if !are_indices_distinct(parts) {
        return Err(DeriveError::IndexTwice);
    }
    let threshold = first.header.threshold();
    if threshold.number() == 0 && index != Fe32::S {
        return Err(DeriveError::Unshared);
    }
    let count = count_by(threshold);
    if parts.len() < count {
        return Err(DeriveError::TooFew);
    }
    Ok(count)
}

// Puts the elements of the string at an index, and returns how many they are.
#[inline(never)]
fn put_elements(room: &mut [Fe32], parts: &[Part<'_>], index: Fe32) -> Result<usize, DeriveError>
    requires { 124 ≤ length room.old }
    ensures outcome { MatchResult result
        (λ n. (n ≡ size_of (shares_of parts.now)) × (n ≤ 124)
        × IsWholeSet (shares_of parts.now) index
        × IsGiven fe32.ops (count_of (shares_of parts.now)) (indices_of (shares_of parts.now))
        (rows_of (shares_of parts.now)) n index (take n room.new))
        (λ e. IsDeriveIntoRefusal (shares_of parts.now) index e) }
    ensures size { length room.new ≡ length room.old }
{
    let count = validate_set(parts, index)?;
    let size = parts[0].characters.len();
    if !interpolate_if_consistent(&mut room[..size], parts, count, index) {
        return Err(DeriveError::Contradiction);
    }
    Ok(size)
}

// Whether lengths add up to this.
fn do_add_up(lengths: &[usize], total: usize) -> bool
    ensures { result ≡ (sum lengths.now == total) }
{
    let mut left = total;
    for i in 0..lengths.len() {
        if lengths[i] > left {
            return false;
        }
        left -= lengths[i];
    }
    left == 0
}

// Whether these are the lengths of at most 32 texts.
fn are_theirs(texts: &[u8], lengths: &[usize]) -> bool
    ensures { result ≡ are_lengths texts.now lengths.now }
{
    lengths.len() <= MOST && do_add_up(lengths, texts.len())
}

// Puts the parts of texts.
#[inline(never)]
fn put_parts<'t>(room: &mut [Part<'t>], texts: &'t [u8], lengths: &[usize]) -> Result<(), u32>
    requires room { length lengths.now ≤ length room.old }
    requires whole { sum lengths.now ≡ length texts.now }
    ensures outcome { MatchResult result
        (λ _. AreSharesOf (texts_of texts.now lengths.now)
        (shares_of (take (length lengths.now) room.new)))
        (λ n. IsNumberOfCodex32 (IsTextsFault (texts_of texts.now lengths.now)) n) }
    ensures size { length room.new ≡ length room.old }
{
    let mut rest = texts;
    for i in 0..lengths.len() {
        let (text, behind) = rest.split_at(lengths[i]);
        room[i] = part_of(text)?;
        rest = behind;
    }
    Ok(())
}

// Puts the string at an index that parts give at the front of a buffer, and returns its length.
fn put_string(text: &mut [u8], parts: &[Part<'_>], index: Fe32) -> Result<usize, u32>
    ensures value { IfOk result (λ n. (made : List ℕ) × IsWholeSet (shares_of parts.now) index
        × IsDerivedString (shares_of parts.now) index made × IsPut made text.old text.new n) }
    ensures refused { IfErr result (λ n. IsNumberBy number_of_derive_error
        (λ e. IsDeriveIntoRefusal (shares_of parts.now) index e) n
        ⊎ ((n ≡ 92) × IsWholeSet (shares_of parts.now) index
        × (made : List ℕ) × IsDerivedString (shares_of parts.now) index made
        × (length text.old < length made))) }
    ensures same { OnErr result (text.new ≡ text.old) }
{
    let mut room = [Fe32::Q; LONGEST];
    let size = match put_elements(&mut room, parts, index) {
        Ok(size) => size,
        Err(e) => return Err(u32::from(derive_error_number(e))),
    };
    if 3 + size > text.len() {
        return Err(NO_ROOM);
    }
    put_spelled(&mut text[..3 + size], &room[..size]);
    Ok(3 + size)
}

// Puts the string at an index that tested texts give at the front of a buffer, and returns its
// length.
fn put_derived(index: Fe32, texts: &[u8], lengths: &[usize], text: &mut [u8]) -> Result<usize, u32>
    requires { are_lengths texts.now lengths.now ≡ true }
    ensures value { IfOk result (λ n. (x : ℕ) → IsAsked x texts.now lengths.now
        → index ≡ element_of x → PutsDerived x texts.now lengths.now text.old text.new n) }
    ensures refused { IfErr result (λ n. (x : ℕ) → IsAsked x texts.now lengths.now
        → index ≡ element_of x
        → IsNumberOfCodex32 (IsDeriveFault x texts.now lengths.now (length text.old)) n) }
    ensures same { OnErr result (text.new ≡ text.old) }
{
    let Some(first) = lengths.first() else {
        return Err(TOO_FEW);
    };
    let (front, behind) = texts.split_at(*first);
    let mut parts = [part_of(front)?; MOST];
    put_parts(&mut parts[1..], behind, &lengths[1..])?;
    put_string(text, &parts[..lengths.len()], index)
}

/// Puts the string at an index that texts give at the front of a buffer, and returns its length.
/// The texts stand one behind another, and have these lengths.
///
/// # Errors
///
/// The number of the first of: the lengths; the share index; a text, in their order; what their
/// strings are refused for; a buffer that is too small.
pub fn derived(
    share_index: u32,
    texts: &[u8],
    lengths: &[usize],
    text: &mut [u8],
) -> Result<usize, u32>
    ensures value { IfOk result
        (PutsDerived share_index texts.now lengths.now text.old text.new) }
    ensures accepts { CanDerive share_index texts.now lengths.now (length text.old)
        → IsOk result }
    ensures refused { IfErr result (IsNumberOfCodex32
        (IsDeriveFault share_index texts.now lengths.now (length text.old))) }
    ensures same { OnErr result (text.new ≡ text.old) }
{
    if !are_theirs(texts, lengths) {
        return Err(BAD_LENGTHS);
    }
    match share_index_of(share_index) {
        Ok(index) => put_derived(index, texts, lengths, text),
        Err(e) => Err(u32::from(header_error_number(e))),
    }
}
