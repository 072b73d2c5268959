//! The strings that shares of one set give.

ghost use Rattle.std.specs.Prelude.{◌≡◌, ◌≤◌, ◌<◌, ◌+◌, ◌↔◌, ◌⊎◌, ◌++◌, length, map, take, IfOk, IsTrue, MatchResult, OnErr, string_bytes};
ghost use Rattle.std.specs.List.{AllByRecursion};
ghost use Rattle.bech32_checksum.specs.Encoded.{char_of_element, spelled};
ghost use Rattle.bech32_encode.specs.Buffers.{IsPut};
ghost use Rattle.bech32_gf.specs.Fe32 as fe32;
ghost use Rattle.codex32_steady.specs.shares.Shares.{IsGiven};
ghost use Rattle.codex32.specs.Derive.{DoContradict, IsDeriveIntoRefusal, IsDeriveRefusal, IsDerivedOrRefused, IsDerivedString, IsOfSet, IsSetRefusal, IsStringOfSet, IsWholeSet, count_of, indices_of, rows_of, size_of};
ghost use Rattle.codex32.specs.HeaderParts.{points_of, secret_index};
ghost use Rattle.codex32.specs.ShareParts.{ms};
ghost use Rattle.codex32.specs.Code.{max_long_length};

use crate::error::DeriveError;
use crate::share::Share;
use crate::threshold::Threshold;
use bech32::Fe32;
use codex32_steady::shares::agreement::interpolate_if_consistent;
use codex32_steady::shares::distinct_indices::are_indices_distinct;
use codex32_steady::texts::text::{put_spelled, spelled_in};
use std::alloc::Allocator;

// The most elements of a string: those behind three characters of 127.
const MOST: usize = 124;

// Whether two shares are of one set.
fn is_of_set(first: &Share<'_>, other: &Share<'_>) -> bool
    ensures { IsTrue result ↔ IsOfSet first.now other.now }
{
    if first.threshold() != other.threshold() {
        return false;
    }
    if first.identifier() != other.identifier() {
        return false;
    }
    first.size() == other.size()
}

// Whether shares are all of the set of the first.
fn are_of_set(first: &Share<'_>, shares: &[Share<'_>]) -> bool
    ensures { IsTrue result ↔ AllByRecursion (IsOfSet first.now) shares.now }
{
    for i in 0..shares.len() {
        if !is_of_set(first, &shares[i]) {
            return false;
        }
    }
    true
}

// How many strings give the others: the threshold, or one where that is 0.
fn count_by(threshold: Threshold) -> usize
    ensures value { result ≡ points_of threshold }
    ensures few { result ≤ 9 }
{
    usize::from(threshold.number()).max(1)
}

// Tests all but the elements of shares, and returns how many of them give the others.
fn validate_set(shares: &[Share<'_>], index: Fe32) -> Result<usize, DeriveError>
    ensures outcome { MatchResult result
        (λ n. IsWholeSet shares.now index × (n ≡ count_of shares.now))
        (λ e. IsSetRefusal shares.now index e) }
    ensures few { IfOk result (λ n. (n ≤ 9) × (n ≤ length shares.now)) }
{
    let Some(first) = shares.first() else {
        return Err(DeriveError::TooFew);
    };
    if !are_of_set(first, shares) {
        return Err(DeriveError::OtherSet);
    }
    if !are_indices_distinct(shares) {
        return Err(DeriveError::IndexTwice);
    }
    if first.threshold().number() == 0 && index != Fe32::S {
        return Err(DeriveError::Unshared);
    }
    let count = count_by(first.threshold());
    if shares.len() < count {
        return Err(DeriveError::TooFew);
    }
    Ok(count)
}

// Puts the elements of the string at an index, and returns how many they are.
fn put_derived(room: &mut [Fe32], shares: &[Share<'_>], index: Fe32) -> Result<usize, DeriveError>
    requires { 124 ≤ length room.old }
    ensures outcome { MatchResult result
        (λ n. (n ≡ size_of shares.now) × (n ≤ 124) × IsWholeSet shares.now index
        × IsGiven fe32.ops (count_of shares.now) (indices_of shares.now) (rows_of shares.now) n
        index (take n room.new))
        (λ e. IsSetRefusal shares.now index e
        ⊎ ((e ≡ DeriveError.Contradiction) × IsWholeSet shares.now index
        × DoContradict shares.now)) }
    ensures size { length room.new ≡ length room.old }
{
    let count = validate_set(shares, index)?;
    let size = shares[0].size();
    if !interpolate_if_consistent(&mut room[..size], shares, count, index) {
        return Err(DeriveError::Contradiction);
    }
    Ok(size)
}

// The string at an index, or why there is none.
fn derived_in<A: Allocator>(
    alloc: A,
    shares: &[Share<'_>],
    index: Fe32,
) -> Result<String<A>, DeriveError>
    ensures { MatchResult result
        (λ s. IsWholeSet shares.now index × IsDerivedString shares.now index (string_bytes s))
        (λ e. IsDeriveRefusal shares.now index e) }
{
    let mut room = [Fe32::Q; MOST];
    let size = put_derived(&mut room, shares, index)?;
    Ok(spelled_in(alloc, &room[..size])?)
}

// Puts the string at an index at the front of a buffer, or says why there is none.
fn put_derived_text(
    buffer: &mut [u8],
    shares: &[Share<'_>],
    index: Fe32,
) -> Result<usize, DeriveError>
    requires { max_long_length ≤ length buffer.old }
    ensures outcome { MatchResult result
        (λ n. IsWholeSet shares.now index × IsDerivedString shares.now index (take n buffer.new))
        (λ e. IsDeriveIntoRefusal shares.now index e) }
    ensures put { IfOk result (λ n. IsPut (take n buffer.new) buffer.old buffer.new n) }
    ensures same { OnErr result (buffer.new ≡ buffer.old) }
{
    let mut room = [Fe32::Q; MOST];
    let size = put_derived(&mut room, shares, index)?;
    put_spelled(&mut buffer[..3 + size], &room[..size]);
    Ok(3 + size)
}

/// Puts the string that [`derive`] makes at the front of a buffer of at least 127 bytes, and
/// returns its length.
///
/// # Errors
///
/// Those of [`derive`] except out of memory; the buffer is then unchanged.
pub fn derive_into(
    buffer: &mut [u8],
    shares: &[Share<'_>],
    index: Fe32,
) -> Result<usize, DeriveError>
    requires { max_long_length ≤ length buffer.old }
    ensures value { IfOk result (λ n. IsDerivedString shares.now index (take n buffer.new)) }
    ensures string { IfOk result (λ n. IsStringOfSet shares.now index (take n buffer.new)) }
    ensures put { IfOk result (λ n. IsPut (take n buffer.new) buffer.old buffer.new n) }
    ensures refused { IsDerivedOrRefused IsDeriveIntoRefusal shares.now index result }
    ensures same { OnErr result (buffer.new ≡ buffer.old) }
{
    put_derived_text(buffer, shares, index)
}

/// The string at an index that shares of one set give, in lower case, with memory from `alloc`
/// (BIP-93, Recovering Secret). They have the same threshold, identifier and length, each another
/// index, and are as many as the threshold at least; where the threshold is 0, the one string is
/// the secret.
///
/// At each place of the string, one polynomial of degree below the threshold has the elements of
/// all shares at their indices, and the string's at its own. So more shares than the threshold are
/// all tested, and a wrong one is found where there is one to spare. The string has the threshold
/// and the identifier of the set, the index that is asked for, and a right checksum.
///
/// # Errors
///
/// The first of: a share is not of the set of the first (another threshold, identifier or length);
/// an index stands twice; the threshold is 0 and the index not `s`; there are fewer shares than the
/// threshold; they contradict each other; out of memory.
pub fn derive<A: Allocator>(
    alloc: A,
    shares: &[Share<'_>],
    index: Fe32,
) -> Result<String<A>, DeriveError>
    ensures value { IfOk result (λ s. IsDerivedString shares.now index (string_bytes s)) }
    ensures string { IfOk result (λ s. IsStringOfSet shares.now index (string_bytes s)) }
    ensures refused { IsDerivedOrRefused IsDeriveRefusal shares.now index result }
{
    derived_in(alloc, shares, index)
}

/// The secret of shares, with memory from `alloc`: what [`derive`] gives at the index `s`.
///
/// # Errors
///
/// Those of [`derive`], but for [`DeriveError::Unshared`].
pub fn recover<A: Allocator>(alloc: A, shares: &[Share<'_>]) -> Result<String<A>, DeriveError>
    ensures value { IfOk result (λ s. IsDerivedString shares.now secret_index (string_bytes s)) }
    ensures string { IfOk result (λ s. IsStringOfSet shares.now secret_index (string_bytes s)) }
    ensures refused { IsDerivedOrRefused IsDeriveRefusal shares.now secret_index result }
{
    derive(alloc, shares, Fe32::S)
}
