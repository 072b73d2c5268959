//! Derives codex32 strings from others of their set.

ghost use Rattle.std.specs.Prelude.{◌≡◌, ◌≤◌, ◌==◌, ℕ, length, take, true, false, IfErr, IfOk, IsOk, MatchResult, OnErr};
ghost use Rattle.std.specs.List.{sum};
ghost use Rattle.codex32.specs.Share.{AreSharesOf};
ghost use Rattle.codex32_calls.specs.Derive.{CanDerive, IsAsked, IsDeriveFault, IsDerivedOf, IsTextsFault, PutsDerived, are_lengths, texts_of};
ghost use Rattle.codex32.specs.Code.{max_long_length};

use crate::input::{Texts, share_index_of, share_of};
use crate::output::put_made;
use crate::refusal::Refusal;
use codex32::{DeriveError, MAX_LONG_LENGTH, Share, derive_into};

// The most strings of a set.
const MOST: usize = 32;

// Whether lengths add up to this.
fn do_add_up(lengths: &[usize], total: usize) -> bool
    ensures { result ≡ (sum lengths.now == total) }
{
    let mut left = total;
    for i in 0..lengths.len() {
        if lengths[i] > left {
            return false;
        }
        left -= lengths[i];
    }
    left == 0
}

// Puts the shares of texts.
fn put_shares<'t>(room: &mut [Share<'t>], texts: &'t [u8], lengths: &[usize]) -> Result<(), Refusal>
    requires room { length lengths.now ≤ length room.old }
    requires whole { sum lengths.now ≡ length texts.now }
    ensures outcome { MatchResult result
        (λ _. AreSharesOf (texts_of texts.now lengths.now) (take (length lengths.now) room.new))
        (λ e. IsTextsFault (texts_of texts.now lengths.now) e) }
    ensures size { length room.new ≡ length room.old }
{
    let mut rest = texts;
    for i in 0..lengths.len() {
        let (text, behind) = rest.split_at(lengths[i]);
        room[i] = share_of(text)?;
        rest = behind;
    }
    Ok(())
}

// Tests that lengths are those of at most 32 texts.
fn validate_lengths(texts: &[u8], lengths: &[usize]) -> Result<(), Refusal>
    ensures { MatchResult result
        (λ _. are_lengths texts.now lengths.now ≡ true)
        (λ e. (e ≡ Refusal.BadLengths) × (are_lengths texts.now lengths.now ≡ false)) }
{
    if lengths.len() > MOST || !do_add_up(lengths, texts.len()) {
        return Err(Refusal::BadLengths);
    }
    Ok(())
}

// Puts the string at an index that tested texts give, and returns its length.
fn put_string_of(
    room: &mut [u8],
    share_index: u32,
    texts: &[u8],
    lengths: &[usize],
) -> Result<usize, Refusal>
    requires room { max_long_length ≤ length room.old }
    requires lengths_are { are_lengths texts.now lengths.now ≡ true }
    ensures value { IfOk result (λ n. IsAsked share_index texts.now lengths.now
        × IsDerivedOf share_index (texts_of texts.now lengths.now) (take n room.new)
        × (n ≡ length (take n room.new)) × (n ≤ length room.new)) }
    ensures refused { IfErr result
        (λ e. (left : ℕ) → IsDeriveFault share_index texts.now lengths.now left e) }
    ensures size { length room.new ≡ length room.old }
{
    let index = share_index_of(share_index)?;
    let Some(first) = lengths.first() else {
        return Err(Refusal::Derive(DeriveError::TooFew));
    };
    let (text, behind) = texts.split_at(*first);
    let mut shares = [share_of(text)?; MOST];
    put_shares(&mut shares[1..], behind, &lengths[1..])?;
    Ok(derive_into(room, &shares[..lengths.len()], index)?)
}

// Puts the string at an index that texts give, and returns its length.
pub(crate) fn put_string(
    room: &mut [u8],
    share_index: u32,
    texts: Texts<'_>,
) -> Result<usize, Refusal>
    requires { max_long_length ≤ length room.old }
    ensures value { IfOk result (λ n.
        IsAsked share_index texts.entry.characters.now texts.entry.lengths.now
        × IsDerivedOf share_index (texts_of texts.entry.characters.now texts.entry.lengths.now)
        (take n room.new)
        × (n ≡ length (take n room.new)) × (n ≤ length room.new)) }
    ensures refused { IfErr result (λ e. (left : ℕ)
        → IsDeriveFault share_index texts.entry.characters.now texts.entry.lengths.now left e) }
    ensures size { length room.new ≡ length room.old }
{
    validate_lengths(texts.characters, texts.lengths)?;
    put_string_of(room, share_index, texts.characters, texts.lengths)
}

/// Puts the string at an index that texts give at the front of a buffer, and returns its length.
pub fn put_derived(share_index: u32, texts: Texts<'_>, text: &mut [u8]) -> Result<usize, Refusal>
    ensures value { IfOk result
        (PutsDerived share_index texts.entry.characters.now texts.entry.lengths.now
        text.old text.new) }
    ensures accepts { CanDerive share_index texts.entry.characters.now texts.entry.lengths.now
        (length text.old) → IsOk result }
    ensures refused { IfErr result
        (IsDeriveFault share_index texts.entry.characters.now texts.entry.lengths.now
        (length text.old)) }
    ensures same { OnErr result (text.new ≡ text.old) }
{
    let mut room = [0u8; MAX_LONG_LENGTH];
    let count = put_string(&mut room, share_index, texts)?;
    put_made(text, &room[..count])
}
