//! All edits of one kind that make a text that the checksum accepts.

ghost use Rattle.std.specs.Prelude.{◌≡◌, ◌<◌, ◌≤◌, ◌+◌, ◌^◌, ◌++◌, ◌↔◌, ℕ, List, length, option_to_list, true, IsSome, IsTrue, MatchResult};
ghost use Rattle.bech32_gf.specs.Alphabet.{is_data};
ghost use Rattle.bech32_gf.specs.Fe32.{elements_of};
ghost use Rattle.bech32_hrp.specs.HrpBytes.{hrp_bytes};
ghost use Rattle.bech32_near.specs.edits.Edits.{AreAllOf};
ghost use Rattle.bech32_near.specs.edits.Walks.{AddsOfKind, HasAcceptedEdit, HasLengthsFor, IsAcceptedAt, WherePutIn};
ghost use Rattle.bech32_near.specs.declared.edits.edit.Edit.{Edit as AnEdit};

use crate::edits::edit::Edit;
use crate::edits::places::{change_above, element_or_zero, left_out_at, put_in_at, swap_at};
use crate::edits::powers::Powers;
use crate::edits::residue::{engine_of, sum_of, word_of};
use bech32_checksum::Checksum;
use bech32_gf::gf32::Fe32;
use bech32_hrp::Hrp;
use std::alloc::{AllocError, Allocator};
use std::marker::PhantomData;

/// A text whose edits are looked for.
#[derive(Drop)]
pub(crate) struct Original<'a, Ck: Checksum> {
    hrp: Hrp,
    // What stands behind the separator.
    characters: &'a [u8],
    of: PhantomData<Ck>,
    ghost of_alphabet: { is_data characters.now ≡ true },
}

// Whether a text with a human-readable part and a data part of this many characters is not longer
// than the code, and has room for the checksum.
#[inline]
fn has_lengths<Ck: Checksum>(hrp: Hrp, data_length: usize) -> bool
    requires { data_length ≤ 2 ^ 63 }
    ensures { IsTrue result ↔ HasLengthsFor Ck.code (hrp_bytes hrp) data_length }
{
    hrp.len() + 1 + data_length <= Ck::CODE_LENGTH && Ck::CHECKSUM_LENGTH <= data_length
}

// Adds an edit, if there is one.
#[inline]
fn push_some<A: Allocator>(found: &mut Vec<Edit, A>, edit: Option<Edit>) -> Result<(), AllocError>
    ensures { MatchResult result
        (λ _. found.new.items ≡ found.old.items ++ option_to_list edit)
        (λ _. IsSome edit) }
{
    if let Some(edit) = edit {
        found.push(edit)?;
    }
    Ok(())
}

// Adds all that put a character in at one location.
#[inline]
fn push_put_in_at<Ck: Checksum, A: Allocator>(
    with_none: Ck::MidstateRepr,
    powers: &Powers<Ck>,
    characters: &[u8],
    location: usize,
    found: &mut Vec<Edit, A>,
) -> Result<(), AllocError>
    requires of_alphabet { is_data characters.now ≡ true }
    requires within { location ≤ length characters.now }
    ensures { (hrp : List ℕ) → WherePutIn Ck.MidstateRepr.number Ck.code hrp characters.now location
        with_none powers.now.one powers.now.two powers.now.four powers.now.eight powers.now.sixteen
        (MatchResult result
        (λ _. (edits : List AnEdit) × (found.new.items ≡ found.old.items ++ edits)
        × AreAllOf (IsAcceptedAt 2 Ck.code hrp (elements_of characters.now) location) edits)
        (λ _. HasAcceptedEdit Ck.code hrp (elements_of characters.now))) }
{
    for value in 0..32 {
        let element = Fe32::from_low_bits(value);
        push_some(
            found,
            put_in_at(with_none, powers, characters, location, element),
        )?;
    }
    Ok(())
}

impl<'a, Ck: Checksum> Original<'a, Ck> {
    /// The text of a human-readable part and of characters behind the separator.
    pub fn new(hrp: Hrp, characters: &'a [u8]) -> Self
        requires { is_data characters.now ≡ true }
        ensures hrp { result.hrp ≡ hrp }
        ensures characters { result.characters.now ≡ characters.now }
    {
        Original {
            hrp,
            characters,
            of: PhantomData,
        }
    }

    /// Adds all swaps.
    pub fn push_swapped<A: Allocator>(&self, found: &mut Vec<Edit, A>) -> Result<(), AllocError>
        ensures { AddsOfKind 0 Ck.code self.now.hrp self.now.characters.now
            found.old.items found.new.items result }
    {
        if !has_lengths::<Ck>(self.hrp, self.characters.len()) {
            return Ok(());
        }
        let whole = word_of(&engine_of::<Ck>(self.hrp, self.characters));
        let mut pairs = Powers::<Ck>::new(2);
        for location in 0..self.characters.len() {
            push_some(found, swap_at(whole, &pairs, self.characters, location))?;
            pairs.raise();
        }
        Ok(())
    }

    /// Adds all that leave a character out.
    pub fn push_left_out<A: Allocator>(&self, found: &mut Vec<Edit, A>) -> Result<(), AllocError>
        ensures { AddsOfKind 1 Ck.code self.now.hrp self.now.characters.now
            found.old.items found.new.items result }
    {
        if self.characters.is_empty() {
            return Ok(());
        }
        if !has_lengths::<Ck>(self.hrp, self.characters.len() - 1) {
            return Ok(());
        }
        let front = &self.characters[..self.characters.len() - 1];
        let mut rest = word_of(&engine_of::<Ck>(self.hrp, front));
        let mut powers = Powers::<Ck>::new(1);
        for location in 0..self.characters.len() {
            push_some(found, left_out_at::<Ck>(rest, self.characters, location))?;
            let change = change_above(self.characters, location);
            rest = sum_of::<Ck>(rest, powers.times(change));
            powers.raise();
        }
        Ok(())
    }

    /// Adds all that put a character in.
    pub fn push_put_in<A: Allocator>(&self, found: &mut Vec<Edit, A>) -> Result<(), AllocError>
        ensures { AddsOfKind 2 Ck.code self.now.hrp self.now.characters.now
            found.old.items found.new.items result }
    {
        if !has_lengths::<Ck>(self.hrp, self.characters.len() + 1) {
            return Ok(());
        }
        let mut engine = engine_of::<Ck>(self.hrp, self.characters);
        engine.input_fe(Fe32::Q);
        let mut with_none = word_of(&engine);
        let mut powers = Powers::<Ck>::new(1);
        let mut pairs = Powers::<Ck>::new(2);
        for location in 0..self.characters.len() + 1 {
            push_put_in_at(with_none, &powers, self.characters, location, found)?;
            let element = element_or_zero(self.characters, location);
            with_none = sum_of::<Ck>(with_none, pairs.times(element));
            powers.raise();
            pairs.raise();
        }
        Ok(())
    }
}
