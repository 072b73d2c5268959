//! The addresses that someone may have meant who typed a text.

ghost use Rattle.std.specs.Prelude.{◌≡◌, ◌≤◌, ◌++◌, [], IfOk, OnOk, drop, length, map, string_bytes};
ghost use Rattle.bech32_hrp.specs.HrpBytes.{hrp_bytes};
ghost use Rattle.bech32_meant.specs.Added.{AddsAll, AddsIf, AddsTry, front_for};
ghost use Rattle.bech32_meant.specs.Meant.{AddsSlips, AreAnswers, AreFoundBySlips, AreMeant, itself, max_typed_bytes, tries_at};
ghost use Rattle.bech32_typed.specs.Cleaned.{cleaned};
ghost use Rattle.bech32_typed.specs.Fronts.{fronts};
ghost use Rattle.bech32_suggest.specs.Suggestions.{IsAddressUnder};
ghost use Rattle.bech32_typed.specs.Tries.{levels_of};
ghost use Rattle.bech32_typed.specs.declared.tries.Pass.TheVariants.{AsItLooks, Unread};

use crate::added::{Asked, Meant, push_address};
use crate::tried::push_level;
use bech32_hrp::Hrp;
use bech32_typed::{Front, Pass, after, clean, front_at, fronts_of, levels_tried};
use std::alloc::{AllocError, Allocator};

/// The most bytes of a typed text in which anything is looked for.
pub const MAX_TYPED_BYTES: usize = 1023;

// The human-readable part in lower case, with its separator.
fn front_of_part<A: Allocator>(alloc: A, hrp: &Hrp) -> Result<String<A>, AllocError>
    ensures { IfOk result (λ s. string_bytes s ≡ front_for (hrp_bytes hrp.now)) }
{
    let mut front = hrp.to_lowercase_in(alloc)?;
    front.push('1')?;
    Ok(front)
}

// Adds what is found with so many slips, where that level is tried.
fn push_tried<A: Allocator + Copy>(
    alloc: &A,
    pass: Pass,
    levels: usize,
    right: &[u8],
    text: &[u8],
    fronts: &[Front],
    asked: &Asked<'_>,
    found: &mut Vec<Meant<String<A>>, A>,
) -> Result<(), AllocError>
    requires levels { levels ≡ levels_of pass text.now fronts.now }
    requires few { asked.now.slips ≤ 2 }
    requires right { right.now ≡ front_for (hrp_bytes asked.now.hrp.now) }
    ensures { OnOk result (AddsAll (AddsTry (hrp_bytes asked.now.hrp.now) asked.now.slips)
        (map (λ s. (string_bytes s.text, s.slips)) found.old.items)
        (tries_at pass text.now fronts.now asked.now.slips)
        (map (λ s. (string_bytes s.text, s.slips)) found.new.items)) }
{
    if asked.slips >= levels {
        return Ok(());
    }
    push_level(alloc, pass, right, text, fronts, asked, found)?;
    Ok(())
}

// Adds what is found with so many slips: as the text looks, and then with characters unread.
fn push_slips<A: Allocator + Copy>(
    alloc: &A,
    levels: (usize, usize),
    right: &[u8],
    text: &[u8],
    fronts: &[Front],
    asked: &Asked<'_>,
    found: &mut Vec<Meant<String<A>>, A>,
) -> Result<(), AllocError>
    requires looks { levels.0 ≡ levels_of AsItLooks text.now fronts.now }
    requires unread { levels.1 ≡ levels_of Unread text.now fronts.now }
    requires few { asked.now.slips ≤ 2 }
    requires right { right.now ≡ front_for (hrp_bytes asked.now.hrp.now) }
    ensures { OnOk result (AddsSlips (hrp_bytes asked.now.hrp.now) text.now fronts.now
        (map (λ s. (string_bytes s.text, s.slips)) found.old.items) asked.now.slips
        (map (λ s. (string_bytes s.text, s.slips)) found.new.items)) }
{
    push_tried(
        alloc,
        Pass::AsItLooks,
        levels.0,
        right,
        text,
        fronts,
        asked,
        found,
    )?;
    push_tried(
        alloc,
        Pass::Unread,
        levels.1,
        right,
        text,
        fronts,
        asked,
        found,
    )?;
    Ok(())
}

// The right front and what comes after a typed one.
fn whole<A: Allocator>(
    alloc: A,
    right: &[u8],
    text: &[u8],
    size: usize,
) -> Result<Vec<u8, A>, AllocError>
    ensures { IfOk result (λ v. v.items ≡ right.now ++ drop size text.now) }
{
    let mut whole = Vec::new(alloc);
    whole.extend_from_slice(right)?;
    whole.extend_from_slice(after(text, size))?;
    Ok(whole)
}

// Adds the typed text itself, where it begins with the right front and is an address.
fn push_itself<A: Allocator + Copy>(
    alloc: A,
    hrp: &Hrp,
    right: &[u8],
    text: &[u8],
    fronts: &[Front],
    found: &mut Vec<Meant<String<A>>, A>,
) -> Result<(), AllocError>
    ensures { OnOk result (AddsAll (AddsIf (IsAddressUnder (hrp_bytes hrp.now)) 0)
        (map (λ s. (string_bytes s.text, s.slips)) found.old.items)
        (itself right.now text.now fronts.now)
        (map (λ s. (string_bytes s.text, s.slips)) found.new.items)) }
{
    if fronts.is_empty() {
        return Ok(());
    }
    let front = front_at(fronts, 0);
    if front.slips != 0 {
        return Ok(());
    }
    let one = whole(alloc, right, text, front.size)?;
    push_address(alloc, hrp, one.as_slice(), found)?;
    Ok(())
}

// What is found for a cleaned text.
fn push_found<A: Allocator + Copy>(
    alloc: &A,
    hrp: &Hrp,
    right: &[u8],
    text: &[u8],
    fronts: &[Front],
    found: &mut Vec<Meant<String<A>>, A>,
) -> Result<(), AllocError>
    requires empty { found.old.items ≡ [] }
    requires right { right.now ≡ front_for (hrp_bytes hrp.now) }
    ensures value { OnOk result (AreFoundBySlips (hrp_bytes hrp.now) text.now fronts.now
        (map (λ s. (string_bytes s.text, s.slips)) found.new.items)) }
    ensures answers { OnOk result (AreAnswers (hrp_bytes hrp.now) text.now fronts.now
        (map (λ s. (string_bytes s.text, s.slips)) found.new.items)) }
{
    push_itself(*alloc, hrp, right, text, fronts, found)?;
    let levels = levels_tried(*alloc, text, fronts)?;
    push_slips(
        alloc,
        levels,
        right,
        text,
        fronts,
        &Asked { hrp, slips: 0 },
        found,
    )?;
    push_slips(
        alloc,
        levels,
        right,
        text,
        fronts,
        &Asked { hrp, slips: 1 },
        found,
    )?;
    push_slips(
        alloc,
        levels,
        right,
        text,
        fronts,
        &Asked { hrp, slips: 2 },
        found,
    )?;
    Ok(())
}

/// The addresses of a network that someone may have meant who typed a text ("did you mean"), with
/// memory from `alloc`: each address of a form in use, version 0 with a program of 20 bytes or 32,
/// or version 1 with one of 32, that at most so many slips lead from to what was typed, those with
/// fewer slips first, each once and with their number; and the text itself, if it is an address of
/// any form. It refuses no text: where too much cannot be read, or the text has more than
/// [`MAX_TYPED_BYTES`] bytes, nothing is looked for.
///
/// A slip is a wrong character, two neighbours that changed places, a character too many or a
/// missing one; a block of characters that stands twice, or what comes after an address; three
/// neighbours that are missing, or four at the end, count as two. Fronts that are damaged so, or
/// lost, or after other text, are found too. Spaces, case, punctuation, invisible characters and
/// look-alikes of other scripts cost nothing, nor do the characters that the alphabet leaves out
/// because they look like others (BIP-173, section Bech32): `1` is read as `l`, `o` as `0`, `i` as
/// `l` or `j`, and `b` as `6` or `8`. Two slips are looked for, or as many as few enough texts
/// could have been meant with: of 100 texts that are no mistyped addresses, at most one is
/// expected to get an answer.
///
/// # Errors
///
/// If memory runs out.
pub fn meant<A: Allocator + Copy>(
    alloc: A,
    typed: &str,
    hrp: &Hrp,
) -> Result<Vec<Meant<String<A>>, A>, AllocError>
    ensures value { IfOk result (λ found. AreMeant typed.now (hrp_bytes hrp.now)
        (map (λ s. (string_bytes s.text, s.slips)) found.items)) }
    ensures answers { length typed.now ≤ max_typed_bytes → IfOk result
        (λ found. AreAnswers (hrp_bytes hrp.now) (cleaned typed.now)
        (fronts (front_for (hrp_bytes hrp.now)) (cleaned typed.now))
        (map (λ s. (string_bytes s.text, s.slips)) found.items)) }
{
    let mut found = Vec::new(alloc);
    if typed.len() > MAX_TYPED_BYTES {
        return Ok(found);
    }
    let text = clean(alloc, typed)?;
    let right = front_of_part(alloc, hrp)?;
    let fronts = fronts_of(alloc, right.as_bytes(), text.as_slice())?;
    push_found(
        &alloc,
        hrp,
        right.as_bytes(),
        text.as_slice(),
        fronts.as_slice(),
        &mut found,
    )?;
    Ok(found)
}
