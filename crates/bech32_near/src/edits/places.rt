//! Whether an edit at one place makes a text that the checksum accepts.

ghost use Rattle.std.specs.Prelude.{◌≡◌, ◌≢◌, ◌↔◌, ◌<◌, ◌≤◌, ◌-◌, ◌+◌, ℕ, List, ◌∷◌, length, IsTrue, option_to_list, true};
ghost use Rattle.bech32_gf.specs.Alphabet.{is_data};
ghost use Rattle.bech32_gf.specs.Fe32 as fe32;
ghost use Rattle.bech32_gf.specs.Fe32.{elements_of};
ghost use Rattle.bech32_gf.specs.declared.gf32.Fe32.{Fe32 as Element};
ghost use Rattle.bech32_poly.specs.Polynomial.{appended};
ghost use Rattle.bech32_checksum.specs.TextPolynomial.{text_polynomial};
ghost use Rattle.bech32_near.specs.edits.Edits.{AreAllOf, StartsWith};
ghost use Rattle.bech32_near.specs.edits.Walks.{ArePowers, HasLengthsFor, LeavesTarget, IsAcceptedAt, IsAcceptedValue, IsWordOf, WherePutIn, below, element_in, without_one};

use crate::edits::edit::{Change, Edit};
use crate::edits::powers::Powers;
use crate::edits::residue::{is_target, sum_of};
use bech32_checksum::Checksum;
use bech32_gf::gf32::Fe32;

// The element at a location.
#[inline]
fn element_at(characters: &[u8], location: usize) -> Fe32
    requires of_alphabet { is_data characters.now ≡ true }
    requires within { location < length characters.now }
    ensures { result ≡ element_in location (elements_of characters.now) }
{
    Fe32::from_char_unchecked(characters[characters.len() - 1 - location])
}

// The element at a location, or zero above the last one.
#[inline]
pub(crate) fn element_or_zero(characters: &[u8], location: usize) -> Fe32
    requires of_alphabet { is_data characters.now ≡ true }
    requires within { location ≤ length characters.now }
    ensures { location < length characters.now
        → result ≡ element_in location (elements_of characters.now) }
{
    if location == characters.len() {
        return Fe32::Q;
    }
    element_at(characters, location)
}

// What changes at a location where the element above it is left out, in place of the one there.
#[inline]
pub(crate) fn change_above(characters: &[u8], location: usize) -> Fe32
    requires of_alphabet { is_data characters.now ≡ true }
    requires within { location < length characters.now }
    ensures { location + 1 < length characters.now
        → result ≡ fe32.add (element_in location (elements_of characters.now))
        (element_in (location + 1) (elements_of characters.now)) }
{
    let here = element_at(characters, location);
    if characters.len() - location < 2 {
        return here;
    }
    here + element_at(characters, location + 1)
}

// Whether what stands below a location does not begin with an element.
#[inline]
fn is_last(characters: &[u8], location: usize, element: Fe32) -> bool
    requires of_alphabet { is_data characters.now ≡ true }
    requires within { location ≤ length characters.now }
    ensures { IsTrue result ↔ ¬ StartsWith element (below location (elements_of characters.now)) }
{
    if location == 0 {
        return true;
    }
    if element_at(characters, location - 1) == element {
        return false;
    }
    true
}

// Whether two neighbours differ, and the checksum accepts what they make when they are swapped.
#[inline]
fn swap_is_right<Ck: Checksum>(
    whole: Ck::MidstateRepr,
    pairs: &Powers<Ck>,
    higher: Fe32,
    lower: Fe32,
) -> bool
    ensures { (p : List Element) (behind : List Element)
        → IsWordOf Ck.MidstateRepr.number Ck.code whole (appended (lower ∷ higher ∷ p) behind)
        → ArePowers Ck.MidstateRepr.number Ck.code (length behind) 2 pairs.now.one
        pairs.now.two pairs.now.four pairs.now.eight pairs.now.sixteen
        → (IsTrue result ↔ ((higher ≢ lower)
        × LeavesTarget Ck.code (appended (higher ∷ lower ∷ p) behind))) }
{
    if higher == lower {
        return false;
    }
    is_target::<Ck>(sum_of::<Ck>(whole, pairs.times(higher + lower)))
}

// The swap of the elements at a location and above it, if the checksum accepts what it makes.
pub(crate) fn swap_at<Ck: Checksum>(
    whole: Ck::MidstateRepr,
    pairs: &Powers<Ck>,
    characters: &[u8],
    location: usize,
) -> Option<Edit>
    requires of_alphabet { is_data characters.now ≡ true }
    requires within { location < length characters.now }
    ensures { (hrp : List ℕ) → HasLengthsFor Ck.code hrp (length characters.now)
        → IsWordOf Ck.MidstateRepr.number Ck.code whole
        (text_polynomial hrp (elements_of characters.now))
        → ArePowers Ck.MidstateRepr.number Ck.code location 2 pairs.now.one
        pairs.now.two pairs.now.four pairs.now.eight pairs.now.sixteen
        → AreAllOf (IsAcceptedAt 0 Ck.code hrp (elements_of characters.now) location)
        (option_to_list result) }
{
    if characters.len() - location < 2 {
        return None;
    }
    let higher = element_at(characters, location + 1);
    let lower = element_at(characters, location);
    if !swap_is_right(whole, pairs, higher, lower) {
        return None;
    }
    Some(Edit {
        location,
        change: Change::Swapped(higher, lower),
    })
}

// What leaves out the element at a location, if the checksum accepts what it makes.
pub(crate) fn left_out_at<Ck: Checksum>(
    rest: Ck::MidstateRepr,
    characters: &[u8],
    location: usize,
) -> Option<Edit>
    requires of_alphabet { is_data characters.now ≡ true }
    requires within { location < length characters.now }
    ensures { (hrp : List ℕ) → HasLengthsFor Ck.code hrp (length characters.now - 1)
        → IsWordOf Ck.MidstateRepr.number Ck.code rest
        (without_one hrp (elements_of characters.now) location)
        → AreAllOf (IsAcceptedAt 1 Ck.code hrp (elements_of characters.now) location)
        (option_to_list result) }
{
    let element = element_at(characters, location);
    if !is_last(characters, location, element) {
        return None;
    }
    if !is_target::<Ck>(rest) {
        return None;
    }
    Some(Edit {
        location,
        change: Change::LeftOut(element),
    })
}

// What puts in an element at a location, if the checksum accepts what it makes.
#[inline]
pub(crate) fn put_in_at<Ck: Checksum>(
    with_none: Ck::MidstateRepr,
    powers: &Powers<Ck>,
    characters: &[u8],
    location: usize,
    element: Fe32,
) -> Option<Edit>
    requires of_alphabet { is_data characters.now ≡ true }
    requires within { location ≤ length characters.now }
    ensures { (hrp : List ℕ) → WherePutIn Ck.MidstateRepr.number Ck.code hrp characters.now location
        with_none powers.now.one powers.now.two powers.now.four powers.now.eight powers.now.sixteen
        (AreAllOf (IsAcceptedValue Ck.code hrp (elements_of characters.now) location element.value)
        (option_to_list result)) }
{
    if !is_target::<Ck>(sum_of::<Ck>(with_none, powers.times(element))) {
        return None;
    }
    if !is_last(characters, location, element) {
        return None;
    }
    Some(Edit {
        location,
        change: Change::PutIn(element),
    })
}
