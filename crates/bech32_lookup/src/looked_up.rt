//! Patterns of at most three places that a checksum looks up, found without memory.

ghost use Rattle.std.specs.Prelude.{◌≡◌, ◌≢◌, ◌≤◌, ◌<◌, ◌∷◌, [], ℕ, List, Some, length, take, MatchOption, ⊤};
ghost use Rattle.bech32_bch.specs.Erasures.{AreErasures};
ghost use Rattle.bech32_bch.specs.Pattern.{HasRemainder};
ghost use Rattle.bech32_checksum.specs.Lookup.{IfLookedUp, MatchLookup};
ghost use Rattle.bech32_lookup.specs.Found.{IsErasedListing};
ghost use Rattle.bech32_lookup.specs.Question.{IsAnswerTo, listing_of_one};
ghost use Rattle.bech32_gf.specs.Fe32 as fe32;
ghost use Rattle.bech32_gf.specs.declared.gf32.Fe32.{Fe32 as Element};
ghost use Rattle.bech32_poly.specs.Polynomial.{IsSamePolynomial};

use crate::division::trimmed;
use crate::single::looked_up_error;
use bech32_checksum::{Checksum, Lookup};
use bech32_gf::gf32::Fe32;
use std::marker::Model;

/// At most three locations, and the element to add at each. It takes no memory.
#[derive(Drop)]
pub struct ShortListing {
    items: [(usize, Fe32); 3],
    count: usize,
}

impl Model for ShortListing {
    ghost Value = { List (ℕ × Element) };

    ghost view = { λ a. take a.count a.items };

    ghost invariant = { λ a. a.count ≤ 3 };
}

impl ShortListing {
    /// One location, and the element to add there.
    #[inline(always)]
    pub fn of_one(error: (usize, Fe32)) -> Self
        ensures { result ≡ error ∷ [] }
    {
        ShortListing {
            items: [error, (0, Fe32::Q), (0, Fe32::Q)],
            count: 1,
        }
    }

    /// The locations, and the element to add at each.
    #[inline]
    pub fn as_slice(&self) -> &[(usize, Fe32)]
        ensures value { result.now ≡ self.now }
        ensures few { length result.now ≤ 3 }
    {
        &self.items[..self.count]
    }
}

/// The error below the window that explains an error residue which is not zero, where there are no
/// erasures and the bound is that of one error. [`Lookup::NoTable`] if the checksum has no table.
#[inline(always)]
pub fn lookup_single_error<Ck: Checksum>(window: usize, residue: &[Fe32]) -> Lookup<(usize, Fe32)>
    requires lawful { Ck.lawful × (0 < length Ck.code.generator) }
    requires within { window ≤ Ck.CODE_LENGTH }
    requires bound { Ck.bound ≡ 3 }
    requires not_zero { ¬ IsSamePolynomial fe32.ops residue.now [] }
    ensures { IfLookedUp result (λ found. IsAnswerTo Ck.code Ck.bound
        (record { residue = residue.now; window = window; erasures = [] })
        (listing_of_one found)) }
{
    let error = match looked_up_error::<Ck>(residue) {
        Lookup::Found(error) => error,
        Lookup::Absent => return Lookup::Absent,
        Lookup::NoTable => return Lookup::NoTable,
    };
    if error.0 < window {
        Lookup::Found(error)
    } else {
        Lookup::Absent
    }
}

// The elements at two erasures that have the error residue as remainder.
#[inline(always)]
fn two_below<Ck: Checksum>(window: usize, residue: &[Fe32], given: &[usize]) -> Lookup<ShortListing>
    requires { length given.now ≡ 2 }
    ensures { IfLookedUp result (λ found. AreErasures window given.now
        × IsErasedListing Ck.code.generator residue.now given.now found) }
{
    let (one, two) = (given[0], given[1]);
    if one >= window || two >= window || one == two {
        return Lookup::NoTable;
    }
    match Ck::lookup_values(residue, given) {
        Lookup::Found(values) => Lookup::Found(ShortListing {
            items: [(one, values[0]), (two, values[1]), (0, Fe32::Q)],
            count: 2,
        }),
        Lookup::Absent => Lookup::Absent,
        Lookup::NoTable => Lookup::NoTable,
    }
}

// The elements at three erasures that have the error residue as remainder.
#[inline(always)]
fn three_below<Ck: Checksum>(
    window: usize,
    residue: &[Fe32],
    given: &[usize],
) -> Lookup<ShortListing>
    requires { length given.now ≡ 3 }
    ensures { IfLookedUp result (λ found. AreErasures window given.now
        × IsErasedListing Ck.code.generator residue.now given.now found) }
{
    let (one, two, three) = (given[0], given[1], given[2]);
    if one >= window || two >= window || three >= window {
        return Lookup::NoTable;
    }
    if one == two || one == three || two == three {
        return Lookup::NoTable;
    }
    match Ck::lookup_values(residue, given) {
        Lookup::Found(values) => Lookup::Found(ShortListing {
            items: [(one, values[0]), (two, values[1]), (three, values[2])],
            count: 3,
        }),
        Lookup::Absent => Lookup::Absent,
        Lookup::NoTable => Lookup::NoTable,
    }
}

// The element at an erasure that alone has the error residue as remainder, if it is looked up.
#[inline(always)]
fn alone_at<Ck: Checksum>(residue: &[Fe32], erasure: usize) -> Option<Fe32>
    ensures { MatchOption result ⊤ (λ v.
        HasRemainder fe32.ops Ck.code.generator residue.now ((erasure, v) ∷ [])) }
{
    let values = Ck::values_at(residue, &[erasure])?;
    Some(values[0])
}

// The element at an erasure and the error below the window that have the error residue as
// remainder. There is no table for an error at the erasure or of zero.
#[inline(always)]
fn error_beside<Ck: Checksum>(
    window: usize,
    residue: &[Fe32],
    erasure: usize,
) -> Lookup<(Fe32, (usize, Fe32))>
    ensures { MatchLookup result
        ((v : Element) (i : ℕ) (w : Element) → i < window
        → HasRemainder fe32.ops Ck.code.generator residue.now ((erasure, v) ∷ (i, w) ∷ []) → ⊥)
        (λ p. (p.1.0 < window) × ((p.1.0 ≢ erasure) × ((p.1.1 ≢ fe32.zero)
        × HasRemainder fe32.ops Ck.code.generator residue.now ((erasure, p.0) ∷ p.1 ∷ [])))) }
{
    let found = match Ck::lookup_error_beside(residue, erasure, window) {
        Lookup::Found(found) => found,
        Lookup::Absent => return Lookup::Absent,
        Lookup::NoTable => return Lookup::NoTable,
    };
    let (location, value) = found.1;
    if location == erasure || value == Fe32::Q {
        return Lookup::NoTable;
    }
    Lookup::Found(found)
}

/// The element at one erasure, and the error beside it, if any, that explain an error residue,
/// where the bound is three. [`Lookup::NoTable`] if the checksum has no table.
#[inline(always)]
pub fn lookup_error_beside_erasure<Ck: Checksum>(
    window: usize,
    residue: &[Fe32],
    erasure: usize,
) -> Lookup<ShortListing>
    requires lawful { Ck.lawful × (0 < length Ck.code.generator) }
    requires within { window ≤ Ck.CODE_LENGTH }
    requires bound { Ck.bound ≡ 3 }
    ensures { IfLookedUp result (λ found. AreErasures window (erasure ∷ [])
        × IsAnswerTo Ck.code Ck.bound
        (record { residue = residue.now; window = window; erasures = erasure ∷ [] }) found) }
{
    if erasure >= window {
        return Lookup::NoTable;
    }
    let Some(list) = trimmed(residue, Ck::CHECKSUM_LENGTH) else {
        return Lookup::NoTable;
    };
    match error_beside::<Ck>(window, list, erasure) {
        Lookup::Found((value, error)) => Lookup::Found(ShortListing {
            items: [(erasure, value), error, (0, Fe32::Q)],
            count: 2,
        }),
        Lookup::Absent => Lookup::Absent,
        Lookup::NoTable => match alone_at::<Ck>(list, erasure) {
            Some(value) => Lookup::Found(ShortListing::of_one((erasure, value))),
            None => Lookup::NoTable,
        },
    }
}

/// The elements at one to three erasures, and the error beside a single one, if any, that explain
/// an error residue, where the bound is three. [`Lookup::NoTable`] if the checksum has no table.
#[inline(always)]
pub fn lookup_erasures<Ck: Checksum>(
    window: usize,
    residue: &[Fe32],
    given: &[usize],
) -> Lookup<ShortListing>
    requires lawful { Ck.lawful × (0 < length Ck.code.generator) }
    requires within { window ≤ Ck.CODE_LENGTH }
    requires bound { Ck.bound ≡ 3 }
    ensures { IfLookedUp result (λ found. AreErasures window given.now
        × IsAnswerTo Ck.code Ck.bound
        (record { residue = residue.now; window = window; erasures = given.now }) found) }
{
    match given.len() {
        1 => lookup_error_beside_erasure::<Ck>(window, residue, given[0]),
        2 => two_below::<Ck>(window, residue, given),
        3 => three_below::<Ck>(window, residue, given),
        _ => Lookup::NoTable,
    }
}
