//! Finds the errors that leave a remainder, by trying locations and elements in turn.

ghost use Rattle.std.specs.Prelude.{◌≡◌, ◌≢◌, ◌≤◌, ◌<◌, ◌⊎◌, ◌∷◌, [], ℕ, List, Some, None, length, take, MatchOption};
ghost use Rattle.std.specs.List.{AllByRecursion};
ghost use Rattle.bech32_bch.specs.Erasures.{with_erasures};
ghost use Rattle.bech32_bch.specs.Pattern.{HasRemainder};
ghost use Rattle.bech32_checksum.specs.Code.{bech32m};
ghost use Rattle.bech32_checksum.specs.Packed.{HasDigits, digits};
ghost use Rattle.bech32_lookup.specs.Found.{IsErasedListing, IsErrorBelow};
ghost use Rattle.bech32_gf.specs.Fe32 as fe32;
ghost use Rattle.bech32_gf.specs.declared.gf32.Fe32.{Fe32 as Element};

use crate::rows::{divided_by_power, divided_by_x, power_of_x, times};
use bech32_bch::contains;
use bech32_gf::gf32::Fe32;
use std::marker::Model;

/// At most three items.
#[derive(Drop)]
pub(crate) struct Few<T: Copy> {
    items: [T; 3],
    count: usize,
}

impl<T: Copy> Model for Few<T> {
    ghost Value = { List T };

    ghost view = { λ a. take a.count a.items };

    ghost invariant = { λ a. a.count ≤ 3 };
}

impl<T: Copy> Few<T> {
    /// The items.
    pub(crate) fn as_slice(&self) -> &[T]
        ensures value { result.now ≡ self.now }
        ensures few { length result.now ≤ 3 }
    {
        &self.items[..self.count]
    }
}

/// The error to add at each of some locations.
pub(crate) type Found = Few<(usize, Fe32)>;

/// No errors.
pub(crate) fn no_errors() -> Found
    ensures { result ≡ [] }
{
    Few {
        items: [(0, Fe32::Q); 3],
        count: 0,
    }
}

/// The given locations, each once, in the order given; none where one is not below the window, or
/// where there are more than three.
#[inline(never)]
pub(crate) fn erasures_of(given: &[usize], window: usize) -> Option<Few<usize>>
    ensures { MatchOption result
        ((AllByRecursion (λ i. i < window) given.now → ⊥)
        ⊎ (3 < length (with_erasures [] given.now)))
        (λ s. AllByRecursion (λ i. i < window) given.now × (s ≡ with_erasures [] given.now)) }
{
    let mut items = [0; 3];
    let mut count = 0;
    for location in given {
        if *location >= window {
            return None;
        }
        if contains(&items[..count], *location) {
            continue;
        }
        if count == 3 {
            return None;
        }
        items[count] = *location;
        count += 1;
    }
    Some(Few { items, count })
}

// The error below the window, and not at one location, that alone leaves the remainder, if any.
#[inline(never)]
fn error_apart(row: u32, window: usize, apart: usize) -> Option<(usize, Fe32)>
    requires digits { HasDigits 6 row }
    requires some { 0 < row }
    ensures { MatchOption result
        ((i : ℕ) (v : Element) → i < window → i ≢ apart
        → HasRemainder fe32.ops bech32m.generator (digits 6 row) ((i, v) ∷ []) → ⊥)
        (λ error. (error.0 < window) × (error.0 ≢ apart) × (error.1 ≢ fe32.zero)
        × HasRemainder fe32.ops bech32m.generator (digits 6 row) (error ∷ [])) }
{
    let mut row = row;
    for location in 0..window {
        if row < 32 && location != apart {
            return Some((location, Fe32::from_low_bits(row as u8)));
        }
        row = divided_by_x(row);
    }
    None
}

/// The error below the window that leaves the remainder, if any.
pub(crate) fn error_below(row: u32, window: usize) -> Option<Found>
    requires digits { HasDigits 6 row }
    requires some { 0 < row }
    ensures { MatchOption result
        (IsErrorBelow bech32m.generator window (digits 6 row) None)
        (λ listing. (error : ℕ × Element) × (listing ≡ error ∷ [])
        × IsErrorBelow bech32m.generator window (digits 6 row) (Some error)) }
{
    let error = error_apart(row, window, window)?;
    Some(Few {
        items: [error, (0, Fe32::Q), (0, Fe32::Q)],
        count: 1,
    })
}

/// The element at an erasure, and an error below the window beside it unless that element does
/// alone, that leave the remainder, if any.
#[inline(never)]
pub(crate) fn error_beside(row: u32, window: usize, erasure: usize) -> Option<Found>
    requires digits { HasDigits 6 row }
    requires within { erasure < window }
    ensures { MatchOption result
        ((v : Element) (i : ℕ) (w : Element) → i < window
        → HasRemainder fe32.ops bech32m.generator (digits 6 row)
        ((erasure, v) ∷ (i, w) ∷ []) → ⊥)
        (λ listing. HasRemainder fe32.ops bech32m.generator (digits 6 row) listing
        × ((v : Element) × ((listing ≡ (erasure, v) ∷ [])
        ⊎ ((error : ℕ × Element) × (listing ≡ (erasure, v) ∷ error ∷ [])
        × (error.0 < window) × (error.0 ≢ erasure) × (error.1 ≢ fe32.zero))))) }
{
    let power = power_of_x(erasure);
    for v in 0..32 {
        let value = Fe32::from_low_bits(v);
        let left = row ^ times(value, power);
        if left == 0 {
            return Some(Few {
                items: [(erasure, value), (0, Fe32::Q), (0, Fe32::Q)],
                count: 1,
            });
        }
        if let Some(error) = error_apart(left, window, erasure) {
            return Some(Few {
                items: [(erasure, value), error, (0, Fe32::Q)],
                count: 2,
            });
        }
    }
    None
}

/// The elements at two erasures that leave the remainder, if any.
#[inline(never)]
pub(crate) fn values_at_two(row: u32, one: usize, two: usize) -> Option<Found>
    requires { HasDigits 6 row }
    ensures { IsErasedListing bech32m.generator (digits 6 row) (one ∷ two ∷ []) result }
{
    let power = divided_by_power(power_of_x(one), two);
    let row = divided_by_power(row, two);
    for v in 0..32 {
        let value = Fe32::from_low_bits(v);
        let left = row ^ times(value, power);
        if left < 32 {
            return Some(Few {
                items: [
                    (one, value),
                    (two, Fe32::from_low_bits(left as u8)),
                    (0, Fe32::Q),
                ],
                count: 2,
            });
        }
    }
    None
}

/// The elements at three erasures that leave the remainder, if any.
#[inline(never)]
pub(crate) fn values_at_three(row: u32, one: usize, two: usize, three: usize) -> Option<Found>
    requires { HasDigits 6 row }
    ensures { IsErasedListing bech32m.generator (digits 6 row) (one ∷ two ∷ three ∷ []) result }
{
    let power = power_of_x(one);
    for v in 0..32 {
        let value = Fe32::from_low_bits(v);
        if let Some(found) = values_at_two(row ^ times(value, power), two, three) {
            return Some(Few {
                items: [(one, value), found.items[0], found.items[1]],
                count: 3,
            });
        }
    }
    None
}
