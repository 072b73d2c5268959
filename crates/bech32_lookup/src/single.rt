//! One error: the location and the value that leave an error residue.

ghost use Rattle.std.specs.Prelude.{◌≡◌, ◌≢◌, ◌≤◌, ◌<◌, ◌↔◌, [], ℕ, length, IfOk, IsOk, IsTrue, MatchOption, ⊤};
ghost use Rattle.bech32_gf.specs.Fe32 as fe32;
ghost use Rattle.bech32_gf.specs.declared.gf32.Fe32.{Fe32 as Element};
ghost use Rattle.bech32_checksum.specs.Code.{IsResidueOf};
ghost use Rattle.bech32_checksum.specs.OneError.{IsSingle};
ghost use Rattle.bech32_checksum.specs.Packed.{HasDigits, digit_of};
ghost use Rattle.bech32_lookup.specs.Found.{IsErrorBelow};
ghost use Rattle.bech32_lookup.specs.Multiple.{IsMultiple, screen};
ghost use Rattle.bech32_lookup.specs.Question.{IsAnswerTo};
ghost use Rattle.bech32_poly.specs.Polynomial.{coefficient};

use crate::division::{listed_coefficient, packed_coefficient, trimmed};
use bech32_bch::ShortVec;
use bech32_checksum::{Checksum, Engine, Lookup, PackedFe32};
use bech32_gf::gf32::Fe32;
use std::alloc::{AllocError, Allocator};

// The first place at which a list has a coefficient that is not zero; 0 where it has none.
fn pivot_of(list: &[Fe32]) -> usize
    ensures { coefficient fe32.ops list.now result ≡ fe32.zero
        → (n : ℕ) → coefficient fe32.ops list.now n ≡ fe32.zero }
{
    for place in 0..list.len() {
        if list[place] != Fe32::Q {
            return place;
        }
    }
    0
}

// Whether a list has the coefficients of a packed row times an element.
fn is_multiple<R: PackedFe32>(row: &R, list: &[Fe32], factor: Fe32) -> bool
    requires { HasDigits R.WIDTH (R.number row.now) }
    ensures { IsTrue result ↔ IsMultiple (R.number row.now) list.now factor }
{
    let size = R::WIDTH.max(list.len());
    for place in 0..size {
        if factor * packed_coefficient(row, place) != listed_coefficient(list, place) {
            return false;
        }
    }
    true
}

// The element by which a packed row has to be multiplied to be a list, which is not zero at the
// pivot; none where there is no such element. The first test rules out most rows: the screen is a
// row that is zero at place 0 wherever there is one. It is asked for at each location, so in line.
#[inline(always)]
fn factor_of<R: PackedFe32>(screen: &R, row: &R, list: &[Fe32], pivot: usize) -> Option<Fe32>
    requires screen { HasDigits R.WIDTH (R.number screen.now) }
    requires row { HasDigits R.WIDTH (R.number row.now) }
    requires pivot { coefficient fe32.ops list.now pivot ≢ fe32.zero }
    requires screens { (factor : Element) → IsMultiple (R.number row.now) list.now factor
        → digit_of (R.number screen.now) 0 ≡ fe32.zero }
    ensures { MatchOption result
        ((factor : Element) → IsMultiple (R.number row.now) list.now factor → ⊥)
        (λ factor. (factor ≢ fe32.zero) × IsMultiple (R.number row.now) list.now factor) }
{
    if packed_coefficient(screen, 0) != Fe32::Q {
        return None;
    }
    let here = packed_coefficient(row, pivot);
    if here == Fe32::Q {
        return None;
    }
    let factor = listed_coefficient(list, pivot) / here;
    if is_multiple(row, list, factor) {
        Some(factor)
    } else {
        None
    }
}

// An engine that was given the polynomial that screens an error residue.
fn screen_of<Ck: Checksum>(residue: &[Fe32]) -> Engine<Ck>
    requires { 0 < length Ck.code.generator }
    ensures { IsResidueOf Ck.MidstateRepr.number Ck.code result
        (screen Ck.code.generator residue.now) }
{
    let top = listed_coefficient(residue, Ck::CHECKSUM_LENGTH - 1);
    let mut engine = Engine::<Ck>::zero();
    engine.input_fe(listed_coefficient(residue, 0));
    engine.input_fe(packed_coefficient(&Ck::generator_times(top), 0));
    engine
}

// The first location below the window at which some value has the error residue as remainder, and
// the value. The error residue is not zero at the pivot. The engines go from power to power of x.
fn single_error<Ck: Checksum>(
    residue: &[Fe32],
    window: usize,
    pivot: usize,
) -> Option<(usize, Fe32)>
    requires degree { 0 < length Ck.code.generator }
    requires pivot { coefficient fe32.ops residue.now pivot ≢ fe32.zero }
    ensures { IsErrorBelow Ck.code.generator window residue.now result }
{
    let mut power = Engine::<Ck>::new();
    let mut screen = screen_of::<Ck>(residue);
    for location in 0..window {
        if let Some(value) = factor_of(screen.residue(), power.residue(), residue, pivot) {
            return Some((location, value));
        }
        power.input_fe(Fe32::Q);
        screen.input_fe(Fe32::Q);
    }
    None
}

// The only single error below the code length that leaves the error residue.
#[inline]
pub(crate) fn looked_up_error<Ck: Checksum>(residue: &[Fe32]) -> Lookup<(usize, Fe32)>
    ensures { IsSingle Ck.code.generator Ck.CODE_LENGTH residue.now result }
{
    match trimmed(residue, Ck::CHECKSUM_LENGTH) {
        Some(list) => Ck::one_error(list),
        None => Lookup::NoTable,
    }
}

// The location below the window at which some value has the error residue as remainder, and the
// value: by the checksum's table if it has one, otherwise by a search. The error residue is not
// zero at the pivot.
#[inline(always)]
fn error_below<Ck: Checksum>(residue: &[Fe32], window: usize, pivot: usize) -> Option<(usize, Fe32)>
    requires degree { 0 < length Ck.code.generator }
    requires within { window ≤ Ck.CODE_LENGTH }
    requires pivot { coefficient fe32.ops residue.now pivot ≢ fe32.zero }
    ensures { IsErrorBelow Ck.code.generator window residue.now result }
{
    let error = match looked_up_error::<Ck>(residue) {
        Lookup::Found(error) => error,
        Lookup::Absent => return None,
        Lookup::NoTable => return single_error::<Ck>(residue, window, pivot),
    };
    if error.0 < window { Some(error) } else { None }
}

/// The error below the window, if any, that explains the error residue, where there are no erasures
/// and the bound is that of one error.
///
/// # Errors
///
/// None: the listing has room in place.
#[inline(always)]
pub fn correct_single<Ck: Checksum, A: Allocator + Copy>(
    alloc: A,
    window: usize,
    residue: &[Fe32],
) -> Result<Option<ShortVec<(usize, Fe32), A>>, AllocError>
    requires lawful { Ck.lawful × (0 < length Ck.code.generator) }
    requires within { window ≤ Ck.CODE_LENGTH }
    requires one { 2 ≤ Ck.bound }
    requires most { Ck.bound ≤ 3 }
    ensures answer { IfOk result (λ answer. IsAnswerTo Ck.code Ck.bound
        (record { residue = residue.now; window = window; erasures = [] }) answer) }
    ensures in_place { IsOk result }
{
    let mut listing = ShortVec::new(alloc);
    let pivot = pivot_of(residue);
    if listed_coefficient(residue, pivot) == Fe32::Q {
        return Ok(Some(listing));
    }
    let Some(error) = error_below::<Ck>(residue, window, pivot) else {
        return Ok(None);
    };
    listing.push(error)?;
    Ok(Some(listing))
}
