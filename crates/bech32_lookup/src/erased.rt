//! Erasures that use up the bound: no error stands outside them, and the elements at them solve
//! linear equations, one for each place of the error residue.

ghost use Rattle.std.specs.Prelude.{◌≡◌, ◌≢◌, ◌≤◌, ◌<◌, ◌+◌, ◌*◌, ℕ, suc, length, slice_index, IfOk, IsOk, MatchOption, ⊤};
ghost use Rattle.bech32_gf.specs.Fe32 as fe32;
ghost use Rattle.bech32_gf.specs.declared.gf32.Fe32.{Fe32 as Element};
ghost use Rattle.bech32_checksum.specs.Code.{IsResidueOf};
ghost use Rattle.bech32_checksum.specs.Packed.{HasDigits, digit_of};
ghost use Rattle.bech32_bch.specs.Erasures.{AreErasures};
ghost use Rattle.bech32_lookup.specs.Equations.{AreCancelled, IsEliminated, entry, placed, weighted};
ghost use Rattle.bech32_lookup.specs.Found.{AreErasedValues, AreValuesAt};
ghost use Rattle.bech32_lookup.specs.Question.{IsAnswerTo};
ghost use Rattle.bech32_poly.specs.Division.{remainder_of};
ghost use Rattle.bech32_poly.specs.FieldVec.{FitsInPlace};
ghost use Rattle.bech32_poly.specs.Pattern.{monomial};
ghost use Rattle.bech32_poly.specs.Polynomial.{coefficient};

use crate::division::{ends_at, listed_coefficient, packed_coefficient, trimmed};
use bech32_bch::ShortVec;
use bech32_checksum::{Checksum, Engine, PackedFe32};
use bech32_gf::gf32::Fe32;
use bech32_refusals::MAX_DEGREE;
use std::alloc::{AllocError, Allocator};

// The error residue and as many erasures as there may be.
const MAX_ROWS: usize = 26;

// The coefficients of an equation's unknown, one for each place of the error residue.
#[derive(Clone, Copy)]
struct Row {
    items: [Fe32; MAX_DEGREE],
}

// An engine that was given x to the power of this many eights.
fn eights_of_x<Ck: Checksum>(eights: usize) -> Engine<Ck>
    ensures { IsResidueOf Ck.MidstateRepr.number Ck.code result
        (monomial fe32.ops (8 * eights) fe32.one) }
{
    let mut power = Engine::<Ck>::new();
    for eight in 0..eights {
        power.input_eight([Fe32::Q; 8]);
    }
    power
}

// An engine that was given the power of x at a location.
fn power_of_x<Ck: Checksum>(location: usize) -> Engine<Ck>
    ensures { IsResidueOf Ck.MidstateRepr.number Ck.code result
        (monomial fe32.ops location fe32.one) }
{
    let mut power = eights_of_x::<Ck>(location / 8);
    for more in 0..location % 8 {
        power.input_fe(Fe32::Q);
    }
    power
}

// The first elements of a packed row.
fn unpacked<R: PackedFe32>(row: &R, size: usize) -> Row
    requires digits { HasDigits R.WIDTH (R.number row.now) }
    requires size { size ≤ 25 }
    ensures { (place : ℕ) → place < size
        → coefficient fe32.ops result.items place ≡ digit_of (R.number row.now) place }
{
    let mut items = [Fe32::Q; MAX_DEGREE];
    for place in 0..size {
        items[place] = packed_coefficient(row, place);
    }
    Row { items }
}

// The remainder of the power of x at a location.
fn row_of<Ck: Checksum>(location: usize) -> Row
    ensures { (place : ℕ) → place < length Ck.code.generator
        → coefficient fe32.ops result.items place
        ≡ coefficient fe32.ops
        (remainder_of fe32.ops Ck.code.generator (monomial fe32.ops location fe32.one)) place }
{
    let power = power_of_x::<Ck>(location);
    unpacked(power.residue(), Ck::CHECKSUM_LENGTH)
}

// The first coefficients of a list.
fn first_of(list: &[Fe32], size: usize) -> Row
    requires { size ≤ 25 }
    ensures { (place : ℕ) → place < size
        → coefficient fe32.ops result.items place ≡ coefficient fe32.ops list.now place }
{
    let mut items = [Fe32::Q; MAX_DEGREE];
    for place in 0..size {
        items[place] = listed_coefficient(list, place);
    }
    Row { items }
}

// The error residue, and the remainders of the powers of x at the erasures.
fn rows_of<Ck: Checksum>(residue: &[Fe32], erasures: &[usize]) -> [Row; MAX_ROWS]
    requires { length erasures.now ≤ 25 }
    ensures first { (place : ℕ) → place < length Ck.code.generator
        → entry result 0 place ≡ coefficient fe32.ops residue.now place }
    ensures others { (i place : ℕ) → i < length erasures.now → place < length Ck.code.generator
        → entry result (suc i) place
        ≡ coefficient fe32.ops (remainder_of fe32.ops Ck.code.generator
        (monomial fe32.ops (slice_index erasures.now i) fe32.one)) place }
{
    let zero = Row {
        items: [Fe32::Q; MAX_DEGREE],
    };
    let mut rows = [zero; MAX_ROWS];
    rows[0] = first_of(residue, Ck::CHECKSUM_LENGTH);
    for i in 0..erasures.len() {
        rows[i + 1] = row_of::<Ck>(erasures[i]);
    }
    rows
}

// The first place below the size at which a list is not zero; the size where there is none.
fn pivot_below(list: &[Fe32], size: usize) -> usize
    ensures within { result ≤ size }
    ensures before { (n : ℕ) → n < result → coefficient fe32.ops list.now n ≡ fe32.zero }
    ensures found { result < size → coefficient fe32.ops list.now result ≢ fe32.zero }
{
    for place in 0..size {
        if listed_coefficient(list, place) != Fe32::Q {
            return place;
        }
    }
    size
}

// By what the second row has to be multiplied to be the first one at a place.
fn factor_at(list: &Row, row: &Row, place: usize) -> Fe32
    requires within { place < 25 }
    requires not_zero { coefficient fe32.ops row.now.items place ≢ fe32.zero }
    ensures { result ≡ fe32.mul (coefficient fe32.ops list.now.items place)
        (fe32.inv (coefficient fe32.ops row.now.items place)) }
{
    list.items[place] / row.items[place]
}

// A row and a multiple of another one added up. The other one is zero before the pivot, and the sum
// is zero at the pivot.
fn with_multiple(list: &Row, row: &Row, factor: Fe32, pivot: usize, size: usize) -> Row
    requires size { size ≤ 25 }
    requires pivot { pivot < size }
    requires before { (n : ℕ) → n < pivot → coefficient fe32.ops row.now.items n ≡ fe32.zero }
    requires cleared { fe32.add (coefficient fe32.ops list.now.items pivot)
        (fe32.mul factor (coefficient fe32.ops row.now.items pivot)) ≡ fe32.zero }
    ensures { (place : ℕ) → place < size → coefficient fe32.ops result.items place
        ≡ fe32.add (coefficient fe32.ops list.now.items place)
        (fe32.mul factor (coefficient fe32.ops row.now.items place)) }
{
    let mut items = list.items;
    items[pivot] = Fe32::Q;
    for place in pivot + 1..size {
        items[place] = list.items[place] + factor * row.items[place];
    }
    Row { items }
}

// Adds a multiple of the last row to each row before it, so that one place of these is zero, and
// gives the factors. An element is its own negative.
fn eliminate(rows: &mut [Row], last: usize, size: usize) -> [Fe32; MAX_DEGREE]
    requires room { last < length rows.old }
    requires last { last ≤ 25 }
    requires size { size ≤ 25 }
    ensures { IsEliminated fe32.ops (entry rows.old) (entry rows.new) last size
        (coefficient fe32.ops result) }
{
    let row = rows[last];
    let mut factors = [Fe32::Q; MAX_DEGREE];
    let pivot = pivot_below(&row.items, size);
    if pivot == size {
        return factors;
    }
    for i in 0..last {
        let factor = factor_at(&rows[i], &row, pivot);
        factors[i] = factor;
        rows[i] = with_multiple(&rows[i], &row, factor, pivot, size);
    }
    factors
}

// The sum of the first values, each times its factor. The first value is 1.
fn weighted_sum(values: &[Fe32; MAX_ROWS], factors: &[Fe32; MAX_DEGREE], count: usize) -> Fe32
    requires some { 0 < count }
    requires most { count ≤ 25 }
    requires one { coefficient fe32.ops values.now 0 ≡ fe32.one }
    ensures { result
        ≡ weighted fe32.ops (coefficient fe32.ops values.now)
        (coefficient fe32.ops factors.now) count }
{
    let mut sum = factors[0];
    for i in 1..count {
        sum = sum + values[i] * factors[i];
    }
    sum
}

// The value 1 of the first row, where that row is zero.
fn first_alone(row: &Row, size: usize) -> Option<[Fe32; MAX_ROWS]>
    ensures { MatchOption result
        (((place : ℕ) → place < size → coefficient fe32.ops row.now.items place ≡ fe32.zero) → ⊥)
        (λ values. (coefficient fe32.ops values 0 ≡ fe32.one)
        × ((place : ℕ) → place < size → coefficient fe32.ops row.now.items place ≡ fe32.zero)) }
{
    if pivot_below(&row.items, size) < size {
        return None;
    }
    let mut values = [Fe32::Q; MAX_ROWS];
    values[0] = Fe32::P;
    Some(values)
}

// Values by which the rows up to the last have to be multiplied for their sum to be zero, the first
// value being 1; none where there are none. The rows are changed.
fn values_of(rows: &mut [Row], last: usize, size: usize) -> Option<[Fe32; MAX_ROWS]>
    requires room { last < length rows.old }
    requires last { last ≤ 25 }
    requires size { size ≤ 25 }
    ensures { MatchOption result
        ((value : ℕ → Element) → value 0 ≡ fe32.one
        → AreCancelled fe32.ops (entry rows.old) (suc last) size value → ⊥)
        (λ values. (coefficient fe32.ops values 0 ≡ fe32.one)
        × AreCancelled fe32.ops (entry rows.old) (suc last) size (coefficient fe32.ops values)) }
{
    if last == 0 {
        return first_alone(&rows[0], size);
    }
    let factors = eliminate(rows, last, size);
    let Some(mut values) = values_of(rows, last - 1, size) else {
        return None;
    };
    values[last] = weighted_sum(&values, &factors, last);
    Some(values)
}

// Three values one place further than their own, and zeros at all other places.
#[inline]
fn behind_first(found: &[Fe32; 3]) -> [Fe32; MAX_ROWS]
    ensures { (i : ℕ) → coefficient fe32.ops result (suc i) ≡ coefficient fe32.ops found.now i }
{
    let mut values = [Fe32::Q; MAX_ROWS];
    for i in 0..found.len() {
        values[i + 1] = found[i];
    }
    values
}

// The values at up to three erasures, behind a first one, if the checksum's table has them.
#[inline]
fn looked_up_values<Ck: Checksum>(residue: &[Fe32], erasures: &[usize]) -> Option<[Fe32; MAX_ROWS]>
    ensures { MatchOption result ⊤
        (λ values. AreValuesAt Ck.code.generator residue.now erasures.now values) }
{
    let list = trimmed(residue, Ck::CHECKSUM_LENGTH)?;
    let found = Ck::values_at(list, erasures)?;
    Some(behind_first(&found))
}

// Values that the pattern of the erasures needs for the error residue to be its remainder, behind a
// first one; none where there are none. Out of line: where they are looked up, no row is to be
// cleared.
#[inline(never)]
fn eliminated_values<Ck: Checksum>(residue: &[Fe32], erasures: &[usize]) -> Option<[Fe32; MAX_ROWS]>
    requires { length erasures.now ≤ length Ck.code.generator }
    ensures { AreErasedValues Ck.code.generator residue.now erasures.now result }
{
    let size = Ck::CHECKSUM_LENGTH;
    if !ends_at(residue, size) {
        return None;
    }
    let mut rows = rows_of::<Ck>(residue, erasures);
    values_of(&mut rows, erasures.len(), size)
}

// The values by the checksum's table if it has them, otherwise by elimination.
#[inline]
fn erased_values<Ck: Checksum>(residue: &[Fe32], erasures: &[usize]) -> Option<[Fe32; MAX_ROWS]>
    requires { length erasures.now ≤ length Ck.code.generator }
    ensures { AreErasedValues Ck.code.generator residue.now erasures.now result }
{
    match looked_up_values::<Ck>(residue, erasures) {
        Some(values) => Some(values),
        None => eliminated_values::<Ck>(residue, erasures),
    }
}

// The locations, each with the value one place further than its own.
#[inline]
fn listing_of<A: Allocator + Copy>(
    alloc: A,
    locations: &[usize],
    values: &[Fe32; MAX_ROWS],
) -> Result<ShortVec<(usize, Fe32), A>, AllocError>
    requires { length locations.now ≤ 25 }
    ensures items { IfOk result (λ listing. listing ≡ placed locations.now
        (λ i. coefficient fe32.ops values.now (suc i)) (length locations.now)) }
    ensures in_place { FitsInPlace (length locations.now) → IsOk result }
{
    let mut listing = ShortVec::new(alloc);
    for i in 0..locations.len() {
        listing.push((locations[i], values[i + 1]))?;
    }
    Ok(listing)
}

/// The elements at the erasures, if any, that explain the error residue, where the bound allows no
/// error outside the erasures.
///
/// # Errors
///
/// Out of memory, where the generator has a degree above 6.
#[inline(always)]
pub fn correct_erased<Ck: Checksum, A: Allocator + Copy>(
    alloc: A,
    window: usize,
    residue: &[Fe32],
    erasures: &ShortVec<usize, A>,
) -> Result<Option<ShortVec<(usize, Fe32), A>>, AllocError>
    requires lawful { Ck.lawful × (0 < length Ck.code.generator) }
    requires within { window ≤ Ck.CODE_LENGTH }
    requires erased { AreErasures window erasures.now }
    requires few { length erasures.now ≤ Ck.bound }
    requires full { Ck.bound < length erasures.now + 2 }
    ensures answer { IfOk result (λ answer. IsAnswerTo Ck.code Ck.bound
        (record { residue = residue.now; window = window; erasures = erasures.now }) answer) }
    ensures in_place { length Ck.code.generator ≤ 6 → IsOk result }
{
    let Some(values) = erased_values::<Ck>(residue, erasures.as_slice()) else {
        return Ok(None);
    };
    let listing = listing_of(alloc, erasures.as_slice(), &values)?;
    Ok(Some(listing))
}
