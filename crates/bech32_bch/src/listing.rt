//! The polynomial of a listed pattern, coefficient by coefficient.

ghost use Rattle.std.specs.Prelude.{◌≡◌, ◌≤◌, ◌⊎◌};
ghost use Rattle.std.specs.List.{AllByRecursion};
ghost use Rattle.bech32_bch.specs.Pattern.{locations};
ghost use Rattle.bech32_poly.specs.Distinct.{IsAmong};
ghost use Rattle.bech32_poly.specs.Pattern.{value_of_pattern_at};

use bech32_poly::arithmetic::Arithmetic;

/// The sum of the values that a listing has at a location.
pub fn value_at_location<F: Arithmetic>(listing: &[(usize, F)], location: usize) -> F
    ensures { result ≡ value_of_pattern_at F.ops listing.now location }
{
    let mut sum = F::zero();
    let mut k = listing.len();
    while k > 0 {
        k -= 1;
        let value = if listing[k].0 == location {
            listing[k].1
        } else {
            F::zero()
        };
        sum = value.plus(sum);
    }
    sum
}

// The larger number.
fn larger(a: usize, b: usize) -> usize
    ensures first { a ≤ result }
    ensures second { b ≤ result }
    ensures either { (result ≡ a) ⊎ (result ≡ b) }
{
    if a < b { b } else { a }
}

/// The highest location of a listing, or 0 where there is none.
pub fn highest_location<F: Arithmetic>(listing: &[(usize, F)]) -> usize
    ensures bound { AllByRecursion (λ p. p.0 ≤ result) listing.now }
    ensures attained { (result ≡ 0) ⊎ IsAmong result (locations listing.now) }
{
    let mut highest = 0;
    for k in 0..listing.len() {
        highest = larger(highest, listing[k].0);
    }
    highest
}
