//! Weights by which the values of a polynomial at some places give that at another.

ghost use Rattle.std.specs.Prelude.{◌≡◌, ◌≢◌, ◌≤◌, ◌<◌, ◌+◌, ◌-◌, length, take, map, List};
ghost use Rattle.std.specs.List.{AllByRecursion};
ghost use Rattle.bech32_poly.specs.Distinct.{IsOnce};
ghost use Rattle.bech32_poly.specs.RootSearch.{multiplied_each};
ghost use Rattle.codex32_steady.specs.shares.Points.{factor_of, AreWeights};

use bech32_poly::arithmetic::{Arithmetic, total};

// What the weight of `place` is multiplied by when `new` is one more of the places.
fn factor<F: Arithmetic>(x: F, new: F, place: F) -> F
    requires { place ≢ new }
    ensures { result ≡ factor_of F.ops x new place }
{
    x.plus(new.negated())
        .times(place.plus(new.negated()).inverse())
}

// Multiplies each of the first weights for one place more, which is `new`.
fn rescale<F: Arithmetic>(weights: &mut [F], indices: &[F], count: usize, new: F, x: F)
    requires within { count ≤ length indices.now }
    requires size { length weights.old ≡ length indices.now }
    requires apart { AllByRecursion (λ y. y ≢ new) (take count indices.now) }
    ensures { weights.new ≡ multiplied_each F.ops weights.old
        (map (factor_of F.ops x new) (take count indices.now)) }
{
    for i in 0..count {
        weights[i] = weights[i].times(factor(x, new, indices[i]));
    }
}

/// Writes the weights by which the values of a polynomial at `indices`, which all differ, give its
/// value at `x`, whatever polynomial it is of degree below their number.
///
/// They are made once for all columns of a set of shares.
pub fn weights<F: Arithmetic>(weights: &mut [F], indices: &[F], x: F)
    requires size { length weights.old ≡ length indices.now }
    requires once { IsOnce indices.now }
    ensures { AreWeights F.ops indices.now x weights.new }
{
    for i in 0..indices.len() {
        rescale(weights, indices, i, indices[i], x);
        weights[i] = F::one().plus(total(&weights[..i]).negated());
    }
}
