//! Series among the roots of a generator, by their exponents as powers of one element.

ghost use Rattle.std.specs.Prelude.{◌≢◌, ◌+◌, ◌*◌, ◌%◌, ◌^◌, ◌≤◌, ◌<◌, ℕ, length, MatchOption, IfSome};
ghost use Rattle.std.specs.List.{All, Contains};
ghost use Rattle.std.specs.List.Sorted.{IsStrictlyIncreasing};
ghost use Rattle.bech32_block.specs.Series.{IsSeries, IsLongestSeries, IsLeastPower, IsPeriod};

/// A series of roots: the exponents of the first and of the ratio, and how many roots it has.
#[derive(Clone, Copy)]
pub(crate) struct Series {
    pub(crate) first: usize,
    pub(crate) step: usize,
    pub(crate) length: usize,
}

// How many roots the longest series from `first` on has.
fn series_length(roots: &[usize], order: usize, first: usize, step: usize) -> usize
    requires order_fits { order < 2 ^ 63 }
    requires first_below { first < order }
    requires first_root { Contains roots.now first }
    requires step_positive { 0 < step }
    requires step_below { step < order }
    ensures series { IsSeries order roots.now first step result }
    ensures longest { (count : ℕ) → IsSeries order roots.now first step count → count ≤ result }
{
    let mut at = first;
    for length in 1..order {
        at = (at + step) % order;
        if at == first || !roots.contains(&at) {
            return length;
        }
    }
    order
}

/// The longest series; of these that with the least first root, and of these that with the least
/// second one.
pub(crate) fn longest_series(roots: &[usize], order: usize) -> Series
    requires order_fits { order < 2 ^ 63 }
    requires two { 2 ≤ length roots.now }
    requires rising { IsStrictlyIncreasing roots.now }
    requires below { All (λ i. i < order) roots.now }
    ensures { IsLongestSeries order roots.now result.first result.step result.length }
{
    let first_step = (roots[1] + order - roots[0]) % order;
    let mut best = Series {
        first: roots[0],
        step: first_step,
        length: series_length(roots, order, roots[0], first_step),
    };
    for i in 0..roots.len() {
        for j in 0..roots.len() {
            if i != j {
                let step = (roots[j] + order - roots[i]) % order;
                let length = series_length(roots, order, roots[i], step);
                if length > best.length {
                    best = Series {
                        first: roots[i],
                        step,
                        length,
                    };
                }
            }
        }
    }
    best
}

/// The least power, from 0 on, of the element with the exponent `step` that is the one with the
/// exponent `wanted`.
pub(crate) fn least_power(order: usize, step: usize, wanted: usize) -> Option<usize>
    requires order_fits { order < 2 ^ 63 }
    requires step_below { step < order }
    ensures least { MatchOption result ((k : ℕ) → (k * step) % order ≢ wanted)
        (λ k. IsLeastPower order step wanted k) }
    ensures below { IfSome result (λ k. k < order) }
{
    let mut at = 0;
    for k in 0..order {
        if at == wanted {
            return Some(k);
        }
        at = (at + step) % order;
    }
    None
}

/// How many powers the element with the exponent `step` has.
pub(crate) fn period(order: usize, step: usize) -> usize
    requires order_fits { order < 2 ^ 63 }
    requires step_below { step < order }
    ensures { IsPeriod order step result }
{
    let mut at = 0;
    for k in 1..order {
        at = (at + step) % order;
        if at == 0 {
            return k;
        }
    }
    order
}
