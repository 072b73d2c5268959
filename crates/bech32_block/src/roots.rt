//! The roots of a generator, and the constants that they give.

ghost use Rattle.std.specs.Prelude.{◌≡◌, ◌≤◌, List, length, reverse, IfOk, IfErr};
ghost use Rattle.bech32_gf.specs.Fe32 as fe32;
ghost use Rattle.bech32_poly.specs.Embedding.{value_in};
ghost use Rattle.bech32_poly.specs.Remainder.{monic};
ghost use Rattle.bech32_checksum.specs.Roots.{HasLawfulRoots};
ghost use Rattle.bech32_block.specs.Refusals.{IsPrintRefusal};
ghost use Rattle.bech32_block.specs.Roots.{AreOfLongestSeries, HasAllRoots, root_field, roots_of};
ghost use Rattle.bech32_packing.specs.Words.{code_of_written};

use crate::error::PrintError;
use crate::series::{least_power, longest_series, period};
use bech32_gf::field::{ExtensionField, Field};
use bech32_gf::gf32::Fe32;
use std::alloc::{AllocError, Allocator};

/// Where the roots of a generator are: the exponents of a base from `start` to `end`, and the order
/// of the base.
#[derive(Clone, Copy)]
pub(crate) struct Roots<E> {
    pub(crate) base: E,
    pub(crate) start: usize,
    pub(crate) end: usize,
    pub(crate) code_length: usize,
}

// The value at `x` of the monic polynomial with these lower coefficients, which are given from the
// highest one down.
fn generator_at<E: ExtensionField<BaseField = Fe32>>(generator: &[Fe32], x: E) -> E
    ensures { result ≡ value_in E.ops E.embed (monic fe32.ops (reverse generator.now)) x }
{
    let mut value = E::ONE;
    for coefficient in generator {
        value = E::from(*coefficient) + x * value;
    }
    value
}

// The exponents of the roots as powers of the field's generator, in rising order.
fn root_exponents<E: ExtensionField<BaseField = Fe32>, A: Allocator>(
    alloc: A,
    generator: &[Fe32],
) -> Result<Vec<usize, A>, AllocError>
    ensures { IfOk result (λ roots. roots.items
        ≡ roots_of (root_field E.ops E.eq E.embed E.GENERATOR E.MULTIPLICATIVE_ORDER)
        generator.now) }
{
    let mut roots = Vec::new(alloc);
    let mut power = E::ONE;
    for exponent in 0..E::MULTIPLICATIVE_ORDER {
        if generator_at(generator, power) == E::ZERO {
            roots.push(exponent)?;
        }
        power = power * E::GENERATOR;
    }
    Ok(roots)
}

impl<E: ExtensionField<BaseField = Fe32>> Roots<E> {
    /// Those that the longest series of roots gives.
    ///
    /// # Errors
    ///
    /// Where roots are missing, where the first one of the series is not a power of its ratio, and
    /// if memory runs out.
    pub(crate) fn of_generator<A: Allocator>(
        alloc: A,
        generator: &[Fe32],
    ) -> Result<Self, PrintError>
        requires some { 2 ≤ length generator.now }
        requires few { length generator.now ≤ 25 }
        ensures split { IfOk result (λ _. HasAllRoots
            (root_field E.ops E.eq E.embed E.GENERATOR E.MULTIPLICATIVE_ORDER) generator.now) }
        ensures series { IfOk result (λ r.
            let f = root_field E.ops E.eq E.embed E.GENERATOR E.MULTIPLICATIVE_ORDER in
            AreOfLongestSeries f (roots_of f generator.now) r.base r.start r.end r.code_length) }
        ensures lawful { IfOk result (λ r. (target : List Fe32) → HasLawfulRoots E.ops E.embed
            (code_of_written generator.now target r.code_length) r.base r.start r.end) }
        ensures refused { IfErr result (IsPrintRefusal
            (root_field E.ops E.eq E.embed E.GENERATOR E.MULTIPLICATIVE_ORDER) generator.now) }
    {
        let order = E::MULTIPLICATIVE_ORDER;
        let roots = root_exponents::<E, A>(alloc, generator)?;
        if roots.len() != generator.len() {
            return Err(PrintError::NotSplit);
        }
        let series = longest_series(&roots, order);
        let start = match least_power(order, series.step, series.first) {
            Some(start) => start,
            None => return Err(PrintError::NotPowers),
        };
        Ok(Roots {
            base: E::GENERATOR.power(series.step),
            start,
            end: start + (series.length - 1),
            code_length: period(order, series.step),
        })
    }
}
