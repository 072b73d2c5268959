//! Syndromes: the values of an error residue at the roots of the generator.

ghost use Rattle.std.specs.Prelude.{◌≡◌, length, IfOk, IsOk};
ghost use Rattle.bech32_bch.specs.Search.{AreSyndromes};
ghost use Rattle.bech32_poly.specs.FieldVec.{FitsInPlace};

use bech32_poly::arithmetic::{Arithmetic, Extension, evaluate_in_extension};
use bech32_poly::fieldvec::FieldVec;
use std::alloc::{AllocError, Allocator};

/// The values of the error residue at `count` powers of the base, from the exponent `start` on.
pub(crate) fn syndromes<E: Extension, A: Allocator + Copy>(
    alloc: A,
    residue: &[E::Base],
    base: E,
    start: usize,
    count: usize,
) -> Result<FieldVec<E, A>, AllocError>
    ensures syndromes { IfOk result
        (λ s. AreSyndromes E.ops E.embed base start count residue.now s) }
    ensures size { IfOk result (λ s. length s ≡ count) }
    ensures in_place { FitsInPlace count → IsOk result }
{
    let mut list = FieldVec::new(alloc);
    let mut x = base.power(start);
    for _ in 0..count {
        list.push(evaluate_in_extension(residue, x))?;
        x = base.times(x);
    }
    Ok(list)
}
