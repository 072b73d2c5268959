//! Erasures, each of them once.

ghost use Rattle.std.specs.Prelude.{◌≡◌, ◌∷◌, [], take, length, IfOk, IsOk, OnErr, OnOk};
ghost use Rattle.bech32_bch.specs.Erasures.{with_erasures};
ghost use Rattle.bech32_bch.specs.Search.{locators};
ghost use Rattle.bech32_poly.specs.FieldVec.{FitsInPlace};

use bech32_bch::{ShortVec, contains, locators_of};
use bech32_poly::arithmetic::Arithmetic;
use bech32_poly::fieldvec::FieldVec;
use std::alloc::{AllocError, Allocator};

// Puts a location behind the erasures where it is not one of them.
fn add_erasure<A: Allocator + Copy>(
    erasures: &mut ShortVec<usize, A>,
    location: usize,
) -> Result<(), AllocError>
    ensures ok { OnOk result (erasures.new ≡ with_erasures erasures.old (location ∷ [])) }
    ensures err { OnErr result (erasures.new ≡ erasures.old) }
    ensures in_place { FitsInPlace (length (with_erasures erasures.old (location ∷ [])))
        → IsOk result }
{
    if contains(erasures.as_slice(), location) {
        return Ok(());
    }
    erasures.push(location)
}

/// Puts those that are not there behind the erasures, and gives the locators of all.
///
/// # Errors
///
/// If memory runs out; some of them may then be there. Seven erasures need none.
pub fn extended<K: Arithmetic, A: Allocator + Copy>(
    erasures: &mut ShortVec<usize, A>,
    base: K,
    more: &[usize],
) -> Result<FieldVec<K, A>, AllocError>
    ensures front { take (length erasures.old) erasures.new ≡ erasures.old }
    ensures ok { OnOk result (erasures.new ≡ with_erasures erasures.old more.now) }
    ensures locators { IfOk result (λ known. known ≡ locators K.ops base erasures.new) }
    ensures in_place { FitsInPlace (length (with_erasures erasures.old more.now)) → IsOk result }
{
    for location in more {
        add_erasure(erasures, *location)?;
    }
    locators_of(erasures.allocator(), base, erasures.as_slice())
}
