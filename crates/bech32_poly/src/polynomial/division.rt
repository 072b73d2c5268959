ghost use Rattle.std.specs.Prelude.{◌≡◌, length, IfOk};
ghost use Rattle.bech32_poly.specs.Division.{push, step, top, zeros};
ghost use Rattle.bech32_poly.specs.Remainder.{IsRemainder};

use crate::arithmetic::Arithmetic;
use crate::fieldvec::add_multiple;
use std::alloc::{AllocError, Allocator};

/// The remainder of a polynomial by the monic one whose lower coefficients are `low`, both with
/// the constant one first. It has a coefficient for each place below the degree.
///
/// What the engines of packed checksums compute is this remainder.
///
/// # Errors
///
/// If memory runs out.
pub fn remainder<F: Arithmetic, A: Allocator>(
    alloc: A,
    polynomial: &[F],
    low: &[F],
) -> Result<Vec<F, A>, AllocError>
    ensures { IfOk result (λ r. IsRemainder F.ops low.now polynomial.now r.items) }
{
    let mut rest = Vec::new(alloc);
    rest.resize(low.len(), F::zero())?;
    divide(&mut rest, polynomial, low);
    Ok(rest)
}

// Long division, from the highest coefficient down, with the remainder in the place of zeros.
pub(crate) fn divide<F: Arithmetic>(rest: &mut [F], polynomial: &[F], low: &[F])
    requires { rest.old ≡ zeros F.ops (length low.now) }
    ensures { IsRemainder F.ops low.now polynomial.now rest.new }
{
    let mut i = polynomial.len();
    while i > 0 {
        i -= 1;
        take_in(rest, polynomial[i], low);
    }
}

// Takes in the next coefficient below a remainder; what this has at the degree then is taken off.
fn take_in<F: Arithmetic>(rest: &mut [F], next: F, low: &[F])
    requires { length low.now ≡ length rest.old }
    ensures { rest.new ≡ step F.ops low.now rest.old next }
{
    let highest = push_below(rest, next);
    add_multiple(rest, highest.negated(), low, 0);
}

// Puts an element in at the first place; each moves up by one, and the last one comes out.
fn push_below<F: Arithmetic>(rest: &mut [F], next: F) -> F
    ensures rest { rest.new ≡ push next rest.old }
    ensures out { result ≡ top next rest.old }
{
    let mut coming = next;
    for i in 0..rest.len() {
        let here = rest[i];
        rest[i] = coming;
        coming = here;
    }
    coming
}
