//! What is listed for the residue of an error.

use bech32_checksum::Checksum;
use bech32_correction::{CorrectableError, Corrector, ErrorIterator};
use bech32_decode::CheckedHrpstring;
use bech32_gf::gf32::Fe32;
use std::alloc::Allocator;

/// Locations with the values to add there.
pub type Listing<'a> = &'a [(usize, Fe32)];

// Whether this error comes next.
fn is_next<A: Allocator + Copy>(errors: &mut ErrorIterator<A>, want: &(usize, Fe32)) -> bool {
    errors.next() == Some(*want)
}

// Whether just these errors are left.
fn gives<A: Allocator + Copy>(errors: &mut ErrorIterator<A>, want: Listing) -> bool {
    for error in want.iter() {
        if !is_next(errors, error) {
            return false;
        }
    }
    errors.next().is_none()
}

/// Whether just this was found, or nothing.
pub fn is_found<A: Allocator + Copy>(
    found: Option<ErrorIterator<A>>,
    want: Option<Listing>,
) -> bool {
    let Some(mut errors) = found else {
        return want.is_none();
    };
    match want {
        Some(want) => gives(&mut errors, want),
        None => false,
    }
}

/// The corrector of an error's residue; the window is the code length where none is given.
pub fn corrector_of<Ck: Checksum, A: Allocator + Copy>(
    alloc: A,
    error: &impl CorrectableError,
    window: Option<usize>,
) -> Option<Corrector<Ck, A>> {
    let window = window.unwrap_or(Ck::CODE_LENGTH);
    if !Ck::sanity_check() || window > Ck::CODE_LENGTH {
        return None;
    }
    error.correction_context_within::<Ck, A>(alloc, window)
}

/// The corrector of a text that the checksum refuses.
pub fn corrector_for<Ck: Checksum, A: Allocator + Copy>(
    alloc: A,
    text: &str,
    window: Option<usize>,
) -> Option<Corrector<Ck, A>> {
    match CheckedHrpstring::new::<Ck>(text) {
        Ok(_) => None,
        Err(error) => corrector_of::<Ck, A>(alloc, &error, window),
    }
}
