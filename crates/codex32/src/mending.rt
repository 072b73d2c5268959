//! Adds a listing to the elements of a text, of whose characters nothing can be told.

ghost use Rattle.std.specs.Prelude.{◌≡◌, ◌≤◌, ◌<◌, length, true, IfOk, string_bytes};
ghost use Rattle.std.specs.List.{AllByRecursion};
ghost use Rattle.bech32_gf.specs.Alphabet.{is_data};
ghost use Rattle.bech32_gf.specs.Fe32.{elements_of, ops};
ghost use Rattle.bech32_checksum.specs.Encoded.{spelled};
ghost use Rattle.bech32_correction.specs.MendedElements.{mended};
ghost use Rattle.codex32.specs.ShareParts.{ms};

use bech32::Fe32;
use codex32_steady::put_elements;
use codex32_steady::texts::text::spelled_in;
use std::alloc::{AllocError, Allocator};

// The most elements of a string: those behind three characters of 127.
const MOST: usize = 124;

// Adds each listed value to the element at its location, of which 0 is the last.
fn add_listing(elements: &mut [Fe32], listing: &[(usize, Fe32)])
    requires { AllByRecursion (λ p. p.0 < length elements.old) listing.now }
    ensures { elements.new ≡ mended ops listing.now elements.old }
{
    for item in listing {
        let (location, value) = *item;
        let place = elements.len() - 1 - location;
        elements[place] = elements[place] + value;
    }
}

/// The text in lower case of the elements of a data part, with each listed value added to the
/// element at its location.
pub(crate) fn mended_in<A: Allocator>(
    alloc: A,
    data_part: &[u8],
    listing: &[(usize, Fe32)],
) -> Result<String<A>, AllocError>
    requires few { length data_part.now ≤ 124 }
    requires of_alphabet { is_data data_part.now ≡ true }
    requires placed { AllByRecursion (λ p. p.0 < length data_part.now) listing.now }
    ensures { IfOk result (λ s.
        string_bytes s ≡ spelled ms (mended ops listing.now (elements_of data_part.now))) }
{
    let mut room = [Fe32::Q; MOST];
    let elements = &mut room[..data_part.len()];
    put_elements(elements, data_part);
    add_listing(elements, listing);
    spelled_in(alloc, elements)
}
