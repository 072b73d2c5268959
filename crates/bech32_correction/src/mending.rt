//! Adds a listing to a text.

ghost use Rattle.std.specs.Prelude.{◌≡◌, ◌<◌, ◌++◌, ℕ, [], ◌∷◌, List, length, map, IfOk, string_bytes};
ghost use Rattle.std.specs.List.{AllByRecursion};
ghost use Rattle.bech32_gf.specs.Fe32.{elements_of, ops};
ghost use Rattle.bech32_gf.specs.declared.gf32.Fe32.{Fe32 as Element};
ghost use Rattle.bech32_checksum.specs.Encoded.{char_of_element, spelled};
ghost use Rattle.bech32_decode.specs.Text.{IsText};
ghost use Rattle.bech32_correction.specs.MendedElements.{EndsIn, mended};
ghost use Rattle.bech32_correction.specs.Mistyped.{IsPlacedIn};

use bech32_gf::gf32::Fe32;
use std::alloc::{AllocError, Allocator};

// Adds a value to the element at a location.
fn mend_at(text: &mut [u8], location: usize, value: Fe32)
    requires { (front : List ℕ) × ((elements : List Element) × EndsIn text.old front elements
        × (location < length elements)) }
    ensures { (front : List ℕ) (elements : List Element) → EndsIn text.old front elements
        → location < length elements
        → EndsIn text.new front (mended ops ((location, value) ∷ []) elements) }
{
    let place = text.len() - 1 - location;
    let element = Fe32::from_char_unchecked(text[place]);
    text[place] = (element + value).to_char() as u8;
}

/// Adds each listed value to the element at its location, in a text in lower case. Location 0 is
/// the last character; all locations are those of the text's data part.
pub fn mend(text: &mut [u8], listing: &[(usize, Fe32)])
    requires { (front : List ℕ) × ((elements : List Element) × EndsIn text.old front elements
        × AllByRecursion (λ p. p.0 < length elements) listing.now) }
    ensures { (front : List ℕ) (elements : List Element) → EndsIn text.old front elements
        → AllByRecursion (λ p. p.0 < length elements) listing.now
        → EndsIn text.new front (mended ops listing.now elements) }
{
    for item in listing {
        let (location, value) = *item;
        mend_at(text, location, value);
    }
}

/// The text in lower case, with each listed value added to the element at its location.
///
/// # Errors
///
/// Where memory runs out.
pub fn mended_in<A: Allocator>(
    alloc: A,
    text: &str,
    listing: &[(usize, Fe32)],
) -> Result<String<A>, AllocError>
    requires { IsPlacedIn text.now listing.now }
    ensures { IfOk result (λ s. (hrp data_part : List ℕ) → IsText text.now hrp data_part
        → string_bytes s ≡ spelled hrp (mended ops listing.now (elements_of data_part))) }
{
    let mut lower = String::from_str(alloc, text)?;
    lower.make_ascii_lowercase();
    let mut bytes = lower.into_bytes();
    mend(bytes.as_mut_slice(), listing);
    // All of it is ASCII: what the call requires is proved.
    Ok(unsafe { String::from_utf8_unchecked(bytes) })
}
