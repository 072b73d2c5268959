//! Answers `correct`.

ghost use Rattle.std.specs.Prelude.{◌≡◌, ◌+◌, ◌*◌, ◌≤◌, ◌<◌, ◌++◌, ℕ, List, length, map};
ghost use Rattle.std.specs.Prelude.{vec_len, vec_capacity, MatchResult};
ghost use Rattle.std.specs.List.{AllByRecursion};
ghost use Rattle.bech32_gf.specs.Fe32.{ops};
ghost use Rattle.bech32_gf.specs.declared.gf32.Fe32.{Fe32 as Element};
ghost use Rattle.bech32_hrp.specs.Hrp.{lowered};
ghost use Rattle.bech32_checksum.specs.Encoded.{char_of_element};
ghost use Rattle.bech32_checksum.specs.Roots.{singleton_bound};
ghost use Rattle.bech32_correction.specs.MendedElements.{EndsIn, mended};
ghost use Rattle.bech32_correction.specs.Mistyped.{IsListedInPlace, IsRefusal};
ghost use Rattle.b32_replies.specs.Numbers.{number_of_reply};
ghost use Rattle.line_program.specs.Added.{AddsOrRefuses};
ghost use Rattle.b32_replies.specs.Reply.{listed, IsCorrectAnswer};
ghost use Rattle.b32_replies.specs.Request.{code_of_name};

use crate::append::{append_location, append_lowered};
use crate::command::ChecksumName;
use crate::refusal::Refusal;
use bech32::Fe32;
use bech32::primitives::decode::CheckedHrpstringError;
use bech32_correction::{Correction, Listing, NoMemory, bech32_listing, bech32m_listing, mend};
use line_program::append;

/// What a checksum finds for a text, where the given locations are erasures.
fn correction(
    checksum: ChecksumName,
    text: &str,
    given: &[usize],
) -> Result<Correction<Listing<NoMemory>>, CheckedHrpstringError>
    ensures { MatchResult result
        (λ answer. IsListedInPlace (code_of_name checksum) (singleton_bound 24 26)
        text.now given.now answer)
        (λ e. IsRefusal (code_of_name checksum) text.now e) }
{
    match checksum {
        ChecksumName::Bech32 => bech32_listing(text, given),
        ChecksumName::Bech32m => bech32m_listing(text, given),
    }
}

/// Adds a listing: each location, the character of the element to add there, and a space.
fn append_listing(out: &mut Vec<u8>, listing: &[(usize, Fe32)])
    requires small { AllByRecursion (λ p. p.0 ≤ 1022) listing.now }
    requires room { vec_len out.old + 7 * length listing.now ≤ vec_capacity out.old }
    ensures items { out.new.items ≡ out.old.items ++ listed listing.now }
    ensures size { vec_len out.new ≤ vec_len out.old + 7 * length listing.now }
    ensures capacity { vec_capacity out.old ≤ vec_capacity out.new }
{
    for item in listing {
        let (location, value) = *item;
        append_location(out, location);
        append(out, &[b':', value.to_char() as u8, b' ']);
    }
}

/// Adds a text in lower case, with each listed value added to the element at its location.
fn append_mended(out: &mut Vec<u8>, text: &str, listing: &[(usize, Fe32)])
    requires room { vec_len out.old + length text.now ≤ vec_capacity out.old }
    requires inside { (front : List ℕ)
        × ((elements : List Element) × EndsIn (lowered text.now) front elements
        × AllByRecursion (λ p. p.0 < length elements) listing.now) }
    ensures items { (front : List ℕ) (elements : List Element)
        → EndsIn (lowered text.now) front elements
        → AllByRecursion (λ p. p.0 < length elements) listing.now
        → out.new.items
        ≡ out.old.items ++ (front ++ map char_of_element (mended ops listing.now elements)) }
    ensures capacity { vec_capacity out.old ≤ vec_capacity out.new }
{
    append_lowered(out, text.as_bytes());
    mend(out.as_mut_slice(), listing);
}

/// Adds what the checksum finds for a text, where the given locations are erasures, or leaves all
/// as it was.
pub fn correct(
    checksum: ChecksumName,
    text: &str,
    given: &[usize],
    out: &mut Vec<u8>,
) -> Result<(), Refusal>
    requires { vec_len out.old + 2047 ≤ vec_capacity out.old }
    ensures answer { AddsOrRefuses (IsCorrectAnswer (code_of_name checksum) text.now given.now)
        number_of_reply result out.old.items out.new.items }
    ensures capacity { vec_capacity out.old ≤ vec_capacity out.new }
{
    let found = match correction(checksum, text, given) {
        Ok(found) => found,
        Err(e) => return Err(Refusal::Correct(e)),
    };
    match found {
        Correction::Accepted => {
            append(out, b"fine");
            Ok(())
        }
        Correction::Unexplained(()) => {
            append(out, b"none");
            Ok(())
        }
        Correction::Mended(listing) => {
            append(out, b"ok ");
            append_listing(out, listing.as_slice());
            append_mended(out, text, listing.as_slice());
            Ok(())
        }
    }
}
