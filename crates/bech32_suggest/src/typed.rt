//! A typed text, as it is read.

ghost use Rattle.std.specs.Prelude.{◌≡◌, ◌<◌, ◌≤◌, ◌⊎◌, IfOk, MatchOption, MatchResult, Some, length, take};
ghost use Rattle.bech32_decode.specs.Text.{IsInGrammar, text_refusal};
ghost use Rattle.bech32_suggest.specs.Typed.{typed_character, as_read, unread_locations, max_typed_length};

use bech32_checksum::Bech32m;
use bech32_decode::{Reading, UncheckedHrpstringError};
use bech32_refusals::segwit::MAX_STRING_LENGTH;
use std::alloc::{AllocError, Allocator};

/// The most characters of a text for which others are tried: one more than those of an address.
pub const MAX_TYPED_LENGTH: usize = MAX_STRING_LENGTH + 1;

// A character as it is read: `?`, which stands for one that cannot be read, as `0`.
#[inline]
fn read_of(c: u8) -> u8
    ensures { result ≡ typed_character c }
{
    if c == b'?' { b'0' } else { c }
}

// Puts a typed text, as it is read, at the front of a buffer.
fn put_read(typed: &[u8], buffer: &mut [u8])
    requires { length typed.now ≤ length buffer.old }
    ensures front { take (length typed.now) buffer.new ≡ as_read typed.now }
    ensures size { length buffer.new ≡ length buffer.old }
{
    for i in 0..typed.len() {
        buffer[i] = read_of(typed[i]);
    }
}

/// Reads a typed text in a buffer, each `?` as `0`. None where it has more than
/// [`MAX_TYPED_LENGTH`] bytes: nothing is tried for it. It allocates nothing.
///
/// # Errors
///
/// That of [`Reading::new`] for the text with each `?` read as `0`, if it has at most
/// [`MAX_TYPED_LENGTH`] bytes.
pub fn read_typed<'b>(
    typed: &str,
    buffer: &'b mut [u8; MAX_TYPED_LENGTH],
) -> Result<Option<Reading<'b, Bech32m>>, UncheckedHrpstringError>
    ensures said { MatchResult result
        (λ _. (max_typed_length < length typed.now) ⊎ IsInGrammar (as_read typed.now))
        (λ e. (length typed.now ≤ max_typed_length) × (text_refusal (as_read typed.now) ≡ Some e)) }
    ensures read { IfOk result (λ read. MatchOption read (max_typed_length < length typed.now)
        (λ r. (length typed.now ≤ max_typed_length) × (r.text.now ≡ as_read typed.now))) }
{
    if typed.len() > MAX_TYPED_LENGTH {
        return Ok(None);
    }
    put_read(typed.as_bytes(), buffer);
    // A text in which `?` is read as `0` is UTF-8: what the call requires is proved.
    let text = unsafe { str::from_utf8_unchecked(&buffer[..typed.len()]) };
    let reading = Reading::new(text)?;
    Ok(Some(reading))
}

/// How many characters of a typed text cannot be read.
pub(crate) fn count_unreadable(typed: &[u8]) -> usize
    requires { length typed.now ≤ max_typed_length }
    ensures { result ≡ length (unread_locations typed.now) }
{
    let mut count = 0;
    for c in typed {
        if *c == b'?' {
            count += 1;
        }
    }
    count
}

/// The locations of the characters of a typed text that cannot be read; location 0 is the last.
pub(crate) fn unreadable_in<A: Allocator>(
    alloc: A,
    typed: &[u8],
) -> Result<Vec<usize, A>, AllocError>
    ensures { IfOk result (λ v. v.items ≡ unread_locations typed.now) }
{
    let mut locations = Vec::new(alloc);
    let mut location = typed.len();
    for c in typed {
        location -= 1;
        if *c != b'?' {
            continue;
        }
        locations.push(location)?;
    }
    Ok(locations)
}
