//! The addresses that are suggested to someone who typed a text.

ghost use Rattle.std.specs.Prelude.{◌≡◌, ◌<◌, ◌≤◌, ◌⊎◌, IfOk, MatchOption, MatchResult, Some, length, map, string_bytes};
ghost use Rattle.bech32_decode.specs.Text.{IsInGrammar, text_refusal};
ghost use Rattle.bech32_hrp.specs.HrpBytes.{hrp_bytes};
ghost use Rattle.bech32_suggest.specs.Chance.{most_errors};
ghost use Rattle.bech32_suggest.specs.Suggestions.{AreFound, AreFoundIn, AreSuggestions, IsSuggestRefusal, IsTriedText};
ghost use Rattle.bech32_suggest.specs.Typed.{as_read, unread_locations, max_typed_length};

use crate::chance::errors_for;
use crate::kept::Wanted;
use crate::mendings::Suggestion;
use crate::tried::push_found;
use crate::typed::{MAX_TYPED_LENGTH, count_unreadable, read_typed, unreadable_in};
use bech32_checksum::Bech32m;
use bech32_decode::{Reading, UncheckedHrpstringError};
use bech32_hrp::Hrp;
use bech32_near::edits::EditsError;
use std::alloc::{AllocError, Allocator};

// The addresses that are found for a typed text that was read, with at most this many errors.
fn found_in<A: Allocator + Copy>(
    alloc: &A,
    typed: &str,
    reading: &Reading<'_, Bech32m>,
    errors: usize,
    hrp: &Hrp,
) -> Result<Vec<Suggestion<String<A>>, A>, AllocError>
    requires text { reading.now.text.now ≡ as_read typed.now }
    requires lengths { (length typed.now ≤ max_typed_length)
        × (most_errors (length reading.now.data_part.now) (length (unread_locations typed.now))
        ≡ Some errors) }
    ensures { IfOk result (λ found. AreFound typed.now (hrp_bytes hrp.now) errors
        (map (λ s. (string_bytes s.text, (s.mending, s.place))) found.items)) }
{
    let unread = unreadable_in(*alloc, typed.as_bytes())?;
    let lower = typed.to_ascii_lowercase(*alloc)?;
    let mut found = Vec::new(*alloc);
    let wanted = Wanted {
        typed: lower.as_str(),
        hrp,
        unread: unread.as_slice(),
        errors,
    };
    push_found(alloc, reading, &wanted, &mut found)?;
    Ok(found)
}

// The same, where they may be none, since nothing is tried.
fn found_for<A: Allocator + Copy>(
    alloc: &A,
    typed: &str,
    reading: &Reading<'_, Bech32m>,
    hrp: &Hrp,
) -> Result<Vec<Suggestion<String<A>>, A>, AllocError>
    requires text { reading.now.text.now ≡ as_read typed.now }
    requires short { length typed.now ≤ max_typed_length }
    ensures { MatchResult result
        (λ found. AreFoundIn reading.now.data_part.now typed.now (hrp_bytes hrp.now)
        (map (λ s. (string_bytes s.text, (s.mending, s.place))) found.items))
        (λ _. IsTriedText typed.now) }
{
    let unread = count_unreadable(typed.as_bytes());
    match errors_for(reading.data_part.len(), unread) {
        Some(errors) => found_in(alloc, typed, reading, errors, hrp),
        None => Ok(Vec::new(*alloc)),
    }
}

/// Tests whether anything may be suggested for a typed text: [`suggest`] then refuses nothing of it
/// but for memory. It allocates nothing.
///
/// # Errors
///
/// That of [`Reading::new`] for the text with each `?` read as `0`, if it has at most
/// [`MAX_TYPED_LENGTH`] bytes.
pub fn validate_typed(typed: &str) -> Result<(), UncheckedHrpstringError>
    ensures { MatchResult result
        (λ _. (max_typed_length < length typed.now) ⊎ IsInGrammar (as_read typed.now))
        (λ e. (length typed.now ≤ max_typed_length) × (text_refusal (as_read typed.now) ≡ Some e)) }
{
    let mut buffer = [0u8; MAX_TYPED_LENGTH];
    read_typed(typed, &mut buffer)?;
    Ok(())
}

/// The addresses that someone may have meant by a text that [`read_typed`] read, as [`suggest`] has
/// them, with memory from `alloc`.
///
/// # Errors
///
/// Out of memory, as of [`suggest`].
pub fn suggest_for_reading<A: Allocator + Copy>(
    alloc: A,
    typed: &str,
    read: Option<Reading<'_, Bech32m>>,
    hrp: &Hrp,
) -> Result<Vec<Suggestion<String<A>>, A>, AllocError>
    requires { MatchOption read (max_typed_length < length typed.now)
        (λ r. (length typed.now ≤ max_typed_length) × (r.text.now ≡ as_read typed.now)) }
    ensures { MatchResult result
        (λ found. AreSuggestions typed.now (hrp_bytes hrp.now)
        (map (λ s. (string_bytes s.text, (s.mending, s.place))) found.items))
        (λ _. IsTriedText typed.now) }
{
    match read {
        Some(reading) => found_for(&alloc, typed, &reading, hrp),
        None => Ok(Vec::new(alloc)),
    }
}

/// The segwit addresses of a network that someone who typed a text may have meant ("did you mean"),
/// with memory from `alloc`: those that
/// [`SegwitHrpstring::new`](bech32_decode::SegwitHrpstring::new) accepts, whose human-readable part
/// is `hrp`, in either case, and whose form is in use: version 0 with a program of 20 bytes or 32,
/// or version 1 with one of 32. An output of another form has no rule for spending, so no guess is
/// of such a form. The typed text itself is no guess: if it is an address of the network, it is
/// returned, whatever its form. Each `?` in the text is a character that cannot be read; its
/// letters may be of either case, but not of both.
///
/// The texts that are tried are, in this order, those that [`nearest`](bech32_near::nearest) lists
/// by Bech32, and by Bech32m, with the `?` as erasures; then, of a text without `?`, those that
/// [`near_edits`](bech32_near::edits::near_edits) lists by Bech32, and by Bech32m. The addresses
/// among them are returned in that order, each once, with what is done to the typed text. Two
/// neighbours that are swapped differ at two characters, so `nearest` lists them where it looks for
/// two errors: they are told as [`Mending::Swapped`](crate::Mending::Swapped), and stand in its
/// order.
///
/// So few texts are tried that of 100 which are no mistyped addresses at most one is expected to
/// get an answer by chance. That makes how many errors are looked for: of 10 to 89 characters
/// behind the separator 2 where none is `?`; 1 beside one (2 in up to 20 characters) or two; 0
/// beside three. In fewer characters, beside more `?`, and of a text of more than 91 bytes nothing
/// is tried.
///
/// If the text is in the grammar, and no more characters of its data part are wrong, the right
/// address is among them, where its form is in use. That does not hold for an error in the
/// human-readable part, or for a character that is not in the alphabet. A suggestion is a guess:
/// show it, and let people compare it with the source before it is paid to.
///
/// # Errors
///
/// That of [`Reading::new`] for the text with each `?` read as `0`, if it has at most 91 bytes. Out
/// of memory is returned only where texts are tried.
pub fn suggest<A: Allocator + Copy>(
    alloc: A,
    typed: &str,
    hrp: Hrp,
) -> Result<Vec<Suggestion<String<A>>, A>, EditsError>
    ensures { MatchResult result
        (λ found. AreSuggestions typed.now (hrp_bytes hrp)
        (map (λ s. (string_bytes s.text, (s.mending, s.place))) found.items))
        (λ e. IsSuggestRefusal typed.now e) }
{
    let mut buffer = [0u8; MAX_TYPED_LENGTH];
    let read = read_typed(typed, &mut buffer)?;
    Ok(suggest_for_reading(alloc, typed, read, &hrp)?)
}
