//! Which of the texts that are tried are suggested.

ghost use Rattle.std.specs.Prelude.{◌≡◌, ◌↔◌, ℕ, List, IfOk, IsTrue, map, string_bytes};
ghost use Rattle.bech32_decode.specs.Parts.{address_program, address_version};
ghost use Rattle.bech32_hrp.specs.HrpBytes.{hrp_bytes};
ghost use Rattle.bech32_poly.specs.Distinct.{IsAmong};
ghost use Rattle.bech32_suggest.specs.Forms.{IsAddressInUse, IsFormInUse};
ghost use Rattle.bech32_suggest.specs.Suggestions.{AddsEach, AddsOne, IsAddressUnder, IsMeant};

use crate::mendings::{Suggestion, compared};
use bech32_correction::MendedBy;
use bech32_decode::SegwitHrpstring;
use bech32_hrp::Hrp;
use bech32_near::edits::NearEdit;
use bech32_refusals::segwit::{KEY_HASH_LENGTH, SCRIPT_HASH_LENGTH};
use std::alloc::{AllocError, Allocator};

/// What has a text, among what is listed.
pub trait AsText {
    ghost text_of: { Self → List ℕ };

    /// The text.
    fn as_text(&self) -> &str
        ensures { result.now ≡ text_of self.now };
}

impl<L, A: Allocator> AsText for MendedBy<L, String<A>> {
    ghost use Rattle.std.specs.Prelude.{string_bytes};

    ghost text_of = { λ m. string_bytes m.text };

    #[inline]
    fn as_text(&self) -> &str {
        self.text.as_str()
    }
}

impl<A: Allocator> AsText for NearEdit<String<A>> {
    ghost use Rattle.std.specs.Prelude.{string_bytes};

    ghost text_of = { λ m. string_bytes m.text };

    #[inline]
    fn as_text(&self) -> &str {
        self.text.as_str()
    }
}

impl<A: Allocator> AsText for Suggestion<String<A>> {
    ghost use Rattle.std.specs.Prelude.{string_bytes};

    ghost text_of = { λ s. string_bytes s.text };

    #[inline]
    fn as_text(&self) -> &str {
        self.text.as_str()
    }
}

/// Which addresses are looked for.
#[derive(Clone, Copy)]
pub(crate) struct Wanted<'a> {
    /// The text that someone typed, in lower case.
    pub(crate) typed: &'a str,
    /// The human-readable part of the addresses.
    pub(crate) hrp: &'a Hrp,
    /// The locations of characters that cannot be read.
    pub(crate) unread: &'a [usize],
    /// How many errors are looked for beside them.
    pub(crate) errors: usize,
}

// Whether a text is an address with a human-readable part.
fn is_address_under(text: &str, hrp: &Hrp) -> bool
    ensures { IsTrue result ↔ IsAddressUnder (hrp_bytes hrp.now) text.now }
{
    match SegwitHrpstring::new(text) {
        Ok(address) => address.hrp() == *hrp,
        Err(_) => false,
    }
}

// Whether an address is of a form in use: version 0 with 20 bytes or 32, or version 1 with 32.
fn has_form_in_use(address: &SegwitHrpstring<'_>) -> bool
    ensures { IsTrue result
        ↔ IsFormInUse (address_version address.now) (address_program address.now) }
{
    let size = address.byte_iter().len();
    match address.witness_version().to_u8() {
        0 => size == KEY_HASH_LENGTH || size == SCRIPT_HASH_LENGTH,
        1 => size == 32,
        _ => false,
    }
}

// Whether a text is an address of a form in use.
fn is_address_in_use(text: &str) -> bool
    ensures { IsTrue result ↔ IsAddressInUse text.now }
{
    match SegwitHrpstring::new(text) {
        Ok(address) => has_form_in_use(&address),
        Err(_) => false,
    }
}

// Whether a text may have been meant. The typed text itself is no guess: its form may be any.
fn is_meant(text: &str, wanted: &Wanted<'_>) -> bool
    ensures { IsTrue result ↔ IsMeant (hrp_bytes wanted.now.hrp.now) wanted.now.typed.now text.now }
{
    if !is_address_under(text, wanted.hrp) {
        return false;
    }
    text == wanted.typed || is_address_in_use(text)
}

// Whether a text stands among those that are found.
fn is_among<A: Allocator>(text: &str, found: &[Suggestion<String<A>>]) -> bool
    ensures { IsTrue result ↔ IsAmong text.now (map (λ s. string_bytes s.text) found.now) }
{
    for one in found {
        if one.text.as_str() == text {
            return true;
        }
    }
    false
}

// Adds a text, if it may have been meant and does not stand among those that are found.
fn push_one<A: Allocator + Copy>(
    alloc: A,
    wanted: &Wanted<'_>,
    text: &str,
    found: &mut Vec<Suggestion<String<A>>, A>,
) -> Result<(), AllocError>
    ensures { IfOk result (λ _. AddsOne (hrp_bytes wanted.now.hrp.now) wanted.now.typed.now
        (map (λ s. (string_bytes s.text, (s.mending, s.place))) found.old.items) text.now
        (map (λ s. (string_bytes s.text, (s.mending, s.place))) found.new.items)) }
{
    if is_among(text, found.as_slice()) {
        return Ok(());
    }
    if !is_meant(text, wanted) {
        return Ok(());
    }
    let (mending, place) = compared(wanted.typed.as_bytes(), text.as_bytes());
    let text = String::from_str(alloc, text)?;
    found.push(Suggestion {
        text,
        mending,
        place,
    })?;
    Ok(())
}

/// Adds each text that may have been meant, and does not stand among those that are found.
pub(crate) fn push_each<A: Allocator + Copy, T: AsText>(
    alloc: A,
    wanted: &Wanted<'_>,
    texts: &[T],
    found: &mut Vec<Suggestion<String<A>>, A>,
) -> Result<(), AllocError>
    ensures { IfOk result (λ _. AddsEach (hrp_bytes wanted.now.hrp.now) wanted.now.typed.now
        (map (λ s. (string_bytes s.text, (s.mending, s.place))) found.old.items)
        (map T.text_of texts.now)
        (map (λ s. (string_bytes s.text, (s.mending, s.place))) found.new.items)) }
{
    for one in texts {
        push_one(alloc, wanted, one.as_text(), found)?;
    }
    Ok(())
}
