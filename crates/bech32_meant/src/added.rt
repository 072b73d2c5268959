//! How answers are added to those that are found.

ghost use Rattle.std.specs.Prelude.{◌≡◌, ◌≤◌, ◌↔◌, ◌++◌, IfOk, IsTrue, MatchOption, OnOk, length, map, string_bytes};
ghost use Rattle.bech32_decode.specs.Parts.{address_program, address_version};
ghost use Rattle.bech32_hrp.specs.HrpBytes.{hrp_bytes};
ghost use Rattle.bech32_poly.specs.Distinct.{IsAmong};
ghost use Rattle.bech32_suggest.specs.Forms.{IsAddressInUse, IsFormInUse};
ghost use Rattle.bech32_suggest.specs.Suggestions.{IsAddressUnder, either_code, near_bound};
ghost use Rattle.bech32_near.specs.NearTexts.{AreNearTexts};
ghost use Rattle.bech32_suggest.specs.Typed.{as_read, typed_character, unread_locations};
ghost use Rattle.bech32_meant.specs.Added.{AddsAll, AddsByBoth, AddsFrame, AddsIf, AddsNearby, HasChecksum, IsInUseUnder, front_for};

use bech32_checksum::{Bech32, Bech32m};
use bech32_correction::Mended;
use bech32_decode::{Reading, SegwitHrpstring};
use bech32_hrp::Hrp;
use bech32_near::nearest_to_reading;
use bech32_refusals::segwit::{KEY_HASH_LENGTH, SCRIPT_HASH_LENGTH};
use bech32_suggest::AsText;
use std::alloc::{AllocError, Allocator};

/// An address that someone may have meant.
#[derive(Drop)]
pub struct Meant<S> {
    /// The address, in lower case.
    pub text: S,
    /// How many slips lead from it to what was typed.
    pub slips: usize,
}

/// What is looked for.
#[derive(Clone, Copy)]
pub(crate) struct Asked<'a> {
    /// The human-readable part.
    pub(crate) hrp: &'a Hrp,
    /// How many slips an answer takes.
    pub(crate) slips: usize,
}

// Whether a text is an address with a human-readable part.
pub(crate) fn is_address_under(text: &str, hrp: &Hrp) -> bool
    ensures { IsTrue result ↔ IsAddressUnder (hrp_bytes hrp.now) text.now }
{
    match SegwitHrpstring::new(text) {
        Ok(address) => address.hrp() == *hrp,
        Err(_) => false,
    }
}

// Whether an address is of a form in use: version 0 with 20 bytes or 32, or version 1 with 32.
fn has_form_in_use(address: &SegwitHrpstring<'_>) -> bool
    ensures { IsTrue result
        ↔ IsFormInUse (address_version address.now) (address_program address.now) }
{
    let size = address.byte_iter().len();
    match address.witness_version().to_u8() {
        0 => size == KEY_HASH_LENGTH || size == SCRIPT_HASH_LENGTH,
        1 => size == 32,
        _ => false,
    }
}

// Whether a text is an address of a form in use.
fn is_address_in_use(text: &str) -> bool
    ensures { IsTrue result ↔ IsAddressInUse text.now }
{
    match SegwitHrpstring::new(text) {
        Ok(address) => has_form_in_use(&address),
        Err(_) => false,
    }
}

// Whether a text is an address of the part, of a form in use.
fn is_wanted(text: &str, hrp: &Hrp) -> bool
    ensures { IsTrue result ↔ IsInUseUnder (hrp_bytes hrp.now) text.now }
{
    is_address_under(text, hrp) && is_address_in_use(text)
}

// Whether a text stands among those that are found.
pub(crate) fn is_found<A: Allocator>(text: &str, found: &[Meant<String<A>>]) -> bool
    ensures { IsTrue result ↔ IsAmong text.now (map (λ s. string_bytes s.text) found.now) }
{
    for one in found {
        if one.text.as_str() == text {
            return true;
        }
    }
    false
}

// Adds a text, if it is wanted and not among those that are found.
fn push_one<A: Allocator + Copy>(
    alloc: A,
    hrp: &Hrp,
    slips: usize,
    text: &str,
    found: &mut Vec<Meant<String<A>>, A>,
) -> Result<(), AllocError>
    ensures { OnOk result (AddsIf (IsInUseUnder (hrp_bytes hrp.now)) slips
        (map (λ s. (string_bytes s.text, s.slips)) found.old.items) text.now
        (map (λ s. (string_bytes s.text, s.slips)) found.new.items)) }
{
    if is_found(text, found.as_slice()) {
        return Ok(());
    }
    if !is_wanted(text, hrp) {
        return Ok(());
    }
    let text = String::from_str(alloc, text)?;
    found.push(Meant { text, slips })?;
    Ok(())
}

// Adds each text that is wanted and not among those that are found.
fn push_each<A: Allocator + Copy, T: AsText>(
    alloc: A,
    hrp: &Hrp,
    slips: usize,
    texts: &[T],
    found: &mut Vec<Meant<String<A>>, A>,
) -> Result<(), AllocError>
    ensures { OnOk result (AddsAll (AddsIf (IsInUseUnder (hrp_bytes hrp.now)) slips)
        (map (λ s. (string_bytes s.text, s.slips)) found.old.items) (map T.text_of texts.now)
        (map (λ s. (string_bytes s.text, s.slips)) found.new.items)) }
{
    for one in texts {
        push_one(alloc, hrp, slips, one.as_text(), found)?;
    }
    Ok(())
}

// The texts near one that was read: by Bech32m, or by Bech32, whose generator is the same.
fn near_by<'a, A: Allocator>(
    alloc: &'a A,
    reading: &Reading<'_, Bech32m>,
    is_bech32m: bool,
    unread: &[usize],
    errors: usize,
) -> Result<Vec<Mended<&'a A>, &'a A>, AllocError>
    requires { (length reading.now.text.now ≤ 1023) × (6 ≤ length reading.now.data_part.now) }
    ensures { IfOk result (λ near. AreNearTexts (either_code is_bech32m) near_bound
        reading.now.text.now unread.now errors
        (map (λ m. (m.listing, string_bytes m.text)) near.items)) }
{
    if is_bech32m {
        let near = nearest_to_reading::<Bech32m, &A>(alloc, reading, unread, errors)?;
        return Ok(near.texts);
    }
    let near = nearest_to_reading::<Bech32, &A>(alloc, &reading.by_bech32(), unread, errors)?;
    Ok(near.texts)
}

// Adds the addresses near a text that was read, by Bech32m or by Bech32.
fn push_near<A: Allocator + Copy>(
    alloc: &A,
    reading: &Reading<'_, Bech32m>,
    is_bech32m: bool,
    unread: &[usize],
    errors: usize,
    asked: &Asked<'_>,
    found: &mut Vec<Meant<String<A>>, A>,
) -> Result<(), AllocError>
    requires { (length reading.now.text.now ≤ 1023) × (6 ≤ length reading.now.data_part.now) }
    ensures { OnOk result (AddsNearby (either_code is_bech32m) (hrp_bytes asked.now.hrp.now)
        asked.now.slips errors reading.now.text.now unread.now
        (map (λ s. (string_bytes s.text, s.slips)) found.old.items)
        (map (λ s. (string_bytes s.text, s.slips)) found.new.items)) }
{
    let near = near_by(alloc, reading, is_bech32m, unread, errors)?;
    push_each(*alloc, asked.hrp, asked.slips, near.as_slice(), found)
}

// Adds the addresses near a text that was read, by Bech32 and then by Bech32m.
fn push_by_both<A: Allocator + Copy>(
    alloc: &A,
    reading: &Reading<'_, Bech32m>,
    unread: &[usize],
    errors: usize,
    asked: &Asked<'_>,
    found: &mut Vec<Meant<String<A>>, A>,
) -> Result<(), AllocError>
    requires { (length reading.now.text.now ≤ 1023) × (6 ≤ length reading.now.data_part.now) }
    ensures { OnOk result (AddsByBoth (hrp_bytes asked.now.hrp.now)
        asked.now.slips errors reading.now.text.now unread.now
        (map (λ s. (string_bytes s.text, s.slips)) found.old.items)
        (map (λ s. (string_bytes s.text, s.slips)) found.new.items)) }
{
    push_near(alloc, reading, false, unread, errors, asked, found)?;
    push_near(alloc, reading, true, unread, errors, asked, found)?;
    Ok(())
}

// The front and a frame behind it, as a text: `0` for each character that cannot be read.
fn text_of<A: Allocator>(alloc: A, front: &[u8], frame: &[u8]) -> Result<Vec<u8, A>, AllocError>
    ensures { IfOk result (λ v. v.items ≡ front.now ++ as_read frame.now) }
{
    let mut text = Vec::new(alloc);
    text.extend_from_slice(front)?;
    for c in frame {
        text.push(read_of(*c))?;
    }
    Ok(text)
}

// A character as it is read: `?` as `0`.
fn read_of(c: u8) -> u8
    ensures { result ≡ typed_character c }
{
    if c == b'?' { b'0' } else { c }
}

// The locations of the characters of a frame that cannot be read; location 0 is the last.
fn unread_of<A: Allocator>(alloc: A, frame: &[u8]) -> Result<Vec<usize, A>, AllocError>
    ensures { IfOk result (λ v. v.items ≡ unread_locations frame.now) }
{
    let mut locations = Vec::new(alloc);
    let mut location = frame.len();
    for c in frame {
        location -= 1;
        if *c != b'?' {
            continue;
        }
        locations.push(location)?;
    }
    Ok(locations)
}

// Reads a text that has a checksum.
fn checked(text: &[u8]) -> Option<Reading<'_, Bech32m>>
    ensures { MatchOption result (HasChecksum text.now → ⊥)
        (λ r. HasChecksum text.now × ((r.text.now ≡ text.now) × (6 ≤ length r.data_part.now))) }
{
    if text.len() > 1023 {
        return None;
    }
    let Ok(reading) = Reading::<Bech32m>::from_bytes(text) else {
        return None;
    };
    if reading.data_part.len() < 6 {
        return None;
    }
    Some(reading)
}

// Adds what a frame finds after the front.
pub(crate) fn push_frame<A: Allocator + Copy>(
    alloc: &A,
    front: &[u8],
    frame: &[u8],
    errors: usize,
    asked: &Asked<'_>,
    found: &mut Vec<Meant<String<A>>, A>,
) -> Result<(), AllocError>
    requires { front.now ≡ front_for (hrp_bytes asked.now.hrp.now) }
    ensures { OnOk result (AddsFrame (hrp_bytes asked.now.hrp.now) asked.now.slips errors
        (map (λ s. (string_bytes s.text, s.slips)) found.old.items) frame.now
        (map (λ s. (string_bytes s.text, s.slips)) found.new.items)) }
{
    let text = text_of(*alloc, front, frame)?;
    let Some(reading) = checked(text.as_slice()) else {
        return Ok(());
    };
    let unread = unread_of(*alloc, frame)?;
    push_by_both(alloc, &reading, unread.as_slice(), errors, asked, found)?;
    Ok(())
}

// Adds a text with no slip, if it is an address of the part and not among those that are found.
fn push_own<A: Allocator + Copy>(
    alloc: A,
    hrp: &Hrp,
    text: &str,
    found: &mut Vec<Meant<String<A>>, A>,
) -> Result<(), AllocError>
    ensures { OnOk result (AddsIf (IsAddressUnder (hrp_bytes hrp.now)) 0
        (map (λ s. (string_bytes s.text, s.slips)) found.old.items) text.now
        (map (λ s. (string_bytes s.text, s.slips)) found.new.items)) }
{
    if is_found(text, found.as_slice()) {
        return Ok(());
    }
    if !is_address_under(text, hrp) {
        return Ok(());
    }
    let text = String::from_str(alloc, text)?;
    found.push(Meant { text, slips: 0 })?;
    Ok(())
}

// Adds the text of bytes so.
pub(crate) fn push_address<A: Allocator + Copy>(
    alloc: A,
    hrp: &Hrp,
    bytes: &[u8],
    found: &mut Vec<Meant<String<A>>, A>,
) -> Result<(), AllocError>
    ensures { OnOk result (AddsIf (IsAddressUnder (hrp_bytes hrp.now)) 0
        (map (λ s. (string_bytes s.text, s.slips)) found.old.items) bytes.now
        (map (λ s. (string_bytes s.text, s.slips)) found.new.items)) }
{
    let Ok(text) = str::from_utf8(bytes) else {
        return Ok(());
    };
    push_own(alloc, hrp, text, found)?;
    Ok(())
}
