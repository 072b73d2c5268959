//! Lists the texts that one edit makes of a text.

ghost use Rattle.std.specs.Prelude.{◌≡◌, ◌⊎◌, length, map, string_bytes, IfErr, MatchResult};
ghost use Rattle.bech32_decode.specs.Text.{IsInGrammar};
ghost use Rattle.bech32_near.specs.edits.NearEdits.{AreNearEdits, HasNearEdit};
ghost use Rattle.caller_memory.specs.Memory.{IsKept};
ghost use Rattle.bech32_calls.specs.Checksums.{ForChecksum, IsFaultBy};
ghost use Rattle.bech32_calls.specs.Listing.{ReturnsMemory, IfAllPut, IfNotAllPut};
ghost use Rattle.bech32_calls.specs.NearEdits.{IsEditsFault, IsEditsFaultOrKept, LacksRoomForEdits, PutsEdits, PutsFirstEdits};

use crate::checksum::{BECH32, BECH32M, validate_checksum};
use crate::listed::{Listed, Row, give_memory_back, list_rows};
use crate::refusal::Refusal;
use bech32::{Bech32, Bech32m, Change, NearEdit};
use bech32_decode::Reading;
use bech32_near::edits::near_edits_of_reading;
use caller_memory::{Lent, Memory};
use std::alloc::{AllocError, Allocator};

// Reads a text by the generator of both checksums, where a number is that of one.
fn read_for(checksum: u32, bytes: &[u8]) -> Result<Reading<'_, Bech32m>, Refusal>
    ensures { MatchResult result
        (λ r. (r.text.now ≡ bytes.now) × ForChecksum checksum (λ _. Unit {0}))
        (λ e. IsFaultBy checksum (IsEditsFault bytes.now) e) }
{
    validate_checksum(checksum)?;
    let reading = Reading::<Bech32m>::from_bytes(bytes)?;
    Ok(reading)
}

// The texts that one edit makes of a text that was read, and that the checksum of a number accepts.
fn edits_by<'a, A: Allocator>(
    alloc: &'a A,
    checksum: u32,
    reading: &Reading<'_, Bech32m>,
) -> Result<Vec<NearEdit<String<&'a A>>, &'a A>, AllocError>
    requires { ForChecksum checksum (λ _. Unit {0}) }
    ensures { MatchResult result
        (λ found. ForChecksum checksum (λ code. AreNearEdits code reading.now.text.now
        (map (λ m. (m.edit, string_bytes m.text)) found.items)))
        (λ _. ForChecksum checksum (λ code. HasNearEdit code reading.now.text.now)) }
{
    match checksum {
        BECH32 => near_edits_of_reading::<Bech32, &A>(alloc, &reading.by_bech32()),
        BECH32M => near_edits_of_reading::<Bech32m, &A>(alloc, reading),
        _ => unreachable!(),
    }
}

impl<A: Allocator> Row for NearEdit<String<A>> {
    ghost use Rattle.bech32_calls.specs.NearEdits.{number_of_change};

    ghost kind_of = { λ m. number_of_change m.edit.change };

    ghost place_of = { λ m. m.edit.location };

    fn kind(&self) -> u8 {
        match self.edit.change {
            Change::Swapped(_, _) => 1,
            Change::LeftOut(_) => 2,
            Change::PutIn(_) => 3,
        }
    }

    fn place(&self) -> usize {
        self.edit.location
    }
}

/// Puts all texts other than this one that one edit makes of it, and that the checksum of a number
/// accepts, at the front of a buffer, in lower case and one behind another, in the order of
/// [`near_edits`](bech32::near_edits), and tells how many they are. Of each the kind is put into
/// `kinds`: 1 where the characters at a location and above it are swapped, 2 where one is left out,
/// 3 where one is put in; and the location into `locations`. Location 0 is the last character: of
/// this text for one that is swapped or left out, of the new one for one that is put in. Where they
/// do not fit in all three buffers, as many as do are put, the first: then they are more than
/// `kinds` or `locations` has room for, or their texts together are longer than `texts`. They are
/// worked out in `memory`, which comes back whole.
///
/// # Errors
///
/// The first of: a number that is neither 1 nor 2; a text that is not UTF-8; why it is not in the
/// grammar, all before any memory is taken. [`Refusal::Memory`] where `memory` does not suffice:
/// then there is such a text, and `memory` and the buffers are as they were; or `memory` had bytes
/// and has none, and the buffers may have changed.
///
/// With the number of a checksum, nothing but [`Refusal::Memory`] where the text is in the grammar.
pub fn put_near_edits(
    memory: &mut Memory,
    checksum: u32,
    bytes: &[u8],
    kinds: &mut [u8],
    locations: &mut [usize],
    texts: &mut [u8],
) -> Result<Listed, Refusal>
    ensures all { IfAllPut result (λ count. ForChecksum checksum
        (PutsEdits bytes.now kinds.old kinds.new locations.old locations.new
        texts.old texts.new count)) }
    ensures first { IfNotAllPut result (λ count. ForChecksum checksum
        (PutsFirstEdits bytes.now kinds.old kinds.new locations.old locations.new
        texts.old texts.new count)) }
    ensures room { IfNotAllPut result (λ count. ForChecksum checksum
        (LacksRoomForEdits bytes.now (length kinds.old) (length locations.old) (length texts.old)
        count)) }
    ensures accepts { ForChecksum checksum (λ _. IsInGrammar bytes.now)
        → IfErr result (λ e. e ≡ Refusal.Memory) }
    ensures refused { IfErr result
        (λ e. IsEditsFaultOrKept checksum bytes.now memory.old memory.new e) }
    ensures same { IfErr result (λ e. ((kinds.new ≡ kinds.old) × (locations.new ≡ locations.old)
        × (texts.new ≡ texts.old)) ⊎ ((e ≡ Refusal.Memory) × IsKept memory.old memory.new)) }
    ensures memory { ReturnsMemory memory.old memory.new result }
{
    let reading = read_for(checksum, bytes)?;
    let lent = Lent::new(memory.take());
    let listed = list_rows(
        edits_by(&lent.arena(), checksum, &reading),
        kinds,
        locations,
        texts,
    );
    give_memory_back(lent, memory, listed)
}
