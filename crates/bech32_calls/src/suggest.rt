//! Lists the addresses that someone who typed a text may have meant.

ghost use Rattle.std.specs.Prelude.{◌≡◌, ◌⊎◌, length, IfErr};
ghost use Rattle.bech32_hrp.specs.Hrp.{IsHrp};
ghost use Rattle.caller_memory.specs.Memory.{IsKept};
ghost use Rattle.bech32_calls.specs.Listing.{ReturnsMemory, IfAllPut, IfNotAllPut};
ghost use Rattle.bech32_calls.specs.Suggest.{IsSuggestFaultOrKept, IsTyped, LacksRoomForSuggestions, PutsFirstSuggestions, PutsSuggestions};

use crate::input::part_of;
use crate::listed::{Listed, Row, give_memory_back, list_rows};
use crate::refusal::Refusal;
use bech32_decode::text_of;
use bech32_suggest::{MAX_TYPED_LENGTH, Mending, Suggestion, read_typed, suggest_for_reading};
use caller_memory::{Lent, Memory};
use std::alloc::Allocator;

impl<A: Allocator> Row for Suggestion<String<A>> {
    ghost use Rattle.bech32_calls.specs.Suggest.{number_of_mending};

    ghost kind_of = { λ s. number_of_mending s.mending };

    ghost place_of = { λ s. s.place };

    fn kind(&self) -> u8 {
        match self.mending {
            Mending::Unchanged => 0,
            Mending::Swapped => 1,
            Mending::LeftOut => 2,
            Mending::PutIn => 3,
            Mending::Replaced => 4,
        }
    }

    fn place(&self) -> usize {
        self.place
    }
}

/// Puts all segwit addresses with a human-readable part that someone who typed a text may have
/// meant at the front of a buffer, in lower case and one behind another, in the order of
/// [`suggest`](bech32_suggest::suggest), and tells how many they are. Of each the number of what is
/// done to the text is put into `kinds`: 0 for nothing, 1 where two neighbours are swapped, 2 where
/// a character is left out, 3 where one is put in, 4 where characters are replaced; and into
/// `places` the first place, counted from 0 at the front, at which the address and the text, in
/// lower case, differ, or one of them ends. Where they do not fit in all three buffers, as many as
/// do are put, the first: then they are more than `kinds` or `places` has room for, or the
/// addresses together are longer than `texts`. They are worked out in `memory`, which comes back
/// whole.
///
/// # Errors
///
/// The first of: bytes of `part` that are not UTF-8, or no human-readable part; a text that is not
/// UTF-8, or of at most 91 bytes and not in the grammar with each `?` read as `0`, all before any
/// memory is taken. [`Refusal::Memory`] where `memory` does not suffice: then texts are tried, and
/// `memory` and the buffers are as they were; or `memory` had bytes and has none, and the buffers
/// may have changed.
pub fn put_suggestions(
    memory: &mut Memory,
    bytes: &[u8],
    part: &[u8],
    kinds: &mut [u8],
    places: &mut [usize],
    texts: &mut [u8],
) -> Result<Listed, Refusal>
    ensures all { IfAllPut result (PutsSuggestions bytes.now part.now
        kinds.old kinds.new places.old places.new texts.old texts.new) }
    ensures first { IfNotAllPut result (PutsFirstSuggestions bytes.now part.now
        kinds.old kinds.new places.old places.new texts.old texts.new) }
    ensures room { IfNotAllPut result (LacksRoomForSuggestions bytes.now part.now
        (length kinds.old) (length places.old) (length texts.old)) }
    ensures accepts { IsHrp part.now → IsTyped bytes.now → IfErr result (λ e. e ≡ Refusal.Memory) }
    ensures refused { IfErr result
        (λ e. IsSuggestFaultOrKept bytes.now part.now memory.old memory.new e) }
    ensures same { IfErr result (λ e. ((kinds.new ≡ kinds.old) × (places.new ≡ places.old)
        × (texts.new ≡ texts.old)) ⊎ ((e ≡ Refusal.Memory) × IsKept memory.old memory.new)) }
    ensures memory { ReturnsMemory memory.old memory.new result }
{
    let hrp = part_of(part)?;
    let text = text_of(bytes)?;
    let mut buffer = [0u8; MAX_TYPED_LENGTH];
    let read = read_typed(text, &mut buffer)?;
    let lent = Lent::new(memory.take());
    let listed = list_rows(
        suggest_for_reading(&lent.arena(), text, read, &hrp),
        kinds,
        places,
        texts,
    );
    give_memory_back(lent, memory, listed)
}
