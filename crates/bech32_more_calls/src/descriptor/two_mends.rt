//! Lists the descriptors that two changed characters make of a text.

ghost use Rattle.std.specs.Prelude.{◌≡◌, ◌<◌, ◌≤◌, ◌⊎◌, length, map, take, true, false, IfErr, IfOk, MatchOption, MatchResult};
ghost use Rattle.bech32_calls.specs.Fitting.{IsMost};
ghost use Rattle.caller_memory.specs.Memory.{IsKept, LeavesMemory, memory_size};
ghost use Rattle.bech32_descriptor.specs.Pairs.{max_length_for_two};
ghost use Rattle.bech32_more_calls.specs.descriptor.TwoMends.{IsTwoMendFault, ListsTwoMends, PutsEachTwo, PutsFirstTwoMends, PutsTwoMends, TwoMendsFit};

use crate::descriptor::mends::{MendRefusal, nothing, put_behind};
use bech32_calls::listed::Listed;
use bech32_descriptor::{MAX_LENGTH_FOR_TWO, MendedTwice, mend_two};
use caller_memory::{Lent, Memory};
use std::alloc::Allocator;

// Puts the places of edits, and their texts, at the fronts of buffers, as many as fit, and returns
// how many.
fn put_each_two<A: Allocator + Copy>(
    found: &[MendedTwice<Vec<u8, A>>],
    places: &mut [usize],
    texts: &mut [u8],
) -> usize
    ensures most { IsMost (TwoMendsFit (map (λ m. (m.edits, m.text.items)) found.now)
        (length places.old) (length texts.old)) (length found.now) result }
    ensures put { PutsEachTwo (take result (map (λ m. (m.edits, m.text.items)) found.now))
        places.old places.new texts.old texts.new }
{
    let most = found.len().min(places.len() / 2);
    let mut end = 0;
    for i in 0..most {
        let text = found[i].text.as_slice();
        let Some(next) = put_behind(text, end, texts) else {
            return i;
        };
        let edits = found[i].edits;
        places[2 * i] = edits.first.place;
        places[2 * i + 1] = edits.second.place;
        end = next;
    }
    most
}

// Puts the descriptors that two changed characters make of a text into buffers, if memory suffices.
fn put_two_found(lent: &Lent, text: &[u8], places: &mut [usize], texts: &mut [u8]) -> Option<Listed>
    requires { length text.now ≤ max_length_for_two }
    ensures { MatchOption result
        ((places.new ≡ places.old) × (texts.new ≡ texts.old))
        (λ listed. ListsTwoMends text.now places.old places.new texts.old texts.new listed) }
{
    let arena = lent.arena();
    let Ok(found) = mend_two(&arena, text) else {
        return None;
    };
    let mends = found.as_slice();
    let put = put_each_two(mends, places, texts);
    Some(Listed {
        count: mends.len(),
        fit: put == mends.len(),
    })
}

/// Puts all descriptors that two changed characters make of a text at the front of a buffer, one
/// behind another, in the order of [`mend_two`](bech32_descriptor::mend_two), and tells how many
/// they are. Of each the two places are put into `places`. Where they do not fit in both buffers,
/// as many as do are put, the first. They are worked out in `memory`, which comes back whole.
///
/// # Errors
///
/// The first of: a text of more than [`MAX_LENGTH_FOR_TWO`] bytes; [`MendRefusal::Memory`] where
/// the text has at least nine bytes and `memory` does not suffice: then `memory` and the buffers
/// are as they were; or `memory` had bytes and has none, and the buffers may have changed.
pub fn put_two_mends(
    memory: &mut Memory,
    text: &[u8],
    places: &mut [usize],
    texts: &mut [u8],
) -> Result<Listed, MendRefusal>
    ensures all { IfOk result (λ listed. listed.fit ≡ true
        → PutsTwoMends text.now places.old places.new texts.old texts.new listed.count) }
    ensures first { IfOk result (λ listed. listed.fit ≡ false
        → PutsFirstTwoMends text.now places.old places.new texts.old texts.new listed.count) }
    ensures accepts { length text.now ≤ max_length_for_two
        → IfErr result (λ e. e ≡ MendRefusal.Memory) }
    ensures refused { IfErr result (λ e. IsTwoMendFault text.now e) }
    ensures same { IfErr result (λ e. ((places.new ≡ places.old) × (texts.new ≡ texts.old))
        ⊎ ((e ≡ MendRefusal.Memory) × IsKept memory.old memory.new)) }
    ensures memory { MatchResult result
        (λ _. memory.new ≡ memory.old)
        (λ e. LeavesMemory memory.old memory.new
        ((e ≡ MendRefusal.Memory) × (0 < memory_size memory.old))) }
{
    if text.len() > MAX_LENGTH_FOR_TWO {
        return Err(MendRefusal::TooLong);
    }
    if text.len() < 9 {
        return Ok(nothing());
    }
    let lent = Lent::new(memory.take());
    let listed = put_two_found(&lent, text, places, texts);
    // Memory that does not come back did not suffice.
    if !lent.put_back(memory) {
        return Err(MendRefusal::Memory);
    }
    match listed {
        Some(listed) => Ok(listed),
        None => Err(MendRefusal::Memory),
    }
}
