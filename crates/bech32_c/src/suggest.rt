//! Lists the addresses that someone who typed a text may have meant.

ghost use Rattle.std.specs.Prelude.{◌≡◌, ◌≢◌, ◌⊎◌, length};
ghost use Rattle.bech32_hrp.specs.Hrp.{IsHrp};
ghost use Rattle.caller_memory.specs.Memory.{IsKept};
ghost use Rattle.bech32_calls.specs.Faults.{IsNumberOf};
ghost use Rattle.bech32_calls.specs.Suggest.{IsSuggestFaultOrKept, IsTyped, LacksRoomForSuggestions, PutsFirstSuggestions, PutsSuggestions};

use crate::listed::counted;
use bech32_calls::suggest::put_suggestions;
use caller_memory::Memory;

/// See `bech32_suggest` in `include/bech32.h`.
#[unsafe(no_mangle)]
pub extern "C" fn bech32_suggest(
    text: &[u8],
    hrp: &[u8],
    memory: &mut Memory,
    kinds: &mut [u8],
    places: &mut [usize],
    texts: &mut [u8],
    count: &mut usize,
) -> u32
    ensures value { result ≡ 0 → PutsSuggestions text.now hrp.now kinds.old kinds.new
        places.old places.new texts.old texts.new count.new }
    ensures first { result ≡ 92 → PutsFirstSuggestions text.now hrp.now kinds.old kinds.new
        places.old places.new texts.old texts.new count.new }
    ensures room { result ≡ 92 → LacksRoomForSuggestions text.now hrp.now
        (length kinds.old) (length places.old) (length texts.old) count.new }
    ensures accepts { IsHrp hrp.now → IsTyped text.now
        → (result ≡ 0) ⊎ ((result ≡ 92) ⊎ (result ≡ 91)) }
    ensures refused { result ≢ 0 → result ≢ 92
        → IsNumberOf (IsSuggestFaultOrKept text.now hrp.now memory.old memory.new) result }
    ensures same { result ≢ 0 → result ≢ 92 → (count.new ≡ count.old)
        × (((kinds.new ≡ kinds.old) × (places.new ≡ places.old) × (texts.new ≡ texts.old))
        ⊎ ((result ≡ 91) × IsKept memory.old memory.new)) }
    ensures memory { (memory.new ≡ memory.old)
        ⊎ ((result ≡ 91) × IsKept memory.old memory.new) }
{
    match put_suggestions(memory, text, hrp, kinds, places, texts) {
        Ok(listed) => counted(listed, count),
        Err(refusal) => refusal.number(),
    }
}
