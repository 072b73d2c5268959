//! Lists the texts that one edit makes of a text.

ghost use Rattle.std.specs.Prelude.{◌≡◌, ◌≢◌, ◌⊎◌, length};
ghost use Rattle.bech32_decode.specs.Text.{IsInGrammar};
ghost use Rattle.caller_memory.specs.Memory.{IsKept};
ghost use Rattle.bech32_calls.specs.Checksums.{ForChecksum};
ghost use Rattle.bech32_calls.specs.Faults.{IsNumberOf};
ghost use Rattle.bech32_calls.specs.NearEdits.{IsEditsFaultOrKept, LacksRoomForEdits, PutsEdits, PutsFirstEdits};

use crate::listed::counted;
use bech32_calls::near_edits::put_near_edits;
use caller_memory::Memory;

/// See `bech32_near_edits` in `include/bech32.h`.
#[unsafe(no_mangle)]
pub extern "C" fn bech32_near_edits(
    checksum: u32,
    text: &[u8],
    memory: &mut Memory,
    kinds: &mut [u8],
    locations: &mut [usize],
    texts: &mut [u8],
    count: &mut usize,
) -> u32
    ensures value { result ≡ 0 → ForChecksum checksum
        (PutsEdits text.now kinds.old kinds.new locations.old locations.new
        texts.old texts.new count.new) }
    ensures first { result ≡ 92 → ForChecksum checksum
        (PutsFirstEdits text.now kinds.old kinds.new locations.old locations.new
        texts.old texts.new count.new) }
    ensures room { result ≡ 92 → ForChecksum checksum (LacksRoomForEdits text.now
        (length kinds.old) (length locations.old) (length texts.old) count.new) }
    ensures accepts { ForChecksum checksum (λ _. IsInGrammar text.now)
        → (result ≡ 0) ⊎ ((result ≡ 92) ⊎ (result ≡ 91)) }
    ensures refused { result ≢ 0 → result ≢ 92
        → IsNumberOf (IsEditsFaultOrKept checksum text.now memory.old memory.new) result }
    ensures same { result ≢ 0 → result ≢ 92 → (count.new ≡ count.old)
        × (((kinds.new ≡ kinds.old) × (locations.new ≡ locations.old) × (texts.new ≡ texts.old))
        ⊎ ((result ≡ 91) × IsKept memory.old memory.new)) }
    ensures memory { (memory.new ≡ memory.old)
        ⊎ ((result ≡ 91) × IsKept memory.old memory.new) }
{
    match put_near_edits(memory, checksum, text, kinds, locations, texts) {
        Ok(listed) => counted(listed, count),
        Err(refusal) => refusal.number(),
    }
}
