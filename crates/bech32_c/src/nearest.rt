//! Lists the texts near to a mistyped one.

ghost use Rattle.std.specs.Prelude.{◌≡◌, ◌≢◌, ◌<◌, ◌≤◌, ◌*◌, ◌⊎◌, [], length};
ghost use Rattle.caller_memory.specs.Memory.{IsKept};
ghost use Rattle.bech32_calls.specs.Checksums.{ForChecksum};
ghost use Rattle.bech32_calls.specs.Faults.{IsNumberOf};
ghost use Rattle.bech32_calls.specs.Nearest.{IsNearFaultOrKept, IsRead, PutsFirstNear, PutsNear};

use crate::listed::counted;
use bech32_calls::nearest::put_nearest;
use caller_memory::Memory;

/// See `bech32_nearest` in `include/bech32.h`.
#[unsafe(no_mangle)]
pub extern "C" fn bech32_nearest(
    checksum: u32,
    text: &[u8],
    erasures: &[usize],
    errors: usize,
    memory: &mut Memory,
    texts: &mut [u8],
    count: &mut usize,
) -> u32
    ensures value { result ≡ 0 → ForChecksum checksum
        (PutsNear text.now erasures.now errors texts.old texts.new count.new) }
    ensures first { result ≡ 92 → ForChecksum checksum
        (PutsFirstNear text.now erasures.now errors texts.old texts.new count.new) }
    ensures few { (result ≡ 0) ⊎ (result ≡ 92) → erasures.now ≡ []
        → (count.new ≤ 1) ⊎ (2 * count.new ≤ length text.now) }
    ensures room { result ≡ 92 → length texts.old < count.new * length text.now }
    ensures accepts { errors ≤ 2 → ForChecksum checksum (IsRead text.now)
        → (result ≡ 0) ⊎ ((result ≡ 92) ⊎ (result ≡ 91)) }
    ensures refused { result ≢ 0 → result ≢ 92
        → IsNumberOf (IsNearFaultOrKept checksum text.now erasures.now errors
        memory.old memory.new) result }
    ensures same { result ≢ 0 → result ≢ 92 → (count.new ≡ count.old)
        × ((texts.new ≡ texts.old) ⊎ ((result ≡ 91) × IsKept memory.old memory.new)) }
    ensures memory { (memory.new ≡ memory.old)
        ⊎ ((result ≡ 91) × IsKept memory.old memory.new) }
{
    match put_nearest(memory, checksum, text, erasures, errors, texts) {
        Ok(listed) => counted(listed, count),
        Err(refusal) => refusal.number(),
    }
}
