//! Proposes the nearest text to a damaged codex32 string of either length.

ghost use Rattle.std.specs.Prelude.{◌≡◌, ◌≢◌, ◌⊎◌, length};
ghost use Rattle.caller_memory.specs.Memory.{IsKept};
ghost use Rattle.codex32_calls.specs.Faults.{IsNumberOfCodex32};
ghost use Rattle.codex32_calls.specs.Propose.{CanPropose, IsProposeFault, PutsNearest};

use caller_memory::Memory;
use codex32_calls::propose::{Kind, nearest_of};

/// See `codex32_propose` in `include/codex32.h`.
#[unsafe(no_mangle)]
pub extern "C" fn codex32_propose(
    text: &[u8],
    memory: &mut Memory,
    proposed: &mut [u8],
    proposed_length: &mut usize,
) -> u32
    ensures value { result ≡ 0
        → PutsNearest Kind.Short text.now proposed.old proposed.new proposed_length.new }
    ensures accepts { CanPropose Kind.Short text.now (length proposed.old)
        → (result ≡ 0) ⊎ (result ≡ 91) }
    ensures refused { result ≢ 0
        → IsNumberOfCodex32 (IsProposeFault Kind.Short text.now (length proposed.old)) result }
    ensures same { result ≢ 0
        → (proposed.new ≡ proposed.old) × (proposed_length.new ≡ proposed_length.old) }
    ensures memory { (memory.new ≡ memory.old)
        ⊎ ((result ≡ 91) × IsKept memory.old memory.new) }
{
    match nearest_of(memory, Kind::Short, text, proposed) {
        Ok(count) => {
            *proposed_length = count;
            0
        }
        Err(refusal) => refusal.number(),
    }
}

/// See `codex32_propose_long` in `include/codex32.h`.
#[unsafe(no_mangle)]
pub extern "C" fn codex32_propose_long(
    text: &[u8],
    memory: &mut Memory,
    proposed: &mut [u8],
    proposed_length: &mut usize,
) -> u32
    ensures value { result ≡ 0
        → PutsNearest Kind.Long text.now proposed.old proposed.new proposed_length.new }
    ensures accepts { CanPropose Kind.Long text.now (length proposed.old)
        → (result ≡ 0) ⊎ (result ≡ 91) }
    ensures refused { result ≢ 0
        → IsNumberOfCodex32 (IsProposeFault Kind.Long text.now (length proposed.old)) result }
    ensures same { result ≢ 0
        → (proposed.new ≡ proposed.old) × (proposed_length.new ≡ proposed_length.old) }
    ensures memory { (memory.new ≡ memory.old)
        ⊎ ((result ≡ 91) × IsKept memory.old memory.new) }
{
    match nearest_of(memory, Kind::Long, text, proposed) {
        Ok(count) => {
            *proposed_length = count;
            0
        }
        Err(refusal) => refusal.number(),
    }
}
