//! Encodes, decodes and mends confidential addresses of Liquid.

ghost use Rattle.std.specs.Prelude.{◌≡◌, ◌≢◌, ◌<◌, ◌≤◌, ◌*◌, ◌⊎◌, length};
ghost use Rattle.caller_memory.specs.Memory.{IsKept};
ghost use Rattle.blech32.specs.Words.{blech32_code};
ghost use Rattle.bech32_calls.specs.Faults.{IsNumberOf};
ghost use Rattle.bech32_calls.specs.Nearest.{IsRead};
ghost use Rattle.liquid.specs.Confidential.{IsConfidentialText};
ghost use Rattle.bech32_more_calls.specs.confidential.Address.{HasRoomForConfidential, IsLiquidDecodeFault, IsLiquidEncodeFault};
ghost use Rattle.bech32_more_calls.specs.confidential.Address.{PutsConfidential, PutsParts};
ghost use Rattle.bech32_more_calls.specs.confidential.Nearest.{IsLiquidAsked, IsLiquidNearFaultOrKept, PutsFirstLiquidNear, PutsLiquidNear};
ghost use Rattle.bech32_more_calls.specs.confidential.Numbers.{IsNumberOfLiquid};

use crate::listed::counted;
use bech32_more_calls::confidential::address::{decoded, encoded};
use bech32_more_calls::confidential::nearest::put_nearest;
use caller_memory::Memory;

/// See `bech32_liquid_encode` in `include/bech32.h`.
#[unsafe(no_mangle)]
pub extern "C" fn bech32_liquid_encode(
    hrp: &[u8],
    version: u32,
    key: &[u8; 33],
    program: &[u8],
    text: &mut [u8],
    text_length: &mut usize,
) -> u32
    ensures value { result ≡ 0 → PutsConfidential hrp.now version key.now program.now
        text.old text.new text_length.new }
    ensures accepts { HasRoomForConfidential hrp.now version (length program.now) (length text.old)
        → result ≡ 0 }
    ensures refused { result ≢ 0 → IsNumberOfLiquid
        (IsLiquidEncodeFault hrp.now version (length program.now) (length text.old)) result }
    ensures same { result ≢ 0 → (text.new ≡ text.old) × (text_length.new ≡ text_length.old) }
{
    match encoded(hrp, version, key, program, text) {
        Ok(count) => {
            *text_length = count;
            0
        }
        Err(refusal) => refusal.number(),
    }
}

/// See `bech32_liquid_decode` in `include/bech32.h`.
#[unsafe(no_mangle)]
pub extern "C" fn bech32_liquid_decode(
    text: &[u8],
    hrp: &mut [u8],
    hrp_length: &mut usize,
    version: &mut u32,
    key: &mut [u8; 33],
    program: &mut [u8],
    program_length: &mut usize,
) -> u32
    ensures value { result ≡ 0 → PutsParts text.now hrp.old hrp.new key.new
        program.old program.new hrp_length.new version.new program_length.new }
    ensures accepts { IsConfidentialText blech32_code text.now
        → 83 ≤ length hrp.old → 32 ≤ length program.old → result ≡ 0 }
    ensures refused { result ≢ 0 → IsNumberOfLiquid
        (IsLiquidDecodeFault text.now (length hrp.old) (length program.old)) result }
    ensures same { result ≢ 0
        → (hrp.new ≡ hrp.old) × (hrp_length.new ≡ hrp_length.old) × (version.new ≡ version.old)
        × (key.new ≡ key.old) × (program.new ≡ program.old)
        × (program_length.new ≡ program_length.old) }
{
    match decoded(text, hrp, key, program) {
        Ok((hrp_count, element, program_count)) => {
            *hrp_length = hrp_count;
            *version = u32::from(element.to_u8());
            *program_length = program_count;
            0
        }
        Err(refusal) => refusal.number(),
    }
}

/// See `bech32_liquid_nearest` in `include/bech32.h`.
#[unsafe(no_mangle)]
pub extern "C" fn bech32_liquid_nearest(
    text: &[u8],
    erasures: &[usize],
    errors: usize,
    memory: &mut Memory,
    texts: &mut [u8],
    count: &mut usize,
) -> u32
    ensures value { result ≡ 0 → PutsLiquidNear blech32_code
        text.now erasures.now errors texts.old texts.new count.new }
    ensures first { result ≡ 92 → PutsFirstLiquidNear blech32_code
        text.now erasures.now errors texts.old texts.new count.new }
    ensures room { result ≡ 92 → length texts.old < count.new * length text.now }
    ensures accepts { IsLiquidAsked erasures.now errors → IsRead text.now blech32_code
        → (result ≡ 0) ⊎ ((result ≡ 92) ⊎ (result ≡ 91)) }
    ensures refused { result ≢ 0 → result ≢ 92 → IsNumberOf (IsLiquidNearFaultOrKept blech32_code
        text.now erasures.now errors memory.old memory.new) result }
    ensures same { result ≢ 0 → result ≢ 92 → (count.new ≡ count.old)
        × ((texts.new ≡ texts.old) ⊎ ((result ≡ 91) × IsKept memory.old memory.new)) }
    ensures memory { (memory.new ≡ memory.old)
        ⊎ ((result ≡ 91) × IsKept memory.old memory.new) }
{
    match put_nearest(memory, text, erasures, errors, texts) {
        Ok(listed) => counted(listed, count),
        Err(refusal) => refusal.number(),
    }
}
