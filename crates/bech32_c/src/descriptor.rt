//! Output descriptors: their checksums, and those that one edit makes of a text.

ghost use Rattle.std.specs.Prelude.{◌≡◌, ◌≢◌, ◌<◌, ◌≤◌, ◌⊎◌, length, position, None, Some};
ghost use Rattle.caller_memory.specs.Memory.{IsKept};
ghost use Rattle.bech32_descriptor.specs.Descriptor.{IsCheckRefusal, IsDescriptor, is_stranger, stranger_in};
ghost use Rattle.bech32_descriptor.specs.Pairs.{max_length_for_two};
ghost use Rattle.bech32_descriptor.specs.declared.error.CheckError.{CheckError as ACheckError};
ghost use Rattle.bech32_more_calls.specs.descriptor.Checks.{IsPutFault, PutsChecksum, number_of_check, number_of_put};
ghost use Rattle.bech32_more_calls.specs.descriptor.Mends.{IsMendFault, PutsFirstMends, PutsMends, number_of_mend};
ghost use Rattle.bech32_more_calls.specs.descriptor.TwoMends.{IsTwoMendFault, PutsFirstTwoMends, PutsTwoMends};
ghost use Rattle.bech32_more_calls.specs.declared.descriptor.checks.PutError.{PutError as APutError};
ghost use Rattle.bech32_more_calls.specs.declared.descriptor.mends.MendRefusal.{MendRefusal as AMendRefusal};

use crate::listed::counted;
use bech32_descriptor::{CheckError, check};
use bech32_more_calls::descriptor::checks::{PutError, check_number, put_checksum};
use bech32_more_calls::descriptor::mends::put_mends;
use bech32_more_calls::descriptor::two_mends::put_two_mends;
use caller_memory::Memory;

/// See `bech32_descriptor_checksum` in `include/bech32.h`.
#[unsafe(no_mangle)]
pub extern "C" fn bech32_descriptor_checksum(
    text: &[u8],
    checksum: &mut [u8],
    checksum_length: &mut usize,
    place: &mut usize,
) -> u32
    ensures value { result ≡ 0 → PutsChecksum text.now checksum.old checksum.new
        × (checksum_length.new ≡ 8) }
    ensures accepts { position is_stranger text.now ≡ None → 8 ≤ length checksum.old
        → result ≡ 0 }
    ensures refused { result ≢ 0 → (e : APutError)
        × IsPutFault text.now (length checksum.old) e × (result ≡ number_of_put e) }
    ensures place { (result ≡ 80 → position is_stranger text.now ≡ Some place.new)
        × (result ≢ 80 → place.new ≡ place.old) }
    ensures same { result ≢ 0
        → (checksum.new ≡ checksum.old) × (checksum_length.new ≡ checksum_length.old) }
{
    match put_checksum(text, checksum) {
        Ok(()) => {
            *checksum_length = 8;
            0
        }
        Err(PutError::Character(i)) => {
            *place = i;
            80
        }
        Err(PutError::NoRoom) => 92,
    }
}

/// See `bech32_descriptor_check` in `include/bech32.h`.
#[unsafe(no_mangle)]
pub extern "C" fn bech32_descriptor_check(text: &[u8], place: &mut usize) -> u32
    ensures value { result ≡ 0 → IsDescriptor text.now }
    ensures accepts { IsDescriptor text.now → result ≡ 0 }
    ensures refused { result ≢ 0
        → (e : ACheckError) × IsCheckRefusal text.now e × (result ≡ number_of_check e) }
    ensures place { (result ≡ 80 → stranger_in text.now ≡ Some place.new)
        × (result ≢ 80 → place.new ≡ place.old) }
{
    match check(text) {
        Ok(()) => 0,
        Err(e) => {
            if let CheckError::InvalidCharacter(i) = e {
                *place = i;
            }
            check_number(e)
        }
    }
}

/// See `bech32_descriptor_mend` in `include/bech32.h`.
#[unsafe(no_mangle)]
pub extern "C" fn bech32_descriptor_mend(
    text: &[u8],
    changed: usize,
    memory: &mut Memory,
    kinds: &mut [u8],
    places: &mut [usize],
    texts: &mut [u8],
    count: &mut usize,
) -> u32
    ensures value { result ≡ 0 → PutsMends changed text.now kinds.old kinds.new
        places.old places.new texts.old texts.new count.new }
    ensures first { result ≡ 92 → PutsFirstMends changed text.now kinds.old kinds.new
        places.old places.new texts.old texts.new count.new }
    ensures accepts { changed ≤ 1 → length text.now ≤ 7500
        → (result ≡ 0) ⊎ ((result ≡ 92) ⊎ (result ≡ 91)) }
    ensures refused { result ≢ 0 → result ≢ 92 → (e : AMendRefusal)
        × IsMendFault changed text.now e × (result ≡ number_of_mend e) }
    ensures same { result ≢ 0 → result ≢ 92 → (count.new ≡ count.old)
        × (((kinds.new ≡ kinds.old) × (places.new ≡ places.old) × (texts.new ≡ texts.old))
        ⊎ ((result ≡ 91) × IsKept memory.old memory.new)) }
    ensures memory { (memory.new ≡ memory.old)
        ⊎ ((result ≡ 91) × IsKept memory.old memory.new) }
{
    match put_mends(memory, text, changed, kinds, places, texts) {
        Ok(listed) => counted(listed, count),
        Err(refusal) => refusal.number(),
    }
}

/// See `bech32_descriptor_mend_two` in `include/bech32.h`.
#[unsafe(no_mangle)]
pub extern "C" fn bech32_descriptor_mend_two(
    text: &[u8],
    memory: &mut Memory,
    places: &mut [usize],
    texts: &mut [u8],
    count: &mut usize,
) -> u32
    ensures value { result ≡ 0 → PutsTwoMends text.now places.old places.new
        texts.old texts.new count.new }
    ensures first { result ≡ 92 → PutsFirstTwoMends text.now places.old places.new
        texts.old texts.new count.new }
    ensures accepts { length text.now ≤ max_length_for_two
        → (result ≡ 0) ⊎ ((result ≡ 92) ⊎ (result ≡ 91)) }
    ensures refused { result ≢ 0 → result ≢ 92 → (e : AMendRefusal)
        × IsTwoMendFault text.now e × (result ≡ number_of_mend e) }
    ensures same { result ≢ 0 → result ≢ 92 → (count.new ≡ count.old)
        × (((places.new ≡ places.old) × (texts.new ≡ texts.old))
        ⊎ ((result ≡ 91) × IsKept memory.old memory.new)) }
    ensures memory { (memory.new ≡ memory.old)
        ⊎ ((result ≡ 91) × IsKept memory.old memory.new) }
{
    match put_two_mends(memory, text, places, texts) {
        Ok(listed) => counted(listed, count),
        Err(refusal) => refusal.number(),
    }
}
