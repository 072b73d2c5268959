//! Puts what is said of rows into buffers.

ghost use Rattle.std.specs.Prelude.{◌≡◌, ◌≤◌, ◌+◌, ◌++◌, ℕ, List, [], ◌∷◌, true, length, min};
ghost use Rattle.bech32_bits.specs.Bits.{to_bytes};
ghost use Rattle.bech32_gf.specs.Alphabet.{is_data};
ghost use Rattle.bech32_gf.specs.Fe32.{elements_of};
ghost use Rattle.bech32_more_calls.specs.columns.Arrays.{Fills};

use bech32_decode::put_data_bytes;

/// How many bytes offsets of 32 bits lead to in a buffer.
pub(crate) fn room_in(buffer: &[u8]) -> usize
    ensures { result ≡ min (length buffer.now) 2_147_483_647 }
{
    buffer.len().min(0x7FFF_FFFF)
}

/// Puts an item behind those before it, where there is room.
#[inline(always)]
pub(crate) fn put_item<T: Copy>(buffer: &mut [T], i: usize, item: T)
    ensures { (items start : List T) → length items ≡ i → Fills items start buffer.old
        → Fills (items ++ item ∷ []) start buffer.new }
{
    if i < buffer.len() {
        buffer[i] = item;
    }
}

/// Puts the bytes of characters behind those before them.
#[inline(always)]
pub(crate) fn put_data(buffer: &mut [u8], end: usize, characters: &[u8])
    requires data { is_data characters.now ≡ true }
    requires room { end + length (to_bytes (elements_of characters.now)) ≤ length buffer.old }
    ensures { (items start : List ℕ) → length items ≡ end → Fills items start buffer.old
        → Fills (items ++ to_bytes (elements_of characters.now)) start buffer.new }
{
    put_data_bytes(characters, &mut buffer[end..]);
}
