//! Puts bytes into buffers, one at a time.

ghost use Rattle.std.specs.Prelude.{[], ◌∷◌};
ghost use Rattle.bech32_encode.specs.Buffers.{PutsBehind};

/// Puts a byte behind those that were put, where there is room, and returns how many there are.
pub(crate) fn put_byte(byte: u8, count: usize, buffer: &mut [u8]) -> usize
    ensures { PutsBehind (byte ∷ []) buffer.old count buffer.new result }
{
    if count < buffer.len() {
        buffer[count] = byte;
        count + 1
    } else {
        count
    }
}
