//! Writes bytes at the front of a buffer.

ghost use Rattle.std.specs.Prelude.{◌≤◌, length};
ghost use Rattle.bech32_encode.specs.Buffers.{IsPut};

/// Puts bytes at the front of a buffer that has room for them.
pub fn put_at_front(buffer: &mut [u8], bytes: &[u8])
    requires { length bytes.now ≤ length buffer.old }
    ensures { IsPut bytes.now buffer.old buffer.new (length bytes.now) }
{
    buffer[..bytes.len()].copy_from_slice(bytes);
}
