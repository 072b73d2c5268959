//! The checksum of a descriptor put into a buffer, and the number of a refusal.

ghost use Rattle.std.specs.Prelude.{◌≡◌, ◌<◌, ◌≤◌, length, None, position, IfErr, IfOk, IsOk, OnErr};
ghost use Rattle.bech32_descriptor.specs.Descriptor.{is_stranger};
ghost use Rattle.bech32_more_calls.specs.descriptor.Checks.{IsPutFault, PutsChecksum, number_of_check};

use bech32_descriptor::{CheckError, checksum};
use bech32_encode::put_at_front;

/// Why a checksum is not put into a buffer.
#[derive(Clone, Copy)]
pub enum PutError {
    /// A byte, at this place, is no character of a descriptor.
    Character(usize),
    /// The buffer is too small.
    NoRoom,
}

/// Puts the checksum of a descriptor at the front of a buffer.
///
/// # Errors
///
/// The first of: a byte that is no character of a descriptor; a buffer of less than eight bytes.
pub fn put_checksum(text: &[u8], buffer: &mut [u8]) -> Result<(), PutError>
    ensures value { IfOk result (λ _. PutsChecksum text.now buffer.old buffer.new) }
    ensures accepts { position is_stranger text.now ≡ None → 8 ≤ length buffer.old → IsOk result }
    ensures refused { IfErr result (λ e. IsPutFault text.now (length buffer.old) e) }
    ensures same { OnErr result (buffer.new ≡ buffer.old) }
{
    match checksum(text) {
        Ok(letters) => {
            if buffer.len() < 8 {
                return Err(PutError::NoRoom);
            }
            put_at_front(buffer, &letters);
            Ok(())
        }
        Err(e) => Err(PutError::Character(e.place)),
    }
}

/// The number of a refusal of a descriptor with its checksum.
pub fn check_number(e: CheckError) -> u32
    ensures value { result ≡ number_of_check e }
    ensures some { 0 < result }
{
    match e {
        CheckError::NoChecksum => 88,
        CheckError::InvalidCharacter(_) => 80,
        CheckError::WrongChecksum => 33,
    }
}
