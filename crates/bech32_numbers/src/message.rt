//! Puts sentences into the buffers of C callers.

ghost use Rattle.std.specs.Prelude.{◌≤◌, length};
ghost use Rattle.bech32_numbers.specs.Message.{IsMessage};

use bech32_encode::put_at_front;

/// Puts a sentence at the front of a buffer, and tells its length.
///
/// Returns 0, or 92 where the buffer has no room for the sentence: then nothing changes.
#[inline]
pub fn put_sentence(sentence: &str, message: &mut [u8], message_length: &mut usize) -> u32
    requires { length sentence.now ≤ 100 }
    ensures { IsMessage sentence.now message.old message.new
        message_length.old message_length.new result }
{
    let sentence = sentence.as_bytes();
    if sentence.len() > message.len() {
        return 92;
    }
    put_at_front(message, sentence);
    *message_length = sentence.len();
    0
}
