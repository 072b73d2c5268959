//! Says in words what a number means.

ghost use Rattle.bech32_numbers.specs.Message.{IsMessage};
ghost use Rattle.bech32_numbers.specs.Sentences.{codex32_sentence};

use bech32_numbers::{codex32_sentence_of, put_sentence};

/// See `codex32_message` in `include/codex32.h`.
#[unsafe(no_mangle)]
pub extern "C" fn codex32_message(
    number: u32,
    message: &mut [u8],
    message_length: &mut usize,
) -> u32
    ensures { IsMessage (codex32_sentence number) message.old message.new
        message_length.old message_length.new result }
{
    put_sentence(codex32_sentence_of(number), message, message_length)
}
