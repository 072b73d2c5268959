//! Says in words what a number means.
//!
//! Made by tools/make (tools/make.d/small_surfaces) from
//! `crates/bech32_c/src/message.rt`; do not edit.

ghost use Rattle.bech32_numbers.specs.Message.{IsMessage};
ghost use Rattle.bech32_numbers.specs.Sentences.{bech32_sentence};

use bech32_numbers::{bech32_sentence_of, put_sentence};

/// See `bech32_message` in `include/bech32.h`.
#[unsafe(no_mangle)]
pub extern "C" fn bech32_message(number: u32, message: &mut [u8], message_length: &mut usize) -> u32
    ensures { IsMessage (bech32_sentence number) message.old message.new
        message_length.old message_length.new result }
{
    put_sentence(bech32_sentence_of(number), message, message_length)
}
