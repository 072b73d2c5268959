//! Says where the fault of a text stands.

ghost use Rattle.bech32_calls.specs.FaultCall.{IsFaultCall};

use bech32_calls::fault::{number_of, place_of};

/// See `bech32_fault` in `include/bech32.h`.
#[unsafe(no_mangle)]
pub extern "C" fn bech32_fault(checksum: u32, text: &[u8], place: &mut usize) -> u32
    ensures { IsFaultCall checksum text.now place.old place.new result }
{
    let number = number_of(checksum, text);
    *place = place_of(text, number).unwrap_or(*place);
    number
}
