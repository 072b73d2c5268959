//! Words of 40 bits as eight elements.

ghost use Rattle.std.specs.Prelude.{◌≡◌};
ghost use Rattle.bech32_gf.specs.Fe32 as fe32;
ghost use Rattle.bech32_checksum.specs.Word.{word_elements};

use bech32_gf::gf32::Fe32;

// The element of the five bits that stand lowest in a number.
#[inline]
fn lowest(number: u64) -> Fe32
    ensures { result ≡ fe32.element number }
{
    Fe32::from_low_bits((number % 32) as u8)
}

/// The eight elements of a word's lowest forty bits, the highest first.
#[inline]
pub(crate) fn elements_in(word: u64) -> [Fe32; 8]
    ensures { result ≡ word_elements word }
{
    [
        lowest(word / 0x8_0000_0000),
        lowest(word / 0x4000_0000),
        lowest(word / 0x200_0000),
        lowest(word / 0x10_0000),
        lowest(word / 0x8000),
        lowest(word / 0x400),
        lowest(word / 0x20),
        lowest(word),
    ]
}
