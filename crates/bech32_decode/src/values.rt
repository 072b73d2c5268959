//! Elements as bytes, eight at a time.

ghost use Rattle.std.specs.Prelude.{◌≡◌, ◌≤◌, ◌<◌, ◌^◌, All, Any, MatchOption, bit_and, length, map, take};
ghost use Rattle.bech32_gf.specs.Fe32.{element};
ghost use Rattle.bech32_checksum.specs.Word.{word_elements};
ghost use Rattle.bech32_decode.specs.Values.{byte_elements};

// Eight bytes below 32 as a word of 40 bits: two are put together at each of four places, then four
// at each of two, then all.
#[inline(always)]
fn packed(bytes: u64) -> u64
    requires { bit_and bytes 0xe0e0e0e0e0e0e0e0 ≡ 0 }
    ensures elements { word_elements result ≡ byte_elements bytes }
    ensures small { result < 2 ^ 40 }
{
    let twos = bytes - (bytes >> 8 & 0x001f_001f_001f_001f) * 224;
    let fours = twos - (twos >> 16 & 0x0000_03ff_0000_03ff) * 0xfc00;
    (fours >> 32) * 0x10_0000 + (fours & 0xffff_ffff)
}

/// The word of the elements of the first eight values; nothing where one of these is above 31.
#[inline]
pub fn word_of_values(values: &[u8]) -> Option<u64>
    requires { 8 ≤ length values.now }
    ensures { MatchOption result
        (Any (λ x. 31 < x) (take 8 values.now))
        (λ word. All (λ x. x ≤ 31) (take 8 values.now)
        × (word_elements word ≡ map element (take 8 values.now)) × (word < 2 ^ 40)) }
{
    let bytes = u64::from_be_bytes([
        values[0], values[1], values[2], values[3], values[4], values[5], values[6], values[7],
    ]);
    if bytes & 0xe0e0_e0e0_e0e0_e0e0 != 0 {
        return None;
    }
    Some(packed(bytes))
}
