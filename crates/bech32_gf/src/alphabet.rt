//! Which bytes are characters of the alphabet.

ghost use Rattle.std.specs.Prelude.{◌≡◌};
ghost use Rattle.bech32_gf.specs.Alphabet.{is_of_alphabet};

/// Whether a byte is of the alphabet, in either case: a letter or a digit, and none of `1`, `b`,
/// `i` and `o`.
///
/// No branch and no address depends on the byte, so that many bytes can be tested at a time, and
/// secret ones too.
#[inline]
pub fn is_data_byte(b: u8) -> bool
    ensures { result ≡ is_of_alphabet b }
{
    let lower = b | 32;
    // 0 where one of these four is the same byte: quicker for many bytes than four comparisons.
    let apart = (lower ^ b'1')
        .min(lower ^ b'b')
        .min(lower ^ b'i')
        .min(lower ^ b'o');
    b.is_ascii_alphanumeric() & (apart != 0)
}
