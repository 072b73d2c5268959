//! Numbers in hexadecimal digits, which std writes up to 64 bits alone.

ghost use Rattle.std.specs.Prelude.{◌≡◌, ◌≤◌, ◌<◌, ◌++◌, Some, codes, false};
ghost use Rattle.std.specs.Fmt.{WritesOnOk, digit_glyph};
ghost use Rattle.bech32_block.specs.Hex.{padded_hex};

use std::fmt;

// The character of a digit below 16.
fn glyph(digit: u8) -> char
    requires { digit < 16 }
    ensures value { result ≡ digit_glyph false digit }
    ensures ascii { result < 128 }
{
    if digit < 10 {
        (48 + digit) as char
    } else {
        (87 + digit) as char
    }
}

// Writes the lowest digits of a number, the highest first.
#[tactic(auto, unfolding(crate::specs::Hex::padded_hex))]
fn write_digits<W: fmt::Write>(word: u128, count: usize, f: &mut fmt::Formatter<W>) -> fmt::Result
    requires { count ≤ 32 }
    ensures { WritesOnOk W.write_str_gives f.old result (padded_hex count word) f.new }
{
    if count == 0 {
        return Ok(());
    }
    let rest = count - 1;
    f.write_char(glyph(((word >> (4 * rest)) % 16) as u8))?;
    write_digits(word, rest, f)
}

/// A number, shown as `0x` and this many digits.
#[derive(Clone, Copy)]
pub(crate) struct Hex {
    pub(crate) word: u128,
    pub(crate) digits: usize,
    pub(crate) ghost few: { digits ≤ 32 },
}

impl fmt::Display for Hex {
    ghost output = { λ x. Some (codes "0x" ++ padded_hex x.digits x.word) };

    fn fmt<W: fmt::Write>(&self, f: &mut fmt::Formatter<W>) -> fmt::Result {
        f.write_str("0x")?;
        write_digits(self.word, self.digits, f)
    }
}
