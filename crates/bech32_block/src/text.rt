//! The parts of a block's text.

ghost use Rattle.std.specs.Prelude.{◌≡◌, ◌≤◌, Some, reverse};
ghost use Rattle.std.specs.Fmt.{WritesOnOk};
ghost use Rattle.std.specs.List.{flat_map};
ghost use Rattle.bech32_block.specs.Block.{characters, word_line};
ghost use Rattle.bech32_block.specs.Representation.{representation, hex_digits};

use crate::hex::Hex;
use bech32_gf::field::Bech32Field;
use bech32_gf::gf32::Fe32;
use std::fmt;

/// Elements, shown as their characters.
#[derive(Clone, Copy)]
pub(crate) struct Characters<'a>(pub(crate) &'a [Fe32]);

impl fmt::Display for Characters<'_> {
    ghost output = { λ x. Some (characters x.0.now) };

    fn fmt<W: fmt::Write>(&self, f: &mut fmt::Formatter<W>) -> fmt::Result {
        for element in self.0 {
            f.write_char(element.to_char())?;
        }
        Ok(())
    }
}

/// Elements, shown as their characters from the last one to the first.
#[derive(Clone, Copy)]
pub(crate) struct Reversed<'a>(pub(crate) &'a [Fe32]);

impl fmt::Display for Reversed<'_> {
    ghost output = { λ x. Some (characters (reverse x.0.now)) };

    fn fmt<W: fmt::Write>(&self, f: &mut fmt::Formatter<W>) -> fmt::Result {
        write_reversed(self.0, f)
    }
}

// Writes the characters of elements from the last one to the first.
fn write_reversed<W: fmt::Write>(elements: &[Fe32], f: &mut fmt::Formatter<W>) -> fmt::Result
    ensures { WritesOnOk W.write_str_gives f.old result (characters (reverse elements.now)) f.new }
{
    let Some((last, rest)) = elements.split_last() else {
        return Ok(());
    };
    f.write_char(last.to_char())?;
    write_reversed(rest, f)
}

/// An element, shown as Rust code.
#[derive(Clone, Copy)]
pub(crate) struct Code<E>(pub(crate) E);

impl<E: Bech32Field> fmt::Display for Code<E> {
    ghost output = { λ x. Some (E.rust_code x.0) };

    fn fmt<W: fmt::Write>(&self, f: &mut fmt::Formatter<W>) -> fmt::Result {
        self.0.format_as_rust_code(f)
    }
}

/// Words, each shown on a line of its own.
#[derive(Clone, Copy)]
pub(crate) struct WordLines<'a> {
    pub(crate) words: &'a [u128],
    pub(crate) digits: usize,
    pub(crate) ghost few: { digits ≤ 32 },
}

impl fmt::Display for WordLines<'_> {
    ghost output = { λ x. Some (flat_map (word_line x.digits) x.words.now) };

    fn fmt<W: fmt::Write>(&self, f: &mut fmt::Formatter<W>) -> fmt::Result {
        for word in self.words {
            let word = Hex {
                word: *word,
                digits: self.digits,
            };
            write!(f, "        {word},\n")?;
        }
        Ok(())
    }
}

/// How many hexadecimal digits the words of a degree have.
pub(crate) fn digits_of_degree(degree: usize) -> usize
    ensures value { result ≡ hex_digits degree }
    ensures bound { result ≤ 32 }
{
    if degree <= 6 {
        8
    } else if degree <= 12 {
        16
    } else {
        32
    }
}

/// The name of the type of the words of a degree.
pub(crate) fn type_of_degree(degree: usize) -> &'static str
    ensures { result.now ≡ representation degree }
{
    if degree <= 6 {
        "u32"
    } else if degree <= 12 {
        "u64"
    } else {
        "u128"
    }
}
