//! Puts whole texts into buffers, an element at a time.

ghost use Rattle.std.specs.Prelude.{◌≤◌, ◌+◌, ◌++◌, ℕ, List, map, reverse, length, option_to_list};
ghost use Rattle.std.specs.Iterator.{Drains, IsFinite};
ghost use Rattle.bech32_bits.specs.Bits.{to_fes};
ghost use Rattle.bech32_checksum.specs.Code.{Code, IsResidueAfter, bech32m};
ghost use Rattle.bech32_checksum.specs.Encoded.{char_of_element, IsEncodedText};
ghost use Rattle.bech32_checksum.specs.Packed.{digits};
ghost use Rattle.bech32_encode.specs.Buffers.{IsPut, IsPutAsFits, PutsBehind};
ghost use Rattle.bech32_encode.specs.TextFrom.{text_front};
ghost use Rattle.bech32_gf.specs.declared.gf32.Fe32.{Fe32 as Element};
ghost use Rattle.bech32_small.specs.Target.{PacksTarget};

use crate::bytes::put_byte;
use bech32_bits::ByteIterExt;
use bech32_checksum::{Bech32m, Engine, PackedFe32};
use bech32_encode::WitnessVersionIter;
use bech32_gf::gf32::Fe32;

// Puts the human-readable part in lower case and `1`.
fn put_front(part: &[u8], buffer: &mut [u8]) -> usize
    ensures { PutsBehind (text_front part.now) buffer.old 0 buffer.new result }
{
    let mut count = 0;
    for b in part {
        count = put_byte(b.to_ascii_lowercase(), count, buffer);
    }
    put_byte(b'1', count, buffer)
}

// Hands the elements of a packed row to the engine, the highest first.
fn input_row(row: u32, engine: &mut Engine<Bech32m>)
    ensures { IsResidueAfter (λ (n : ℕ). n) bech32m engine.old
        (reverse (digits 6 row)) engine.new }
{
    for i in 0..6 {
        engine.input_fe(Fe32::from_low_bits(row.unpack(5 - i)));
    }
}

// Puts the characters of the elements of a packed row, the highest first.
fn put_row(row: u32, count: usize, buffer: &mut [u8]) -> usize
    ensures { PutsBehind (map char_of_element (reverse (digits 6 row)))
        buffer.old count buffer.new result }
{
    let mut count = count;
    for i in 0..6 {
        let fe = Fe32::from_low_bits(row.unpack(5 - i));
        count = put_byte(fe.to_char() as u8, count, buffer);
    }
    count
}

// Puts the text of a human-readable part and elements, by the checksum with a target, at the front
// of a buffer that has room for it, and returns its length.
fn put_text<I: Iterator<Item = Fe32>>(
    target: u32,
    part: &[u8],
    elements: I,
    buffer: &mut [u8],
) -> usize
    requires can { I.can_next elements }
    requires finite { IsFinite (I.remaining elements) }
    ensures { (code : Code) → PacksTarget target code → (fes : List Element)
        × Drains I.next_gives elements fes
        × ((text : List ℕ) × IsEncodedText code part.now fes text
        × IsPutAsFits text buffer.old buffer.new result) }
{
    let mut engine = Engine::<Bech32m>::new();
    engine.input_part(part);
    let mut count = put_front(part, buffer);
    for fe in elements {
        engine.input_fe(fe);
        count = put_byte(fe.to_char() as u8, count, buffer);
    }
    input_row(target, &mut engine);
    put_row(*engine.residue(), count, buffer)
}

/// Puts the text of a human-readable part, a witness version where there is one, and bytes, by the
/// checksum with a target, into a buffer that has room for it, and returns its length.
#[inline(never)]
pub(crate) fn put_in_room(
    target: u32,
    part: &[u8],
    version: Option<Fe32>,
    bytes: &[u8],
    text: &mut [u8],
) -> usize
    requires { length part.now + 1 + length (option_to_list version ++ to_fes bytes.now) + 6
        ≤ length text.old }
    ensures { (code : Code) → PacksTarget target code → (written : List ℕ)
        × IsEncodedText code part.now (option_to_list version ++ to_fes bytes.now) written
        × IsPut written text.old text.new result }
{
    let elements = WitnessVersionIter::new(version, bytes.iter().copied().bytes_to_fes());
    put_text(target, part, elements, text)
}
