//! Puts whole texts into buffers.

ghost use Rattle.std.specs.Prelude.{◌≡◌, ◌≤◌, ◌+◌, ◌%◌, ◌++◌, ℕ, List, [], ◌∷◌, Option, map, reverse};
ghost use Rattle.std.specs.Prelude.{option_to_list};
ghost use Rattle.std.specs.Prelude.{length, take, drop};
ghost use Rattle.std.specs.Iterator.{Drains, IsFinite};
ghost use Rattle.bech32_gf.specs.declared.gf32.Fe32.{Fe32 as Element};
ghost use Rattle.bech32_encode.specs.Buffers.{IsPutAsFits, PutsBehind};
ghost use Rattle.bech32_checksum.specs.Code.{IsResidueAfter};
ghost use Rattle.bech32_checksum.specs.Encoded.{char_of_element, IsEncodedText};
ghost use Rattle.bech32_bits.specs.Bits.{to_fes};
ghost use Rattle.bech32_encode.specs.Cased.{in_case};
ghost use Rattle.bech32_encode.specs.TextFrom.{text_front};
ghost use Rattle.bech32_hrp.specs.HrpBytes.{hrp_bytes};
ghost use Rattle.bech32_checksum.specs.Packed.{digits};

use crate::pairs::put_two;
use bech32_bits::ByteIterExt;
use bech32_checksum::{Checksum, Engine, PackedFe32};
use bech32_gf::gf32::Fe32;
use bech32_hrp::Hrp;

// Puts a byte behind those that were put, where there is room, and returns how many there are.
#[inline]
pub(super) fn put_byte(byte: u8, count: usize, buffer: &mut [u8]) -> usize
    ensures { PutsBehind (byte ∷ []) buffer.old count buffer.new result }
{
    if count < buffer.len() {
        buffer[count] = byte;
        count + 1
    } else {
        count
    }
}

// Puts the human-readable part in lower case and `1`.
pub(super) fn put_front(hrp: &Hrp, buffer: &mut [u8]) -> usize
    ensures { PutsBehind (text_front (hrp_bytes hrp.now)) buffer.old 0 buffer.new result }
{
    put_front_of(hrp.as_bytes(), buffer)
}

// The same of the bytes of a human-readable part.
#[inline]
pub(super) fn put_front_of(part: &[u8], buffer: &mut [u8]) -> usize
    ensures { PutsBehind (text_front part.now) buffer.old 0 buffer.new result }
{
    let mut count = 0;
    for b in part {
        count = put_byte(b.to_ascii_lowercase(), count, buffer);
    }
    put_byte(b'1', count, buffer)
}

// Puts the character of an element, and hands the element to the engine.
#[inline]
fn put_element<Ck: Checksum>(
    element: Fe32,
    engine: &mut Engine<Ck>,
    count: usize,
    buffer: &mut [u8],
) -> usize
    ensures text { PutsBehind (char_of_element element ∷ []) buffer.old count buffer.new result }
    ensures residue { IsResidueAfter Ck.MidstateRepr.number Ck.code engine.old
        (element ∷ []) engine.new }
{
    engine.input_fe(element);
    put_byte(element.to_char() as u8, count, buffer)
}

// Puts the character of the version where there is one, and hands it to the engine.
#[inline]
pub(super) fn put_version<Ck: Checksum>(
    version: Option<Fe32>,
    engine: &mut Engine<Ck>,
    count: usize,
    buffer: &mut [u8],
) -> usize
    ensures text { PutsBehind (map char_of_element (option_to_list version))
        buffer.old count buffer.new result }
    ensures residue { IsResidueAfter Ck.MidstateRepr.number Ck.code engine.old
        (option_to_list version) engine.new }
{
    match version {
        Some(version) => put_element(version, engine, count, buffer),
        None => count,
    }
}

// Puts the characters of elements, and hands the elements to the engine.
#[inline]
pub(super) fn put_elements<I: Iterator<Item = Fe32>, Ck: Checksum>(
    elements: I,
    engine: &mut Engine<Ck>,
    count: usize,
    buffer: &mut [u8],
) -> usize
    requires can { I.can_next elements }
    requires finite { IsFinite (I.remaining elements) }
    ensures { (fes : List Element) × Drains I.next_gives elements fes
        × PutsBehind (map char_of_element fes) buffer.old count buffer.new result
        × IsResidueAfter Ck.MidstateRepr.number Ck.code engine.old fes engine.new }
{
    let mut count = count;
    for fe in elements {
        count = put_element(fe, engine, count, buffer);
    }
    count
}

// Puts the characters of the lowest elements of a packed row, the highest first, one by one.
#[inline(never)]
fn put_row_each<R: PackedFe32>(row: &R, size: usize, count: usize, buffer: &mut [u8]) -> usize
    requires { size ≤ R.WIDTH }
    ensures { PutsBehind (map char_of_element (reverse (digits size (R.number row.now))))
        buffer.old count buffer.new result }
{
    let mut count = count;
    for i in 0..size {
        let fe = Fe32::from_low_bits(row.unpack(size - 1 - i));
        count = put_byte(fe.to_char() as u8, count, buffer);
    }
    count
}

// Puts the characters of an even number of the lowest elements of a packed row at a place, where
// there is room for all.
#[inline]
fn put_row_in_room<R: PackedFe32>(row: &R, size: usize, at: usize, buffer: &mut [u8])
    requires within { size ≤ R.WIDTH }
    requires even { size % 2 ≡ 0 }
    requires room { at + size ≤ length buffer.old }
    ensures { buffer.new ≡ take at buffer.old
        ++ (map char_of_element (reverse (digits size (R.number row.now)))
        ++ drop (at + size) buffer.old) }
{
    for pair in 0..size / 2 {
        let first = usize::from(row.unpack(size - 1 - 2 * pair));
        let second = usize::from(row.unpack(size - 2 - 2 * pair));
        put_two(first * 32 + second, at + 2 * pair, buffer);
    }
}

// Puts the characters of the lowest elements of a packed row, the highest first.
#[inline]
pub(super) fn put_row<R: PackedFe32>(row: &R, size: usize, count: usize, buffer: &mut [u8]) -> usize
    requires { size ≤ R.WIDTH }
    ensures { PutsBehind (map char_of_element (reverse (digits size (R.number row.now))))
        buffer.old count buffer.new result }
{
    if size == 0 || size % 2 == 1 || count > buffer.len() || buffer.len() - count < size {
        return put_row_each(row, size, count, buffer);
    }
    put_row_in_room(row, size, count, buffer);
    count + size
}

/// Puts the text of a human-readable part, a witness version where there is one, and elements at
/// the front of a buffer that has room for it, and returns its length (BIP-173, Bech32).
///
/// Into a buffer that has no room for the whole text goes as much of it as fits; the answer is then
/// the buffer's length.
pub fn put_text<I: Iterator<Item = Fe32>, Ck: Checksum>(
    hrp: &Hrp,
    version: Option<Fe32>,
    elements: I,
    buffer: &mut [u8],
) -> usize
    requires can { I.can_next elements }
    requires finite { IsFinite (I.remaining elements) }
    ensures { (fes : List Element) × (text : List ℕ) × Drains I.next_gives elements fes
        × IsEncodedText Ck.code (hrp_bytes hrp.now) (option_to_list version ++ fes) text
        × IsPutAsFits text buffer.old buffer.new result }
{
    let mut engine = Engine::<Ck>::new();
    engine.input_hrp(*hrp);
    let front = put_front(hrp, buffer);
    let start = put_version(version, &mut engine, front, buffer);
    let end = put_elements(elements, &mut engine, start, buffer);
    engine.input_target_residue();
    put_row(engine.residue(), Ck::CHECKSUM_LENGTH, end, buffer)
}

// Puts the characters of the elements of bytes one by one, and hands these to the engine.
pub(super) fn put_rest<Ck: Checksum>(
    bytes: &[u8],
    engine: &mut Engine<Ck>,
    count: usize,
    buffer: &mut [u8],
) -> usize
    ensures text { PutsBehind (map char_of_element (to_fes bytes.now))
        buffer.old count buffer.new result }
    ensures residue { IsResidueAfter Ck.MidstateRepr.number Ck.code engine.old
        (to_fes bytes.now) engine.new }
{
    let elements = bytes.iter().copied().bytes_to_fes();
    put_elements(elements, engine, count, buffer)
}

// Puts the front of a buffer in upper case, where that is asked for.
pub(super) fn raise_front(upper: bool, count: usize, buffer: &mut [u8])
    requires { count ≤ length buffer.old }
    ensures { buffer.new ≡ in_case upper (take count buffer.old) ++ drop count buffer.old }
{
    if upper {
        buffer[..count].make_ascii_uppercase();
    }
}
