//! Puts the characters of bytes into a buffer, group by group: five bytes are eight characters.

ghost use Rattle.std.specs.Prelude.{◌≡◌, ◌≤◌, ◌<◌, ◌+◌, ◌*◌, ◌/◌, ◌%◌, ◌^◌, ◌++◌, map, length, take, drop};
ghost use Rattle.bech32_bits.specs.Bits.{to_fes};
ghost use Rattle.bech32_checksum.specs.Word.{word_elements};
ghost use Rattle.bech32_checksum.specs.Code.{IsResidueAfter};
ghost use Rattle.bech32_checksum.specs.Encoded.{char_of_element};
ghost use Rattle.bech32_encode.specs.Buffers.{PutsBehind};

use crate::buffer::{put_byte, put_rest};
use crate::pairs::put_two;
use bech32_bits::groups::eight_elements;
use bech32_checksum::{Checksum, Engine};
use bech32_gf::gf32::Fe32;

// The first five bytes.
#[inline]
fn first_five(bytes: &[u8]) -> [u8; 5]
    requires { 5 ≤ length bytes.now }
    ensures { result ≡ take 5 bytes.now }
{
    [bytes[0], bytes[1], bytes[2], bytes[3], bytes[4]]
}

// The characters of eight elements.
#[inline]
fn characters_of(fes: [Fe32; 8]) -> [u8; 8]
    ensures { result ≡ map char_of_element fes }
{
    let [a, b, c, d, e, f, g, h] = fes;
    [
        a.to_char() as u8,
        b.to_char() as u8,
        c.to_char() as u8,
        d.to_char() as u8,
        e.to_char() as u8,
        f.to_char() as u8,
        g.to_char() as u8,
        h.to_char() as u8,
    ]
}

// Puts bytes behind those that were put, one by one, and returns how many there are. Out of line,
// as is what calls it: few buffers lack room.
#[inline(never)]
fn put_each(bytes: &[u8], count: usize, buffer: &mut [u8]) -> usize
    ensures { PutsBehind bytes.now buffer.old count buffer.new result }
{
    let mut count = count;
    for byte in bytes {
        count = put_byte(*byte, count, buffer);
    }
    count
}

// Puts eight bytes into a buffer, from a place on, one after another: a copy of the slice would ask
// whether the two overlap.
#[inline]
fn set_eight(bytes: [u8; 8], at: usize, buffer: &mut [u8])
    requires { at + 8 ≤ length buffer.old }
    ensures { buffer.new ≡ take at buffer.old ++ (bytes ++ drop (at + 8) buffer.old) }
{
    let [a, b, c, d, e, f, g, h] = bytes;
    buffer[at] = a;
    buffer[at + 1] = b;
    buffer[at + 2] = c;
    buffer[at + 3] = d;
    buffer[at + 4] = e;
    buffer[at + 5] = f;
    buffer[at + 6] = g;
    buffer[at + 7] = h;
}

// Puts eight bytes behind those that were put, at once where there is room for all, and returns how
// many there are.
#[inline]
fn put_eight(bytes: [u8; 8], count: usize, buffer: &mut [u8]) -> usize
    ensures { PutsBehind bytes buffer.old count buffer.new result }
{
    if count > buffer.len() || buffer.len() - count < 8 {
        return put_each(&bytes, count, buffer);
    }
    set_eight(bytes, count, buffer);
    count + 8
}

// Puts the characters of eight elements, and hands these to the engine.
#[inline]
fn put_group<Ck: Checksum>(
    fes: [Fe32; 8],
    engine: &mut Engine<Ck>,
    count: usize,
    buffer: &mut [u8],
) -> usize
    ensures text { PutsBehind (map char_of_element fes) buffer.old count buffer.new result }
    ensures residue { IsResidueAfter Ck.MidstateRepr.number Ck.code engine.old fes engine.new }
{
    engine.input_eight(fes);
    put_eight(characters_of(fes), count, buffer)
}

// Puts the characters of the elements of as many groups of five bytes as there are, and hands these
// to the engine.
#[inline(never)]
fn put_groups<Ck: Checksum>(
    bytes: &[u8],
    engine: &mut Engine<Ck>,
    count: usize,
    buffer: &mut [u8],
) -> usize
    ensures text { PutsBehind
        (map char_of_element (to_fes (take (length bytes.now / 5 * 5) bytes.now)))
        buffer.old count buffer.new result }
    ensures residue { IsResidueAfter Ck.MidstateRepr.number Ck.code engine.old
        (to_fes (take (length bytes.now / 5 * 5) bytes.now)) engine.new }
{
    let mut count = count;
    for group in 0..bytes.len() / 5 {
        let five = first_five(&bytes[group * 5..]);
        count = put_group(eight_elements(five), engine, count, buffer);
    }
    count
}

// The word of the first five bytes.
#[inline]
fn word_of_front(bytes: &[u8]) -> u64
    requires { 5 ≤ length bytes.now }
    ensures below { result < 2 ^ 40 }
    ensures elements { word_elements result ≡ to_fes (take 5 bytes.now) }
{
    let two = u32::from(bytes[0]) * 256 + u32::from(bytes[1]);
    let four = (two * 256 + u32::from(bytes[2])) * 256 + u32::from(bytes[3]);
    u64::from(four) * 256 + u64::from(bytes[4])
}

// Puts the characters of a word at a place.
#[inline]
fn put_word(word: u64, at: usize, buffer: &mut [u8])
    requires { at + 8 ≤ length buffer.old }
    ensures { buffer.new ≡ take at buffer.old
        ++ (map char_of_element (word_elements word) ++ drop (at + 8) buffer.old) }
{
    put_two((word / 0x4000_0000 % 1024) as usize, at, buffer);
    put_two((word / 0x10_0000 % 1024) as usize, at + 2, buffer);
    put_two((word / 0x400 % 1024) as usize, at + 4, buffer);
    put_two((word % 1024) as usize, at + 6, buffer);
}

// Puts the characters of as many groups of five bytes as there are at a place, where there is room
// for all, and hands their elements to the engine.
#[inline]
fn put_groups_in_room<Ck: Checksum>(
    bytes: &[u8],
    engine: &mut Engine<Ck>,
    at: usize,
    buffer: &mut [u8],
)
    requires { at + length bytes.now / 5 * 8 ≤ length buffer.old }
    ensures text { buffer.new ≡ take at buffer.old
        ++ (map char_of_element (to_fes (take (length bytes.now / 5 * 5) bytes.now))
        ++ drop (at + length bytes.now / 5 * 8) buffer.old) }
    ensures size { length (to_fes (take (length bytes.now / 5 * 5) bytes.now))
        ≡ length bytes.now / 5 * 8 }
    ensures residue { IsResidueAfter Ck.MidstateRepr.number Ck.code engine.old
        (to_fes (take (length bytes.now / 5 * 5) bytes.now)) engine.new }
{
    for group in 0..bytes.len() / 5 {
        let word = word_of_front(&bytes[group * 5..]);
        engine.input_word(word);
        put_word(word, at + group * 8, buffer);
    }
}

// The same, with as many of them as there is room for. Returns how many characters there are.
fn put_whole_groups<Ck: Checksum>(
    bytes: &[u8],
    engine: &mut Engine<Ck>,
    count: usize,
    buffer: &mut [u8],
) -> usize
    ensures text { PutsBehind
        (map char_of_element (to_fes (take (length bytes.now / 5 * 5) bytes.now)))
        buffer.old count buffer.new result }
    ensures residue { IsResidueAfter Ck.MidstateRepr.number Ck.code engine.old
        (to_fes (take (length bytes.now / 5 * 5) bytes.now)) engine.new }
{
    let groups = bytes.len() / 5;
    if groups == 0 || count > buffer.len() || (buffer.len() - count) / 8 < groups {
        return put_groups(bytes, engine, count, buffer);
    }
    put_groups_in_room(bytes, engine, count, buffer);
    count + groups * 8
}

// Puts the characters of two bytes at a place, where there is room for all four, and hands their
// elements to the engine. The last one has a single bit of the bytes, and zeros behind it.
#[inline]
fn put_two_bytes<Ck: Checksum>(bytes: &[u8], engine: &mut Engine<Ck>, at: usize, buffer: &mut [u8])
    requires two { length bytes.now ≡ 2 }
    requires room { at + 4 ≤ length buffer.old }
    ensures text { buffer.new ≡ take at buffer.old
        ++ (map char_of_element (to_fes bytes.now) ++ drop (at + 4) buffer.old) }
    ensures size { length (to_fes bytes.now) ≡ 4 }
    ensures residue { IsResidueAfter Ck.MidstateRepr.number Ck.code engine.old
        (to_fes bytes.now) engine.new }
{
    let row = (u32::from(bytes[0]) * 256 + u32::from(bytes[1])) * 16;
    engine.input_two(row / 1024);
    engine.input_two(row % 1024);
    put_two((row / 1024) as usize, at, buffer);
    put_two((row % 1024) as usize, at + 2, buffer);
}

// Puts the characters of fewer than five bytes, and hands their elements to the engine. Programs of
// 20 bytes leave none, and those of 32 two.
#[inline]
fn put_last<Ck: Checksum>(
    bytes: &[u8],
    engine: &mut Engine<Ck>,
    count: usize,
    buffer: &mut [u8],
) -> usize
    ensures text { PutsBehind (map char_of_element (to_fes bytes.now))
        buffer.old count buffer.new result }
    ensures residue { IsResidueAfter Ck.MidstateRepr.number Ck.code engine.old
        (to_fes bytes.now) engine.new }
{
    if bytes.is_empty() {
        return count;
    }
    if bytes.len() != 2 || count > buffer.len() || buffer.len() - count < 4 {
        return put_rest(bytes, engine, count, buffer);
    }
    put_two_bytes(bytes, engine, count, buffer);
    count + 4
}

// Puts the characters of the elements of bytes, and hands these to the engine.
pub(super) fn put_bytes<Ck: Checksum>(
    bytes: &[u8],
    engine: &mut Engine<Ck>,
    count: usize,
    buffer: &mut [u8],
) -> usize
    ensures text { PutsBehind (map char_of_element (to_fes bytes.now))
        buffer.old count buffer.new result }
    ensures residue { IsResidueAfter Ck.MidstateRepr.number Ck.code engine.old
        (to_fes bytes.now) engine.new }
{
    let end = put_whole_groups(bytes, engine, count, buffer);
    put_last(&bytes[bytes.len() / 5 * 5..], engine, end, buffer)
}
