//! Puts the bytes of a data part into a buffer, group by group.

ghost use Rattle.std.specs.Prelude.{◌≡◌, ◌≤◌, ◌+◌, ◌*◌, ◌/◌, ◌++◌, true, length, take, drop};
ghost use Rattle.bech32_bits.specs.Bits.{to_bytes};
ghost use Rattle.bech32_gf.specs.Alphabet.{is_data};
ghost use Rattle.bech32_gf.specs.Fe32.{elements_of};

use crate::byte_reader::ByteIter;
use crate::eights::word_of_eight;

// Puts five bytes into a buffer, from a place on, one after another: a copy of the slice would ask
// whether the two overlap. The first comes last, so that the four others are put at once.
#[inline]
fn put_five(bytes: [u8; 5], at: usize, buffer: &mut [u8])
    requires { at + 5 ≤ length buffer.old }
    ensures { buffer.new ≡ take at buffer.old ++ (bytes ++ drop (at + 5) buffer.old) }
{
    let [a, b, c, d, e] = bytes;
    buffer[at + 1] = b;
    buffer[at + 2] = c;
    buffer[at + 3] = d;
    buffer[at + 4] = e;
    buffer[at] = a;
}

// Puts the five bytes of the first eight characters into a buffer, from a place on.
#[inline]
fn put_group(characters: &[u8], at: usize, buffer: &mut [u8])
    requires data { is_data characters.now ≡ true }
    requires enough { 8 ≤ length characters.now }
    requires room { at + 5 ≤ length buffer.old }
    ensures { buffer.new ≡ take at buffer.old
        ++ (to_bytes (elements_of (take 8 characters.now)) ++ drop (at + 5) buffer.old) }
{
    let word = word_of_eight(characters);
    put_five(
        [
            (word / 0x1_0000_0000 % 256) as u8,
            (word / 0x100_0000 % 256) as u8,
            (word / 0x1_0000 % 256) as u8,
            (word / 0x100 % 256) as u8,
            (word % 256) as u8,
        ],
        at,
        buffer,
    );
}

// Puts the bytes of as many groups of eight characters as there are at the front of a buffer.
fn put_groups(characters: &[u8], buffer: &mut [u8])
    requires data { is_data characters.now ≡ true }
    requires room { length characters.now / 8 * 5 ≤ length buffer.old }
    ensures { buffer.new
        ≡ to_bytes (elements_of (take (length characters.now / 8 * 8) characters.now))
        ++ drop (length characters.now / 8 * 5) buffer.old }
{
    for group in 0..characters.len() / 8 {
        put_group(&characters[group * 8..], group * 5, buffer);
    }
}

// Puts the bytes of characters into a buffer, one by one from a place on, and returns where they
// end.
fn put_rest(characters: &[u8], at: usize, buffer: &mut [u8]) -> usize
    requires data { is_data characters.now ≡ true }
    requires room { at + length (to_bytes (elements_of characters.now)) ≤ length buffer.old }
    ensures count { result ≡ at + length (to_bytes (elements_of characters.now)) }
    ensures buffer { buffer.new ≡ take at buffer.old
        ++ (to_bytes (elements_of characters.now) ++ drop result buffer.old) }
{
    let mut count = at;
    for byte in ByteIter::new(characters) {
        buffer[count] = byte;
        count += 1;
    }
    count
}

/// How many bytes the elements of characters have; a last part shorter than eight bits does not
/// count.
#[inline]
pub fn data_bytes_count(characters: &[u8]) -> usize
    ensures { result ≡ length (to_bytes (elements_of characters.now)) }
{
    characters.len() / 8 * 5 + characters.len() % 8 * 5 / 8
}

/// Puts the bytes of the elements of characters, in either case, at the front of a buffer that has
/// room for them, and returns how many they are; a last part shorter than eight bits is dropped
/// (BIP-173, Segwit address format).
pub fn put_data_bytes(characters: &[u8], buffer: &mut [u8]) -> usize
    requires data { is_data characters.now ≡ true }
    requires room { length (to_bytes (elements_of characters.now)) ≤ length buffer.old }
    ensures count { result ≡ length (to_bytes (elements_of characters.now)) }
    ensures buffer { buffer.new ≡ to_bytes (elements_of characters.now) ++ drop result buffer.old }
{
    put_groups(characters, buffer);
    let groups = characters.len() / 8;
    put_rest(&characters[groups * 8..], groups * 5, buffer)
}
