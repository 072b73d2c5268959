//! Eight, six or two elements at once, by the generator of BIP-173.

ghost use Rattle.std.specs.Prelude.{◌≡◌, ◌<◌, ◌≤◌, ◌+◌, ◌/◌, ◌%◌, ◌^◌, ℕ, [], bit_xor, get_or};
ghost use Rattle.bech32_checksum.specs.Code.{bech32, IsResidueAfter};
ghost use Rattle.bech32_checksum.specs.Word.{IsResidueAfterTwo, IsResidueAfterWord, row_elements};

use super::twos::TWOS;

// What the tables from one on have of a remainder's pairs of coefficients, the lowest pair by the
// first table, added up.
#[inline(always)]
fn sum_of_pairs(residue: u32, first: usize) -> u32
    requires residue { residue < 2 ^ 30 }
    requires first { first ≤ 1 }
    ensures { result ≡ bit_xor (bit_xor
        (get_or (get_or TWOS (first + 2) []) (residue / 2 ^ 20) 0)
        (get_or (get_or TWOS (first + 1) []) (residue / 2 ^ 10 % 1024) 0))
        (get_or (get_or TWOS first []) (residue % 1024) 0) }
{
    TWOS[first + 2][(residue / 0x10_0000) as usize]
        ^ TWOS[first + 1][(residue / 0x400 % 0x400) as usize]
        ^ TWOS[first][(residue % 0x400) as usize]
}

// The remainder after eight more elements. It is a sum: each two coefficients of the remainder
// before are eight places higher, so that they have a table, as have the first two elements; the
// other six are a row as they are.
#[inline]
pub(super) fn after_word_by_tables(residue: u32, word: u64) -> u32
    requires residue { residue < 2 ^ 30 }
    requires word { word < 2 ^ 40 }
    ensures clear { result < 2 ^ 30 }
    ensures after { IsResidueAfterWord (λ (n : ℕ). n) bech32 residue word result }
{
    sum_of_pairs(residue, 1) ^ TWOS[0][(word / 0x4000_0000) as usize] ^ (word % 0x4000_0000) as u32
}

// The remainder after six more elements, which stand in a row of 30 bits, the first of them
// highest.
#[inline]
pub(super) fn after_row_by_tables(residue: u32, row: u32) -> u32
    requires residue { residue < 2 ^ 30 }
    requires row { row < 2 ^ 30 }
    ensures clear { result < 2 ^ 30 }
    ensures after { IsResidueAfter (λ (n : ℕ). n) bech32 residue (row_elements row) result }
{
    sum_of_pairs(residue, 0) ^ row
}

// The remainder after two more elements, which stand in a number of ten bits, the first of them
// higher: the two highest coefficients of the remainder before have a table, the other four are two
// places higher as they are.
#[inline]
pub(super) fn after_two_by_table(residue: u32, two: u32) -> u32
    requires residue { residue < 2 ^ 30 }
    requires two { two < 2 ^ 10 }
    ensures clear { result < 2 ^ 30 }
    ensures after { IsResidueAfterTwo (λ (n : ℕ). n) bech32 residue two result }
{
    TWOS[0][(residue / 0x10_0000) as usize] ^ (residue % 0x10_0000 * 0x400) ^ two
}
