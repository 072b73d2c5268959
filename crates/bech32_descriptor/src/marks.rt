//! A set of words: each that is put into it is found, and few others are.

ghost use Rattle.std.specs.Prelude.{◌≡◌, ◌<◌, ◌≤◌, ◌^◌, ℕ, bit_xor, get_or, length, IsTrue};
ghost use Rattle.bech32_descriptor.specs.Marks.{IsMarked, KeepsMarks, bits_of};

// Four of the bits of a cell, by the higher bits of a word.
#[inline]
fn bits(word: u64) -> u64
    ensures { result ≡ bits_of word }
{
    let low = (1 << (word >> 16) % 64) | (1 << (word >> 22) % 64);
    let high = (1 << (word >> 28) % 64) | (1 << (word >> 34) % 64);
    low | high
}

// How many cells keep the changes of a text of this length: a power of two, with four changes a
// cell at most.
pub(crate) fn cells_for(n: usize) -> usize
    requires { n ≤ 7501 }
    ensures some { 0 < result }
    ensures few { result ≤ 2 ^ 22 }
{
    let mut size = 0x1000;
    for _step in 0..9 {
        if size < 256 * n {
            size = 2 * size;
        }
    }
    size
}

// Puts a word into the set.
#[inline]
fn mark(cells: &mut [u64], word: u64)
    requires { 0 < length cells.old }
    ensures size { length cells.new ≡ length cells.old }
    ensures marked { IsMarked cells.new word }
    ensures kept { KeepsMarks cells.old cells.new }
{
    let i = word as usize & (cells.len() - 1);
    cells[i] = cells[i] | bits(word);
}

// Puts a word and its sums with all of a row into the set.
pub(crate) fn mark_sums(cells: &mut [u64], word: u64, row: &[u64])
    requires { 0 < length cells.old }
    ensures size { length cells.new ≡ length cells.old }
    ensures alone { IsMarked cells.new word }
    ensures sums { (x : ℕ) → x < length row.now
        → IsMarked cells.new (bit_xor word (get_or row.now x 0)) }
    ensures kept { KeepsMarks cells.old cells.new }
{
    mark(cells, word);
    for other in row {
        mark(cells, word ^ *other);
    }
}

// Whether a word may be in the set: true where it is.
#[inline]
pub(crate) fn may_be_marked(cells: &[u64], word: u64) -> bool
    requires { 0 < length cells.now }
    ensures { IsMarked cells.now word → IsTrue result }
{
    let wanted = bits(word);
    cells[word as usize & (cells.len() - 1)] & wanted == wanted
}
