//! Two elements as two characters.

ghost use Rattle.std.specs.Prelude.{◌≡◌, ◌≤◌, ◌<◌, ◌+◌, ◌/◌, ◌%◌, length, set};
ghost use Rattle.bech32_gf.specs.Alphabet.{char_of};

// A character of each two of a list, for each first one all second ones.
macro_rules! pairs {
    ([] $second:tt [$($done:literal)*]) => {
        [$($done),*]
    };
    ([$first:literal $($rest:literal)*] [$($second:literal)*] [$($done:literal)*]) => {
        pairs!([$($rest)*] [$($second)*] [$($done)* $($first $second)*])
    };
    ($($character:literal),*) => {
        pairs!([$($character)*] [$($character)*] [])
    };
}

// Two characters for each two elements, one after another.
const PAIRS: [u8; 2048] = pairs!(
    b'q', b'p', b'z', b'r', b'y', b'9', b'x', b'8', b'g', b'f', b'2', b't', b'v', b'd', b'w', b'0',
    b's', b'3', b'j', b'n', b'5', b'4', b'k', b'h', b'c', b'e', b'6', b'm', b'u', b'a', b'7', b'l'
);

// Puts the characters of two elements, the first the higher, at a place.
#[inline]
pub(super) fn put_two(two: usize, at: usize, buffer: &mut [u8])
    requires two { two < 1024 }
    requires room { at + 2 ≤ length buffer.old }
    ensures { buffer.new
        ≡ set (set buffer.old at (char_of (two / 32))) (at + 1) (char_of (two % 32)) }
{
    buffer[at] = PAIRS[2 * two];
    buffer[at + 1] = PAIRS[2 * two + 1];
}
