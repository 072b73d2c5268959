//! What each character is at each of eight places.

ghost use Rattle.std.specs.Prelude.{◌≡◌, ◌<◌, ◌+◌, ◌-◌, ◌*◌, ◌^◌};
ghost use Rattle.bech32_gf.specs.Alphabet.{value_of};
ghost use Rattle.bech32_decode.specs.Cases.{counts_as_lower, counts_as_upper};

// A small letter, a capital one, and a byte that is not of the alphabet.
const SMALL: u64 = 0x100_0000_0000;

const CAPITAL: u64 = 0x10_0000_0000_0000;

const STRANGE: u64 = 0x10_0100_0000_0000;

// The word of a byte at the place of 2^`place`, by its element; `_` is not of the alphabet.
macro_rules! word {
    ($place:literal, $case:expr, $element:literal) => {
        ($element << $place) + $case
    };
    ($place:literal, $case:expr, _) => {
        STRANGE
    };
}

// The words of all bytes, 32 in a row. Only three rows differ: control characters, digits, and
// letters, which stand in both cases. Bytes from 128 on are like control characters.
macro_rules! words {
    ($place:literal, [$($none:tt)*], [$($digit:tt)*], [$($letter:tt)*]) => {
        [
            $(word!($place, 0, $none),)*
            $(word!($place, 0, $digit),)*
            $(word!($place, CAPITAL, $letter),)*
            $(word!($place, SMALL, $letter),)*
            $(word!($place, 0, $none),)*
            $(word!($place, 0, $none),)*
            $(word!($place, 0, $none),)*
            $(word!($place, 0, $none),)*
        ]
    };
}

// The words of all bytes at a place, from the one list of their elements.
macro_rules! bytes_at {
    ($place:literal) => {
        words!(
            $place,
            [_ _ _ _ _ _ _ _ _ _ _ _ _ _ _ _ _ _ _ _ _ _ _ _ _ _ _ _ _ _ _ _],
            [_ _ _ _ _ _ _ _ _ _ _ _ _ _ _ _ 15 _ 10 17 21 20 26 30 7 5 _ _ _ _ _ _],
            [_ 29 _ 24 13 25 9 8 23 _ 18 22 31 27 19 _ 1 0 3 16 11 28 12 14 6 4 2 _ _ _ _ _]
        )
    };
}

// For each place and each byte: the element of the character at the place in a word of 40 bits, and
// 2^40 for a small letter, 2^52 for a capital one, both for a byte that is not of the alphabet.
const PLACES: [[u64; 256]; 8] = [
    bytes_at!(35),
    bytes_at!(30),
    bytes_at!(25),
    bytes_at!(20),
    bytes_at!(15),
    bytes_at!(10),
    bytes_at!(5),
    bytes_at!(0),
];

// A character at one of the eight places: the last one is that of 2^0, and each other that of 2^5
// times the next.
#[inline]
pub(crate) fn at_place(place: usize, character: u8) -> u64
    requires { place < 8 }
    ensures value { result ≡ value_of character * 2 ^ (35 - 5 * place)
        + counts_as_lower character * 2 ^ 40 + counts_as_upper character * 2 ^ 52 }
    ensures small { result < 2 ^ 53 }
{
    PLACES[place][character as usize]
}
