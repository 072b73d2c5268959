//! The remainders of powers of x by the generator of BIP-173, packed, each times 1, 2, 4, 8, 16.
//! Every table of the remainders of elements times powers of x is made of their sums.

// The table of the elements at a power; at two powers, the lower one first, that of each two.
macro_rules! remainders {
    ($($power:tt),+) => { remainders!(@ [] $($power)+) };
    (@ $all:tt 6 $($rest:tt)*) => {
        remainders!(@ $all [0x3b6a57b2, 0x26508e6d, 0x1ea119fa, 0x3d4233dd, 0x2a1462b3] $($rest)*)
    };
    (@ $all:tt 7 $($rest:tt)*) => {
        remainders!(@ $all [0x1fd7e966, 0x3d3f76cc, 0x2afaccb8, 0x07e1bd59, 0x0d537a9b] $($rest)*)
    };
    (@ $all:tt 8 $($rest:tt)*) => {
        remainders!(@ $all [0x0424df38, 0x08491f79, 0x1086bbfb, 0x210d72ff, 0x129ec4f7] $($rest)*)
    };
    (@ $all:tt 9 $($rest:tt)*) => {
        remainders!(@ $all [0x22cb696d, 0x1782f6da, 0x2d954cbd, 0x0bba3d53, 0x15f0fa8f] $($rest)*)
    };
    (@ $all:tt 10 $($rest:tt)*) => {
        remainders!(@ $all [0x081318a1, 0x10263142, 0x204c6284, 0x128ce428, 0x250dec50] $($rest)*)
    };
    (@ $all:tt 11 $($rest:tt)*) => {
        remainders!(@ $all [0x1cc20dda, 0x39841b9d, 0x23983233, 0x17b4e16f, 0x2df966de] $($rest)*)
    };
    (@ $all:tt 12 $($rest:tt)*) => {
        remainders!(@ $all [0x1df21f0a, 0x39743b34, 0x22787361, 0x16e4c7e2, 0x2dc92ee4] $($rest)*)
    };
    (@ $all:tt 13 $($rest:tt)*) => {
        remainders!(@ $all [0x3bf0450a, 0x27702e14, 0x1e705921, 0x3ce01642, 0x2bc029a4] $($rest)*)
    };
    (@ [$($word:literal),*]) => { $crate::sums!($($word),*) };
    (@ [$($word:literal),*] [$($more:literal),*] $($rest:tt)*) => {
        remainders!(@ [$($word,)* $($more),*] $($rest)*)
    };
}

pub(super) use remainders;
