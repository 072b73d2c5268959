//! Whether shares contradict each other.

ghost use Rattle.std.specs.Prelude.{◌≡◌, ◌≤◌, ◌<◌, ◌↔◌, true, length, map, IsTrue};
ghost use Rattle.bech32_gf.specs.Alphabet.{is_data};
ghost use Rattle.bech32_gf.specs.Fe32 as fe32;
ghost use Rattle.bech32_gf.specs.Fe32.{elements_of};
ghost use Rattle.codex32_steady.specs.shares.Shares.{AreSharesAt, DoSharesAgree, IsDerived, IsGiven};

use crate::element_of_character;
use crate::shares::share::share_at;
use crate::shares::text::IndexedText;
use bech32_gf::gf32::Fe32;

// Whether these are the elements of characters. Each is looked at, and only whether all are the
// same can be told.
#[inline(never)]
fn are_elements_of(elements: &[Fe32], characters: &[u8]) -> bool
    requires size { length elements.now ≡ length characters.now }
    requires of_alphabet { is_data characters.now ≡ true }
    ensures { IsTrue result ↔ (elements.now ≡ elements_of characters.now) }
{
    let mut same = true;
    for i in 0..characters.len() {
        same &= elements[i] == element_of_character(characters[i]);
    }
    same
}

// Whether a text is the one that shares give at its index.
fn is_given_by<T: IndexedText>(room: &mut [Fe32], shares: &[T], text: &T) -> bool
    requires few { length shares.now ≤ 9 }
    requires shares { AreSharesAt T.index_of T.characters_of shares.now (length room.old) }
    requires size { length (T.characters_of text.now) ≡ length room.old }
    ensures answer { IsTrue result ↔ IsDerived fe32.ops (map T.index_of shares.now)
        (map (λ t. elements_of (T.characters_of t)) shares.now) (length room.old)
        (T.index_of text.now) (elements_of (T.characters_of text.now)) }
    ensures size { length room.new ≡ length room.old }
{
    share_at(room, shares, text.index());
    are_elements_of(room, text.characters())
}

// Whether shares do not contradict each other, where as many as `count` of them give the others: at
// each place, one polynomial of degree below that has the elements of all. Which of them does not
// go with the others is not told. The elements that the first ones give are written to `room`.
fn agree<T: IndexedText>(room: &mut [Fe32], shares: &[T], count: usize) -> bool
    requires within { count ≤ length shares.now }
    requires few { count ≤ 9 }
    requires shares { AreSharesAt T.index_of T.characters_of shares.now (length room.old) }
    ensures answer { IsTrue result
        ↔ DoSharesAgree T.index_of T.characters_of count shares.now (length room.old) }
    ensures size { length room.new ≡ length room.old }
{
    let mut agrees = true;
    for i in count..shares.len() {
        agrees &= is_given_by(room, &shares[..count], &shares[i]);
    }
    agrees
}

/// Writes the elements of the text of the index x that shares give, where as many as `count` of
/// them give the others, and returns whether they do not contradict each other: at each place, one
/// polynomial of degree below that has the elements of all.
pub fn interpolate_if_consistent<T: IndexedText>(
    target: &mut [Fe32],
    shares: &[T],
    count: usize,
    x: Fe32,
) -> bool
    requires within { count ≤ length shares.now }
    requires few { count ≤ 9 }
    requires shares { AreSharesAt T.index_of T.characters_of shares.now (length target.old) }
    ensures answer { IsTrue result
        ↔ DoSharesAgree T.index_of T.characters_of count shares.now (length target.old) }
    ensures text { IsTrue result → IsGiven fe32.ops count (map T.index_of shares.now)
        (map (λ t. elements_of (T.characters_of t)) shares.now) (length target.old) x target.new }
    ensures size { length target.new ≡ length target.old }
{
    if !agree(target, shares, count) {
        return false;
    }
    share_at(target, &shares[..count], x);
    true
}
