//! What is done to a typed text, and where.

ghost use Rattle.std.specs.Prelude.{◌≡◌};
ghost use Rattle.bech32_suggest.specs.Mendings.{begin_swapped, common_length, mending_of};

/// What is done to a typed text so that it becomes another.
#[derive(Clone, Copy, Debug, PartialEq, Eq, Drop)]
pub enum Mending {
    /// Nothing.
    Unchanged,
    /// Two neighbours are swapped.
    Swapped,
    /// A character is left out.
    LeftOut,
    /// A character is put in.
    PutIn,
    /// Characters are replaced by others.
    Replaced,
}

/// An address that may have been meant.
#[derive(Drop)]
pub struct Suggestion<S> {
    /// The address, in lower case.
    pub text: S,
    /// What is done to the typed text.
    pub mending: Mending,
    /// Where: the first place, counted from 0 at the front, at which the address and the typed
    /// text, in lower case, differ, or one of them ends. That is the first of two characters that
    /// are swapped, the one that is left out, and the one that is put in. Where characters are
    /// replaced, both have one length: they differ where one is replaced.
    pub place: usize,
}

// At how many places from the front on two texts are the same.
fn common(typed: &[u8], text: &[u8]) -> usize
    ensures { result ≡ common_length typed.now text.now }
{
    let most = typed.len().min(text.len());
    for i in 0..most {
        if typed[i] != text[i] {
            return i;
        }
    }
    most
}

// Whether the first two characters of two texts are swapped, and the others are the same.
fn begins_swapped(typed: &[u8], text: &[u8]) -> bool
    ensures { result ≡ begin_swapped typed.now text.now }
{
    if typed.len() < 2 || text.len() < 2 {
        return false;
    }
    if typed[0] != text[1] {
        return false;
    }
    if typed[1] != text[0] {
        return false;
    }
    common(&typed[2..], &text[2..]) == typed.len() - 2
}

/// What is done to a typed text, in lower case, so that it becomes another, and the first place at
/// which they differ.
pub(crate) fn compared(typed: &[u8], text: &[u8]) -> (Mending, usize)
    ensures { (result.0 ≡ mending_of typed.now text.now)
        × (result.1 ≡ common_length typed.now text.now) }
{
    let place = common(typed, text);
    (mending_at(typed, text, place), place)
}

// The same, where that place is known.
fn mending_at(typed: &[u8], text: &[u8], place: usize) -> Mending
    requires { place ≡ common_length typed.now text.now }
    ensures { result ≡ mending_of typed.now text.now }
{
    if text.len() < typed.len() {
        return Mending::LeftOut;
    }
    if typed.len() < text.len() {
        return Mending::PutIn;
    }
    if place == typed.len() {
        return Mending::Unchanged;
    }
    if begins_swapped(&typed[place..], &text[place..]) {
        return Mending::Swapped;
    }
    Mending::Replaced
}
