//! A text with its remainder, of which one byte after another is changed.

ghost use Rattle.std.specs.Prelude.{◌≡◌, ◌<◌, ◌↔◌, length, slice_set, IsTrue};
ghost use Rattle.bech32_descriptor.specs.Descriptor.{IsDescriptor, polynomial_of};
ghost use Rattle.bech32_descriptor.specs.Walks.{IsReady};
ghost use Rattle.bech32_descriptor.specs.Words.{IsWordOfSymbols};

use crate::checks::grammar_fault;
use crate::places::change_of;
use crate::residue::is_target;

// Puts a byte at a place, and returns the remainder of the text with it.
#[inline]
pub(crate) fn set_byte(rows: &[u64], text: &mut [u8], word: u64, i: usize, b: u8) -> u64
    requires ready { IsReady rows.now text.old word }
    requires within { i < length text.old }
    ensures text { text.new ≡ slice_set text.old i b }
    ensures ready { IsReady rows.now text.new result }
{
    let change = change_of(rows, text, i, b);
    text[i] = b;
    word ^ change
}

// Whether a text with its remainder is a descriptor.
#[inline]
pub(crate) fn is_right(text: &[u8], word: u64) -> bool
    requires { IsWordOfSymbols word (polynomial_of text.now) }
    ensures { IsTrue result ↔ IsDescriptor text.now }
{
    if !is_target(word) {
        return false;
    }
    grammar_fault(text).is_none()
}

// Whether a text is a descriptor with another byte at a place.
#[inline]
pub(crate) fn is_right_with(rows: &[u64], text: &mut [u8], word: u64, i: usize, b: u8) -> bool
    requires ready { IsReady rows.now text.old word }
    requires within { i < length text.old }
    ensures text { text.new ≡ text.old }
    ensures right { IsTrue result ↔ IsDescriptor (slice_set text.old i b) }
{
    let new_word = word ^ change_of(rows, text, i, b);
    if !is_target(new_word) {
        return false;
    }
    let old = text[i];
    text[i] = b;
    let right = is_right(text, new_word);
    text[i] = old;
    right
}
