//! What one slip makes of a text.

ghost use Rattle.std.specs.Prelude.{◌≡◌, ◌<◌, ◌≤◌, ◌+◌, ◌++◌, length};
ghost use Rattle.bech32_typed.specs.Slips.{after_slip, places};
ghost use Rattle.bech32_typed.specs.Frames.{longest_with_slips};

use arrayvec::ArrayVec;

/// The most characters of a frame, or of a text that one slip makes.
pub const MAX_FRAME_LENGTH: usize = 62;

/// Characters of the alphabet, in lower case; `?` stands for any of them.
pub type Frame = ArrayVec<u8, 62>;

/// What someone did who typed a text.
#[derive(Clone, Copy, Debug, PartialEq, Eq, Drop)]
pub enum Slip {
    /// A character is wrong.
    Wrong,
    /// Two neighbours changed places.
    Swapped,
    /// A character was typed that is too many.
    TooMany,
    /// A character is missing.
    Missing,
}

/// Joins three parts.
pub fn joined(front: &[u8], middle: &[u8], behind: &[u8]) -> Frame
    requires { length front.now + length middle.now + length behind.now ≤ 62 }
    ensures { result.items ≡ front.now ++ (middle.now ++ behind.now) }
{
    let mut frame = Frame::new();
    let _ = frame.try_extend_from_slice(front);
    let _ = frame.try_extend_from_slice(middle);
    let _ = frame.try_extend_from_slice(behind);
    frame
}

/// At how many places a slip can be, in a text of this many characters.
pub(crate) fn places_of(slip: Slip, size: usize) -> usize
    requires { size ≤ longest_with_slips }
    ensures { result ≡ places slip size }
{
    match slip {
        Slip::Swapped => size.saturating_sub(1),
        Slip::Wrong | Slip::TooMany => size,
        Slip::Missing => size + 1,
    }
}

/// What a slip makes of a text, at a place from the front.
pub(crate) fn undone(slip: Slip, text: &[u8], i: usize) -> Frame
    requires short { length text.now ≤ longest_with_slips }
    requires place { i < places slip (length text.now) }
    ensures { result.items ≡ after_slip slip text.now i }
{
    match slip {
        Slip::Wrong => joined(&text[..i], b"?", &text[i + 1..]),
        Slip::Swapped => joined(&text[..i], &[text[i + 1], text[i]], &text[i + 2..]),
        Slip::TooMany => joined(&text[..i], &[], &text[i + 1..]),
        Slip::Missing => joined(&text[..i], b"?", &text[i..]),
    }
}
