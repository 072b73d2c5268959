//! Says where the fault of a text stands.

ghost use Rattle.std.specs.Prelude.{◌≡◌, ◌≢◌, ◌≤◌, ◌<◌, ◌-◌, ◌++◌, ℕ, List, false, not, length, position};
ghost use Rattle.std.specs.List.{suffix_len};
ghost use Rattle.bech32_hrp.specs.Hrp.{is_graphic, is_lower, is_upper, is_mixed_case};
ghost use Rattle.bech32_decode.specs.Acceptance.{Accepts};
ghost use Rattle.bech32_decode.specs.Text.{split_at_last};
ghost use Rattle.bech32_calls.specs.Check.{IsCheckFault};
ghost use Rattle.bech32_calls.specs.Checksums.{ForTexts, IsFaultOfTexts};
ghost use Rattle.bech32_calls.specs.Faults.{IsNumberOf};
ghost use Rattle.bech32_calls.specs.Kinds.{is_of};
ghost use Rattle.bech32_calls.specs.Place.{IsPlace, HasPlace, IsLastStranger, IsFirstOfOtherCase};
ghost use Rattle.bech32_calls.specs.Place.{IsFirstWrong, IsUnfit};

use crate::decode::checked_by;
use bech32_gf::alphabet::is_data_byte;

// A kind of bytes that may stand at the end of a text.
#[derive(Clone, Copy)]
enum Kind {
    // Characters of the alphabet, in either case.
    Data,
    // Bytes of a character of several, other than its first (UTF-8).
    Continuation,
    // Bytes that are not the separator.
    NotSeparator,
}

impl Kind {
    // Whether a byte is of this kind.
    fn has(self, b: u8) -> bool
        ensures { result ≡ is_of self b }
    {
        match self {
            Kind::Data => is_data_byte(b),
            Kind::Continuation => (128..=191).contains(&b),
            Kind::NotSeparator => b != b'1',
        }
    }
}

// Where the bytes at the end of a text begin that are of a kind.
fn end_of(kind: Kind, text: &[u8]) -> usize
    ensures { result ≡ length text.now - suffix_len (is_of kind) text.now }
{
    let mut end = text.len();
    while end > 0 && kind.has(text[end - 1]) {
        end -= 1;
    }
    end
}

// The first byte of the last character that is not of the alphabet.
fn stranger_place(text: &[u8]) -> usize
    ensures { (p : ℕ) → IsLastStranger text.now p → result ≡ p }
{
    let end = end_of(Kind::Data, text);
    end_of(Kind::Continuation, &text[..end]).saturating_sub(1)
}

// The length of what stands before the last `1`.
fn part_length(text: &[u8]) -> usize
    ensures value { (hrp data_part : List ℕ) → split_at_last text.now ≡ Some (hrp, data_part)
        → result ≡ length hrp }
    ensures bound { result ≤ length text.now }
{
    end_of(Kind::NotSeparator, text).saturating_sub(1)
}

// The first lower-case letter.
fn first_lower(bytes: &[u8]) -> Option<usize>
    ensures { result ≡ position is_lower bytes.now }
{
    bytes.iter().position(|b| (97..=122).contains(b))
}

// The first upper-case letter.
fn first_upper(bytes: &[u8]) -> Option<usize>
    ensures { result ≡ position is_upper bytes.now }
{
    bytes.iter().position(|b| (65..=90).contains(b))
}

// The first byte that is not from 33 to 126.
fn first_not_graphic(bytes: &[u8]) -> Option<usize>
    ensures { result ≡ position (λ b. not (is_graphic b)) bytes.now }
{
    bytes.iter().position(|b| !(33..=126).contains(b))
}

// The first letter with one of the other case before it, and the number of bytes where there is
// none.
fn case_place(bytes: &[u8]) -> usize
    ensures first { (p : ℕ) → IsFirstOfOtherCase bytes.now p → result ≡ p }
    ensures front { (front behind : List ℕ) → bytes.now ≡ front ++ behind
        → is_mixed_case front ≡ false → length front ≤ result }
{
    let end = bytes.len();
    let lower = first_lower(bytes).unwrap_or(end);
    lower.max(first_upper(bytes).unwrap_or(end))
}

// The first byte that may not stand in a human-readable part, behind those before it.
fn part_place(part: &[u8]) -> usize
    ensures { (p : ℕ) → IsFirstWrong IsUnfit part.now p → result ≡ p }
{
    let place = first_not_graphic(part).unwrap_or(part.len());
    place.min(case_place(part))
}

/// Where the fault of a text stands that is refused by this number, counted in bytes from 0, up to
/// the length of the text; nothing for a number other than 11 to 15, 21 to 23 and 31 to 33. Of a
/// text that is not refused by this number, the place says nothing.
pub fn place_of(text: &[u8], number: u32) -> Option<usize>
    ensures place { HasPlace number → (p : ℕ) → IsPlace text.now number p → result ≡ Some p }
    ensures none { ¬ (HasPlace number) → result ≡ None }
{
    match number {
        11 | 12 => Some(part_length(text)),
        13 | 14 | 15 => Some(part_place(&text[..part_length(text)])),
        21 => Some(stranger_place(text)),
        22 => Some(case_place(text)),
        23 | 31 | 32 | 33 => Some(text.len()),
        _ => None,
    }
}

/// The number of the refusal of a text by the checksum of a number, and 0 where it is accepted: of
/// the first of a number that is not from 1 to 4 (4), a text that is not UTF-8 (2), and its first
/// fault (11 to 15, 21 to 23, 31 to 33).
// In line: where it is called for each row of a column, no result with a refusal is cleared.
#[inline(always)]
pub fn number_of(checksum: u32, text: &[u8]) -> u32
    ensures value { result ≡ 0 → ForTexts checksum (λ code. Accepts code text.now) }
    ensures accepts { ForTexts checksum (λ code. Accepts code text.now) → result ≡ 0 }
    ensures refused { result ≢ 0
        → IsNumberOf (IsFaultOfTexts checksum (IsCheckFault text.now)) result }
    ensures stands { (p : ℕ) × IsPlace text.now result p }
    ensures byte { result < 256 }
{
    match checked_by(checksum, text) {
        Ok(_) => 0,
        Err(refusal) => refusal.number(),
    }
}
