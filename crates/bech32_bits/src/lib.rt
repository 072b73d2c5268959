//! Iterators that regroup bits: bytes as elements, and elements as bytes.
//!
//! Below it: `bech32_gf`.
//! Standard: BIP-173, Segwit address format.
#![tactic(auto)]

ghost use Rattle.std.specs.Prelude.{true, false, None, nat_lt, min, length, List, option_to_list, IfSome, SomeIff, ◌≡◌, ℕ, ◌+◌, ◌-◌, ◌*◌, ◌/◌, ◌%◌, ◌^◌, ◌<◌, ◌≤◌};
ghost use Rattle.std.specs.List.{list_all};
ghost use Rattle.std.specs.Iterator.{size, Drains, MakesProgress, UpTo};
ghost use Rattle.std.specs.Iterator.SizeHint.{IsWithinCount};
ghost use Rattle.std.specs.Iterator.Adapters.{fuse_source, fuse_done};
ghost use Rattle.bech32_gf.specs.Fe32.{element};
ghost use Rattle.bech32_gf.specs.declared.gf32.Fe32.{Fe32};
ghost use Rattle.bech32_bits.specs.SizeHints.{hint_map, FollowsHint};
ghost use Rattle.bech32_bits.specs.Walks.{EachWalkGives, EachRunGives};
ghost use Rattle.bech32_bits.specs.Bits.{bits, fe_bits, cut_bytes, to_fes, to_bytes, fes_count, count_bytes};

pub mod groups;
pub mod hints;
pub mod plain;

use bech32_gf::gf32::Fe32;
use std::alloc::AllocError;
use std::iter::{ExactSizeIterator, Fuse, FusedIterator};

// The element of the five bits that stand above this many lowest bits of a value.
#[inline]
fn element_above(value: u16, below: u8) -> Fe32
    requires { below < 16 }
    ensures { result ≡ element (value / 2 ^ below) }
{
    Fe32::from_low_bits((value >> below & 31) as u8)
}

// The byte of the eight bits that stand above this many lowest bits of a value.
#[inline]
fn byte_above(value: u16, below: u8) -> u8
    requires { below < 16 }
    ensures { result ≡ value / 2 ^ below % 256 }
{
    (value >> below & 255) as u8
}

/// The elements of the bytes of an iterator, with zero bits added at the end.
#[derive(Drop)]
pub struct BytesToFes<I> {
    bytes: Fuse<I>,
    // The byte taken last, and how many of its lowest bits are still to come.
    held: u8,
    count: u8,
    ghost few: { count ≤ 7 },
}

impl<I: Iterator<Item = u8>> Iterator for BytesToFes<I> {
    type Item = Fe32;

    ghost use Rattle.bech32_bits.specs.Adaptor.{fuse_left};
    ghost use Rattle.bech32_bits.specs.BytesToFes.{fes_source, fes_can, fes_steps, fes_from, fes_left};

    ghost can_next = { fes_can I.can_next };

    ghost next_gives = { fes_steps I.next_gives };

    ghost remaining = { fes_left I.remaining };

    #[inline]
    fn next(&mut self) -> Option<Fe32> {
        if self.count >= 5 {
            self.count -= 5;
            return Some(Fe32::from_low_bits(self.held >> self.count));
        }
        let Some(byte) = self.bytes.next() else {
            if self.count == 0 {
                return None;
            }
            let last = Fe32::from_low_bits(self.held << (5 - self.count));
            self.count = 0;
            return Some(last);
        };
        let value = self.held as u16 * 256 + byte as u16;
        self.held = byte;
        self.count += 3;
        Some(element_above(value, self.count))
    }

    fn size_hint(&self) -> (usize, Option<usize>)
        ensures lower { IsWithinCount result.0 (fes_left I.remaining self.now) }
        ensures upper { IfSome result.1 (UpTo (fes_left I.remaining self.now)) }
        ensures rule { FollowsHint (fes_from self.now)
            (fuse_left I.remaining (fes_source self.now)) result }
    {
        fes_hint(self.bytes.size_hint(), self.count)
    }
}

impl<I: Iterator<Item = u8>> FusedIterator for BytesToFes<I> {}

impl<I: Clone> Clone for BytesToFes<I> {
    ghost use Rattle.bech32_bits.specs.BytesToFes.{fes_source, IsFesClone};

    ghost is_clone = { IsFesClone ⟦<Fuse<I> as Clone>⟧.is_clone };

    ghost is_infallible = { λ s. ⟦<Fuse<I> as Clone>⟧.is_infallible (fes_source s) };

    fn clone(&self) -> Result<Self, AllocError> {
        Ok(BytesToFes {
            bytes: self.bytes.clone()?,
            held: self.held,
            count: self.count,
        })
    }
}

// How many elements this many held bits and then this many bytes give, where that fits.
fn fes_len(bytes: usize, held: u8) -> Option<usize>
    requires { held ≤ 7 }
    ensures { SomeIff result (fes_count held bytes < 2 ^ 64) (fes_count held bytes) }
{
    let (whole, part) = (bytes / 5, bytes % 5);
    let more = (8 * part + held as usize + 4) / 5;
    whole.checked_mul(8)?.checked_add(more)
}

// The bounds for elements of those for bytes.
fn fes_hint(bytes: (usize, Option<usize>), held: u8) -> (usize, Option<usize>)
    requires { held ≤ 7 }
    ensures { result ≡ hint_map (fes_count held) bytes }
{
    let upper = match bytes.1 {
        Some(upper) => fes_len(upper, held),
        None => None,
    };
    (fes_len(bytes.0, held).unwrap_or(usize::MAX), upper)
}

impl<I: Iterator<Item = u8>> BytesToFes<I> {
    ghost use Rattle.bech32_bits.specs.Adaptor.{IsExactFused};
    ghost use Rattle.bech32_bits.specs.BytesToFes.{fes_source, fes_steps, fes_left};

    /// How many elements are to come, or `usize::MAX` where that does not fit.
    pub fn len(&self) -> usize
    where
        I: ExactSizeIterator,
        ensures left { result ≡ min (size (fes_left I.remaining self.now)) (2 ^ 64 - 1) }
        // Where the bytes to come are as many as they are said to be, so are the elements.
        ensures exact { IsExactFused I.next_gives I.remaining (fes_source self.now)
            → (fes : List Fe32) → Drains (fes_steps I.next_gives) self.now fes
            → result ≡ min (length fes) (2 ^ 64 - 1) }
    {
        fes_len(self.bytes.len(), self.count).unwrap_or(usize::MAX)
    }
}

/// Adaptors of iterators of bytes.
pub trait ByteIterExt: Iterator<Item = u8> {
    ghost use Rattle.bech32_bits.specs.BytesToFes.{fes_source, fes_gives, fes_steps};

    /// The elements of the bytes, with zero bits added at the end where five do not divide their
    /// number (BIP-173, Segwit address format).
    #[inline]
    final fn bytes_to_fes(self) -> BytesToFes<Self>
    where
        Self: Sized,
        ensures source { fuse_source (fes_source result) ≡ self }
        ensures fresh { fuse_done (fes_source result) ≡ false }
        ensures gives { (bytes : List ℕ) → fes_gives result bytes ≡ to_fes bytes }
        // As bytes again, they are the bytes.
        ensures back { (bytes : List ℕ) → list_all (λ b. nat_lt b 256) bytes ≡ true
            → to_bytes (fes_gives result bytes) ≡ bytes }
        // A whole walk gives the elements of what a whole walk of the bytes gives.
        ensures walk { EachWalkGives Self.next_gives self (fes_steps Self.next_gives) result
            (λ bytes fes. fes ≡ to_fes bytes) }
        ensures runs { EachRunGives Self.next_gives self (fes_steps Self.next_gives) result
            (λ bytes fes. fes ≡ to_fes bytes) }
    {
        BytesToFes {
            bytes: self.fuse(),
            held: 0,
            count: 0,
        }
    }
}

impl<I: Iterator<Item = u8>> ByteIterExt for I {}

// The byte of the last bits, fewer than eight, that stand lowest in a value.
#[inline]
fn last_byte(padded: bool, value: u16, count: u8) -> Option<u8>
    requires { count ≤ 7 }
    ensures byte { option_to_list result ≡ cut_bytes padded (bits count value) }
    ensures some { IfSome result (λ _. (padded ≡ true) × (0 < count)) }
{
    if padded && count > 0 {
        Some((value << (8 - count) & 255) as u8)
    } else {
        None
    }
}

// The bounds for bytes of those for elements.
fn bytes_hint(padded: bool, fes: (usize, Option<usize>), held: u8) -> (usize, Option<usize>)
    requires { held ≤ 7 }
    ensures { result ≡ hint_map (count_bytes padded held) fes }
{
    let upper = match fes.1 {
        Some(upper) => Some(bytes_len(padded, upper, held)),
        None => None,
    };
    (bytes_len(padded, fes.0, held), upper)
}

// How many bytes this many held bits and then this many elements give.
fn bytes_len(padded: bool, fes: usize, held: u8) -> usize
    requires { held ≤ 7 }
    ensures { result ≡ count_bytes padded held fes }
{
    let (whole, part) = (fes / 8, fes % 8);
    let more = if padded { 7 } else { 0 };
    5 * whole + (5 * part + held as usize + more) / 8
}

/// The bytes of the elements of an iterator, with a last part shorter than eight bits dropped or
/// filled with zero bits.
#[derive(Drop)]
pub struct FesToBytes<I> {
    fes: Fuse<I>,
    // The element taken last, and how many of its lowest bits are still to come.
    held: Fe32,
    count: u8,
    // Whether a last part is filled.
    padded: bool,
    ghost few: { count ≤ 4 },
}

impl<I: Iterator<Item = Fe32>> Iterator for FesToBytes<I> {
    type Item = u8;

    ghost use Rattle.bech32_bits.specs.Adaptor.{fuse_left};
    ghost use Rattle.bech32_bits.specs.FesToBytes.{bytes_source, bytes_padded, bytes_can, bytes_steps, bytes_from, bytes_left};

    ghost can_next = { bytes_can I.can_next };

    ghost next_gives = { bytes_steps I.next_gives };

    ghost remaining = { bytes_left I.remaining };

    // With up to four bits held, one or two elements complete a byte.
    #[inline]
    fn next(&mut self) -> Option<u8>
        requires { bytes_can I.can_next self.old }
        ensures steps { bytes_steps I.next_gives self.old result self.new }
        ensures goes { MakesProgress (bytes_can I.can_next)
            (bytes_left I.remaining) self.old result self.new }
        // Whether a last part is filled stays as it was.
        ensures padded { bytes_padded self.new ≡ bytes_padded self.old }
    {
        let Some(first) = self.fes.next() else {
            let last = last_byte(self.padded, self.held.to_u8() as u16, self.count);
            self.count = 0;
            return last;
        };
        let value = self.held.to_u8() as u16 * 32 + first.to_u8() as u16;
        if self.count >= 3 {
            self.held = first;
            self.count -= 3;
            return Some(byte_above(value, self.count));
        }
        let Some(second) = self.fes.next() else {
            let last = last_byte(self.padded, value, self.count + 5);
            self.count = 0;
            return last;
        };
        let value = value * 32 + second.to_u8() as u16;
        self.held = second;
        self.count += 2;
        Some(byte_above(value, self.count))
    }

    fn size_hint(&self) -> (usize, Option<usize>)
        ensures lower { IsWithinCount result.0 (bytes_left I.remaining self.now) }
        ensures upper { IfSome result.1 (UpTo (bytes_left I.remaining self.now)) }
        ensures rule { FollowsHint (bytes_from self.now)
            (fuse_left I.remaining (bytes_source self.now)) result }
    {
        bytes_hint(self.padded, self.fes.size_hint(), self.count)
    }
}

impl<I: Iterator<Item = Fe32>> FusedIterator for FesToBytes<I> {}

impl<I: Clone> Clone for FesToBytes<I> {
    ghost use Rattle.bech32_bits.specs.FesToBytes.{bytes_source, IsBytesClone};

    ghost is_clone = { IsBytesClone ⟦<Fuse<I> as Clone>⟧.is_clone };

    ghost is_infallible = { λ s. ⟦<Fuse<I> as Clone>⟧.is_infallible (bytes_source s) };

    fn clone(&self) -> Result<Self, AllocError> {
        Ok(FesToBytes {
            fes: self.fes.clone()?,
            held: self.held,
            count: self.count,
            padded: self.padded,
        })
    }
}

impl<I: Iterator<Item = Fe32>> FesToBytes<I> {
    ghost use Rattle.bech32_bits.specs.Adaptor.{IsExactFused};
    ghost use Rattle.bech32_bits.specs.FesToBytes.{bytes_source, bytes_gives, bytes_padded, bytes_steps, bytes_left};

    /// The bytes of the elements, with a last part filled with zero bits or dropped.
    #[inline]
    pub fn new(fes: I, padded: bool) -> Self
        ensures source { fuse_source (bytes_source result) ≡ fes }
        ensures fresh { fuse_done (bytes_source result) ≡ false }
        ensures padded { bytes_padded result ≡ padded }
        ensures gives { (xs : List Fe32) → bytes_gives result xs ≡ cut_bytes padded (fe_bits xs) }
        ensures walk { EachWalkGives I.next_gives fes (bytes_steps I.next_gives) result
            (λ xs bytes. bytes ≡ cut_bytes padded (fe_bits xs)) }
        ensures runs { EachRunGives I.next_gives fes (bytes_steps I.next_gives) result
            (λ xs bytes. bytes ≡ cut_bytes padded (fe_bits xs)) }
    {
        FesToBytes {
            fes: fes.fuse(),
            held: Fe32::Q,
            count: 0,
            padded,
        }
    }

    /// How many bytes are to come.
    pub fn len(&self) -> usize
    where
        I: ExactSizeIterator,
        ensures left { result ≡ size (bytes_left I.remaining self.now) }
        // Where the elements to come are as many as they are said to be, so are the bytes.
        ensures exact { IsExactFused I.next_gives I.remaining (bytes_source self.now)
            → (bytes : List ℕ) → Drains (bytes_steps I.next_gives) self.now bytes
            → result ≡ length bytes }
    {
        bytes_len(self.padded, self.fes.len(), self.count)
    }
}
