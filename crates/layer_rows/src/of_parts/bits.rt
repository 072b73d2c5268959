//! Bytes as elements and elements as bytes, in turns, and by whole lists.

use crate::elements::shown;
use crate::of_parts::turns::turns;
use bech32_bits::plain::{plain_to_bytes, plain_to_fes};
use bech32_bits::{ByteIterExt, BytesToFes, FesToBytes};
use bech32_encode::Fe32IterExt;
use bech32_gf::gf32::Fe32;
use std::alloc::{AllocError, Global};
use std::iter::Copied;
use std::slice::Iter;
use testing_tools::rows::{bytes_of, digits, shown_bytes, word};

type Elements<'a> = BytesToFes<Copied<Iter<'a, u8>>>;

type Bytes<'a> = FesToBytes<Copied<Iter<'a, Fe32>>>;

// How many elements are to come, and what they and a clone behind two of them give in turns.
fn elements_in_turns(
    alloc: Global,
    fes: &mut Elements<'_>,
    times: usize,
) -> Result<String, AllocError> {
    let count = fes.len();
    let first = turns(alloc, fes, 1)?;
    let mut copy = fes.clone()?;
    let others = turns(alloc, fes, times)?;
    let copied = turns(alloc, &mut copy, times)?;
    format!(in alloc; "{count} {first}|{others}|{copied}")
}

/// What a row of bytes gives: their elements in turns.
pub fn to_elements_reply(alloc: Global, words: &[&str]) -> Result<String, AllocError> {
    let bytes = bytes_of(alloc, word(words, 1))?;
    let times = bytes.len().saturating_mul(2).min(60);
    elements_in_turns(alloc, &mut bytes.iter().copied().bytes_to_fes(), times)
}

// The same of bytes.
fn bytes_in_turns(
    alloc: Global,
    bytes: &mut Bytes<'_>,
    times: usize,
) -> Result<String, AllocError> {
    let count = bytes.len();
    let first = turns(alloc, bytes, 1)?;
    let mut copy = bytes.clone()?;
    let others = turns(alloc, bytes, times)?;
    let copied = turns(alloc, &mut copy, times)?;
    format!(in alloc; "{count} {first}|{others}|{copied}")
}

/// What a row of elements gives: their bytes in turns, with a last part dropped and with it filled.
pub fn to_bytes_reply(alloc: Global, words: &[&str]) -> Result<String, AllocError> {
    let fes = digits(alloc, word(words, 1))?;
    let times = fes.len().min(60);
    let dropped = bytes_in_turns(alloc, &mut fes.iter().copied().fes_to_bytes(), times)?;
    let filled = bytes_in_turns(
        alloc,
        &mut fes.iter().copied().fes_to_bytes_zeropad(),
        times,
    )?;
    format!(in alloc; "{dropped}|{filled}")
}

// Bytes as elements and back, with a last part filled or dropped.
fn there_and_back(alloc: Global, bytes: &[u8], padded: bool) -> Result<String, AllocError> {
    let fes = bytes.iter().copied().bytes_to_fes();
    let back: Vec<u8> = FesToBytes::new(fes, padded).collect(alloc)?;
    shown_bytes(alloc, &back)
}

/// What a row of bytes gives: their elements by the function of whole lists, those as bytes, and
/// the bytes there and back.
pub fn plain_reply(alloc: Global, words: &[&str]) -> Result<String, AllocError> {
    let bytes = bytes_of(alloc, word(words, 1))?;
    let fes = plain_to_fes(alloc, &bytes)?;
    let back = plain_to_bytes(alloc, &fes)?;
    let fes = shown(alloc, &fes)?;
    let back = shown_bytes(alloc, &back)?;
    let dropped = there_and_back(alloc, &bytes, false)?;
    let filled = there_and_back(alloc, &bytes, true)?;
    format!(in alloc; "{fes}|{back}|{dropped}|{filled}")
}
