//! What encoders give, in turns, and the texts that go into buffers.

use crate::of_parts::turns::turns;
use bech32_checksum::{Checksum, HrpFe32Iter};
use bech32_encode::{Checksummed, Encoder, Fe32IterExt, WitnessVersionIter, put_text};
use bech32_gf::gf32::Fe32;
use bech32_hrp::Hrp;
use std::alloc::{AllocError, Global};
use std::iter::Copied;
use std::slice::Iter;
use testing_tools::rows::{characters, digits, no_row, word};

// What stands in front of elements: the human-readable part, and a version where there is one.
type Front<'a> = (&'a Hrp, Option<Fe32>);

// The encoder of elements behind such a front.
fn encoder_behind<'a, Ck: Checksum>(
    front: Front<'a>,
    fes: &'a [Fe32],
) -> Encoder<'a, Copied<Iter<'a, Fe32>>, Ck> {
    let (hrp, version) = front;
    let encoder = fes.iter().copied().with_checksum::<Ck>(hrp);
    match version {
        Some(version) => encoder.with_witness_version(version),
        None => encoder,
    }
}

// The text of an encoder as elements and as characters, and that of its clone as bytes, in turns.
fn encoder<Ck: Checksum + Clone>(
    alloc: Global,
    front: Front<'_>,
    fes: &[Fe32],
    times: usize,
) -> Result<String, AllocError> {
    let elements = turns(alloc, &mut encoder_behind::<Ck>(front, fes).fes(), times)?;
    let characters = turns(alloc, &mut encoder_behind::<Ck>(front, fes).chars(), times)?;
    let copy = encoder_behind::<Ck>(front, fes).clone()?;
    let bytes = turns(alloc, &mut copy.bytes(), times)?;
    format!(in alloc; "{elements}|{characters}|{bytes}")
}

// The elements of the human-readable part, and those of a version and elements, in turns.
fn fronts(
    alloc: Global,
    front: Front<'_>,
    fes: &[Fe32],
    times: usize,
) -> Result<String, AllocError> {
    let (hrp, version) = front;
    let part = turns(alloc, &mut HrpFe32Iter::new(hrp), times)?;
    let mut behind = WitnessVersionIter::new(version, fes.iter().copied());
    let behind = turns(alloc, &mut behind, times)?;
    format!(in alloc; "{part}|{behind}")
}

// Elements with their checksum, and a clone behind some of them, in turns.
fn checksummed<Ck: Checksum>(
    alloc: Global,
    fes: &[Fe32],
    times: usize,
) -> Result<String, AllocError> {
    let mut items = Checksummed::<_, Ck>::new(fes.iter().copied());
    let first = turns(alloc, &mut items, times / 2)?;
    let mut copy = items.clone()?;
    let others = turns(alloc, &mut items, times)?;
    let copied = turns(alloc, &mut copy, times)?;
    format!(in alloc; "{first}|{others}|{copied}")
}

// What all of them give.
fn all<Ck: Checksum + Clone>(
    alloc: Global,
    front: Front<'_>,
    fes: &[Fe32],
    times: usize,
) -> Result<String, AllocError> {
    let fronts = fronts(alloc, front, fes, times)?;
    let encoder = encoder::<Ck>(alloc, front, fes, times)?;
    let checksummed = checksummed::<Ck>(alloc, fes, times)?;
    format!(in alloc; "{fronts}|{encoder}|{checksummed}")
}

/// What a row of a checksum, a human-readable part, a version, elements and a number of turns
/// gives.
pub fn reply<Ck: Checksum + Clone>(alloc: Global, words: &[&str]) -> Result<String, AllocError> {
    let Ok(hrp) = Hrp::parse(word(words, 2)) else {
        return no_row(alloc);
    };
    let version = digits(alloc, word(words, 3))?.first().copied();
    let fes = digits(alloc, word(words, 4))?;
    let times = word(words, 5).parse::<u8>().unwrap_or(0);
    all::<Ck>(alloc, (&hrp, version), &fes, usize::from(times))
}

// How many bytes of a text go into a buffer of so many `-`, and what stands there then.
fn put<Ck: Checksum>(
    alloc: Global,
    front: Front<'_>,
    fes: &[Fe32],
    room: usize,
) -> Result<String, AllocError> {
    let mut buffer = Vec::new(alloc);
    buffer.resize(room, b'-')?;
    let (hrp, version) = front;
    let count = put_text::<_, Ck>(hrp, version, fes.iter().copied(), &mut buffer);
    let text = characters(alloc, &buffer)?;
    format!(in alloc; "{count} {text}")
}

/// What a row of a checksum, a human-readable part, a version, elements and the size of a buffer
/// gives.
pub fn put_reply<Ck: Checksum>(alloc: Global, words: &[&str]) -> Result<String, AllocError> {
    let Ok(hrp) = Hrp::parse(word(words, 2)) else {
        return no_row(alloc);
    };
    let version = digits(alloc, word(words, 3))?.first().copied();
    let fes = digits(alloc, word(words, 4))?;
    let room = word(words, 5).parse::<u8>().unwrap_or(0);
    put::<Ck>(alloc, (&hrp, version), &fes, usize::from(room))
}
