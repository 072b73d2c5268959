//! Answers `nearest`, in a block of memory, and with a thousand texts at most.

ghost use Rattle.std.specs.Prelude.{◌≡◌, ◌+◌, ◌<◌, ◌≤◌, ◌∷◌, ◌++◌, codes, drop, flat_map, map, string_bytes, take, vec_len, vec_capacity};
ghost use Rattle.std.specs.Prelude.{IfErr, IfOk, MatchResult, OnOk};
ghost use Rattle.bech32_checksum.specs.Roots.{singleton_bound};
ghost use Rattle.bech32_near.specs.NearTexts.{AreNearTexts, IsNearestRefusal};
ghost use Rattle.b32_replies.specs.Request.{code_of_name};
ghost use Rattle.line_program.specs.Added.{AddsOrSaysNumber};
ghost use Rattle.mend.specs.Reply.{IsNearTextsAnswer, IsNearTextsRefusal, SaysNear, most_said, said_of_more};

use crate::command::errors_in;
use crate::found::{Found, reply_of};
use crate::numbers::{BAD_WORD, NO_MEMORY};
use b32_replies::ChecksumName;
use bech32::{Bech32, Bech32m, CorrectError, Mended};
use bech32_near::nearest;
use bech32_numbers::correct_error_number;
use bumpalo::Bump;
use line_program::append_any;
use std::alloc::{AllocError, Allocator, Global};

// The bytes of the block that a search is given: 16 MiB, without what an arena keeps beside them.
const BLOCK: usize = 0x100_0000 - 64;

// The most texts that are said.
const MOST_SAID: usize = 1000;

// The one block that a search is given, as `bech32_nearest` has one from its caller; where there is
// no memory for it, none.
fn block(alloc: Global) -> Bump {
    let arena = match Bump::try_with_capacity(alloc, BLOCK) {
        Ok(arena) => arena,
        Err(_) => Bump::new(alloc),
    };
    arena.set_allocation_limit(Some(0));
    arena
}

// The texts near one by a checksum.
fn near_by<'a>(
    alloc: &'a Bump,
    checksum: ChecksumName,
    text: &str,
    given: &[usize],
    errors: usize,
) -> Result<Vec<Mended<&'a Bump>, &'a Bump>, CorrectError>
    ensures { MatchResult result
        (λ near. AreNearTexts (code_of_name checksum) (singleton_bound 24 26) text.now given.now
        errors (map (λ m. (m.listing, string_bytes m.text)) near.items))
        (λ e. IsNearestRefusal (code_of_name checksum) (singleton_bound 24 26) text.now given.now
        errors e) }
{
    match checksum {
        ChecksumName::Bech32 => {
            let near = nearest::<Bech32, &'a Bump>(alloc, text, given, errors)?;
            Ok(near.texts)
        }
        ChecksumName::Bech32m => {
            let near = nearest::<Bech32m, &'a Bump>(alloc, text, given, errors)?;
            Ok(near.texts)
        }
    }
}

impl<A: Allocator + Copy> Found for Mended<A> {
    ghost spelling = { λ m. 32 ∷ string_bytes m.text };

    fn push_to(&self, said: &mut Vec<u8>) -> Result<(), AllocError> {
        said.push(b' ')?;
        said.extend_from_slice(self.text.as_bytes())
    }
}

// What is said of texts: of more than a thousand, of the first, and that there are more.
fn said_of_first<T: Found>(alloc: Global, found: &[T]) -> Result<Vec<u8>, AllocError>
    ensures { IfOk result (λ said. said.items ≡ codes "ok"
        ++ (flat_map T.spelling (take most_said found.now)
        ++ said_of_more (drop most_said found.now))) }
{
    if found.len() <= MOST_SAID {
        return reply_of(alloc, found);
    }
    let mut said = reply_of(alloc, &found[..MOST_SAID])?;
    said.extend_from_slice(b" more")?;
    Ok(said)
}

// What is said of the texts near one.
fn said_near(
    alloc: Global,
    checksum: ChecksumName,
    text: &str,
    given: &[usize],
    errors: usize,
) -> Result<Vec<u8>, CorrectError>
    ensures { MatchResult result
        (λ said. SaysNear (code_of_name checksum) text.now given.now errors said.items)
        (λ e. IsNearTextsRefusal (code_of_name checksum) text.now e) }
{
    let arena = block(alloc);
    let near = near_by(&arena, checksum, text, given, errors)?;
    Ok(said_of_first(alloc, near.as_slice())?)
}

/// Adds the texts near one, with as few errors as a word says, or leaves all as it was and returns
/// the number of the refusal.
pub fn near_texts(
    alloc: Global,
    checksum: ChecksumName,
    text: &str,
    given: &[usize],
    errors: &str,
    out: &mut Vec<u8>,
) -> Result<(), u8>
    ensures answer { AddsOrSaysNumber
        (IsNearTextsAnswer (code_of_name checksum) text.now given.now errors.now)
        result out.old.items out.new.items }
    ensures small { IfErr result (λ number. number < 100) }
    ensures room { OnOk result (vec_len out.new + 1 ≤ vec_capacity out.new) }
    ensures capacity { vec_capacity out.old ≤ vec_capacity out.new }
{
    let Some(errors) = errors_in(errors) else {
        return Err(BAD_WORD);
    };
    match said_near(alloc, checksum, text, given, errors) {
        Ok(said) => match append_any(out, said.as_slice()) {
            Ok(()) => Ok(()),
            Err(_) => Err(NO_MEMORY),
        },
        Err(e) => Err(correct_error_number(e)),
    }
}
