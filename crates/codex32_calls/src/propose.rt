//! Proposes the nearest text to a damaged codex32 string of either length.

ghost use Rattle.std.specs.Prelude.{◌≡◌, ◌≤◌, ◌<◌, ℕ, List, length, None, string_bytes, IfErr, IfOk, MatchOption, MatchResult, OnErr};
ghost use Rattle.std.specs.Str.{IsUtf8};
ghost use Rattle.caller_memory.specs.Memory.{LeavesMemory, memory_size};
ghost use Rattle.codex32_calls.specs.Nearest.{IsNearest, IsNearestStringRefusal, damaged_refusal};
ghost use Rattle.codex32_calls.specs.Propose.{CanPropose, IsProposeFault, PutsNearest};
ghost use Rattle.codex32.specs.Code.{max_long_length};

use crate::input::text_of;
use crate::output::put_made;
use crate::refusal::Refusal;
use arrayvec::ArrayString;
use caller_memory::{Lent, Memory};
use codex32::{
    Codex32Error, MAX_LONG_LENGTH, propose, propose_long, validate_damaged, validate_damaged_long,
};
use std::alloc::Allocator;

/// Which strings are meant.
#[derive(Clone, Copy)]
pub enum Kind {
    /// Those of 48 to 93 characters.
    Short,
    /// Those of 125 to 127.
    Long,
}

// A copy, in place, of a text that is at most as long as a string.
fn in_place(text: &str) -> ArrayString<MAX_LONG_LENGTH>
    requires { length text.now ≤ max_long_length }
    ensures { result.bytes ≡ text.now }
{
    let mut copy = ArrayString::new();
    copy.push_str(text);
    copy
}

// Tests a damaged text.
fn validate(kind: Kind, text: &str) -> Result<(), Codex32Error>
    ensures { MatchResult result
        (λ _. damaged_refusal kind text.now ≡ None)
        (λ e. IsNearestStringRefusal kind text.now e) }
{
    match kind {
        Kind::Short => validate_damaged(text),
        Kind::Long => validate_damaged_long(text),
    }
}

// The nearest text, if there is one.
fn proposed_in<A: Allocator + Copy>(
    alloc: A,
    kind: Kind,
    text: &str,
) -> Result<Option<String<A>>, Codex32Error>
    ensures value { IfOk result (λ answer. MatchOption answer
        ((nearest : List ℕ) → IsNearest kind text.now nearest → ⊥)
        (λ s. IsNearest kind text.now (string_bytes s)
        × (length (string_bytes s) ≤ max_long_length))) }
    ensures refused { MatchResult result
        (λ _. damaged_refusal kind text.now ≡ None)
        (λ e. IsNearestStringRefusal kind text.now e) }
{
    match kind {
        Kind::Short => propose(alloc, text),
        Kind::Long => propose_long(alloc, text),
    }
}

// The nearest text.
fn nearest_in<A: Allocator + Copy>(
    alloc: A,
    kind: Kind,
    text: &str,
) -> Result<ArrayString<MAX_LONG_LENGTH>, Refusal>
    requires { IsUtf8 text.now }
    ensures value { IfOk result (λ nearest. IsNearest kind text.now nearest.bytes) }
    ensures refused { IfErr result (λ e. (room : ℕ) → IsProposeFault kind text.now room e) }
{
    match proposed_in(alloc, kind, text)? {
        Some(nearest) => Ok(in_place(&nearest)),
        None => Err(Refusal::NoNearest),
    }
}

// The same with memory that comes back; if it does not, this is out of memory. Memory of no bytes
// is not lent at all: no text is worked out without any.
fn nearest_with(
    memory: &mut Memory,
    kind: Kind,
    text: &str,
) -> Result<ArrayString<MAX_LONG_LENGTH>, Refusal>
    requires { IsUtf8 text.now × (damaged_refusal kind text.now ≡ None) }
    ensures value { IfOk result (λ nearest. IsNearest kind text.now nearest.bytes) }
    ensures refused { IfErr result (λ e. (room : ℕ) → IsProposeFault kind text.now room e) }
    ensures memory { MatchResult result
        (λ _. memory.new ≡ memory.old)
        (λ e. LeavesMemory memory.old memory.new
        ((e ≡ Refusal.Text Codex32Error.Memory) × (0 < memory_size memory.old))) }
{
    let (size, whole) = memory.take().with_size();
    if size == 0 {
        *memory = whole;
        return Err(Refusal::Text(Codex32Error::Memory));
    }
    let lent = Lent::new(whole);
    let nearest = nearest_in(&lent.arena(), kind, text);
    match lent.into_memory() {
        Some(whole) => {
            *memory = whole;
            nearest
        }
        None => Err(Refusal::Text(Codex32Error::Memory)),
    }
}

/// Puts the nearest text to any text, which is tested before anything is allocated, at the front of
/// a buffer, and returns its length.
///
/// The memory holds the data part as it is read and the text that is proposed; the locations of
/// unreadable characters, if there are any; and what a corrector of 13 or 15 characters needs,
/// where the checksum does not accept the text as it is read. So out of memory may be returned for
/// a text without errors too.
pub fn nearest_of(
    memory: &mut Memory,
    kind: Kind,
    bytes: &[u8],
    proposed: &mut [u8],
) -> Result<usize, Refusal>
    ensures value { IfOk result
        (λ count. PutsNearest kind bytes.now proposed.old proposed.new count) }
    ensures accepts { CanPropose kind bytes.now (length proposed.old)
        → IfErr result (λ e. e ≡ Refusal.Text Codex32Error.Memory) }
    ensures refused { IfErr result (λ e. IsProposeFault kind bytes.now (length proposed.old) e) }
    ensures same { OnErr result (proposed.new ≡ proposed.old) }
    ensures memory { MatchResult result
        (λ _. memory.new ≡ memory.old)
        (λ e. LeavesMemory memory.old memory.new
        ((e ≡ Refusal.Text Codex32Error.Memory) × (0 < memory_size memory.old))) }
{
    let text = text_of(bytes)?;
    validate(kind, text)?;
    let nearest = nearest_with(memory, kind, text)?;
    put_made(proposed, nearest.as_str().as_bytes())
}
