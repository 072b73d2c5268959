//! Answers `split`.

ghost use Rattle.std.specs.Prelude.{◌≡◌, ◌+◌, ◌*◌, ◌≤◌, ◌++◌, codes, length, take, vec_len, vec_capacity, IfOk, MatchResult, OnOk};
ghost use Rattle.codex32.specs.Split.{first_texts};
ghost use Rattle.line_program.specs.Added.{AddsAnyOrRefuses};
ghost use Rattle.c32_replies.specs.Numbers.{number_of_codex32_reply};
ghost use Rattle.c32_replies.specs.Request.{asked_by};
ghost use Rattle.c32_replies.specs.Split.{AreSharesFor, IsSplitAnswer, IsSplitLineRefusal, spaced_shares};

use crate::command::SplitWords;
use crate::count_word::count_of_word;
use crate::refusal::Refusal;
use crate::reply::Commands;
use b32_replies::hex_word::put_bytes_of_word;
use codex32::{Codex32Error, Identifier, Threshold, split_into};
use line_program::append_any;
use std::alloc::{AllocError, Allocator};

// One byte more than a secret has.
const SECRET_ROOM: usize = 65;

// One byte more than are drawn: one for each of 103 characters, of eight shares.
const RANDOM_ROOM: usize = 825;

// The most characters of all shares: 31 texts of 127.
const TEXTS_ROOM: usize = 3937;

// Puts the shares that words ask for, and returns how many they are, and the length of each.
fn put_shares(words: &SplitWords<'_>, texts: &mut [u8]) -> Result<(usize, usize), Refusal>
    requires { 3937 ≤ length texts.old }
    ensures { MatchResult result
        (λ p. AreSharesFor (asked_by words.now) p.0 p.1 (take (p.0 * p.1) texts.new)
        × (p.0 * p.1 ≤ length texts.new))
        (λ e. IsSplitLineRefusal (asked_by words.now) e) }
{
    let Some(count) = count_of_word(words.count) else {
        return Err(Refusal::BadNumber);
    };
    let mut secret = [0u8; SECRET_ROOM];
    let Ok(given) = put_bytes_of_word(words.hex, &mut secret) else {
        return Err(Refusal::BadHex);
    };
    let mut random = [0u8; RANDOM_ROOM];
    let Ok(drawn) = put_bytes_of_word(words.random, &mut random) else {
        return Err(Refusal::BadHex);
    };
    let threshold = Threshold::parse(words.threshold)?;
    let identifier = Identifier::parse(words.identifier)?;
    // Of more bytes, one more than there may be show that there are too many.
    let secret = &secret[..given.min(SECRET_ROOM)];
    let random = &random[..drawn.min(RANDOM_ROOM)];
    let size = split_into(texts, threshold, identifier, secret, count, random)?;
    Ok((count, size))
}

// What is said of `count` shares of `size` characters each: `ok`, and each with a space before it.
fn reply_of<A: Allocator>(
    alloc: A,
    texts: &[u8],
    count: usize,
    size: usize,
) -> Result<Vec<u8, A>, AllocError>
    requires { length texts.now ≡ count * size }
    ensures { IfOk result
        (λ said. said.items ≡ codes "ok" ++ spaced_shares size texts.now count) }
{
    let mut said = Vec::from_slice(alloc, b"ok")?;
    let mut rest = texts;
    for _ in 0..count {
        let (text, behind) = rest.split_at(size);
        said.push(b' ')?;
        said.extend_from_slice(text)?;
        rest = behind;
    }
    Ok(said)
}

impl<A: Allocator + Copy> Commands<A> {
    /// Adds shares of a secret, or leaves all as it was.
    #[inline(never)]
    pub(crate) fn split(&self, words: &SplitWords<'_>, out: &mut Vec<u8>) -> Result<(), Refusal>
        ensures answer { AddsAnyOrRefuses (IsSplitAnswer (asked_by words.now))
            number_of_codex32_reply result out.old.items out.new.items }
        ensures room { OnOk result (vec_len out.new + 1 ≤ vec_capacity out.new) }
        ensures capacity { vec_capacity out.old ≤ vec_capacity out.new }
    {
        let mut texts = [0u8; TEXTS_ROOM];
        let (count, size) = put_shares(words, &mut texts)?;
        let Ok(said) = reply_of(self.alloc, &texts[..count * size], count, size) else {
            return Err(Refusal::Text(Codex32Error::Memory));
        };
        match append_any(out, said.as_slice()) {
            Ok(()) => Ok(()),
            Err(_) => Err(Refusal::Text(Codex32Error::Memory)),
        }
    }
}
