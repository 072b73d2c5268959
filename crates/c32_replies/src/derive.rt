//! Answers `derive` and `recover`.

ghost use Rattle.std.specs.Prelude.{◌≡◌, ◌⊎◌, ◌+◌, ◌≤◌, ◌++◌, [], ◌∷◌, vec_len, vec_capacity, MatchOption, MatchResult};
ghost use Rattle.line_program.specs.Added.{AddsOrRefuses};
ghost use Rattle.line_program.specs.Words.{words};
ghost use Rattle.codex32.specs.Share.{AreSharesOf, IsShareOf, IsShareRefusal};
ghost use Rattle.codex32.specs.declared.share.Share.{Share as CodexShare};
ghost use Rattle.c32_replies.specs.Numbers.{number_of_codex32_reply};
ghost use Rattle.c32_replies.specs.Reply.{AreTexts, IsDeriveAnswer, IsSharesAnswer, IsTextRefusal};

use crate::refusal::Refusal;
use crate::reply::Commands;
use bech32::Fe32;
use codex32::{Codex32Error, Share, derive, parse_share_index};
use line_program::append;
use std::alloc::Allocator;

// What stands before the first space, and what behind it.
fn cut(texts: &str) -> Option<(&str, &str)>
    ensures { MatchOption result
        (words texts.now ≡ texts.now ∷ [])
        (λ r. words texts.now ≡ r.0.now ∷ words r.1.now) }
{
    texts.split_once(' ')
}

// Tests texts, in their order.
fn validate_texts(texts: &str) -> Result<(), Codex32Error>
    ensures { MatchResult result
        (λ _. AreTexts (words texts.now))
        (λ e. IsTextRefusal (words texts.now) e) }
{
    let mut rest = texts;
    'texts: while let Some((text, behind)) = cut(rest) {
        Share::parse(text)?;
        rest = behind;
    }
    Share::parse(rest)?;
    Ok(())
}

// Adds the share of a text.
fn push_share<'t, A: Allocator>(
    shares: &mut Vec<Share<'t>, A>,
    text: &'t str,
) -> Result<(), Codex32Error>
    ensures { MatchResult result
        (λ _. (s : CodexShare) × IsShareOf text.now s
        × (shares.new.items ≡ shares.old.items ++ (s ∷ [])))
        (λ e. (e ≡ Codex32Error.Memory) ⊎ IsShareRefusal text.now e) }
{
    let share = Share::parse(text)?;
    match shares.push(share) {
        Ok(()) => Ok(()),
        Err(_) => Err(Codex32Error::Memory),
    }
}

// The shares of texts. Where this is out of memory, texts may not have been tested.
fn shares_in<'t, A: Allocator>(alloc: A, texts: &'t str) -> Result<Vec<Share<'t>, A>, Codex32Error>
    ensures { MatchResult result
        (λ v. AreSharesOf (words texts.now) v.items)
        (λ e. (e ≡ Codex32Error.Memory) ⊎ IsTextRefusal (words texts.now) e) }
{
    let mut shares = Vec::new(alloc);
    let mut rest = texts;
    'texts: while let Some((text, behind)) = cut(rest) {
        push_share(&mut shares, text)?;
        rest = behind;
    }
    push_share(&mut shares, rest)?;
    Ok(shares)
}

// The shares of texts. A text that is refused comes before memory that runs out.
fn shares_of<'t, A: Allocator>(alloc: A, texts: &'t str) -> Result<Vec<Share<'t>, A>, Codex32Error>
    ensures { MatchResult result
        (λ v. AreSharesOf (words texts.now) v.items)
        (λ e. IsTextRefusal (words texts.now) e
        ⊎ ((e ≡ Codex32Error.Memory) × AreTexts (words texts.now))) }
{
    match shares_in(alloc, texts) {
        Err(Codex32Error::Memory) => {
            validate_texts(texts)?;
            Err(Codex32Error::Memory)
        }
        read => read,
    }
}

impl<A: Allocator + Copy> Commands<A> {
    /// Adds the string at an index that the shares of texts give, or leaves all as it was.
    pub(crate) fn derive_at(
        &self,
        index: Fe32,
        texts: &str,
        out: &mut Vec<u8>,
    ) -> Result<(), Refusal>
        requires { vec_len out.old + 2047 ≤ vec_capacity out.old }
        ensures answer { AddsOrRefuses (IsSharesAnswer index (words texts.now))
            number_of_codex32_reply result out.old.items out.new.items }
        ensures capacity { vec_capacity out.old ≤ vec_capacity out.new }
    {
        let shares = shares_of(self.alloc, texts)?;
        let text = derive(self.alloc, &shares, index)?;
        append(out, b"ok ");
        append(out, text.as_bytes());
        Ok(())
    }

    /// Adds the string at the index that a word names, or leaves all as it was.
    pub(crate) fn derive(
        &self,
        share_index: &str,
        texts: &str,
        out: &mut Vec<u8>,
    ) -> Result<(), Refusal>
        requires { vec_len out.old + 2047 ≤ vec_capacity out.old }
        ensures answer { AddsOrRefuses (IsDeriveAnswer share_index.now (words texts.now))
            number_of_codex32_reply result out.old.items out.new.items }
        ensures capacity { vec_capacity out.old ≤ vec_capacity out.new }
    {
        let index = parse_share_index(share_index)?;
        self.derive_at(index, texts, out)
    }
}
