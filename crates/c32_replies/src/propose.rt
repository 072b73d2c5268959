//! Answers `propose` and `propose-long`.

ghost use Rattle.std.specs.Prelude.{◌≡◌, ◌+◌, ◌≤◌, ◌++◌, codes, length, vec_len, vec_capacity};
ghost use Rattle.line_program.specs.Added.{AddsOrRefuses};
ghost use Rattle.codex32.specs.Numbers.{number_of_codex32_error};
ghost use Rattle.c32_replies.specs.Reply.{IsProposeAnswer, IsProposeLongAnswer};

use crate::reply::Commands;
use codex32::{Codex32Error, propose, propose_long};
use line_program::append;
use std::alloc::Allocator;

// Adds the nearest text.
fn append_nearest(nearest: &str, out: &mut Vec<u8>)
    requires { vec_len out.old + (5 + length nearest.now) ≤ vec_capacity out.old }
    ensures items { out.new.items ≡ out.old.items ++ (codes "some " ++ nearest.now) }
    ensures capacity { vec_capacity out.old ≤ vec_capacity out.new }
{
    append(out, b"some ");
    append(out, nearest.as_bytes());
}

// Adds that there is none.
fn append_none(out: &mut Vec<u8>)
    requires { vec_len out.old + 4 ≤ vec_capacity out.old }
    ensures items { out.new.items ≡ out.old.items ++ codes "none" }
    ensures capacity { vec_capacity out.old ≤ vec_capacity out.new }
{
    append(out, b"none");
}

impl<A: Allocator + Copy> Commands<A> {
    /// Adds the nearest text to a damaged one, or that there is none, or leaves all as it was.
    pub(crate) fn propose(&self, text: &str, out: &mut Vec<u8>) -> Result<(), Codex32Error>
        requires { vec_len out.old + 2047 ≤ vec_capacity out.old }
        ensures answer { AddsOrRefuses (IsProposeAnswer text.now) number_of_codex32_error result
            out.old.items out.new.items }
        ensures capacity { vec_capacity out.old ≤ vec_capacity out.new }
    {
        match propose(self.alloc, text)? {
            Some(nearest) => append_nearest(&nearest, out),
            None => append_none(out),
        }
        Ok(())
    }

    /// Adds the nearest long text to a damaged one, or that there is none, or leaves all as it was.
    pub(crate) fn propose_long(&self, text: &str, out: &mut Vec<u8>) -> Result<(), Codex32Error>
        requires { vec_len out.old + 2047 ≤ vec_capacity out.old }
        ensures answer { AddsOrRefuses (IsProposeLongAnswer text.now) number_of_codex32_error
            result out.old.items out.new.items }
        ensures capacity { vec_capacity out.old ≤ vec_capacity out.new }
    {
        match propose_long(self.alloc, text)? {
            Some(nearest) => append_nearest(&nearest, out),
            None => append_none(out),
        }
        Ok(())
    }
}
