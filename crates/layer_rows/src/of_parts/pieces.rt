//! Human-readable parts that come in pieces.

use bech32_hrp::{Error, Hrp, HrpSink};
use std::alloc::{AllocError, Global};
use std::fmt;
use std::fmt::Write;

// Prints these pieces.
#[derive(Drop)]
struct Pieces<'a> {
    pieces: &'a [&'a str],
}

impl fmt::Display for Pieces<'_> {
    fn fmt<W: fmt::Write>(&self, f: &mut fmt::Formatter<W>) -> fmt::Result {
        for piece in self.pieces {
            f.write_str(piece)?;
        }
        Ok(())
    }
}

// A part, or why there is none.
fn shown(alloc: Global, read: Result<Hrp, Error>) -> Result<String, AllocError> {
    match read {
        Ok(hrp) => format!(in alloc; "{hrp}"),
        Err(error) => format!(in alloc; "{error}"),
    }
}

// What a sink gives behind a piece, asked twice.
fn behind(alloc: Global, sink: &mut HrpSink, piece: &str) -> Result<String, AllocError> {
    if sink.write_str(piece).is_err() {
        return String::from_str(alloc, "refused|");
    }
    let first = shown(alloc, sink.finish())?;
    let again = shown(alloc, sink.finish())?;
    format!(in alloc; "{first}|{again}|")
}

// What a sink gives behind each of these pieces.
fn by_sink(alloc: Global, pieces: &[&str]) -> Result<String, AllocError> {
    let mut sink = HrpSink::new();
    let mut text = shown(alloc, sink.finish())?;
    text.push('|')?;
    for piece in pieces {
        let piece = behind(alloc, &mut sink, piece)?;
        text.push_str(&piece)?;
    }
    Ok(text)
}

// The words behind the first.
fn behind_first<'a>(words: &'a [&'a str]) -> &'a [&'a str] {
    let start = words.len().min(1);
    &words[start..]
}

/// What a row of pieces gives: what a sink gives behind each, and what is read of a value that
/// prints them.
pub fn reply(alloc: Global, words: &[&str]) -> Result<String, AllocError> {
    let pieces = behind_first(words);
    let by_sink = by_sink(alloc, pieces)?;
    let printed = shown(alloc, Hrp::parse_display(Pieces { pieces }))?;
    format!(in alloc; "{by_sink}{printed}")
}
