//! Prints what each row of standard input gives, of the calls that read, write and correct texts;
//! `layer_rows` does so of the layers below. A row is words with `|` between two of them, or a tab:
//!
//! - `listing`, a checksum, a text, erasures and a window: what is listed for the text;
//! - `edits`, a checksum and a text: each text that the checksum accepts and one edit makes of this
//!   one, and the edit: `x` two neighbours swapped, `-` a character left out, `+` one put in, with
//!   its location and the characters;
//! - `liquid`, `decode` and a text; or `encode`, a human-readable part, a witness version, a
//!   blinding key and a program in hex; or `near`, a text, erasures and a number of errors: the
//!   parts of a confidential address, the address, the texts near one by Blech32, or the number of
//!   a refusal;
//! - `long`, and the words of a line of `b32` that encodes or decodes a long text: the reply to the
//!   line, were it not too long;
//! - `text`, a call and a text: what the call reads, or the refusal and whether it has a residue;
//! - `written`, a form, a checksum, a human-readable part and bytes: the text in memory, by a
//!   formatter and by a writer, or the refusal; `elements` for a form takes elements;
//! - `unchecked`, a form, a human-readable part, a witness version and a program: the address that
//!   is written without a test, by a formatter and by a writer;
//! - `length`, a checksum, a human-readable part and bytes: how long the text is, by two calls;
//! - `segwit`, a human-readable part, a witness version and a program: the address, that by the
//!   call of its version, and its length by three calls, each or the refusal;
//! - `ways`, a checksum, a text, erasures, a window, a highest location and the location of an
//!   error to take off: the bound and the window, and what is listed by another corrector with the
//!   erasures, with them in place of its own, up to the highest location, with them added, and
//!   without the error;
//! - `printed`, a text, erasures and a window: what its corrector prints;
//! - `lookup`, what is looked up, a checksum, a residue and locations: what the checksum finds;
//! - `mended`, a checksum, a text and erasures: the mended text, or what is said in its place;
//! - `near`, a checksum, a text, erasures and a number of errors: the texts near it;
//! - `nearest`, a text, erasures, a number of errors and a window: all listings by Bech32;
//! - `edited`: as `edits`;
//! - `detects`, a checksum and a number of characters: whether it detects four errors in them.
//!
//! Elements are their characters, the constant coefficient first; `-` stands for nothing. What the
//! rows in `stdin` give was made twice over and equal, and is in `stdout`: by a reference model
//! written from the definitions alone, and by the Rust crate bech32 0.12.0; the edits, which that
//! crate does not have, by two models; Liquid's addresses and long texts by one model each.
#![tactic(auto)]

mod confidential;
mod edits;
mod listings;
mod long_texts;
mod of_corrections;
mod of_texts;
mod rows;

use std::io;

fn main(rt: HostRuntime) -> io::Result<()> {
    for line in rt.lines(rt.alloc()) {
        let reply = rows::reply(rt.alloc(), line?.as_str())?;
        println!(rt; "{reply}")?;
    }
    Ok(())
}
