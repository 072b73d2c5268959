//! Texts that come piece by piece, and are written so.

ghost use Rattle.std.specs.Prelude.{◌≡◌, ℕ, ◌≤◌, List, [], ◌++◌, true, false, length, take, OnOk, OnErr, IfErr};
ghost use Rattle.std.specs.Fmt.{WritesInCalls};
ghost use Rattle.std.specs.Io.KnownBytes.{Appends};
ghost use Rattle.std.specs.Str.{IsAscii};
ghost use Rattle.io_traits.specs.Marks.{IsErrorOfLastPiece};

use crate::{ByteSink, FmtSink, write_all};
use std::{fmt, io};

/// The length of a buffer that has room for each piece.
pub const PIECE_LENGTH: usize = 256;

/// A text that comes piece by piece; all of it is ASCII.
pub trait Pieces {
    // The bytes of the text that are still to come.
    ghost to_come: { Self → List ℕ };

    /// Puts the next piece at the front of `buffer`, and returns how many bytes it has: 0 where
    /// nothing of the text is left.
    fn put_next(&mut self, buffer: &mut [u8]) -> usize
        requires { 256 ≤ length buffer.old }
        ensures bound { result ≤ length buffer.new }
        ensures piece { to_come self.old ≡ take result buffer.new ++ to_come self.new }
        ensures ends { result ≡ 0 → to_come self.old ≡ [] }
        ensures ascii { IsAscii (take result buffer.new) };
}

/// Writes all that is to come of a text, each piece as it is put into a buffer in place.
///
/// # Errors
///
/// Where the sink failed, and only there. Its mark is set, and it was asked nothing more.
pub fn pieces_into_fmt<P: Pieces, S: FmtSink>(pieces: &mut P, sink: &mut S) -> fmt::Result
    requires { S.has_failed sink.old ≡ false }
    ensures ok { OnOk result (WritesInCalls S.takes sink.old (P.to_come pieces.old) sink.new) }
    ensures ok_mark { OnOk result (S.has_failed sink.new ≡ false) }
    ensures err_mark { OnErr result (S.has_failed sink.new ≡ true) }
    ensures same { S.is_same sink.old sink.new }
{
    let mut buffer = [0u8; PIECE_LENGTH];
    'pieces: loop {
        let count = pieces.put_next(&mut buffer);
        if count == 0 {
            return Ok(());
        }
        // All of it is ASCII: what the call requires is proved.
        let piece = unsafe { str::from_utf8_unchecked(&buffer[..count]) };
        sink.write_str(piece)?;
    }
}

/// Writes all that is to come of a text into a sink of bytes, as [`pieces_into_fmt`] does into a
/// sink of text.
///
/// # Errors
///
/// Where the sink failed, and only there, as [`write_all`] says. It took a beginning of the text.
pub fn pieces_into_bytes<P: Pieces, K: ByteSink>(pieces: &mut P, sink: &mut K) -> io::Result<()>
    requires { K.has_failed sink.old ≡ false }
    ensures ok { OnOk result
        (Appends (K.contents sink.old) (K.contents sink.new) (P.to_come pieces.old)) }
    ensures ok_mark { OnOk result (K.has_failed sink.new ≡ false) }
    ensures err_mark { OnErr result (K.has_failed sink.new ≡ true) }
    ensures beginning { OnErr result ((n : ℕ) × (n ≤ length (P.to_come pieces.old))
        × Appends (K.contents sink.old) (K.contents sink.new) (take n (P.to_come pieces.old))) }
    ensures error { IfErr result
        (λ e. IsErrorOfLastPiece K.write_gives (P.to_come pieces.old) sink.new e) }
    ensures uncounted { K.flushes sink.new ≡ K.flushes sink.old }
    ensures same { K.is_same sink.old sink.new }
{
    let mut buffer = [0u8; PIECE_LENGTH];
    'pieces: loop {
        let count = pieces.put_next(&mut buffer);
        if count == 0 {
            return Ok(());
        }
        write_all(sink, &buffer[..count])?;
    }
}
