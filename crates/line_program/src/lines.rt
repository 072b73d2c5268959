//! Answers the lines of a source, one after another.

ghost use Rattle.std.specs.Prelude.{◌≡◌, ℕ, ◌+◌, ◌≤◌, ◌<◌, false, true, List, [], ◌∷◌, ◌++◌, take};
ghost use Rattle.std.specs.Prelude.{vec_len, vec_capacity, OnOk, OnErr, IsErrOf, IfOk};
ghost use Rattle.std.specs.Io.KnownBytes.{Appends, Keeps};
ghost use Rattle.line_program.specs.Limit.{kept, kept_of_line, longest_line};
ghost use Rattle.line_program.specs.Lines.{ended_from, rest_from, last_line};
ghost use Rattle.line_program.specs.Output.{IsOutput, IsBeginning, IsAnswered, IsAnsweredSoFar, IsCutShort};

use crate::error::RunError;
use crate::output::append;
use crate::replies::{LONGEST_LINE, REPLY_ROOM, Replies};
use io_traits::{ByteSink, ByteSource, Watched, write_all};
use memchr::memchr;
use std::alloc::{AllocError, Global};
use std::io;

// There is room for what is kept of a line of any program: one byte more than it may have shows
// that it is too long.
const LINE_ROOM: usize = LONGEST_LINE + 1;

// The number of bytes that are read at once.
const READ: usize = 65536;

// Replies are gathered in so much room.
const OUT_ROOM: usize = 16384;

/// What a run keeps between two reads, and the replies that are gathered and not written yet.
#[derive(Drop)]
struct Lines {
    line: Vec<u8>,
    out: Vec<u8>,
    ghost line_room: { kept_of_line longest_line ≤ vec_capacity line },
    ghost out_room: { 16384 ≤ vec_capacity out },
}

impl Lines {
    /// No bytes yet, and room for a line and for replies.
    fn new(alloc: Global) -> Result<Lines, AllocError>
        ensures { IfOk result (λ l. (l.line.items ≡ []) × (l.out.items ≡ [])) }
    {
        let line = Vec::with_capacity(alloc, LINE_ROOM)?;
        let out = Vec::with_capacity(alloc, OUT_ROOM)?;
        Ok(Lines { line, out })
    }

    /// Takes bytes of a line that has not ended: no more are kept than show that it is too long.
    fn keep<P: Replies>(&mut self, piece: &[u8])
        ensures line { (before : List ℕ) → self.old.line.items ≡ kept P.LINE_LIMIT before
            → self.new.line.items ≡ kept P.LINE_LIMIT (before ++ piece.now) }
        ensures out { self.new.out ≡ self.old.out }
    {
        let room = (P::LINE_LIMIT + 1).saturating_sub(self.line.len());
        let kept = piece.len().min(room);
        append(&mut self.line, &piece[..kept]);
    }

    /// Writes the replies that are gathered.
    fn write_out<K: ByteSink>(&mut self, sink: &mut K) -> Result<(), RunError>
        requires { K.has_failed sink.old ≡ false }
        ensures ok { OnOk result
            (Appends (K.contents sink.old) (K.contents sink.new) self.old.out.items) }
        ensures ok_mark { OnOk result (K.has_failed sink.new ≡ false) }
        ensures none_left { OnOk result (self.new.out.items ≡ []) }
        ensures err { OnErr result ((n : ℕ)
            × Appends (K.contents sink.old) (K.contents sink.new) (take n self.old.out.items)) }
        ensures err_mark { OnErr result (K.has_failed sink.new ≡ true) }
        ensures only { OnErr result (result ≡ Err RunError.Write) }
        ensures line { self.new.line ≡ self.old.line }
        ensures unflushed { K.flushes sink.new ≡ K.flushes sink.old }
        ensures same { K.is_same sink.old sink.new }
    {
        match write_all(sink, self.out.as_slice()) {
            Ok(()) => {
                self.out.clear();
                Ok(())
            }
            Err(_) => Err(RunError::Write),
        }
    }

    /// Writes what is gathered where there may be no room for a reply behind it.
    fn make_room<K: ByteSink>(&mut self, sink: &mut K) -> Result<(), RunError>
        requires { K.has_failed sink.old ≡ false }
        ensures ok { OnOk result
            ((out : List ℕ) × Appends (K.contents sink.old) (K.contents sink.new) out
            × (self.old.out.items ≡ out ++ self.new.out.items)) }
        ensures ok_mark { OnOk result (K.has_failed sink.new ≡ false) }
        ensures room { OnOk result (vec_len self.new.out ≤ 14336) }
        ensures err { OnErr result ((n : ℕ)
            × Appends (K.contents sink.old) (K.contents sink.new) (take n self.old.out.items)) }
        ensures err_mark { OnErr result (K.has_failed sink.new ≡ true) }
        ensures only { OnErr result (result ≡ Err RunError.Write) }
        ensures line { self.new.line ≡ self.old.line }
        ensures unflushed { K.flushes sink.new ≡ K.flushes sink.old }
        ensures same { K.is_same sink.old sink.new }
    {
        if self.out.len() <= OUT_ROOM - REPLY_ROOM {
            return Ok(());
        }
        self.write_out(sink)
    }

    /// Gathers the reply to the line that ends behind these bytes, and makes ready for the next.
    fn gather<P: Replies>(&mut self, program: &P, piece: &[u8])
        requires { vec_len self.old.out ≤ 14336 }
        ensures reply { (before : List ℕ) → self.old.line.items ≡ kept P.LINE_LIMIT before
            → (said : List ℕ) × P.is_reply (before ++ piece.now) said
            × (self.new.out.items ≡ self.old.out.items ++ (said ++ 10 ∷ [])) }
        ensures next { self.new.line.items ≡ [] }
    {
        // A line that came in one piece is not copied.
        if self.line.is_empty() {
            program.reply(piece, &mut self.out);
            return;
        }
        self.keep::<P>(piece);
        program.reply(self.line.as_slice(), &mut self.out);
        self.line.clear();
    }

    /// Gathers that reply, where there is room for it or the replies before it are written.
    fn reply_to<P: Replies, K: ByteSink>(
        &mut self,
        program: &P,
        piece: &[u8],
        sink: &mut K,
    ) -> Result<(), RunError>
        requires { K.has_failed sink.old ≡ false }
        ensures ok { OnOk result ((before : List ℕ) → self.old.line.items ≡ kept P.LINE_LIMIT before
            → (said : List ℕ) × P.is_reply (before ++ piece.now) said
            × (out : List ℕ) × Appends (K.contents sink.old) (K.contents sink.new) out
            × (self.old.out.items ++ (said ++ 10 ∷ []) ≡ out ++ self.new.out.items)) }
        ensures ok_mark { OnOk result (K.has_failed sink.new ≡ false) }
        ensures next { OnOk result (self.new.line.items ≡ []) }
        ensures err { OnErr result ((n : ℕ)
            × Appends (K.contents sink.old) (K.contents sink.new) (take n self.old.out.items)) }
        ensures err_mark { OnErr result (K.has_failed sink.new ≡ true) }
        ensures only { OnErr result (result ≡ Err RunError.Write) }
        ensures unflushed { K.flushes sink.new ≡ K.flushes sink.old }
        ensures same { K.is_same sink.old sink.new }
    {
        self.make_room(sink)?;
        self.gather(program, piece);
        Ok(())
    }

    /// Takes bytes, gathers the reply to each line that they end, and writes all replies.
    fn feed<P: Replies, K: ByteSink>(
        &mut self,
        program: &P,
        bytes: &[u8],
        sink: &mut K,
    ) -> Result<(), RunError>
        requires unmarked { K.has_failed sink.old ≡ false }
        requires none_left { self.old.out.items ≡ [] }
        ensures ok { OnOk result ((before : List ℕ) → self.old.line.items ≡ kept P.LINE_LIMIT before
            → (self.new.line.items ≡ kept P.LINE_LIMIT (rest_from before bytes.now))
            × (out : List ℕ) × Appends (K.contents sink.old) (K.contents sink.new) out
            × IsOutput P.is_reply (ended_from before bytes.now) out) }
        ensures ok_mark { OnOk result (K.has_failed sink.new ≡ false) }
        ensures none_left { OnOk result (self.new.out.items ≡ []) }
        ensures err { OnErr result ((before : List ℕ)
            → self.old.line.items ≡ kept P.LINE_LIMIT before
            → (out : List ℕ) × Appends (K.contents sink.old) (K.contents sink.new) out
            × IsBeginning P.is_reply (ended_from before bytes.now) out) }
        ensures err_mark { OnErr result (K.has_failed sink.new ≡ true) }
        ensures only { OnErr result (result ≡ Err RunError.Write) }
        ensures unflushed { K.flushes sink.new ≡ K.flushes sink.old }
        ensures same { K.is_same sink.old sink.new }
    {
        let mut rest = bytes;
        'lines: while let Some(end) = memchr(b'\n', rest) {
            self.reply_to(program, &rest[..end], sink)?;
            rest = &rest[end + 1..];
        }
        self.keep::<P>(rest);
        self.write_out(sink)
    }

    /// Returns what is left at the end.
    fn finish<P: Replies, K: ByteSink>(&mut self, program: &P, sink: &mut K) -> Result<(), RunError>
        requires unmarked { K.has_failed sink.old ≡ false }
        requires none_left { self.old.out.items ≡ [] }
        ensures ok { OnOk result ((before : List ℕ) → self.old.line.items ≡ kept P.LINE_LIMIT before
            → (out : List ℕ) × Appends (K.contents sink.old) (K.contents sink.new) out
            × IsOutput P.is_reply (last_line before) out) }
        ensures ok_mark { OnOk result (K.has_failed sink.new ≡ false) }
        ensures err { OnErr result ((before : List ℕ)
            → self.old.line.items ≡ kept P.LINE_LIMIT before
            → (out : List ℕ) × Appends (K.contents sink.old) (K.contents sink.new) out
            × ((xs : List (List ℕ)) (a : List ℕ) → IsOutput P.is_reply xs a
            → IsBeginning P.is_reply (xs ++ last_line before) (a ++ out))) }
        ensures err_mark { OnErr result (K.has_failed sink.new ≡ true) }
        ensures only { OnErr result (result ≡ Err RunError.Write) }
        ensures unflushed { K.flushes sink.new ≡ K.flushes sink.old }
        ensures same { K.is_same sink.old sink.new }
    {
        if self.line.is_empty() {
            return Ok(());
        }
        self.reply_to(program, b"", sink)?;
        self.write_out(sink)
    }
}

/// Flushes the sink.
fn flush<K: ByteSink>(sink: &mut K) -> Result<(), RunError>
    requires { K.has_failed sink.old ≡ false }
    ensures bytes { Keeps (K.contents sink.old) (K.contents sink.new) }
    ensures done { OnOk result (K.is_flushed sink.new ≡ true) }
    ensures counted { OnOk result (K.flushes sink.new ≡ K.flushes sink.old + 1) }
    ensures uncounted { OnErr result (K.flushes sink.new ≡ K.flushes sink.old) }
    ensures ok_mark { OnOk result (K.has_failed sink.new ≡ false) }
    ensures err_mark { OnErr result (K.has_failed sink.new ≡ true) }
    ensures only { OnErr result (result ≡ Err RunError.Write) }
    ensures same { K.is_same sink.old sink.new }
{
    match sink.flush() {
        Ok(()) => Ok(()),
        Err(_) => Err(RunError::Write),
    }
}

/// Answers each line of a source: writes its reply and a newline. It makes its buffers first,
/// writes the replies to all lines that have ended before each further read, and flushes the sink
/// once, at its end, unless writing failed.
///
/// # Errors
///
/// `Memory` where there is none for the buffers: nothing was read, written or flushed. `Read` where
/// reading failed: the lines that ended before it were answered, and flushed once. `Write` where
/// writing or flushing failed: a beginning of the replies went out, and no flush succeeded.
pub fn run_on<P: Replies, S: ByteSource, K: ByteSink>(
    alloc: Global,
    program: &P,
    source: &mut S,
    sink: &mut K,
) -> Result<(), RunError>
    requires source_unmarked { S.has_failed source.old ≡ false }
    requires sink_unmarked { K.has_failed sink.old ≡ false }
    ensures ok { OnOk result
        (IsAnswered P.is_reply (S.remaining source.old) (S.remaining source.new)
        (K.contents sink.old) (K.contents sink.new)) }
    ensures read { IsErrOf result RunError.Read
        → IsAnsweredSoFar P.is_reply (S.remaining source.old) (S.remaining source.new)
        (K.contents sink.old) (K.contents sink.new) }
    ensures flushed { OnOk result (K.is_flushed sink.new ≡ true) }
    ensures flushed_once { OnOk result (K.flushes sink.new ≡ K.flushes sink.old + 1) }
    ensures ok_marks { OnOk result ((S.has_failed source.new ≡ false)
        × (K.has_failed sink.new ≡ false)) }
    ensures read_flushed { IsErrOf result RunError.Read → K.is_flushed sink.new ≡ true }
    ensures read_flushed_once { IsErrOf result RunError.Read
        → K.flushes sink.new ≡ K.flushes sink.old + 1 }
    ensures read_marks { IsErrOf result RunError.Read
        → (S.has_failed source.new ≡ true) × (K.has_failed sink.new ≡ false) }
    ensures write { IsErrOf result RunError.Write
        → IsCutShort P.is_reply (S.remaining source.old) (S.remaining source.new)
        (K.contents sink.old) (K.contents sink.new) }
    ensures write_mark { IsErrOf result RunError.Write → K.has_failed sink.new ≡ true }
    ensures write_unflushed { IsErrOf result RunError.Write
        → K.flushes sink.new ≡ K.flushes sink.old }
    ensures memory { IsErrOf result RunError.Memory
        → (source.new ≡ source.old) × (sink.new ≡ sink.old) }
    ensures source_same { S.is_same source.old source.new }
    ensures sink_same { K.is_same sink.old sink.new }
{
    let Ok(mut lines) = Lines::new(alloc) else {
        return Err(RunError::Memory);
    };
    let mut buf = [0u8; READ];
    'reads: loop {
        let Ok(n) = source.read(&mut buf) else {
            flush(sink)?;
            return Err(RunError::Read);
        };
        if n == 0 {
            break 'reads;
        }
        lines.feed(program, &buf[..n], sink)?;
    }
    lines.finish(program, sink)?;
    flush(sink)
}

/// Answers each line of a reader, as `run_on` does over a [`Watched`] reader and writer.
///
/// # Errors
///
/// Those of `run_on`. Whether the reader or the writer failed can be told only of what is watched:
/// a caller who is to know it watches both and calls `run_on`, as `main` does.
pub fn run<P: Replies, R: io::Read, W: io::Write>(
    alloc: Global,
    program: &P,
    reader: &mut R,
    writer: &mut W,
) -> Result<(), RunError>
    ensures ok { OnOk result
        (IsAnswered P.is_reply (R.remaining reader.old) (R.remaining reader.new)
        (W.contents writer.old) (W.contents writer.new)) }
    ensures read { IsErrOf result RunError.Read
        → IsAnsweredSoFar P.is_reply (R.remaining reader.old) (R.remaining reader.new)
        (W.contents writer.old) (W.contents writer.new) }
    ensures write { IsErrOf result RunError.Write
        → IsCutShort P.is_reply (R.remaining reader.old) (R.remaining reader.new)
        (W.contents writer.old) (W.contents writer.new) }
    ensures memory { IsErrOf result RunError.Memory
        → (reader.new ≡ reader.old) × (writer.new ≡ writer.old) }
{
    let mut source = Watched::new(reader);
    let mut sink = Watched::new(writer);
    run_on(alloc, program, &mut source, &mut sink)
}
