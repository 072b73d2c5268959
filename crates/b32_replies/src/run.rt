//! Answers the lines of a source, one after another.

ghost use Rattle.std.specs.Prelude.{◌≡◌, ◌+◌, false, true, OnOk, IsErrOf};
ghost use Rattle.line_program.specs.Output.{IsAnswered, IsAnsweredSoFar, IsCutShort};
ghost use Rattle.b32_replies.specs.Reply.{IsReply};

use crate::error::RunError;
use crate::reply::Commands;
use bech32::primitives::device::{ByteSink, ByteSource};
use std::alloc::Global;
use std::io;

/// Answers each line of a source, as [`line_program::run_on`] does: writes its reply and a newline.
/// It makes its buffers first, writes the replies to all lines that have ended before each further
/// read, and flushes the sink once, at its end, unless writing failed.
///
/// # Errors
///
/// `Memory` where there is none for the buffers: nothing was read, written or flushed. `Read` where
/// reading failed: the lines that ended before it were answered, and flushed once. `Write` where
/// writing or flushing failed: a beginning of the replies went out, and no flush succeeded.
pub fn run_on<S: ByteSource, K: ByteSink>(
    alloc: Global,
    source: &mut S,
    sink: &mut K,
) -> Result<(), RunError>
    requires source_unmarked { S.has_failed source.old ≡ false }
    requires sink_unmarked { K.has_failed sink.old ≡ false }
    ensures ok { OnOk result (IsAnswered IsReply (S.remaining source.old) (S.remaining source.new)
        (K.contents sink.old) (K.contents sink.new)) }
    ensures read { IsErrOf result RunError.Read
        → IsAnsweredSoFar IsReply (S.remaining source.old) (S.remaining source.new)
        (K.contents sink.old) (K.contents sink.new) }
    ensures flushed { OnOk result (K.is_flushed sink.new ≡ true) }
    ensures flushed_once { OnOk result (K.flushes sink.new ≡ K.flushes sink.old + 1) }
    ensures ok_marks { OnOk result ((S.has_failed source.new ≡ false)
        × (K.has_failed sink.new ≡ false)) }
    ensures read_flushed { IsErrOf result RunError.Read → K.is_flushed sink.new ≡ true }
    ensures read_flushed_once { IsErrOf result RunError.Read
        → K.flushes sink.new ≡ K.flushes sink.old + 1 }
    ensures read_marks { IsErrOf result RunError.Read
        → (S.has_failed source.new ≡ true) × (K.has_failed sink.new ≡ false) }
    ensures write { IsErrOf result RunError.Write
        → IsCutShort IsReply (S.remaining source.old) (S.remaining source.new)
        (K.contents sink.old) (K.contents sink.new) }
    ensures write_mark { IsErrOf result RunError.Write → K.has_failed sink.new ≡ true }
    ensures write_unflushed { IsErrOf result RunError.Write
        → K.flushes sink.new ≡ K.flushes sink.old }
    ensures memory { IsErrOf result RunError.Memory
        → (source.new ≡ source.old) × (sink.new ≡ sink.old) }
    ensures source_same { S.is_same source.old source.new }
    ensures sink_same { K.is_same sink.old sink.new }
{
    Ok(line_program::run_on(alloc, &Commands { alloc }, source, sink)?)
}

/// Answers each line of a reader, as `run_on` does over a watched reader and writer.
///
/// # Errors
///
/// Those of `run_on`. Whether the reader or the writer failed can be told only of what is watched:
/// a caller who is to know it watches both and calls `run_on`, as `main` does.
pub fn run<R: io::Read, W: io::Write>(
    alloc: Global,
    reader: &mut R,
    writer: &mut W,
) -> Result<(), RunError>
    ensures ok { OnOk result (IsAnswered IsReply (R.remaining reader.old) (R.remaining reader.new)
        (W.contents writer.old) (W.contents writer.new)) }
    ensures read { IsErrOf result RunError.Read
        → IsAnsweredSoFar IsReply (R.remaining reader.old) (R.remaining reader.new)
        (W.contents writer.old) (W.contents writer.new) }
    ensures write { IsErrOf result RunError.Write
        → IsCutShort IsReply (R.remaining reader.old) (R.remaining reader.new)
        (W.contents writer.old) (W.contents writer.new) }
    ensures memory { IsErrOf result RunError.Memory
        → (reader.new ≡ reader.old) × (writer.new ≡ writer.old) }
{
    Ok(line_program::run(alloc, &Commands { alloc }, reader, writer)?)
}
