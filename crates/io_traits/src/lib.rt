//! Readers and writers with a mark that says whether a call failed.
//!
//! Below it: no crate of this repository.
//! Standard: none.
#![tactic(auto)]

ghost use Rattle.std.specs.Prelude.{◌≡◌, ℕ, ◌+◌, ◌-◌, ◌^◌, ◌≤◌, ◌<◌, List, Bool, true, false};
ghost use Rattle.std.specs.Prelude.{is_err, length, take, Option, Result};
ghost use Rattle.std.specs.Prelude.{OnOk, OnErr, IfOk, IfErr};
ghost use Rattle.std.specs.declared.io.Error.{Error as IoError};
ghost use Rattle.std.specs.declared.fmt.Error.{Error as FmtError};
ghost use Rattle.std.specs.Io.{ReadsAtMost, WritesAtMost};
ghost use Rattle.std.specs.Io.KnownBytes.{Keeps, Appends, ReadConsumes, WriteAppends};
ghost use Rattle.io_traits.specs.Marks.{write_fails, IsErrorOfLastWrite};
ghost use Rattle.io_traits.specs.Watched.{device_of, reference_of, is_marked, was_flushed};
ghost use Rattle.io_traits.specs.Watched.{flush_count, reads_to_come};

mod device;
mod pieces;

pub use device::{FmtDevice, ReadDevice, WriteDevice};
pub use pieces::{PIECE_LENGTH, Pieces, pieces_into_bytes, pieces_into_fmt};
use std::{fmt, io};

/// What bytes are read from, with a mark that says whether a call failed.
///
/// A call fails if it returns an error. A call that fails sets the mark, and then the source is
/// asked nothing more: a read is allowed only while the mark is unset.
pub trait ByteSource {
    // The bytes that reads will give from here on, where they are known.
    ghost remaining: { Self → Option (List ℕ) };

    // The mark: a call has failed.
    ghost has_failed: { Self → Bool };

    // Two states of one device. Without this nothing is known afterwards of a reader that the
    // source borrows.
    ghost is_same: { Self → Self → Type 0 };

    // No more reads than this succeed, so that a loop over reads ends.
    ghost reads_left: { Self → ℕ };

    // What one read did: the source before it, what the buffer then held, what it returned, and the
    // source after it. Nothing but a read shows it.
    ghost read_gives: { Self → List ℕ → Result ℕ IoError → Self → Type 0 };

    /// Reads into the front of `buf`, and returns how many bytes were read.
    ///
    /// `Ok(0)` says that the source is at its end, or that `buf` is empty.
    ///
    /// # Errors
    ///
    /// Where reading failed. No byte was read, and the mark is set.
    fn read(&mut self, buf: &mut [u8]) -> io::Result<usize>
        requires { has_failed self.old ≡ false }
        ensures bound { ReadsAtMost result buf.new }
        ensures bytes { ReadConsumes (remaining self.old) (remaining self.new) result buf.new }
        ensures mark { has_failed self.new ≡ is_err result }
        ensures ends { OnOk result (reads_left self.new < reads_left self.old) }
        ensures asked { read_gives self.old buf.new result self.new }
        ensures same { is_same self.old self.new };

    /// Whether the mark is set.
    fn failed(&self) -> bool
        ensures { result ≡ has_failed self.now };

    ghost reflexive: { (s : Self) → is_same s s };

    ghost transitive: { (s t u : Self) → is_same s t → is_same t u → is_same s u };
}

/// What bytes are written to, with a mark that says whether a call failed.
///
/// A call fails if it returns an error; a `write` also if it returns `Ok(0)` for a slice
/// that is not empty. A call that fails sets the mark, and then the sink is asked nothing more: a
/// write or a flush is allowed only while the mark is unset.
pub trait ByteSink {
    // The bytes that went out, where they are known.
    ghost contents: { Self → Option (List ℕ) };

    // The mark: a call has failed.
    ghost has_failed: { Self → Bool };

    // Two states of one device. Without this nothing is known afterwards of a writer that the
    // sink borrows.
    ghost is_same: { Self → Self → Type 0 };

    // The last flush succeeded, and no byte was taken since.
    ghost is_flushed: { Self → Bool };

    // How many flushes succeeded.
    ghost flushes: { Self → ℕ };

    // What one write did: the sink before it, the bytes it was given, what it returned, and the
    // sink after it. Nothing but a write shows it.
    ghost write_gives: { Self → List ℕ → Result ℕ IoError → Self → Type 0 };

    // What one flush did, in the same way.
    ghost flush_gives: { Self → Result Unit IoError → Self → Type 0 };

    /// Writes the front of `buf`, and returns how many bytes were taken.
    ///
    /// `Ok(0)` for a `buf` that is not empty is a failure too, and sets the mark.
    ///
    /// # Errors
    ///
    /// Where writing failed. No byte was taken, and the mark is set.
    fn write(&mut self, buf: &[u8]) -> io::Result<usize>
        requires { has_failed self.old ≡ false }
        ensures bound { WritesAtMost result buf.now }
        ensures bytes { WriteAppends (contents self.old) (contents self.new) result buf.now }
        ensures mark { has_failed self.new ≡ write_fails result (length buf.now) }
        ensures unflushed { IfOk result (λ n. 0 < n → is_flushed self.new ≡ false) }
        ensures uncounted { flushes self.new ≡ flushes self.old }
        ensures asked { write_gives self.old buf.now result self.new }
        ensures same { is_same self.old self.new };

    /// Hands on what was written.
    ///
    /// # Errors
    ///
    /// Where that failed. The mark is set.
    fn flush(&mut self) -> io::Result<()>
        requires { has_failed self.old ≡ false }
        ensures done { OnOk result (is_flushed self.new ≡ true) }
        ensures counted { OnOk result (flushes self.new ≡ flushes self.old + 1) }
        ensures uncounted { OnErr result (flushes self.new ≡ flushes self.old) }
        ensures bytes { Keeps (contents self.old) (contents self.new) }
        ensures mark { has_failed self.new ≡ is_err result }
        ensures asked { flush_gives self.old result self.new }
        ensures same { is_same self.old self.new };

    /// Whether the mark is set.
    fn failed(&self) -> bool
        ensures { result ≡ has_failed self.now };

    ghost reflexive: { (s : Self) → is_same s s };

    ghost transitive: { (s t u : Self) → is_same s t → is_same t u → is_same s u };
}

/// What text is written to, with a mark that says whether a call failed.
///
/// A call fails if it returns an error. A call that fails sets the mark, and then the sink is
/// asked nothing more: a piece is written only while the mark is unset.
pub trait FmtSink {
    // Relates the sink before a piece that it took, the piece, and the sink after it. Of a whole
    // text in pieces it is `WritesInCalls takes` that says so.
    ghost takes: { Self → List ℕ → Self → Type 0 };

    // What one call did: the sink before it, the piece, what it returned, and the sink after it.
    // Nothing but a call shows it.
    ghost piece_gives: { Self → List ℕ → Result Unit FmtError → Self → Type 0 };

    // The mark: a call has failed.
    ghost has_failed: { Self → Bool };

    // Two states of one device. Without this nothing is known afterwards of a writer that the
    // sink borrows.
    ghost is_same: { Self → Self → Type 0 };

    /// Writes a piece of a text.
    ///
    /// # Errors
    ///
    /// Where writing failed. Nothing is known of the piece, and the mark is set.
    fn write_str(&mut self, s: &str) -> fmt::Result
        requires { has_failed self.old ≡ false }
        ensures piece { OnOk result (takes self.old s.now self.new) }
        ensures mark { has_failed self.new ≡ is_err result }
        ensures asked { piece_gives self.old s.now result self.new }
        ensures same { is_same self.old self.new };

    /// Whether the mark is set.
    fn failed(&self) -> bool
        ensures { result ≡ has_failed self.now };

    ghost reflexive: { (s : Self) → is_same s s };

    ghost transitive: { (s t u : Self) → is_same s t → is_same t u → is_same s u };
}

/// A reader or a writer with a mark that says whether a call failed.
///
/// The mark is unset at first, and set from the first failing call on. Over a [`ReadDevice`], as
/// each [`io::Read`] is, this is a [`ByteSource`], over a [`WriteDevice`] a [`ByteSink`], and over
/// a [`FmtDevice`] a [`FmtSink`].
///
/// Each read, write and flush asks the device once, but for one limit: after 2^64 - 1 reads the
/// next read fails with [`io::ErrorKind::Other`] and does not ask, and so does a flush after
/// 2^64 - 1 flushes. So a loop over reads ends, even where the reader never does, and flushes can
/// be counted.
#[derive(Drop)]
pub struct Watched<'a, D> {
    device: &'a mut D,
    marked: bool,
    flushed: bool,
    flushes: u64,
    reads_left: u64,
}

impl<'a, D> Watched<'a, D> {
    /// Watches a device from now on: the mark is unset, whatever the device did before.
    pub fn new(device: &'a mut D) -> Watched<'a, D>
        ensures device { device_of result ≡ device.old }
        ensures unmarked { is_marked result ≡ false }
        ensures unflushed { was_flushed result ≡ false }
        ensures flushes { flush_count result ≡ 0 }
        ensures reads { reads_to_come result ≡ 2 ^ 64 - 1 }
        ensures same { reference_of result ≡ device.entry.ghost_name }
    {
        Watched {
            device,
            marked: false,
            flushed: false,
            flushes: 0,
            reads_left: u64::MAX,
        }
    }
}

impl<'a, D: ReadDevice> ByteSource for Watched<'a, D> {
    ghost use Rattle.std.specs.Prelude.{refl};
    ghost use Rattle.std.proofs.Common.{◌∙◌};

    ghost remaining = { λ w. D.remaining (device_of w) };

    ghost has_failed = { is_marked };

    ghost is_same = { λ s t. reference_of s ≡ reference_of t };

    ghost reads_left = { reads_to_come };

    // Past the last read that may ask the device, it stays as it is.
    ghost read_gives = { λ s bytes returned t.
        (0 < reads_to_come s → D.read_gives (device_of s) bytes returned (device_of t))
        × (reads_to_come s ≡ 0 → device_of t ≡ device_of s) };

    ghost reflexive = { λ s. refl };

    ghost transitive = { λ s t u p q. p ∙ q };

    fn read(&mut self, buf: &mut [u8]) -> io::Result<usize> {
        if self.reads_left == 0 {
            self.marked = true;
            return Err(io::Error::from(io::ErrorKind::Other));
        }
        self.reads_left -= 1;
        let outcome = self.device.read_once(buf);
        self.marked = outcome.is_err();
        outcome
    }

    fn failed(&self) -> bool {
        self.marked // set by a read
    }
}

impl<'a, D: WriteDevice> ByteSink for Watched<'a, D> {
    ghost use Rattle.std.specs.Prelude.{refl};
    ghost use Rattle.std.proofs.Common.{◌∙◌};

    ghost contents = { λ w. D.contents (device_of w) };

    ghost has_failed = { is_marked };

    ghost is_same = { λ s t. reference_of s ≡ reference_of t };

    ghost is_flushed = { was_flushed };

    ghost flushes = { flush_count };

    ghost write_gives = { λ s bytes returned t.
        D.write_gives (device_of s) bytes returned (device_of t) };

    // Past the last flush that can be counted, the device stays as it is.
    ghost flush_gives = { λ s returned t.
        (flush_count s < 2 ^ 64 - 1 → D.flush_gives (device_of s) returned (device_of t))
        × (flush_count s ≡ 2 ^ 64 - 1 → device_of t ≡ device_of s) };

    ghost reflexive = { λ s. refl };

    ghost transitive = { λ s t u p q. p ∙ q };

    fn write(&mut self, buf: &[u8]) -> io::Result<usize> {
        self.flushed = false;
        let outcome = self.device.write_once(buf);
        self.marked = match outcome {
            Ok(n) => n == 0 && !buf.is_empty(),
            Err(_) => true,
        };
        outcome
    }

    fn flush(&mut self) -> io::Result<()> {
        if self.flushes == u64::MAX {
            self.marked = true;
            return Err(io::Error::from(io::ErrorKind::Other));
        }
        let outcome = self.device.flush_once();
        self.marked = outcome.is_err();
        self.flushed = outcome.is_ok();
        self.flushes += u64::from(outcome.is_ok());
        outcome
    }

    fn failed(&self) -> bool {
        self.marked // set by a write or a flush
    }
}

impl<'a, D: FmtDevice> FmtSink for Watched<'a, D> {
    ghost use Rattle.std.specs.Prelude.{refl};
    ghost use Rattle.std.proofs.Common.{◌∙◌};

    ghost takes = { λ s piece t. D.takes (device_of s) piece (device_of t) };

    ghost piece_gives = { λ s piece returned t.
        D.piece_gives (device_of s) piece returned (device_of t) };

    ghost has_failed = { is_marked };

    ghost is_same = { λ s t. reference_of s ≡ reference_of t };

    ghost reflexive = { λ s. refl };

    ghost transitive = { λ s t u p q. p ∙ q };

    fn write_str(&mut self, s: &str) -> fmt::Result {
        let outcome = self.device.write_str_once(s);
        self.marked = outcome.is_err();
        outcome
    }

    fn failed(&self) -> bool {
        self.marked // set by a piece
    }
}

/// Writes all of `bytes`, in as many writes as that takes.
///
/// # Errors
///
/// Where a write failed, and only there. The sink took a front of `bytes`, and its mark is set.
/// The error is the sink's own, or [`io::ErrorKind::WriteZero`] where a write took nothing. No
/// write is tried again, not even after [`io::ErrorKind::Interrupted`].
pub fn write_all<K: ByteSink>(sink: &mut K, bytes: &[u8]) -> io::Result<()>
    requires { K.has_failed sink.old ≡ false }
    ensures ok { OnOk result (Appends (K.contents sink.old) (K.contents sink.new) bytes.now) }
    ensures ok_mark { OnOk result (K.has_failed sink.new ≡ false) }
    ensures err_mark { OnErr result (K.has_failed sink.new ≡ true) }
    ensures beginning { OnErr result ((n : ℕ) × (n ≤ length bytes.now)
        × Appends (K.contents sink.old) (K.contents sink.new) (take n bytes.now)) }
    ensures error { IfErr result (λ e. IsErrorOfLastWrite K.write_gives bytes.now sink.new e) }
    ensures uncounted { K.flushes sink.new ≡ K.flushes sink.old }
    ensures same { K.is_same sink.old sink.new }
{
    let mut at = 0;
    while at < bytes.len() {
        let n = sink.write(&bytes[at..])?;
        if n == 0 {
            return Err(io::Error::from(io::ErrorKind::WriteZero));
        }
        at += n;
    }
    Ok(())
}
