//! Devices as they are asked: what a call did can be shown by that call alone.

ghost use Rattle.std.specs.Prelude.{ℕ, List, Option, Result};
ghost use Rattle.std.specs.Io.{ReadsAtMost, WritesAtMost};
ghost use Rattle.std.specs.Io.KnownBytes.{Keeps, ReadConsumes, WriteAppends};
ghost use Rattle.std.specs.Prelude.{OnOk};
ghost use Rattle.std.specs.declared.io.Error.{Error as IoError};
ghost use Rattle.std.specs.declared.fmt.Error.{Error as FmtError};

use std::{fmt, io};

/// A device that bytes are read from.
pub trait ReadDevice {
    // The bytes that reads will give from here on, where they are known.
    ghost remaining: { Self → Option (List ℕ) };

    // What one read did: the device before it, what the buffer then held, what it returned, and the
    // device after it.
    ghost read_gives: { Self → List ℕ → Result ℕ IoError → Self → Type 0 };

    /// Asks the device once.
    ///
    /// # Errors
    ///
    /// Those of the device.
    fn read_once(&mut self, buf: &mut [u8]) -> io::Result<usize>
        ensures bound { ReadsAtMost result buf.new }
        ensures bytes { ReadConsumes (remaining self.old) (remaining self.new) result buf.new }
        ensures asked { read_gives self.old buf.new result self.new };
}

/// A device that bytes are written to.
pub trait WriteDevice {
    // The bytes that went out, where they are known.
    ghost contents: { Self → Option (List ℕ) };

    // What one write did: the device before it, the bytes it was given, what it returned, and the
    // device after it.
    ghost write_gives: { Self → List ℕ → Result ℕ IoError → Self → Type 0 };

    // What one flush did: the device before it, what it returned, and the device after it.
    ghost flush_gives: { Self → Result Unit IoError → Self → Type 0 };

    /// Asks the device once to take bytes.
    ///
    /// # Errors
    ///
    /// Those of the device.
    fn write_once(&mut self, buf: &[u8]) -> io::Result<usize>
        ensures bound { WritesAtMost result buf.now }
        ensures bytes { WriteAppends (contents self.old) (contents self.new) result buf.now }
        ensures asked { write_gives self.old buf.now result self.new };

    /// Asks the device once to hand on what was written.
    ///
    /// # Errors
    ///
    /// Those of the device.
    fn flush_once(&mut self) -> io::Result<()>
        ensures bytes { Keeps (contents self.old) (contents self.new) }
        ensures asked { flush_gives self.old result self.new };
}

/// A device that text is written to.
pub trait FmtDevice {
    // Relates the device before a piece that it took, the piece, and the device after it.
    ghost takes: { Self → List ℕ → Self → Type 0 };

    // What one call did: the device before it, the piece, what it returned, and the device after
    // it.
    ghost piece_gives: { Self → List ℕ → Result Unit FmtError → Self → Type 0 };

    /// Asks the device once to take a piece of a text.
    ///
    /// # Errors
    ///
    /// Those of the device.
    fn write_str_once(&mut self, s: &str) -> fmt::Result
        ensures piece { OnOk result (takes self.old s.now self.new) }
        ensures asked { piece_gives self.old s.now result self.new };
}

/// A reader is a device. Of a reader it is not known what one read did: that it is asked is all
/// that this implementation does.
impl<R: io::Read> ReadDevice for R {
    ghost remaining = { R.remaining };

    ghost read_gives = { λ before bytes returned after. Unit };

    fn read_once(&mut self, buf: &mut [u8]) -> io::Result<usize> {
        self.read(buf)
    }
}

/// A writer is a device, as a reader is.
impl<W: io::Write> WriteDevice for W {
    ghost contents = { W.contents };

    ghost write_gives = { λ before bytes returned after. Unit };

    ghost flush_gives = { λ before returned after. Unit };

    fn write_once(&mut self, buf: &[u8]) -> io::Result<usize> {
        self.write(buf)
    }

    fn flush_once(&mut self) -> io::Result<()> {
        self.flush()
    }
}

/// A writer of text is a device, as a reader is.
impl<W: fmt::Write> FmtDevice for W {
    ghost takes = { W.write_str_gives };

    ghost piece_gives = { λ before piece returned after. Unit };

    fn write_str_once(&mut self, s: &str) -> fmt::Result {
        self.write_str(s)
    }
}
