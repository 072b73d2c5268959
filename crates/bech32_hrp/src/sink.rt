//! A human-readable part from text that comes in pieces, as a value prints it.

ghost use Rattle.std.specs.Prelude.{◌≡◌, ℕ, ◌+◌, ◌^◌, ◌≤◌, ◌<◌, ◌++◌, [], ◌⊎◌, true, List};
ghost use Rattle.std.specs.Prelude.{drop, length, take, IfSome, IsOk, Err};
ghost use Rattle.std.specs.Str.{is_utf8};
ghost use Rattle.bech32_hrp.specs.HrpBytes.{IsParsed, IsBeyondCount};
ghost use Rattle.bech32_hrp.specs.declared.Error.TheVariants.{Fmt};

use crate::{Error, Hrp, MAX_HRP_LEN};
use std::fmt;
use std::fmt::Write;

/// Takes a text in pieces, and tells what [`Hrp::parse`] returns of it: keeps its first 83 bytes,
/// and its length, or `usize::MAX` where that does not fit.
#[derive(Drop)]
pub struct HrpSink {
    // The first bytes of the text.
    buf: [u8; MAX_HRP_LEN],
    // The number of bytes of the text.
    length: usize,
    pub ghost whole: { length ≤ 83 → is_utf8 (take length buf) ≡ true },
}

/// Puts the bytes into the buffer, from a place on.
fn put(buf: &mut [u8], at: usize, bytes: &[u8])
    requires { at + length bytes.now ≤ length buf.old }
    ensures { buf.new ≡ take at buf.old ++ (bytes.now ++ drop (at + length bytes.now) buf.old) }
{
    buf[at..at + bytes.len()].copy_from_slice(bytes);
}

impl HrpSink {
    ghost use Rattle.bech32_hrp.specs.Sink.{Holds};

    /// A sink of the empty text.
    pub fn new() -> HrpSink
        ensures { Holds result [] }
    {
        HrpSink {
            buf: [0; 83],
            length: 0,
        }
    }

    /// What [`Hrp::parse`] returns of the text of all pieces so far.
    ///
    /// # Errors
    ///
    /// Those of [`Hrp::parse`].
    pub fn finish(&self) -> Result<Hrp, Error>
        ensures parsed { (text : List ℕ) → Holds self.now text → length text < 2 ^ 64
            → IsParsed text result }
        ensures long { (text : List ℕ) → Holds self.now text → 2 ^ 64 ≤ length text
            → IsBeyondCount result }
    {
        if self.length > MAX_HRP_LEN {
            return Err(Error::TooLong(self.length));
        }
        match str::from_utf8(&self.buf[..self.length]) {
            Ok(text) => Hrp::parse(text),
            Err(_) => unreachable!(),
        }
    }
}

impl fmt::Write for HrpSink {
    ghost use Rattle.bech32_hrp.specs.Sink.{Takes};

    ghost write_str_gives = { Takes };

    fn write_str(&mut self, s: &str) -> fmt::Result
        ensures piece { Takes self.old s.now self.new }
        ensures always { IsOk result }
    {
        let at = self.length.min(MAX_HRP_LEN);
        let kept = s.len().min(MAX_HRP_LEN - at);
        put(&mut self.buf, at, &s.as_bytes()[..kept]);
        self.length = self.length.saturating_add(s.len());
        Ok(())
    }
}

impl Hrp {
    /// Reads a human-readable part from what `{}` writes of the value, as [`Hrp::parse`] reads it
    /// from a text, without memory.
    ///
    /// # Errors
    ///
    /// `Fmt` where the value does not print, whatever it wrote; else those of [`Hrp::parse`].
    pub fn parse_display<T: fmt::Display + Drop>(value: T) -> Result<Hrp, Error>
        ensures parsed { IfSome (T.output value) (λ text. length text < 2 ^ 64
            → (result ≡ Err Fmt) ⊎ IsParsed text result) }
        ensures long { IfSome (T.output value) (λ text. 2 ^ 64 ≤ length text
            → (result ≡ Err Fmt) ⊎ IsBeyondCount result) }
    {
        let mut sink = HrpSink::new();
        if write!(sink, "{value}").is_err() {
            return Err(Error::Fmt);
        }
        sink.finish()
    }
}
