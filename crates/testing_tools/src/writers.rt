//! Writers that fail.

use std::io;

/// Takes at most `step` bytes a call, and fails once `room` are taken; a flush fails where `stuck`.
#[derive(Drop)]
pub struct Narrow {
    /// What was taken.
    pub got: Vec<u8>,
    /// How many bytes are taken in all.
    pub room: usize,
    /// How many are taken a call.
    pub step: usize,
    /// Whether a flush fails.
    pub stuck: bool,
}

impl io::Write for Narrow {
    ghost use Rattle.std.specs.Prelude.{Some};

    ghost contents = { λ w. Some w.got.items };

    fn write(&mut self, buf: &[u8]) -> io::Result<usize> {
        if self.got.len() >= self.room {
            return Err(io::Error::from(io::ErrorKind::StorageFull));
        }
        let left = self.room - self.got.len();
        let n = buf.len().min(self.step).min(left);
        self.got.extend_from_slice(&buf[..n])?;
        Ok(n)
    }

    fn flush(&mut self) -> io::Result<()> {
        if self.stuck {
            return Err(io::Error::from(io::ErrorKind::Other));
        }
        Ok(())
    }
}
