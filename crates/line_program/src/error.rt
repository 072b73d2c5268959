//! Why a run ends early.

ghost use Rattle.std.specs.Prelude.{◌≡◌, ℕ, List};

use std::error::Error;
use std::fmt;

/// Why a run ended early, in words.
pub trait Reason {
    // The words.
    ghost words: { Self → List ℕ };

    /// The words, without the name of a program.
    fn words(&self) -> &'static str
        ensures { result.now ≡ words self.now };
}

/// Why a run ended early.
#[derive(Debug, Drop, PartialEq, Eq, Clone, Copy)]
pub enum RunError {
    /// The source failed.
    Read,
    /// The sink failed.
    Write,
    /// Out of memory for the run's buffers.
    Memory,
}

impl Reason for RunError {
    ghost use Rattle.line_program.specs.Ends.{words_of_end};

    ghost words = { words_of_end };

    fn words(&self) -> &'static str {
        match *self {
            RunError::Read => "reading failed",
            RunError::Write => "writing failed",
            RunError::Memory => "out of memory",
        }
    }
}

impl fmt::Display for RunError {
    ghost use Rattle.std.specs.Prelude.{Some};
    ghost use Rattle.line_program.specs.Ends.{words_of_end};

    ghost output = { λ e. Some (words_of_end e) };

    fn fmt<W: fmt::Write>(&self, f: &mut fmt::Formatter<W>) -> fmt::Result {
        f.write_str(self.words())
    }
}

impl Error for RunError {}
