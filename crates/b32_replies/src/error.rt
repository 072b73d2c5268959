//! Why a run ends early.

use line_program::Reason;
use std::error::Error;
use std::fmt;

/// Why a run ended early.
#[derive(Debug, Drop, PartialEq, Eq, Clone, Copy)]
pub enum RunError {
    /// The source failed.
    Read,
    /// The sink failed.
    Write,
    /// Out of memory for the run's buffers.
    Memory,
}

impl Reason for RunError {
    ghost use Rattle.b32_replies.specs.Ends.{words_of_b32_end};

    ghost words = { words_of_b32_end };

    fn words(&self) -> &'static str {
        match *self {
            RunError::Read => "reading failed",
            RunError::Write => "writing failed",
            RunError::Memory => "no memory",
        }
    }
}

impl fmt::Display for RunError {
    ghost use Rattle.std.specs.Prelude.{◌++◌, codes, Some};
    ghost use Rattle.b32_replies.specs.Ends.{words_of_b32_end};

    ghost output = { λ e. Some (codes "b32: " ++ words_of_b32_end e) };

    fn fmt<W: fmt::Write>(&self, f: &mut fmt::Formatter<W>) -> fmt::Result {
        write!(f, "b32: {}", self.words())
    }
}

impl Error for RunError {}

impl From<line_program::RunError> for RunError {
    ghost use Rattle.b32_replies.specs.Ends.{same_end};

    ghost from_gives = { same_end };

    fn from(e: line_program::RunError) -> RunError {
        match e {
            line_program::RunError::Read => RunError::Read,
            line_program::RunError::Write => RunError::Write,
            line_program::RunError::Memory => RunError::Memory,
        }
    }
}
