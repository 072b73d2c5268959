//! Why a text is not written to an [`io::Write`].

ghost use Rattle.std.specs.Prelude.{◌≡◌};

use bech32_decode::CodeLengthError;
use std::io;
use thiserror::Error;

/// Why a text is not written to an [`io::Write`].
#[derive(Debug, Drop, Error)]
pub enum EncodeIoError {
    /// It would be longer than the checksum's code.
    #[error("encode error: {0}")]
    TooLong(CodeLengthError),
    /// The writer failed.
    #[error("encode to writer failed: {0}")]
    Write(io::Error),
}

impl From<CodeLengthError> for EncodeIoError {
    ghost use Rattle.bech32.specs.declared.error.EncodeIoError.TheVariants.{TooLong};

    ghost from_gives = { λ e r. r ≡ TooLong e };

    fn from(e: CodeLengthError) -> Self {
        Self::TooLong(e)
    }
}

impl From<io::Error> for EncodeIoError {
    ghost use Rattle.bech32.specs.declared.error.EncodeIoError.TheVariants.{Write};

    ghost from_gives = { λ e r. r ≡ Write e };

    fn from(e: io::Error) -> Self {
        Self::Write(e)
    }
}
