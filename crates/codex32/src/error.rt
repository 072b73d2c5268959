//! Why texts are refused.

ghost use Rattle.std.specs.Prelude.{◌≡◌};
ghost use Rattle.codex32.specs.declared.error.Codex32Error.TheVariants.{Text, Checksum, Memory};

use bech32::primitives::decode::{ChecksumError, UncheckedHrpstringError};
use std::alloc::AllocError;
use thiserror::Error;

/// Why a text is not a codex32 string, or why no nearest text is looked for.
#[derive(Clone, Copy, Debug, PartialEq, Eq, Drop, Error)]
pub enum Codex32Error {
    /// It is not in the grammar (BIP-173, Bech32).
    #[error("no text of the grammar: {0}")]
    Text(UncheckedHrpstringError),
    /// It has less than 48 characters, or more than 93; of long strings, less than 125, or more
    /// than 127; of strings of either length, neither.
    #[error("a codex32 string has 48 to 93 characters, a long one 125 to 127")]
    Length,
    /// The human-readable part is not `ms`.
    #[error("the human-readable part is not \"ms\"")]
    Hrp,
    /// The checksum is wrong.
    #[error("invalid checksum: {0}")]
    Checksum(ChecksumError),
    /// The threshold is neither 0 nor a digit from 2 to 9.
    #[error("the threshold is neither 0 nor a digit from 2 to 9")]
    Threshold,
    /// The threshold is 0, and the share index is not `s`.
    #[error("the threshold is 0, and the share index is not \"s\"")]
    ShareIndex,
    /// Out of memory (given by `propose` and `propose_long` alone).
    #[error("out of memory")]
    Memory,
}

/// Why a header is not made.
#[derive(Clone, Copy, Debug, PartialEq, Eq, Drop, Error)]
pub enum HeaderError {
    /// The threshold is neither 0 nor a digit from 2 to 9.
    #[error("the threshold is neither 0 nor a digit from 2 to 9")]
    Threshold,
    /// The identifier is not four characters of the alphabet in one case.
    #[error("the identifier is not four characters of the alphabet in one case")]
    Identifier,
    /// The share index is not one character of the alphabet.
    #[error("the share index is not one character of the alphabet")]
    ShareIndex,
    /// The threshold is 0, and the share index is not `s`.
    #[error("the threshold is 0, and the share index is not \"s\"")]
    Unshared,
}

/// Why a payload has no bytes.
#[derive(Clone, Copy, Debug, PartialEq, Eq, Drop, Error)]
pub enum PayloadError {
    /// More than four bits are left over behind its bytes.
    #[error("more than four bits stand behind the bytes of the payload")]
    LeftOver,
}

/// Why no string is made of bytes, or of the elements of a payload.
#[derive(Clone, Copy, Debug, PartialEq, Eq, Drop, Error)]
pub enum EncodeError {
    /// There are neither 16 to 44 bytes nor 63 or 64; of elements, not as many as those have.
    #[error("a codex32 string has 16 to 44 bytes, a long one 63 or 64")]
    Size,
    /// Out of memory.
    #[error("out of memory")]
    Memory,
}

/// Why no string is derived from shares.
#[derive(Clone, Copy, Debug, PartialEq, Eq, Drop, Error)]
pub enum DeriveError {
    /// A share has another threshold, identifier or length than the first.
    #[error("the shares are not of one set")]
    OtherSet,
    /// Two shares have one index.
    #[error("a share index stands twice")]
    IndexTwice,
    /// The threshold is 0, and the index is not `s`.
    #[error("the threshold is 0, and the share index is not \"s\"")]
    Unshared,
    /// There are fewer shares than the threshold.
    #[error("there are fewer shares than the threshold")]
    TooFew,
    /// There are more shares than the threshold, and they contradict each other.
    #[error("the shares contradict each other")]
    Contradiction,
    /// Out of memory.
    #[error("out of memory")]
    Memory,
}

/// Why a secret is not split into shares.
#[derive(Clone, Copy, Debug, PartialEq, Eq, Drop, Error)]
pub enum SplitError {
    /// The threshold is 0: no share can be at `s`.
    #[error("the threshold is 0: the secret is not shared")]
    Unshared,
    /// The secret has neither 16 to 44 bytes nor 63 or 64.
    #[error("a codex32 string has 16 to 44 bytes, a long one 63 or 64")]
    Size,
    /// There are fewer shares than the threshold, or more than 31.
    #[error("there are fewer shares than the threshold, or more than 31")]
    Count,
    /// There are not as many random bytes as characters are drawn.
    #[error("there are not as many random bytes as characters are drawn")]
    Random,
    /// The random bytes are all equal: nobody filled them.
    #[error("the random bytes are all equal")]
    EqualRandom,
    /// The buffer is too small.
    #[error("the buffer is too small")]
    NoRoom,
}

impl From<UncheckedHrpstringError> for Codex32Error {
    ghost from_gives = { λ e r. r ≡ Text e };

    fn from(e: UncheckedHrpstringError) -> Self {
        Self::Text(e)
    }
}

impl From<ChecksumError> for Codex32Error {
    ghost from_gives = { λ e r. r ≡ Checksum e };

    fn from(e: ChecksumError) -> Self {
        Self::Checksum(e)
    }
}

impl From<AllocError> for Codex32Error {
    ghost from_gives = { λ e r. r ≡ Memory };

    fn from(_: AllocError) -> Self {
        Self::Memory
    }
}

impl From<AllocError> for EncodeError {
    ghost use Rattle.codex32.specs.declared.error.EncodeError.TheVariants as refusals;

    ghost from_gives = { λ e r. r ≡ refusals.Memory };

    fn from(_: AllocError) -> Self {
        Self::Memory
    }
}

impl From<AllocError> for DeriveError {
    ghost use Rattle.codex32.specs.declared.error.DeriveError.TheVariants as refusals;

    ghost from_gives = { λ e r. r ≡ refusals.Memory };

    fn from(_: AllocError) -> Self {
        Self::Memory
    }
}
