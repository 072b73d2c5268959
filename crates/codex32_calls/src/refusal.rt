//! Why a call writes nothing, and the numbers of refusals.

ghost use Rattle.std.specs.Prelude.{◌≡◌};
ghost use Rattle.bech32_numbers.specs.Numbers.{HasNumber};
ghost use Rattle.codex32_calls.specs.Numbers.{number_of_codex32_refusal};

use codex32::numbers::{
    codex32_error_number, derive_error_number, encode_error_number, header_error_number,
    payload_error_number, split_error_number,
};
use codex32::{Codex32Error, DeriveError, EncodeError, HeaderError, PayloadError, SplitError};

/// Why a call writes nothing.
#[derive(Clone, Copy)]
pub enum Refusal {
    /// The bytes of a text are not UTF-8.
    NotUtf8,
    /// There are more than 32 texts, or their lengths are not those of the bytes.
    BadLengths,
    /// A character of a payload is not of the alphabet.
    InvalidCharacter,
    /// A payload has letters of both cases.
    MixedCase,
    /// The text is not a codex32 string, or out of memory.
    Text(Codex32Error),
    /// No header is made.
    Header(HeaderError),
    /// The payload has no bytes.
    Payload(PayloadError),
    /// No string is made of bytes, or of the characters of a payload.
    Encode(EncodeError),
    /// No string is derived from shares.
    Derive(DeriveError),
    /// The secret is not split.
    Split(SplitError),
    /// There is no nearest text.
    NoNearest,
    /// A buffer is too small.
    NoRoom,
}

impl Refusal {
    /// The number that a call returns.
    pub fn number(self) -> u32
        ensures { HasNumber number_of_codex32_refusal self result }
    {
        let small: u8 = match self {
            Refusal::NotUtf8 => 2,
            Refusal::BadLengths => 4,
            Refusal::InvalidCharacter => 21,
            Refusal::MixedCase => 22,
            Refusal::Text(e) => codex32_error_number(e),
            Refusal::Header(e) => header_error_number(e),
            Refusal::Payload(e) => payload_error_number(e),
            Refusal::Encode(e) => encode_error_number(e),
            Refusal::Derive(e) => derive_error_number(e),
            Refusal::Split(e) => split_error_number(e),
            Refusal::NoNearest => 34,
            Refusal::NoRoom => 92,
        };
        u32::from(small)
    }
}

impl From<Codex32Error> for Refusal {
    ghost use Rattle.codex32_calls.specs.declared.refusal.Refusal.TheVariants.{Text};

    ghost from_gives = { λ e r. r ≡ Text e };

    fn from(e: Codex32Error) -> Self {
        Self::Text(e)
    }
}

impl From<HeaderError> for Refusal {
    ghost use Rattle.codex32_calls.specs.declared.refusal.Refusal.TheVariants.{Header};

    ghost from_gives = { λ e r. r ≡ Header e };

    fn from(e: HeaderError) -> Self {
        Self::Header(e)
    }
}

impl From<PayloadError> for Refusal {
    ghost use Rattle.codex32_calls.specs.declared.refusal.Refusal.TheVariants.{Payload};

    ghost from_gives = { λ e r. r ≡ Payload e };

    fn from(e: PayloadError) -> Self {
        Self::Payload(e)
    }
}

impl From<EncodeError> for Refusal {
    ghost use Rattle.codex32_calls.specs.declared.refusal.Refusal.TheVariants.{Encode};

    ghost from_gives = { λ e r. r ≡ Encode e };

    fn from(e: EncodeError) -> Self {
        Self::Encode(e)
    }
}

impl From<DeriveError> for Refusal {
    ghost use Rattle.codex32_calls.specs.declared.refusal.Refusal.TheVariants.{Derive};

    ghost from_gives = { λ e r. r ≡ Derive e };

    fn from(e: DeriveError) -> Self {
        Self::Derive(e)
    }
}

impl From<SplitError> for Refusal {
    ghost use Rattle.codex32_calls.specs.declared.refusal.Refusal.TheVariants.{Split};

    ghost from_gives = { λ e r. r ≡ Split e };

    fn from(e: SplitError) -> Self {
        Self::Split(e)
    }
}
