//! Why a command is refused, and the numbers of refusals.

ghost use Rattle.std.specs.Prelude.{◌≡◌, ◌<◌};
ghost use Rattle.c32_replies.specs.Numbers.{number_of_codex32_reply};

use codex32::numbers::{
    codex32_error_number, derive_error_number, encode_error_number, header_error_number,
    payload_error_number, split_error_number,
};
use codex32::{Codex32Error, DeriveError, EncodeError, HeaderError, PayloadError, SplitError};

/// Why a command is refused.
#[derive(Clone, Copy, Debug, PartialEq, Eq, Drop)]
pub enum Refusal {
    /// A word that should be a number of shares is not.
    BadNumber,
    /// A word that should be bytes in hex is not.
    BadHex,
    /// A word that should be a part of a header is not, or the parts do not go together.
    Header(HeaderError),
    /// A text is not a string, or out of memory.
    Text(Codex32Error),
    /// The payload has no bytes.
    Payload(PayloadError),
    /// No string is made of the bytes.
    Encode(EncodeError),
    /// The shares give no string.
    Derive(DeriveError),
    /// The secret is not split.
    Split(SplitError),
}

/// The number of the innermost refusal.
impl From<Refusal> for u8 {
    ghost from_gives = { λ e n. (n ≡ number_of_codex32_reply e) × (n < 100) };

    fn from(e: Refusal) -> u8 {
        match e {
            Refusal::BadNumber => 4,
            Refusal::BadHex => 5,
            Refusal::Header(e) => header_error_number(e),
            Refusal::Text(e) => codex32_error_number(e),
            Refusal::Payload(e) => payload_error_number(e),
            Refusal::Encode(e) => encode_error_number(e),
            Refusal::Derive(e) => derive_error_number(e),
            Refusal::Split(e) => split_error_number(e),
        }
    }
}

impl From<HeaderError> for Refusal {
    ghost use Rattle.c32_replies.specs.declared.refusal.Refusal.TheVariants.{Header};

    ghost from_gives = { λ e r. r ≡ Header e };

    fn from(e: HeaderError) -> Refusal {
        Refusal::Header(e)
    }
}

impl From<Codex32Error> for Refusal {
    ghost use Rattle.c32_replies.specs.declared.refusal.Refusal.TheVariants.{Text};

    ghost from_gives = { λ e r. r ≡ Text e };

    fn from(e: Codex32Error) -> Refusal {
        Refusal::Text(e)
    }
}

impl From<PayloadError> for Refusal {
    ghost use Rattle.c32_replies.specs.declared.refusal.Refusal.TheVariants.{Payload};

    ghost from_gives = { λ e r. r ≡ Payload e };

    fn from(e: PayloadError) -> Refusal {
        Refusal::Payload(e)
    }
}

impl From<EncodeError> for Refusal {
    ghost use Rattle.c32_replies.specs.declared.refusal.Refusal.TheVariants.{Encode};

    ghost from_gives = { λ e r. r ≡ Encode e };

    fn from(e: EncodeError) -> Refusal {
        Refusal::Encode(e)
    }
}

impl From<DeriveError> for Refusal {
    ghost use Rattle.c32_replies.specs.declared.refusal.Refusal.TheVariants.{Derive};

    ghost from_gives = { λ e r. r ≡ Derive e };

    fn from(e: DeriveError) -> Refusal {
        Refusal::Derive(e)
    }
}

impl From<SplitError> for Refusal {
    ghost use Rattle.c32_replies.specs.declared.refusal.Refusal.TheVariants.{Split};

    ghost from_gives = { λ e r. r ≡ Split e };

    fn from(e: SplitError) -> Refusal {
        Refusal::Split(e)
    }
}
