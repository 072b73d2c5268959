//! Why a call on a confidential address writes nothing.

ghost use Rattle.std.specs.Prelude.{◌≡◌, ◌<◌};
ghost use Rattle.bech32_more_calls.specs.confidential.Numbers.{number_of_liquid};

use bech32_calls::refusal::Refusal as Other;
use liquid::{DecodeError, EncodeError, decode_error_number, encode_error_number};

/// Why a call writes nothing.
#[derive(Clone, Copy)]
pub enum Refusal {
    /// As calls on other texts are refused.
    Other(Other),
    /// The parts have no confidential address.
    NoAddress(EncodeError),
    /// The text is not a confidential address.
    Address(DecodeError),
}

impl Refusal {
    /// The number that a call returns.
    pub fn number(self) -> u32
        ensures value { result ≡ number_of_liquid self }
        ensures some { 0 < result }
    {
        match self {
            Refusal::Other(e) => e.number(),
            Refusal::NoAddress(e) => u32::from(encode_error_number(e)),
            Refusal::Address(e) => u32::from(decode_error_number(e)),
        }
    }
}

impl From<Other> for Refusal {
    ghost use Rattle.bech32_more_calls.specs.declared.confidential.refusal.Refusal.TheVariants.{Other};

    ghost from_gives = { λ e r. r ≡ Other e };

    fn from(e: Other) -> Refusal {
        Refusal::Other(e)
    }
}

impl From<EncodeError> for Refusal {
    ghost use Rattle.bech32_more_calls.specs.declared.confidential.refusal.Refusal.TheVariants.{NoAddress};

    ghost from_gives = { λ e r. r ≡ NoAddress e };

    fn from(e: EncodeError) -> Refusal {
        Refusal::NoAddress(e)
    }
}

impl From<DecodeError> for Refusal {
    ghost use Rattle.bech32_more_calls.specs.declared.confidential.refusal.Refusal.TheVariants.{Address};

    ghost from_gives = { λ e r. r ≡ Address e };

    fn from(e: DecodeError) -> Refusal {
        Refusal::Address(e)
    }
}
