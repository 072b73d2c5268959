//! Why a command is refused, and the numbers of refusals.

ghost use Rattle.std.specs.Prelude.{◌≡◌, ◌<◌};
ghost use Rattle.b32_replies.specs.Numbers.{number_of_reply};

use bech32::primitives::decode::CheckedHrpstringError;
use bech32::primitives::hrp::Error as HrpError;
use bech32::{DecodeError, ElementsError, EncodeError, TextError, segwit};
use bech32_numbers::{
    checked_error_number, decode_error_number, elements_error_number, encode_error_number,
    hrp_error_number, segwit_decode_error_number, segwit_encode_error_number,
    text_decode_error_number,
};

/// Why a command is refused.
#[derive(Clone, Copy, Debug, PartialEq, Eq, Drop)]
pub enum Refusal {
    /// A word that should be the number of a version is not.
    BadNumber,
    /// A word that should be bytes in hex is not.
    BadHex,
    /// A word that should be a human-readable part is not.
    Hrp(HrpError),
    /// The text is not written.
    Encode(EncodeError),
    /// The text is not decoded.
    Decode(DecodeError),
    /// The text is not decoded by the checksum that is named.
    Text(TextError),
    /// The elements are not written.
    Elements(ElementsError),
    /// The segwit address is not written.
    SegwitEncode(segwit::EncodeError),
    /// The text is not decoded as a segwit address.
    SegwitDecode(segwit::DecodeError),
    /// The text is refused, and not for its residue.
    Correct(CheckedHrpstringError),
    /// The confidential address is not written.
    LiquidEncode(liquid::EncodeError),
    /// The text is not decoded as a confidential address.
    LiquidDecode(liquid::DecodeError),
    /// Out of memory for the reply.
    Memory,
}

impl Refusal {
    /// The number of the innermost refusal.
    pub fn number(self) -> u8
        ensures value { result ≡ number_of_reply self }
        ensures small { result < 100 }
    {
        match self {
            Refusal::BadNumber => 4,
            Refusal::BadHex => 5,
            Refusal::Hrp(e) => hrp_error_number(e),
            Refusal::Encode(e) => encode_error_number(e),
            Refusal::Decode(e) => decode_error_number(e),
            Refusal::Text(e) => text_decode_error_number(e),
            Refusal::Elements(e) => elements_error_number(e),
            Refusal::SegwitEncode(e) => segwit_encode_error_number(e),
            Refusal::SegwitDecode(e) => segwit_decode_error_number(e),
            Refusal::Correct(e) => checked_error_number(e),
            Refusal::LiquidEncode(e) => liquid::encode_error_number(e),
            Refusal::LiquidDecode(e) => liquid::decode_error_number(e),
            Refusal::Memory => 91,
        }
    }
}

impl From<HrpError> for Refusal {
    ghost use Rattle.b32_replies.specs.declared.refusal.Refusal.TheVariants.{Hrp};

    ghost from_gives = { λ e r. r ≡ Hrp e };

    fn from(e: HrpError) -> Refusal {
        Refusal::Hrp(e)
    }
}

impl From<TextError> for Refusal {
    ghost use Rattle.b32_replies.specs.declared.refusal.Refusal.TheVariants.{Text};

    ghost from_gives = { λ e r. r ≡ Text e };

    fn from(e: TextError) -> Refusal {
        Refusal::Text(e)
    }
}

impl From<ElementsError> for Refusal {
    ghost use Rattle.b32_replies.specs.declared.refusal.Refusal.TheVariants.{Elements};

    ghost from_gives = { λ e r. r ≡ Elements e };

    fn from(e: ElementsError) -> Refusal {
        Refusal::Elements(e)
    }
}
