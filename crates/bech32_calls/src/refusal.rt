//! Why a call writes nothing, and the numbers of refusals.

ghost use Rattle.std.specs.Prelude.{◌≡◌, ◌<◌};
ghost use Rattle.bech32_calls.specs.Numbers.{number_of};

use bech32::primitives::decode::{
    CheckedHrpstringError, ChecksumError, CodeLengthError, PaddingError, SegwitHrpstringError,
    UncheckedHrpstringError,
};
use bech32::primitives::hrp::Error as HrpError;
use bech32::{EncodeError, segwit};
use bech32_decode::{BytesError, NotText};
use bech32_numbers::{
    NO_CORRECTION, address_error_number, checksum_error_number, encode_error_number,
    hrp_error_number, padding_error_number, segwit_encode_error_number, text_error_number,
};

/// Why a call writes nothing.
#[derive(Clone, Copy)]
pub enum Refusal {
    /// The bytes of a text are not UTF-8.
    NotUtf8,
    /// A number is that of no checksum, or of no element.
    BadNumber,
    /// A byte that should be an element is above 31: the place of the first, counted from 0.
    BadElement(usize),
    /// A buffer is too small.
    NoRoom,
    /// No correction mends the text.
    NoCorrection,
    /// Lent memory does not suffice.
    Memory,
    /// A human-readable part is none.
    Hrp(HrpError),
    /// The text would be longer than the checksum's code.
    TooLong(CodeLengthError),
    /// The text is not in the grammar.
    Text(UncheckedHrpstringError),
    /// No checksum that is asked for accepts the text.
    Checksum(ChecksumError),
    /// The bits behind the last whole byte are more than four, or not all zero.
    Padding(PaddingError),
    /// The parts have no segwit address.
    NoAddress(segwit::EncodeError),
    /// The text is not a segwit address.
    Address(SegwitHrpstringError),
}

impl Refusal {
    /// The number that a call returns.
    // In line: a refusal that is known is not moved to be asked for its number.
    #[inline(always)]
    pub fn number(self) -> u32
        ensures value { result ≡ number_of self }
        ensures some { 0 < result }
        ensures byte { result < 256 }
    {
        let small: u8 = match self {
            Refusal::NotUtf8 => 2,
            Refusal::BadNumber => 4,
            Refusal::BadElement(_) => 67,
            Refusal::NoRoom => 92,
            Refusal::NoCorrection => NO_CORRECTION,
            Refusal::Memory => 91,
            Refusal::Hrp(e) => hrp_error_number(e),
            Refusal::TooLong(e) => encode_error_number(EncodeError::TooLong(e)),
            Refusal::Text(e) => text_error_number(e),
            Refusal::Checksum(e) => checksum_error_number(e),
            Refusal::Padding(e) => padding_error_number(e),
            Refusal::NoAddress(e) => segwit_encode_error_number(e),
            Refusal::Address(e) => address_error_number(e),
        };
        u32::from(small)
    }
}

impl From<HrpError> for Refusal {
    ghost use Rattle.bech32_calls.specs.declared.refusal.Refusal.TheVariants.{Hrp};

    ghost from_gives = { λ e r. r ≡ Hrp e };

    fn from(e: HrpError) -> Refusal {
        Refusal::Hrp(e)
    }
}

impl From<CodeLengthError> for Refusal {
    ghost use Rattle.bech32_calls.specs.declared.refusal.Refusal.TheVariants.{TooLong};

    ghost from_gives = { λ e r. r ≡ TooLong e };

    fn from(e: CodeLengthError) -> Refusal {
        Refusal::TooLong(e)
    }
}

impl From<UncheckedHrpstringError> for Refusal {
    ghost use Rattle.bech32_calls.specs.declared.refusal.Refusal.TheVariants.{Text};

    ghost from_gives = { λ e r. r ≡ Text e };

    fn from(e: UncheckedHrpstringError) -> Refusal {
        Refusal::Text(e)
    }
}

impl From<ChecksumError> for Refusal {
    ghost use Rattle.bech32_calls.specs.declared.refusal.Refusal.TheVariants.{Checksum};

    ghost from_gives = { λ e r. r ≡ Checksum e };

    fn from(e: ChecksumError) -> Refusal {
        Refusal::Checksum(e)
    }
}

impl From<CheckedHrpstringError> for Refusal {
    ghost use Rattle.bech32_calls.specs.Check.{refusal_of_checked};

    ghost from_gives = { λ e r. r ≡ refusal_of_checked e };

    fn from(e: CheckedHrpstringError) -> Refusal {
        match e {
            CheckedHrpstringError::Parse(e) => e.into(),
            CheckedHrpstringError::Checksum(e) => e.into(),
        }
    }
}

impl From<PaddingError> for Refusal {
    ghost use Rattle.bech32_calls.specs.declared.refusal.Refusal.TheVariants.{Padding};

    ghost from_gives = { λ e r. r ≡ Padding e };

    fn from(e: PaddingError) -> Refusal {
        Refusal::Padding(e)
    }
}

impl From<SegwitHrpstringError> for Refusal {
    ghost use Rattle.bech32_calls.specs.declared.refusal.Refusal.TheVariants.{Address};

    ghost from_gives = { λ e r. r ≡ Address e };

    fn from(e: SegwitHrpstringError) -> Refusal {
        Refusal::Address(e)
    }
}

impl From<BytesError> for Refusal {
    ghost use Rattle.bech32_calls.specs.Faults.{refusal_of_bytes};

    ghost from_gives = { λ e r. r ≡ refusal_of_bytes e };

    fn from(e: BytesError) -> Refusal {
        match e {
            BytesError::NotUtf8 => Refusal::NotUtf8,
            BytesError::Text(e) => Refusal::Text(e),
        }
    }
}

impl From<NotText> for Refusal {
    ghost use Rattle.bech32_calls.specs.declared.refusal.Refusal.TheVariants.{NotUtf8};

    ghost from_gives = { λ _ r. r ≡ NotUtf8 };

    fn from(_: NotText) -> Refusal {
        Refusal::NotUtf8
    }
}
