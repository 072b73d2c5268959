//! The numbers that stand for checksums.

ghost use Rattle.std.specs.Prelude.{MatchResult};
ghost use Rattle.bech32_calls.specs.Checksums.{ForChecksum, IsFaultBy};

use crate::refusal::Refusal;

/// The number of Bech32 (BIP-173).
pub const BECH32: u32 = 1;

/// The number of Bech32m (BIP-350).
pub const BECH32M: u32 = 2;

/// The number of Bech32 for long texts.
pub const LONG_BECH32: u32 = 3;

/// The number of Bech32m for long texts.
pub const LONG_BECH32M: u32 = 4;

// Calls a function by the checksum of a number from 1 to 4, and refuses every other number.
macro_rules! by_number {
    ($checksum:expr, $call:ident($($given:expr),*)) => {
        match $checksum {
            $crate::checksum::BECH32 => $call::<bech32::Bech32>($($given),*),
            $crate::checksum::BECH32M => $call::<bech32::Bech32m>($($given),*),
            $crate::checksum::LONG_BECH32 => $call::<bech32::LongBech32>($($given),*),
            $crate::checksum::LONG_BECH32M => $call::<bech32::LongBech32m>($($given),*),
            _ => Err($crate::refusal::Refusal::BadNumber),
        }
    };
}

pub(crate) use by_number;

/// Tests that a number is that of Bech32 or Bech32m.
pub(crate) fn validate_checksum(checksum: u32) -> Result<(), Refusal>
    ensures { MatchResult result
        (λ _. ForChecksum checksum (λ _. Unit {0}))
        (λ e. IsFaultBy checksum (λ _ _. ⊥) e) }
{
    match checksum {
        BECH32 => Ok(()),
        BECH32M => Ok(()),
        _ => Err(Refusal::BadNumber),
    }
}
