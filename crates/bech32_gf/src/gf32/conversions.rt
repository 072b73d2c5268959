//! The elements from and to integers and texts.

ghost use Rattle.std.specs.Prelude.{◌≡◌, ◌∷◌, [], Some, pos};
ghost use Rattle.std.specs.Fmt.{styled_text};
ghost use Rattle.bech32_gf.specs.Alphabet.{char_of};

use super::Fe32;
use std::fmt;
use std::num::TryFromIntError;
use thiserror::Error;

/// Why an integer is not an element.
#[derive(Clone, Copy, Debug, PartialEq, Eq, Drop, Error)]
pub enum TryFromError {
    /// The integer is not a byte.
    #[error("tried to interpret an integer as a GF32 element but it is not a byte: {0}")]
    NotAByte(TryFromIntError),
    /// The integer is a byte from 32 on.
    #[error("tried to interpret a byte as a GF32 element but it is not below 32: {0}")]
    InvalidByte(u8),
}

impl From<TryFromIntError> for TryFromError {
    ghost use Rattle.bech32_gf.specs.declared.gf32.conversions.TryFromError.TheVariants.{NotAByte};

    ghost from_gives = { λ e r. r ≡ NotAByte e };

    fn from(error: TryFromIntError) -> TryFromError {
        TryFromError::NotAByte(error)
    }
}

impl Fe32 {
    ghost use Rattle.bech32_gf.specs.TryFrom.{GivesElement};

    // The element of a byte.
    fn from_byte(byte: u8) -> Result<Fe32, TryFromError>
        ensures { GivesElement (pos byte) result }
    {
        if byte > 31 {
            return Err(TryFromError::InvalidByte(byte));
        }
        Ok(Fe32 { value: byte })
    }
}

/// The element of a value from 0 to 31.
impl TryFrom<u8> for Fe32 {
    ghost use Rattle.bech32_gf.specs.TryFrom.{GivesElement};

    type Error = TryFromError;

    ghost try_from_gives = { λ v r. GivesElement (pos v) r };

    fn try_from(value: u8) -> Result<Fe32, TryFromError> {
        Fe32::from_byte(value)
    }
}

impl TryFrom<u16> for Fe32 {
    ghost use Rattle.bech32_gf.specs.TryFrom.{GivesElement};

    type Error = TryFromError;

    ghost try_from_gives = { λ v r. GivesElement (pos v) r };

    fn try_from(value: u16) -> Result<Fe32, TryFromError> {
        Fe32::from_byte(u8::try_from(value)?)
    }
}

impl TryFrom<u32> for Fe32 {
    ghost use Rattle.bech32_gf.specs.TryFrom.{GivesElement};

    type Error = TryFromError;

    ghost try_from_gives = { λ v r. GivesElement (pos v) r };

    fn try_from(value: u32) -> Result<Fe32, TryFromError> {
        Fe32::from_byte(u8::try_from(value)?)
    }
}

impl TryFrom<u64> for Fe32 {
    ghost use Rattle.bech32_gf.specs.TryFrom.{GivesElement};

    type Error = TryFromError;

    ghost try_from_gives = { λ v r. GivesElement (pos v) r };

    fn try_from(value: u64) -> Result<Fe32, TryFromError> {
        Fe32::from_byte(u8::try_from(value)?)
    }
}

impl TryFrom<u128> for Fe32 {
    ghost use Rattle.bech32_gf.specs.TryFrom.{GivesElement};

    type Error = TryFromError;

    ghost try_from_gives = { λ v r. GivesElement (pos v) r };

    fn try_from(value: u128) -> Result<Fe32, TryFromError> {
        Fe32::from_byte(u8::try_from(value)?)
    }
}

impl TryFrom<i8> for Fe32 {
    ghost use Rattle.bech32_gf.specs.TryFrom.{GivesElement};

    type Error = TryFromError;

    ghost try_from_gives = { λ v r. GivesElement v r };

    fn try_from(value: i8) -> Result<Fe32, TryFromError> {
        Fe32::from_byte(u8::try_from(value)?)
    }
}

impl TryFrom<i16> for Fe32 {
    ghost use Rattle.bech32_gf.specs.TryFrom.{GivesElement};

    type Error = TryFromError;

    ghost try_from_gives = { λ v r. GivesElement v r };

    fn try_from(value: i16) -> Result<Fe32, TryFromError> {
        Fe32::from_byte(u8::try_from(value)?)
    }
}

impl TryFrom<i32> for Fe32 {
    ghost use Rattle.bech32_gf.specs.TryFrom.{GivesElement};

    type Error = TryFromError;

    ghost try_from_gives = { λ v r. GivesElement v r };

    fn try_from(value: i32) -> Result<Fe32, TryFromError> {
        Fe32::from_byte(u8::try_from(value)?)
    }
}

impl TryFrom<i64> for Fe32 {
    ghost use Rattle.bech32_gf.specs.TryFrom.{GivesElement};

    type Error = TryFromError;

    ghost try_from_gives = { λ v r. GivesElement v r };

    fn try_from(value: i64) -> Result<Fe32, TryFromError> {
        Fe32::from_byte(u8::try_from(value)?)
    }
}

impl TryFrom<i128> for Fe32 {
    ghost use Rattle.bech32_gf.specs.TryFrom.{GivesElement};

    type Error = TryFromError;

    ghost try_from_gives = { λ v r. GivesElement v r };

    fn try_from(value: i128) -> Result<Fe32, TryFromError> {
        Fe32::from_byte(u8::try_from(value)?)
    }
}

impl From<Fe32> for u8 {
    ghost use Rattle.bech32_gf.specs.Fe32.{value};

    ghost from_gives = { λ x r. r ≡ value x };

    fn from(element: Fe32) -> u8 {
        element.value
    }
}

/// Writes the character of the element, in lower case.
impl fmt::Display for Fe32 {
    ghost use Rattle.bech32_gf.specs.Fe32.{value};

    ghost output = { λ x. Some (char_of (value x) ∷ []) };

    ghost styled_output = { λ x spec. Some (styled_text spec (char_of (value x) ∷ [])) };

    fn fmt<W: fmt::Write>(&self, f: &mut fmt::Formatter<W>) -> fmt::Result {
        fmt::Display::fmt(&self.to_char(), f)
    }
}
