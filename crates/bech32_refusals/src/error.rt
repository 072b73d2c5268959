//! Why texts are refused.

ghost use Rattle.std.specs.Prelude.{◌≡◌, ◌<◌, ◌*◌, ◌^◌, ◌↔◌, ℕ, IsTrue};
ghost use Rattle.bech32_gf.specs.Fe32.{ops};
ghost use Rattle.bech32_poly.specs.Polynomial.{coefficient, IsSamePolynomial};
ghost use Rattle.bech32_checksum.specs.Code.{bech32};
ghost use Rattle.bech32_checksum.specs.Packed.{digit_of};
ghost use Rattle.bech32_refusals.specs.ResidueRows.{actual_row, error_residue_of, target_row};

use crate::residue::{MAX_DEGREE, Residue};
use crate::segwit::{MAX_STRING_LENGTH, WitnessLengthError};
use bech32_checksum::{Bech32, Checksum, PackedFe32};
use bech32_gf::gf32::Fe32;
use bech32_hrp::Error as HrpError;
use thiserror::Error;

/// Why the characters of a text are refused.
#[derive(Clone, Copy, Debug, PartialEq, Eq, Drop, Error)]
pub enum CharError {
    /// The text has no separator `1`.
    #[error("missing human-readable separator, \"1\"")]
    MissingSeparator,
    /// No characters after the separator (never given: an empty data part is read).
    #[error("invalid data - no characters after the separator")]
    NothingAfterSeparator,
    /// The last character after the last `1` (anywhere, where there is no `1`) that is not of the
    /// alphabet.
    #[error("invalid character (code={0})")]
    InvalidChar(char),
    /// An upper-case letter stands beside a lower-case one.
    #[error("mixed-case strings not allowed")]
    MixedCase,
}

/// Why a text is not in the grammar.
#[derive(Clone, Copy, Debug, PartialEq, Eq, Drop, Error)]
pub enum UncheckedHrpstringError {
    /// Its characters.
    #[error("character error: {0}")]
    Char(CharError),
    /// Its human-readable part.
    #[error("invalid human-readable part: {0}")]
    Hrp(HrpError),
}

/// A text is longer than its checksum's code.
#[derive(Clone, Copy, Debug, PartialEq, Eq, Drop, Error)]
#[error("encoded length {encoded_length} exceeds maximum (code length) {code_length}")]
pub struct CodeLengthError {
    /// The length of the text, checksum included, in characters (`usize::MAX` where it is longer).
    pub encoded_length: usize,
    /// The code length of the checksum.
    pub code_length: usize,
}

/// The remainder of a text is not its checksum's target. Two such errors are equal where
/// their remainders are, and their targets.
#[derive(Clone, Copy, Debug, Drop, Error)]
#[error("residue {actual} did not match target {target}")]
pub struct InvalidResidueError {
    actual: Residue,
    target: Residue,
}

/// Why a checksum refuses a text.
#[derive(Clone, Copy, Debug, PartialEq, Eq, Drop, Error)]
pub enum ChecksumError {
    /// The text is longer than the code.
    #[error("string exceeds maximum allowed length: {0}")]
    CodeLength(CodeLengthError),
    /// The remainder is not the target.
    #[error("checksum failed: {0}")]
    InvalidResidue(InvalidResidueError),
    /// The data part is shorter than the checksum.
    #[error("the checksummed string is not a valid length")]
    InvalidLength,
}

/// Why a text is not one that a checksum accepts.
#[derive(Clone, Copy, Debug, PartialEq, Eq, Drop, Error)]
pub enum CheckedHrpstringError {
    /// It is not in the grammar.
    #[error("parse failed: {0}")]
    Parse(UncheckedHrpstringError),
    /// Its checksum.
    #[error("invalid checksum: {0}")]
    Checksum(ChecksumError),
}

/// A segwit address would have more than [`MAX_STRING_LENGTH`] characters: how many.
#[derive(Clone, Copy, Debug, PartialEq, Eq, Drop, Error)]
#[error("encoded length {0} exceeds maximum (code length) {max}", max = MAX_STRING_LENGTH)]
pub struct SegwitCodeLengthError(pub usize);

/// Why the bits behind the last whole byte of a witness program are refused (BIP-173, Segwit
/// address format).
#[derive(Clone, Copy, Debug, PartialEq, Eq, Drop, Error)]
pub enum PaddingError {
    /// There are more than four.
    #[error("the data payload has too many bits of padding")]
    TooMuch,
    /// Not all of them are zero.
    #[error("the data payload is padded with non-zero bits")]
    NonZero,
}

/// Why a text is not a segwit address.
#[derive(Clone, Copy, Debug, PartialEq, Eq, Drop, Error)]
pub enum SegwitHrpstringError {
    /// It is not in the grammar.
    #[error("parsing unchecked hrpstring failed: {0}")]
    Unchecked(UncheckedHrpstringError),
    /// The data part is empty, or nothing is left of it before the checksum.
    #[error("no data found after removing the checksum")]
    NoData,
    /// It has more than [`MAX_STRING_LENGTH`] characters: how many.
    #[error("encoded length {0} exceeds spec limit {max} chars", max = MAX_STRING_LENGTH)]
    TooLong(usize),
    /// The witness version is above 16.
    #[error("invalid segwit witness version: {} (bech32 character: '{}')", .0.to_u8(), .0.to_char())]
    InvalidWitnessVersion(Fe32),
    /// The bits behind the last whole byte of the program.
    #[error("invalid padding on the witness data: {0}")]
    Padding(PaddingError),
    /// The length of the program.
    #[error("invalid witness length: {0}")]
    WitnessLength(WitnessLengthError),
    /// The checksum.
    #[error("invalid checksum: {0}")]
    Checksum(ChecksumError),
    /// Out of memory for the program (given by [`bech32_segwit::decode`] alone).
    #[error("out of memory")]
    Memory,
}

impl PartialEq for InvalidResidueError {
    ghost use Rattle.std.specs.Cmp.Rules.{comparing};
    ghost use Rattle.std.proofs.Common.{rules};
    ghost use Rattle.bech32_refusals.specs.ResidueRows.{has_same_rows};

    ghost eq = { has_same_rows };

    ghost laws = { Prim.search (comparing, rules) depth 12 };

    fn eq(&self, other: &InvalidResidueError) -> bool
        ensures value { result ≡ has_same_rows self.now other.now }
        // As polynomials.
        ensures polynomials { IsTrue result
            ↔ (IsSamePolynomial ops (actual_row self.now) (actual_row other.now)
            × IsSamePolynomial ops (target_row self.now) (target_row other.now)) }
    {
        self.is_same(other)
    }
}

impl Eq for InvalidResidueError {
    ghost use Rattle.std.specs.Cmp.Rules.{comparing};
    ghost use Rattle.std.proofs.Common.{rules};

    ghost laws = { Prim.search (comparing, rules) depth 12 };
}

impl InvalidResidueError {
    ghost use Rattle.bech32_refusals.specs.ResidueRows.{has_same_rows};

    // Whether another error has the same rows.
    fn is_same(&self, other: &InvalidResidueError) -> bool
        ensures { result ≡ has_same_rows self.now other.now }
    {
        self.actual == other.actual && self.target == other.target
    }

    /// The error of a text that leaves `actual` in place of `target`: for the layers above, which
    /// test texts. Each must fit its type's width.
    pub fn new<R: PackedFe32>(actual: &R, target: &R) -> Self
        requires actual_fits { R.number actual.now < 2 ^ (5 * R.WIDTH) }
        requires target_fits { R.number target.now < 2 ^ (5 * R.WIDTH) }
        ensures actual { (n : ℕ)
            → coefficient ops (actual_row result) n ≡ digit_of (R.number actual.now) n }
        ensures target { (n : ℕ)
            → coefficient ops (target_row result) n ≡ digit_of (R.number target.now) n }
    {
        InvalidResidueError {
            actual: Residue::new(actual),
            target: Residue::new(target),
        }
    }

    /// Whether the remainder is the target of Bech32, whatever checksum refused the text: a text
    /// that Bech32m refuses for its remainder is then one that Bech32 accepts.
    pub fn matches_bech32_checksum(&self) -> bool
        ensures { IsTrue result ↔ IsSamePolynomial ops (actual_row self.now) bech32.target }
    {
        self.actual == Residue::new(&Bech32::TARGET_RESIDUE)
    }

    /// What is left of the remainder where the target is taken off, by which errors are found: its
    /// coefficients, the constant term first, with zeros behind them.
    pub fn residue(&self) -> [Fe32; MAX_DEGREE]
        ensures { result ≡ error_residue_of self.now }
    {
        self.actual.less(&self.target)
    }
}

impl From<CharError> for UncheckedHrpstringError {
    ghost use Rattle.bech32_refusals.specs.declared.error.UncheckedHrpstringError.TheVariants.{Char};

    ghost from_gives = { λ e r. r ≡ Char e };

    fn from(e: CharError) -> Self {
        Self::Char(e)
    }
}

impl From<HrpError> for UncheckedHrpstringError {
    ghost use Rattle.bech32_refusals.specs.declared.error.UncheckedHrpstringError.TheVariants.{Hrp};

    ghost from_gives = { λ e r. r ≡ Hrp e };

    fn from(e: HrpError) -> Self {
        Self::Hrp(e)
    }
}

impl From<UncheckedHrpstringError> for CheckedHrpstringError {
    ghost use Rattle.bech32_refusals.specs.declared.error.CheckedHrpstringError.TheVariants.{Parse};

    ghost from_gives = { λ e r. r ≡ Parse e };

    fn from(e: UncheckedHrpstringError) -> Self {
        Self::Parse(e)
    }
}

impl From<ChecksumError> for CheckedHrpstringError {
    ghost use Rattle.bech32_refusals.specs.declared.error.CheckedHrpstringError.TheVariants.{Checksum};

    ghost from_gives = { λ e r. r ≡ Checksum e };

    fn from(e: ChecksumError) -> Self {
        Self::Checksum(e)
    }
}

impl From<CodeLengthError> for SegwitCodeLengthError {
    ghost from_gives = { λ e r. r.0 ≡ e.encoded_length };

    fn from(e: CodeLengthError) -> Self {
        Self(e.encoded_length)
    }
}

impl From<UncheckedHrpstringError> for SegwitHrpstringError {
    ghost use Rattle.bech32_refusals.specs.declared.error.SegwitHrpstringError.TheVariants.{Unchecked};

    ghost from_gives = { λ e r. r ≡ Unchecked e };

    fn from(e: UncheckedHrpstringError) -> Self {
        Self::Unchecked(e)
    }
}

impl From<WitnessLengthError> for SegwitHrpstringError {
    ghost use Rattle.bech32_refusals.specs.declared.error.SegwitHrpstringError.TheVariants.{WitnessLength};

    ghost from_gives = { λ e r. r ≡ WitnessLength e };

    fn from(e: WitnessLengthError) -> Self {
        Self::WitnessLength(e)
    }
}

impl From<PaddingError> for SegwitHrpstringError {
    ghost use Rattle.bech32_refusals.specs.declared.error.SegwitHrpstringError.TheVariants.{Padding};

    ghost from_gives = { λ e r. r ≡ Padding e };

    fn from(e: PaddingError) -> Self {
        Self::Padding(e)
    }
}

impl From<ChecksumError> for SegwitHrpstringError {
    ghost use Rattle.bech32_refusals.specs.declared.error.SegwitHrpstringError.TheVariants.{Checksum};

    ghost from_gives = { λ e r. r ≡ Checksum e };

    fn from(e: ChecksumError) -> Self {
        Self::Checksum(e)
    }
}
