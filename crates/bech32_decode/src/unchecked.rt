//! A text whose characters were tested, and its checksum not.

ghost use Rattle.std.specs.Prelude.{◌≡◌, ◌↔◌, ◌≤◌, ℕ, true, List, length, drop, Some, MatchResult, MatchOption, IfOk, IsOk, IsTrue};
ghost use Rattle.bech32_gf.specs.Alphabet.{is_data};
ghost use Rattle.bech32_gf.specs.Fe32.{elements_of};
ghost use Rattle.bech32_decode.specs.Version.{version_of};
ghost use Rattle.bech32_decode.specs.Text.{IsText, IsInGrammar, IsRefusedAsText, text_refusal};

use crate::characters::Quick;
use crate::checked::CheckedHrpstring;
use crate::parts::parts_by;
use crate::residue::residue_of;
use crate::validation::{validate_lengths, validate_residue};
use crate::version::version_in;
use bech32_checksum::Checksum;
use bech32_gf::gf32::Fe32;
use bech32_hrp::Hrp;
use bech32_refusals::{ChecksumError, UncheckedHrpstringError};

/// A text in its parts: the human-readable part, and the data part with the checksum in it, which
/// was not tested. It borrows the text.
#[derive(Clone, Copy, Debug)]
pub struct UncheckedHrpstring<'s> {
    hrp: Hrp,
    data_part_ascii: &'s [u8],
    hrpstring_length: usize,
    pub ghost of_alphabet: { is_data data_part_ascii.now ≡ true },
    pub ghost fits: { length data_part_ascii.now ≤ hrpstring_length },
}

// The parts of a text, or its first fault. Out of line: its result is small, and what is read of
// the parts is not. Most texts are walked over.
#[cold]
#[inline(never)]
fn parts_in(s: &str) -> Result<(&[u8], &[u8]), UncheckedHrpstringError>
    ensures { MatchResult result
        (λ p. IsText s.now p.0.now p.1.now)
        (λ e. text_refusal s.now ≡ Some e) }
{
    parts_by::<Quick>(s)
}

impl<'s> UncheckedHrpstring<'s> {
    ghost use Rattle.bech32_decode.specs.Checked.{IsWithoutChecksum};
    ghost use Rattle.bech32_decode.specs.Parts.{unchecked_hrp, unchecked_part, unchecked_data, unchecked_length};
    ghost use Rattle.bech32_decode.specs.Refusals.{HasLengthsOf, IsValidBy, IsInvalidBy};

    /// Reads a text, and does not test its checksum.
    ///
    /// # Errors
    ///
    /// The first fault of the text: a character that is not of the alphabet, letters of both cases,
    /// no separator, a human-readable part that is none.
    #[inline(always)]
    pub fn new(s: &'s str) -> Result<Self, UncheckedHrpstringError>
        ensures parts { IfOk result (λ u. IsText s.now (unchecked_part u) (unchecked_data u)
            × (unchecked_length u ≡ length s.now)) }
        ensures only { IfOk result (λ u. (h : List ℕ) → (d : List ℕ) → IsText s.now h d
            → (h ≡ unchecked_part u) × (d ≡ unchecked_data u)) }
        ensures refused { IsRefusedAsText s.now result }
        ensures accepts { IsOk result ↔ IsInGrammar s.now }
    {
        let (part, data_part_ascii) = parts_in(s)?;
        Ok(UncheckedHrpstring {
            hrp: Hrp::of_bytes(part),
            data_part_ascii,
            hrpstring_length: s.len(),
        })
    }

    /// The human-readable part, in the case of the text.
    #[inline]
    pub fn hrp(&self) -> Hrp
        ensures { result ≡ unchecked_hrp self.now }
    {
        self.hrp
    }

    /// The bytes of the human-readable part, in the case of the text.
    #[inline]
    pub fn part(&self) -> &[u8]
        ensures { result.now ≡ unchecked_part self.now }
    {
        self.hrp.as_bytes()
    }

    /// The characters of the data part: all of the alphabet, in the case of the text, with those of
    /// the checksum.
    #[inline]
    pub fn data_part_ascii(&self) -> &'s [u8]
        ensures value { result.now ≡ unchecked_data self.now }
        ensures of_alphabet { is_data result.now ≡ true }
    {
        self.data_part_ascii
    }

    /// The witness version: the first element of the data part, where it is at most 16 (BIP-173,
    /// Segwit address format).
    #[inline]
    pub fn witness_version(&self) -> Option<Fe32>
        ensures { result ≡ version_of (elements_of (unchecked_data self.now)) }
    {
        version_in(self.data_part_ascii)
    }

    /// Takes the witness version off the data part, where there is one.
    ///
    /// The length that is tested against a code length stays that of the whole text.
    pub fn remove_witness_version(&mut self) -> Option<Fe32>
        ensures version { result ≡ version_of (elements_of (unchecked_data self.old)) }
        ensures rest { MatchOption result
            (unchecked_data self.new ≡ unchecked_data self.old)
            (λ _. unchecked_data self.new ≡ drop 1 (unchecked_data self.old)) }
        ensures others { (unchecked_hrp self.new ≡ unchecked_hrp self.old)
            × (unchecked_length self.new ≡ unchecked_length self.old) }
    {
        let version = self.witness_version()?;
        self.data_part_ascii = &self.data_part_ascii[1..];
        Some(version)
    }

    // Tests that the text is not longer than the code, and its data part has room for the checksum.
    #[inline]
    pub(crate) fn validate_lengths<Ck: Checksum>(&self) -> Result<(), ChecksumError>
        ensures { MatchResult result
            (λ _. HasLengthsOf Ck.code self.now)
            (λ e. IsInvalidBy Ck.code self.now e × ¬ HasLengthsOf Ck.code self.now) }
    {
        validate_lengths::<Ck>(self.hrpstring_length, self.data_part_ascii.len())
    }

    /// Tests the checksum of the data part. A checksum of degree 0 asks nothing of it.
    ///
    /// # Errors
    ///
    /// The first of: the text is longer than the code; the data part is shorter than the checksum;
    /// the polynomial of the text does not have the target as remainder.
    pub fn validate_checksum<Ck: Checksum>(&self) -> Result<(), ChecksumError>
        ensures { MatchResult result
            (λ _. IsValidBy Ck.code self.now)
            (λ e. IsInvalidBy Ck.code self.now e) }
    {
        self.validate_lengths::<Ck>()?;
        if Ck::CHECKSUM_LENGTH == 0 {
            return Ok(());
        }
        let residue = residue_of::<Ck>(self.part(), self.data_part_ascii);
        match validate_residue::<Ck>(&residue) {
            Ok(()) => Ok(()),
            Err(e) => Err(ChecksumError::InvalidResidue(e)),
        }
    }

    /// Whether the checksum of the data part is right: [`Self::validate_checksum`] is `Ok`.
    pub fn has_valid_checksum<Ck: Checksum>(&self) -> bool
        ensures { IsTrue result ↔ IsValidBy Ck.code self.now }
    {
        self.validate_checksum::<Ck>().is_ok()
    }

    /// Tests the checksum, and takes it off the data part.
    ///
    /// # Errors
    ///
    /// Those of [`Self::validate_checksum`].
    pub fn validate_and_remove_checksum<Ck: Checksum>(
        self,
    ) -> Result<CheckedHrpstring<'s>, ChecksumError>
        ensures { MatchResult result
            (λ c. IsValidBy Ck.code self.entry × IsWithoutChecksum Ck.code self.entry c)
            (λ e. IsInvalidBy Ck.code self.entry e) }
    {
        self.validate_checksum::<Ck>()?;
        Ok(self.remove_checksum::<Ck>())
    }

    /// Takes the checksum off the data part, and does not test it.
    ///
    /// The data part must have as many characters as the checksum at least.
    pub fn remove_checksum<Ck: Checksum>(self) -> CheckedHrpstring<'s>
        requires { length Ck.code.generator ≤ length (unchecked_data self) }
        ensures { IsWithoutChecksum Ck.code self.entry result }
    {
        let end = self.data_part_ascii.len() - Ck::CHECKSUM_LENGTH;
        CheckedHrpstring {
            hrp: self.hrp,
            ascii: &self.data_part_ascii[..end],
            hrpstring_length: self.hrpstring_length,
        }
    }
}
