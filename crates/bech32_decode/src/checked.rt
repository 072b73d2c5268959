//! A text whose checksum was tested.

ghost use Rattle.std.specs.Prelude.{◌≡◌, ◌↔◌, ◌≤◌, ◌<◌, ◌+◌, ◌++◌, ◌-◌, true, length, drop, MatchOption, MatchResult, IfOk, IfErr, IsOk};
ghost use Rattle.bech32_gf.specs.Alphabet.{is_data};
ghost use Rattle.bech32_gf.specs.Fe32.{elements_of};
ghost use Rattle.bech32_decode.specs.Acceptance.{Accepts};
ghost use Rattle.bech32_decode.specs.Readers.{bytes_to_come, elements_left};
ghost use Rattle.bech32_decode.specs.Text.{IsInGrammar};
ghost use Rattle.bech32_decode.specs.Version.{version_of};

use crate::address::SegwitHrpstring;
use crate::address_data::{address_data, validate_padding, validate_program_length};
use crate::byte_reader::ByteIter;
use crate::data_bytes::put_data_bytes;
use crate::reader::AsciiToFe32Iter;
use crate::reading::Reading;
use crate::version::version_in;
use bech32_checksum::Checksum;
use bech32_gf::gf32::Fe32;
use bech32_hrp::Hrp;
use bech32_refusals::segwit::WitnessLengthError;
use bech32_refusals::{CheckedHrpstringError, PaddingError, SegwitHrpstringError};

/// A text in its parts: the human-readable part, and the data part without its checksum. It borrows
/// the text.
#[derive(Clone, Copy, Debug)]
pub struct CheckedHrpstring<'s> {
    pub(crate) hrp: Hrp,
    pub(crate) ascii: &'s [u8],
    pub(crate) hrpstring_length: usize,
    pub ghost of_alphabet: { is_data ascii.now ≡ true },
}

impl<'s> CheckedHrpstring<'s> {
    ghost use Rattle.bech32_decode.specs.Checked.{IsAcceptedAs, IsCheckedRefusal};
    ghost use Rattle.bech32_decode.specs.Parts.{checked_hrp, checked_part, checked_data, checked_bytes, checked_length};

    // What `new` returns.
    fn read<Ck: Checksum>(s: &'s str) -> Result<Self, CheckedHrpstringError>
        ensures { MatchResult result
            (λ c. IsAcceptedAs Ck.code s.now c)
            (λ e. IsCheckedRefusal Ck.code s.now e) }
    {
        let reading = Reading::<Ck>::new(s)?;
        reading.validate()?;
        Ok(reading.checked())
    }

    /// Reads a text that the checksum accepts.
    ///
    /// # Errors
    ///
    /// The first of: the text is not in the grammar (as [`Reading::new`]); the checksum refuses it
    /// (as [`Reading::validate`]).
    pub fn new<Ck: Checksum>(s: &'s str) -> Result<Self, CheckedHrpstringError>
        ensures parts { IfOk result (λ c. IsAcceptedAs Ck.code s.now c) }
        ensures accepts { IsOk result ↔ Accepts Ck.code s.now }
        ensures refused { IfErr result (λ e. IsCheckedRefusal Ck.code s.now e) }
        // At degree 0 grammar and length alone decide.
        ensures no_checksum { Ck.CHECKSUM_LENGTH ≡ 0
            → IsOk result ↔ (IsInGrammar s.now × (length s.now ≤ Ck.CODE_LENGTH)) }
    {
        Self::read::<Ck>(s)
    }

    /// The human-readable part, in the case of the text.
    #[inline]
    pub fn hrp(&self) -> Hrp
        ensures { result ≡ checked_hrp self.now }
    {
        self.hrp
    }

    /// The characters of the data part before the checksum: all of the alphabet, in the case of the
    /// text.
    #[inline]
    pub fn data_part_ascii_no_checksum(&self) -> &'s [u8]
        ensures value { result.now ≡ checked_data self.now }
        ensures of_alphabet { is_data result.now ≡ true }
    {
        self.ascii
    }

    /// The witness version: the first element of the data part, where it is at most 16 (BIP-173,
    /// Segwit address format).
    #[inline]
    pub fn witness_version(&self) -> Option<Fe32>
        ensures { result ≡ version_of (elements_of (checked_data self.now)) }
    {
        version_in(self.ascii)
    }

    /// Takes the witness version off the data part, where there is one.
    ///
    /// The length that the rules of segwit addresses test stays that of the whole text.
    pub fn remove_witness_version(&mut self) -> Option<Fe32>
        ensures version { result ≡ version_of (elements_of (checked_data self.old)) }
        ensures rest { MatchOption result
            (checked_data self.new ≡ checked_data self.old)
            (λ _. checked_data self.new ≡ drop 1 (checked_data self.old)) }
        ensures others { (checked_hrp self.new ≡ checked_hrp self.old)
            × (checked_length self.new ≡ checked_length self.old) }
    {
        let version = self.witness_version()?;
        self.ascii = &self.ascii[1..];
        Some(version)
    }

    /// The elements of the data part, in turn.
    #[inline]
    pub fn fe32_iter(&self) -> AsciiToFe32Iter<'s>
        ensures { elements_left result ≡ elements_of (checked_data self.now) }
    {
        AsciiToFe32Iter::new(self.ascii)
    }

    /// The bytes of the data part, in turn, with a last part shorter than eight bits dropped
    /// (BIP-173, Segwit address format).
    #[inline]
    pub fn byte_iter(&self) -> ByteIter<'s>
        ensures { bytes_to_come result ≡ checked_bytes self.now }
    {
        ByteIter::new(self.ascii)
    }

    /// Puts the bytes of the data part, those of [`Self::byte_iter`], at the front of a buffer that
    /// has room for them, and returns how many they are.
    #[inline]
    pub fn put_bytes(&self, buffer: &mut [u8]) -> usize
        requires { length (checked_bytes self.now) ≤ length buffer.old }
        ensures count { result ≡ length (checked_bytes self.now) }
        ensures buffer { buffer.new ≡ checked_bytes self.now ++ drop result buffer.old }
    {
        put_data_bytes(self.ascii, buffer)
    }

    ghost use Rattle.bech32_decode.specs.Segwit.{IsDataRefusal};
    ghost use Rattle.bech32_decode.specs.SegwitParts.{IsSegwitOf};
    ghost use Rattle.bech32_refusals.specs.SegwitRules.{IsLengthRefusal, IsProgramLength};
    ghost use Rattle.bech32_decode.specs.SegwitPadding.{IsPadded, IsPaddingRefusal};

    /// Tests the rules of segwit addresses, whatever checksum the text has, and takes the witness
    /// version off (BIP-173, Segwit address format).
    ///
    /// # Errors
    ///
    /// The first of: no data; a text of more than [`MAX_STRING_LENGTH`] characters; a witness
    /// version above 16; padding of more than four bits; padding that is not zero; a program of
    /// less than 2 bytes, of more than 40, or of neither 20 nor 32 in version 0.
    pub fn validate_segwit(self) -> Result<SegwitHrpstring<'s>, SegwitHrpstringError>
        ensures { MatchResult result
            (λ a. IsSegwitOf self.entry a)
            (λ e.
            IsDataRefusal (checked_length self.entry) (elements_of (checked_data self.entry)) e) }
    {
        let found = address_data(self.hrpstring_length, self.ascii)?;
        Ok(SegwitHrpstring {
            hrp: self.hrp,
            witness_version: found.version,
            ascii: found.program,
        })
    }

    /// Tests the padding: the bits of the data part behind its last whole byte (BIP-173, Segwit
    /// address format). The witness version must have been taken off.
    ///
    /// # Errors
    ///
    /// The first of: more than four bits; bits that are not all zero.
    pub fn validate_segwit_padding(&self) -> Result<(), PaddingError>
        ensures { MatchResult result
            (λ _. IsPadded (elements_of (checked_data self.now)))
            (λ e. IsPaddingRefusal (elements_of (checked_data self.now)) e) }
    {
        validate_padding(self.ascii)
    }

    /// Tests how many bytes the data part has, as the program of a witness version, which must have
    /// been taken off.
    ///
    /// # Errors
    ///
    /// As [`segwit::validate_witness_program_length`].
    pub fn validate_witness_program_length(
        &self,
        witness_version: Fe32,
    ) -> Result<(), WitnessLengthError>
        ensures { MatchResult result
            (λ _. IsProgramLength witness_version (length (checked_bytes self.now)))
            (λ e. IsLengthRefusal witness_version (length (checked_bytes self.now)) e) }
    {
        validate_program_length(self.ascii, witness_version)
    }
}
