//! Reads a text in one walk: its parts, and the remainder that it leaves.

ghost use Rattle.std.specs.Prelude.{◌≡◌, ◌≤◌, ◌%◌, ◌/◌, ◌^◌, ◌+◌, ◌*◌, ◌<◌, ◌↔◌, if◌then◌else◌, ◌⊎◌, ℕ, true, length, take, drop, IfOk, IfSome, IsOk, IsTrue, MatchResult};
ghost use Rattle.std.specs.List.{list_all};
ghost use Rattle.bech32_checksum.specs.Code.{bech32, bech32m};
ghost use Rattle.bech32_hrp.specs.Hrp.{is_graphic, is_lower, is_upper};
ghost use Rattle.bech32_decode.specs.Letters.{letter_count};
ghost use Rattle.bech32_decode.specs.Refusals.{HasLengths};
ghost use Rattle.bech32_gf.specs.Fe32.{elements_of, ops};
ghost use Rattle.bech32_poly.specs.Division.{remainder_of};
ghost use Rattle.bech32_poly.specs.Polynomial.{IsSamePolynomial, add};
ghost use Rattle.bech32_poly.specs.Remainder.{IsRemainder};
ghost use Rattle.bech32_checksum.specs.TextPolynomial.{text_polynomial};
ghost use Rattle.bech32_decode.specs.Acceptance.{IsAccepted};
ghost use Rattle.bech32_decode.specs.Reading.{IsReading};
ghost use Rattle.bech32_decode.specs.BeforeChecksum.{IsBeforeChecksum};
ghost use Rattle.bech32_decode.specs.Bytes.{IsBytesFault};
ghost use Rattle.bech32_decode.specs.Parts.{checked_data, checked_length, checked_part};
ghost use Rattle.bech32_decode.specs.Refusals.{IsChecksumRefusal, IsRefusedByBoth};
ghost use Rattle.bech32_decode.specs.Segwit.{IsAddressRefusal, IsVersioned, segwit_code};
ghost use Rattle.bech32_decode.specs.SegwitParts.{IsReadIn};
ghost use Rattle.bech32_decode.specs.Text.{IsInGrammar, IsRefusedAsText};
ghost use Rattle.bech32_gf.specs.Alphabet.{is_data};
ghost use Rattle.bech32_refusals.specs.SegwitRules.{max_address_length};

use crate::address_data::{AddressData, data_of_version, validate_sizes};
use crate::bytes::{BytesError, parts_of_bytes};
use crate::checked::CheckedHrpstring;
use crate::eights::{is_stranger, walk};
use crate::part_cases::PART_CASES;
use crate::residue::residue_of;
use crate::validation::{validate_lengths, validate_residue};
use crate::version::first_version;
use bech32_checksum::{Bech32, Bech32m, Checksum, Engine, PackedFe32};
use bech32_gf::gf32::Fe32;
use bech32_hrp::Hrp;
use bech32_refusals::segwit::VERSION_0;
use bech32_refusals::{ChecksumError, MAX_DEGREE, SegwitHrpstringError, UncheckedHrpstringError};

/// A text of the grammar in its parts, and the remainder that it leaves by a checksum's generator.
/// It borrows the text.
#[derive(Drop)]
pub struct Reading<'s, Ck: Checksum> {
    /// The whole text.
    pub text: &'s [u8],
    /// What stands before the separator: a human-readable part, in the case of the text.
    pub hrp: &'s [u8],
    /// What stands behind the separator, with the checksum: characters of the alphabet.
    pub data_part: &'s [u8],
    /// The remainder, packed.
    pub residue: Ck::MidstateRepr,
    pub ghost is_reading: { IsReading Ck.code
        text.now hrp.now data_part.now (Ck.MidstateRepr.number residue) },
}

// The case of a byte of a part, as `PART_CASES` has it.
#[inline]
fn part_case(b: u8) -> u32
    ensures graphic { result < 2 ^ 24 → is_graphic b ≡ true }
    ensures letters { result < 2 ^ 24 → result
        ≡ (if is_lower b then 1 else 0) + 2 ^ 12 * (if is_upper b then 1 else 0) }
{
    PART_CASES[b as usize]
}

// What stands before the first `1` of a text: its length, and how many letters of each case it has,
// small ones below 2^12 and capital ones above.
#[derive(Clone, Copy)]
struct Front {
    length: usize,
    counts: u64,
}

// The bytes that may stand before the first `1`, 84 of them at most.
#[inline]
fn front_of(text: &[u8]) -> Front
    ensures bound { result.length ≤ length text.now }
    ensures few { result.length ≤ 84 }
    ensures graphic { list_all is_graphic (take result.length text.now) ≡ true }
    ensures counts { result.counts ≡ letter_count is_lower (take result.length text.now)
        + 2 ^ 12 * letter_count is_upper (take result.length text.now) }
{
    let mut front = Front {
        length: 0,
        counts: 0,
    };
    while front.length < text.len() && front.length < 84 {
        let case = part_case(text[front.length]);
        if case >= 0x100_0000 {
            break;
        }
        front.counts += u64::from(case);
        front.length += 1;
    }
    front
}

// Whether no letter of one case was counted.
#[inline]
fn is_one_case(counts: u64) -> bool
    ensures { IsTrue result ↔ ((counts % 2 ^ 12 ≡ 0) ⊎ (counts / 2 ^ 12 ≡ 0)) }
{
    counts % 4096 == 0 || counts / 4096 == 0
}

// Whether a text of at most 1,023 characters may be read by a walk: its first and its last one may
// stand there. Most faults of texts that are none are seen so, without a walk.
#[inline(always)]
fn is_walkable(text: &[u8]) -> bool
    ensures { IsTrue result → length text.now ≤ 1023 }
{
    if text.is_empty() || text.len() > 1023 {
        return false;
    }
    part_case(text[0]) < 0x100_0000 && !is_stranger(text[text.len() - 1])
}

impl<'s, Ck: Checksum> Reading<'s, Ck> {
    /// Reads a text, of any length: in one walk, as [`Self::in_one_walk`], where the walk can read
    /// it.
    ///
    /// # Errors
    ///
    /// The first fault of the text, as [`crate::UncheckedHrpstring::new`] names it.
    #[inline(always)]
    pub fn new(text: &'s str) -> Result<Self, UncheckedHrpstringError>
        ensures value { IfOk result (λ r. r.text.now ≡ text.now) }
        ensures refused { IsRefusedAsText text.now result }
        ensures accepts { IsOk result ↔ IsInGrammar text.now }
    {
        match Self::from_bytes(text.as_bytes()) {
            Ok(reading) => Ok(reading),
            Err(BytesError::Text(e)) => Err(e),
            Err(BytesError::NotUtf8) => unreachable!(),
        }
    }

    /// Reads the text of bytes, as [`Self::new`].
    ///
    /// # Errors
    ///
    /// Bytes that are not UTF-8; otherwise the first fault of their text.
    #[inline(always)]
    pub fn from_bytes(bytes: &'s [u8]) -> Result<Self, BytesError>
        ensures { MatchResult result
            (λ r. r.text.now ≡ bytes.now)
            (λ e. IsBytesFault bytes.now e) }
    {
        match Self::in_one_walk(bytes) {
            Some(reading) => Ok(reading),
            None => Self::with_first_fault(bytes),
        }
    }

    // Reads without the walk, which said nothing: first the parts, and of these the remainder.
    // In line, and each step out of line: what a text is refused with is moved once. Apart from the
    // walk, so that its locals are cleared only there.
    #[inline(always)]
    fn with_first_fault(bytes: &'s [u8]) -> Result<Self, BytesError>
        ensures { MatchResult result
            (λ r. r.text.now ≡ bytes.now)
            (λ e. IsBytesFault bytes.now e) }
    {
        let (hrp, data_part) = parts_of_bytes(bytes)?;
        Ok(Reading {
            text: bytes,
            hrp,
            data_part,
            residue: residue_of::<Ck>(hrp, data_part),
        })
    }

    /// Reads a text of at most 1,023 characters in one walk. Of a text with a fault of the grammar,
    /// or with more than one `1`, it says nothing.
    #[inline(always)]
    pub fn in_one_walk(text: &'s [u8]) -> Option<Self>
        ensures { IfSome result (λ r. r.text.now ≡ text.now) }
    {
        if !is_walkable(text) {
            return None;
        }
        Self::walked(text)
    }

    // The same of a text that is walked over, whatever its ends are. In line: the parts of a
    // reading are then in registers where it is tested.
    #[inline(always)]
    fn walked(text: &'s [u8]) -> Option<Self>
        requires { length text.now ≤ 1023 }
        ensures { IfSome result (λ r. r.text.now ≡ text.now) }
    {
        let front = front_of(text);
        let end = front.length;
        if end == 0 || end > 83 || end == text.len() {
            return None;
        }
        if text[end] != b'1' {
            return None;
        }
        let hrp = &text[..end];
        let data_part = &text[end + 1..];
        let mut engine = Engine::<Ck>::new();
        engine.input_part(hrp);
        let counts = walk(data_part, &mut engine);
        if !is_one_case(front.counts + counts) {
            return None;
        }
        Some(Reading {
            text,
            hrp,
            data_part,
            residue: *engine.residue(),
        })
    }

    /// Tests that the text is not longer than the code, and its data part has room for the
    /// checksum.
    ///
    /// # Errors
    ///
    /// The first of these that is not so.
    #[inline]
    pub fn validate_lengths(&self) -> Result<(), ChecksumError>
        ensures { MatchResult result
            (λ _. HasLengths Ck.code (length self.now.text.now) (length self.now.data_part.now))
            (λ e. IsChecksumRefusal Ck.code (length self.now.text.now)
            self.now.hrp.now self.now.data_part.now e
            × ¬ HasLengths Ck.code (length self.now.text.now) (length self.now.data_part.now)) }
    {
        validate_lengths::<Ck>(self.text.len(), self.data_part.len())
    }

    /// Whether the remainder is the target.
    #[inline]
    pub fn has_target(&self) -> bool
        ensures { IsTrue result ↔ IsRemainder ops Ck.code.generator
            (text_polynomial self.now.hrp.now (elements_of self.now.data_part.now))
            Ck.code.target }
    {
        self.residue == Ck::TARGET_RESIDUE
    }

    /// Whether the checksum accepts the text.
    #[inline]
    pub fn is_accepted(&self) -> bool
        ensures { IsTrue result ↔ IsAccepted Ck.code
            self.now.text.now self.now.hrp.now self.now.data_part.now }
    {
        match self.validate_lengths() {
            Ok(()) => self.has_target(),
            Err(_) => false,
        }
    }

    /// What is left of the remainder where the target is taken off, by which errors are found: its
    /// coefficients, the constant term first, with zeros behind them.
    #[inline]
    pub fn error_residue(&self) -> [Fe32; MAX_DEGREE]
        ensures { IsSamePolynomial ops result (add ops (remainder_of ops Ck.code.generator
            (text_polynomial self.now.hrp.now (elements_of self.now.data_part.now)))
            Ck.code.target) }
    {
        let packed = self.residue ^ Ck::TARGET_RESIDUE;
        let mut residue = [Fe32::Q; MAX_DEGREE];
        for place in 0..Ck::CHECKSUM_LENGTH {
            residue[place] = Fe32::from_low_bits(packed.unpack(place));
        }
        residue
    }

    /// The characters of the data part before the checksum.
    #[inline]
    pub fn characters(&self) -> &'s [u8]
        requires { length Ck.code.generator ≤ length self.now.data_part.now }
        ensures before { IsBeforeChecksum Ck.code self.now.data_part.now result.now }
        ensures of_alphabet { is_data result.now ≡ true }
    {
        &self.data_part[..self.data_part.len() - Ck::CHECKSUM_LENGTH]
    }

    /// The text without its checksum, which must have been tested.
    #[inline]
    pub fn checked(&self) -> CheckedHrpstring<'s>
        requires { length Ck.code.generator ≤ length self.now.data_part.now }
        ensures hrp { checked_part result ≡ self.now.hrp.now }
        ensures before { IsBeforeChecksum Ck.code self.now.data_part.now (checked_data result) }
        ensures text_length { checked_length result ≡ length self.now.text.now }
    {
        CheckedHrpstring {
            hrp: Hrp::of_bytes(self.hrp),
            ascii: self.characters(),
            hrpstring_length: self.text.len(),
        }
    }

    /// Tests the checksum of the text. A checksum of degree 0 asks nothing of it.
    ///
    /// # Errors
    ///
    /// The first of: the text is longer than the code; the data part is shorter than the checksum;
    /// the remainder is not the target.
    #[inline]
    pub fn validate(&self) -> Result<(), ChecksumError>
        ensures { MatchResult result
            (λ _. IsAccepted Ck.code self.now.text.now self.now.hrp.now self.now.data_part.now)
            (λ e. IsChecksumRefusal Ck.code (length self.now.text.now)
            self.now.hrp.now self.now.data_part.now e) }
    {
        validate_lengths::<Ck>(self.text.len(), self.data_part.len())?;
        match validate_residue::<Ck>(&self.residue) {
            Ok(()) => Ok(()),
            Err(e) => Err(ChecksumError::InvalidResidue(e)),
        }
    }
}

impl<'s> Reading<'s, Bech32m> {
    /// This reading by Bech32, which has the same generator as Bech32m.
    #[inline]
    pub fn by_bech32(&self) -> Reading<'s, Bech32>
        ensures text { result.text.now ≡ self.now.text.now }
        ensures hrp { result.hrp.now ≡ self.now.hrp.now }
        ensures data_part { result.data_part.now ≡ self.now.data_part.now }
    {
        Reading {
            text: self.text,
            hrp: self.hrp,
            data_part: self.data_part,
            residue: self.residue,
        }
    }

    /// Tests the checksum as Bech32m and as Bech32: they differ in the target alone.
    ///
    /// # Errors
    ///
    /// That of Bech32m, where neither checksum accepts the text.
    #[inline]
    pub fn validate_either(&self) -> Result<(), ChecksumError>
        ensures { MatchResult result
            (λ _. IsAccepted bech32m self.now.text.now self.now.hrp.now self.now.data_part.now
            ⊎ IsAccepted bech32 self.now.text.now self.now.hrp.now self.now.data_part.now)
            (λ e. IsRefusedByBoth self.now.text.now e) }
    {
        validate_lengths::<Bech32m>(self.text.len(), self.data_part.len())?;
        if self.residue == Bech32::TARGET_RESIDUE {
            return Ok(());
        }
        match validate_residue::<Bech32m>(&self.residue) {
            Ok(()) => Ok(()),
            Err(e) => Err(ChecksumError::InvalidResidue(e)),
        }
    }

    // Tests the checksum of a witness version.
    fn validate_by(&self, version: Fe32) -> Result<(), ChecksumError>
        ensures { MatchResult result
            (λ _. IsAccepted (segwit_code version)
            self.now.text.now self.now.hrp.now self.now.data_part.now)
            (λ e. IsChecksumRefusal (segwit_code version) (length self.now.text.now)
            self.now.hrp.now self.now.data_part.now e) }
    {
        if version == VERSION_0 {
            self.by_bech32().validate()
        } else {
            self.validate()
        }
    }

    // Whether the checksum of a witness version accepts the text: Bech32 of version 0, Bech32m of
    // another (BIP-350).
    #[inline]
    fn is_accepted_by(&self, version: Fe32) -> bool
        ensures { IsTrue result ↔ IsAccepted (segwit_code version)
            self.now.text.now self.now.hrp.now self.now.data_part.now }
    {
        if version == VERSION_0 {
            self.by_bech32().is_accepted()
        } else {
            self.is_accepted()
        }
    }

    // Why the checksum of a witness version does not accept the text. Out of line: in line, the
    // remainder and the target would be moved where there is no refusal.
    #[cold]
    #[inline(never)]
    fn refusal_by(&self, version: Fe32) -> ChecksumError
        requires { IsAccepted (segwit_code version)
            self.now.text.now self.now.hrp.now self.now.data_part.now → ⊥ }
        ensures { IsChecksumRefusal (segwit_code version) (length self.now.text.now)
            self.now.hrp.now self.now.data_part.now result }
    {
        match self.validate_by(version) {
            Err(refusal) => refusal,
            Ok(()) => unreachable!(),
        }
    }

    // The witness version of a text that the checksum of this version accepts.
    #[inline(always)]
    fn accepted_version(&self) -> Result<Fe32, SegwitHrpstringError>
        ensures { let data_part = self.now.data_part.now in MatchResult result
            (λ v. IsVersioned (elements_of data_part) v (elements_of (drop 1 data_part))
            × IsAccepted (segwit_code v) self.now.text.now self.now.hrp.now data_part)
            (λ e. IsAddressRefusal segwit_code self.now.text.now e) }
    {
        let version = first_version(self.data_part)?;
        if !self.is_accepted_by(version) {
            return Err(SegwitHrpstringError::Checksum(self.refusal_by(version)));
        }
        Ok(version)
    }

    /// The version and the program of a segwit address: of version 0 by Bech32, of another version
    /// by Bech32m (BIP-350).
    ///
    /// # Errors
    ///
    /// The first of: no data part; a witness version above 16; the checksum; no data before the
    /// checksum; more than [`MAX_STRING_LENGTH`] characters; padding of more than four bits;
    /// padding that is not zero; a program of less than 2 bytes, of more than 40, or of neither 20
    /// nor 32 in version 0.
    #[inline]
    pub fn address(&self) -> Result<AddressData<'s>, SegwitHrpstringError>
        ensures { MatchResult result
            (λ a. IsReadIn segwit_code self.now.text.now self.now.hrp.now a.version a.program.now)
            (λ e. IsAddressRefusal segwit_code self.now.text.now e) }
    {
        let version = self.accepted_version()?;
        let characters = self.characters();
        validate_sizes(self.text.len(), characters)?;
        data_of_version(version, characters)
    }

    /// [`Self::address`] of a text of at most [`MAX_STRING_LENGTH`] characters, for those who have
    /// tested the length.
    ///
    /// # Errors
    ///
    /// Those of [`Self::address`], in the same order.
    #[inline(always)]
    pub fn short_address(&self) -> Result<AddressData<'s>, SegwitHrpstringError>
        requires { length self.now.text.now ≤ max_address_length }
        ensures { MatchResult result
            (λ a. IsReadIn segwit_code self.now.text.now self.now.hrp.now a.version a.program.now)
            (λ e. IsAddressRefusal segwit_code self.now.text.now e) }
    {
        let version = self.accepted_version()?;
        let characters = self.characters();
        if characters.is_empty() {
            return Err(SegwitHrpstringError::NoData);
        }
        data_of_version(version, characters)
    }
}
