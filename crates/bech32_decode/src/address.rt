//! A text that is a segwit address.

ghost use Rattle.std.specs.Prelude.{◌≡◌, ◌↔◌, ◌≤◌, ◌⊎◌, ◌++◌, codes, true, length, drop, MatchResult, IfOk, IfErr, IsOk, IsTrue};
ghost use Rattle.bech32_checksum.specs.Code.{bech32};
ghost use Rattle.bech32_hrp.specs.HrpBytes.{lowered_bytes};
ghost use Rattle.bech32_gf.specs.Alphabet.{is_data};
ghost use Rattle.bech32_decode.specs.Readers.{bytes_to_come};

use crate::byte_reader::ByteIter;
use crate::data_bytes::put_data_bytes;
use crate::reading::Reading;
use crate::unchecked::UncheckedHrpstring;
use crate::version::first_version;
use bech32_checksum::{Bech32, Bech32m, Checksum};
use bech32_gf::gf32::Fe32;
use bech32_hrp::Hrp;
use bech32_refusals::SegwitHrpstringError;
use bech32_refusals::segwit::MAX_STRING_LENGTH;

/// A segwit address in its parts: the human-readable part, the witness version, and the data part
/// without version and checksum. It borrows the text.
#[derive(Clone, Copy, Debug)]
pub struct SegwitHrpstring<'s> {
    pub(crate) hrp: Hrp,
    pub(crate) witness_version: Fe32,
    pub(crate) ascii: &'s [u8],
    pub ghost of_alphabet: { is_data ascii.now ≡ true },
}

impl<'s> SegwitHrpstring<'s> {
    ghost use Rattle.bech32_decode.specs.Parts.{address_hrp, address_part, address_version, address_data, address_program};
    ghost use Rattle.bech32_decode.specs.Segwit.{segwit_code, IsAddress, IsAddressText, IsAddressRefusal, IsSegwitRefusal};
    ghost use Rattle.bech32_decode.specs.SegwitParts.{IsReadAddress, IsReadBy, IsRefusedBy, IsWrongDataOf};

    // Tests the checksum, and what stands before it.
    fn of_unchecked<Ck: Checksum>(
        unchecked: UncheckedHrpstring<'s>,
    ) -> Result<Self, SegwitHrpstringError>
        ensures { MatchResult result
            (λ a. IsReadBy Ck.code unchecked.entry a)
            (λ e. IsRefusedBy Ck.code unchecked.entry e ⊎ IsWrongDataOf Ck.code unchecked.entry e) }
    {
        let checked = unchecked.validate_and_remove_checksum::<Ck>()?;
        checked.validate_segwit()
    }

    // What `new` returns.
    fn read(s: &'s str) -> Result<Self, SegwitHrpstringError>
        ensures { MatchResult result
            (λ a. IsReadAddress segwit_code s.now a)
            (λ e. IsSegwitRefusal s.now e) }
    {
        if s.len() > MAX_STRING_LENGTH {
            return Err(SegwitHrpstringError::TooLong(s.len()));
        }
        let reading = Reading::<Bech32m>::new(s)?;
        let found = reading.short_address()?;
        Ok(SegwitHrpstring {
            hrp: Hrp::of_bytes(reading.hrp),
            witness_version: found.version,
            ascii: found.program,
        })
    }

    /// Reads a segwit address: of version 0 by Bech32, of another version by Bech32m (BIP-350).
    ///
    /// The human-readable part may be any: [`Self::has_valid_hrp`] tests it.
    ///
    /// # Errors
    ///
    /// The first of: more than [`MAX_STRING_LENGTH`] characters; the text is not in the grammar (as
    /// [`UncheckedHrpstring::new`]); no data part; a witness version above 16; its checksum (as
    /// [`UncheckedHrpstring::validate_checksum`]); no data before the checksum; padding of more
    /// than four bits; padding that is not zero; a program of less than 2 bytes, of more than 40,
    /// or of neither 20 nor 32 in version 0.
    pub fn new(s: &'s str) -> Result<Self, SegwitHrpstringError>
        ensures parts { IfOk result (λ a. IsReadAddress segwit_code s.now a) }
        ensures address { IfOk result
            (λ a. IsAddress (address_part a) (address_version a) (address_program a) s.now) }
        ensures accepts { IsOk result ↔ IsAddressText s.now }
        ensures refused { IfErr result (λ e. IsSegwitRefusal s.now e) }
    {
        Self::read(s)
    }

    /// Reads a text as an address of the time before BIP-350: of each witness version by Bech32.
    ///
    /// # Errors
    ///
    /// The first of: the text is not in the grammar; no data part; a witness version above 16; the
    /// checksum; no data before the checksum; more than [`MAX_STRING_LENGTH`] characters; padding
    /// of more than four bits; padding that is not zero; a program of less than 2 bytes, of more
    /// than 40, or of neither 20 nor 32 in version 0.
    pub fn new_bech32(s: &'s str) -> Result<Self, SegwitHrpstringError>
        ensures { MatchResult result
            (λ a. IsReadAddress (λ _. bech32) s.now a)
            (λ e. IsAddressRefusal (λ _. bech32) s.now e) }
    {
        let unchecked = UncheckedHrpstring::new(s)?;
        first_version(unchecked.data_part_ascii())?;
        Self::of_unchecked::<Bech32>(unchecked)
    }

    /// Whether the human-readable part is `bc` or `tb`, in either case, as BIP-173 asks of segwit
    /// addresses.
    pub fn has_valid_hrp(&self) -> bool
        ensures { let part = lowered_bytes (address_hrp self.now) in
            IsTrue result ↔ ((part ≡ codes "bc") ⊎ (part ≡ codes "tb")) }
    {
        self.hrp().is_valid_segwit()
    }

    /// The human-readable part, in the case of the text.
    #[inline]
    pub fn hrp(&self) -> Hrp
        ensures { result ≡ address_hrp self.now }
    {
        self.hrp
    }

    /// The witness version.
    #[inline]
    pub fn witness_version(&self) -> Fe32
        ensures { result ≡ address_version self.now }
    {
        self.witness_version
    }

    /// The characters of the data part between the witness version and the checksum: all of the
    /// alphabet, in the case of the text.
    #[inline]
    pub fn data_part_ascii_no_witver_no_checksum(&self) -> &'s [u8]
        ensures value { result.now ≡ address_data self.now }
        ensures of_alphabet { is_data result.now ≡ true }
    {
        self.ascii
    }

    /// The bytes of the program, in turn.
    #[inline]
    pub fn byte_iter(&self) -> ByteIter<'s>
        ensures { bytes_to_come result ≡ address_program self.now }
    {
        ByteIter::new(self.ascii)
    }

    /// Puts the bytes of the program, those of [`Self::byte_iter`], at the front of a buffer that
    /// has room for them, and returns how many they are.
    #[inline]
    pub fn put_program(&self, buffer: &mut [u8]) -> usize
        requires { length (address_program self.now) ≤ length buffer.old }
        ensures count { result ≡ length (address_program self.now) }
        ensures buffer { buffer.new ≡ address_program self.now ++ drop result buffer.old }
    {
        put_data_bytes(self.ascii, buffer)
    }
}
