//! Codex32 strings of either length in their parts.

ghost use Rattle.std.specs.Prelude.{◌≡◌, ◌+◌, true, length, take};
ghost use Rattle.bech32_gf.specs.Alphabet.{is_data};
ghost use Rattle.bech32_gf.specs.Fe32.{elements_of};
ghost use Rattle.std.specs.Prelude.{MatchResult};
ghost use Rattle.bech32_decode.specs.Refusals.{HasValidChecksum, IsChecksumRefusal};
ghost use Rattle.codex32.specs.Code.{code_of_length};
ghost use Rattle.codex32.specs.Header.{header_elements};
ghost use Rattle.codex32.specs.ShareParts.{HasTarget, payload_in};
ghost use Rattle.codex32.specs.Strings.{is_within_either};

use crate::checksum::Codex32;
use crate::error::{Codex32Error, PayloadError};
use crate::frame::data_part_of;
use crate::header::{Header, validate_header};
use crate::identifier::Identifier;
use crate::lengths::{Lengths, MAX_LENGTH};
use crate::long::LongCodex32;
use crate::threshold::Threshold;
use bech32::Fe32;
use bech32::primitives::decode::{ChecksumError, data_bytes_count};
use codex32_steady::shares::text::IndexedText;
use codex32_steady::texts::payload::put_payload_bytes;
use codex32_steady::texts::residue::validate_data_part;

/// A codex32 string of either length in its parts: of 48 to 93 characters with the checksum of 13,
/// or of 125 to 127 with that of 15 (BIP-93, codex32 and Long codex32 Strings): a share, or the
/// secret at the index `s`. It borrows the text.
///
/// The checksum was tested, and the header is lawful.
#[derive(Clone, Copy, Debug)]
pub struct Share<'s> {
    header: Header,
    payload: &'s str,
    data_part: &'s [u8],
    pub ghost of_alphabet: { is_data data_part.now ≡ true },
    pub ghost within: { is_within_either (3 + length data_part.now) ≡ true },
    pub ghost has_target: { HasTarget data_part.now },
    pub ghost header_is: { elements_of (take 6 data_part.now) ≡ header_elements header },
    pub ghost payload_is: { payload.now ≡ payload_in data_part.now },
}

// The number of characters of the checksum of a string of this many.
fn checksum_length(count: usize) -> usize
    ensures { result ≡ length (code_of_length count).generator }
{
    if count <= MAX_LENGTH { 13 } else { 15 }
}

// Tests the checksum of a text of this many characters: that of 13, or of a long one that of 15.
fn validate_checksum(count: usize, part: &[u8], data_part: &[u8]) -> Result<(), ChecksumError>
    requires { is_data data_part.now ≡ true }
    ensures { MatchResult result
        (λ _. HasValidChecksum (code_of_length count) count part.now data_part.now)
        (λ e. IsChecksumRefusal (code_of_length count) count part.now data_part.now e) }
{
    if count <= MAX_LENGTH {
        validate_data_part::<Codex32>(count, part, data_part)
    } else {
        validate_data_part::<LongCodex32>(count, part, data_part)
    }
}

impl<'s> Share<'s> {
    ghost use Rattle.std.specs.Prelude.{◌↔◌, ◌≤◌, ◌<◌, ◌++◌, drop, IfOk, IfErr, IsOk};
    ghost use Rattle.codex32.specs.Share.{IsEither, IsShareOf, IsShareRefusal, bytes_of_share, characters_of_share, header_of_share, identifier_of_share, index_of_share, payload_of_share, threshold_of_share};
    ghost use Rattle.codex32.specs.ShareParts.{bits_left_over};

    // A text in its parts, or its first fault.
    fn read(text: &'s str) -> Result<Self, Codex32Error>
        ensures { MatchResult result
            (λ s. IsShareOf text.now s)
            (λ e. IsShareRefusal text.now e) }
    {
        let data_part = data_part_of(Lengths::Either, text)?;
        validate_checksum(text.len(), &text.as_bytes()[..2], data_part)?;
        validate_header(data_part)?;
        Ok(Share {
            header: Header::of_data_part(data_part),
            payload: &text[9..text.len() - checksum_length(text.len())],
            data_part,
        })
    }

    /// Reads a codex32 string of either length. It allocates nothing.
    ///
    /// # Errors
    ///
    /// The first of: the text is not in the grammar; it has neither 48 to 93 characters nor 125 to
    /// 127; its human-readable part is not `ms` in either case; its checksum is wrong; its
    /// threshold is neither 0 nor a digit from 2 to 9; its threshold is 0 and its share index not
    /// `s`. Never [`Codex32Error::Memory`].
    pub fn parse(text: &'s str) -> Result<Self, Codex32Error>
        ensures parts { IfOk result (λ s. IsShareOf text.now s) }
        ensures accepts { IsOk result ↔ IsEither text.now }
        ensures refused { IfErr result (λ e. IsShareRefusal text.now e) }
    {
        Self::read(text)
    }

    /// What stands before the payload.
    pub fn header(&self) -> Header
        ensures { result ≡ header_of_share self.now }
    {
        self.header
    }

    /// How many shares give the secret: 2 to 9, or 0 for the secret itself.
    pub fn threshold(&self) -> Threshold
        ensures { result ≡ threshold_of_share self.now }
    {
        self.header.threshold()
    }

    /// What names the secret, the same in all its shares.
    pub fn identifier(&self) -> Identifier
        ensures { result ≡ identifier_of_share self.now }
    {
        self.header.identifier()
    }

    /// Which share it is; `s` is the secret.
    pub fn share_index(&self) -> Fe32
        ensures { result ≡ index_of_share self.now }
    {
        self.header.share_index()
    }

    /// The characters between the share index and the checksum, in the case of the text.
    pub fn payload(&self) -> &'s str
        ensures { result.now ≡ payload_of_share self.now }
    {
        self.payload
    }

    /// How many bytes the payload has: the bits of its elements in groups of eight, with at most
    /// four left over, whatever they are (BIP-93, Unshared Secret).
    ///
    /// # Errors
    ///
    /// [`PayloadError::LeftOver`] where more than four bits are left over.
    pub fn byte_count(&self) -> Result<usize, PayloadError>
        ensures { MatchResult result
            (λ n. (n ≡ length (bytes_of_share self.now))
            × (bits_left_over (length (payload_of_share self.now)) ≤ 4))
            (λ e. 4 < bits_left_over (length (payload_of_share self.now))) }
    {
        if self.payload.len() * 5 % 8 > 4 {
            return Err(PayloadError::LeftOver);
        }
        Ok(data_bytes_count(self.payload.as_bytes()))
    }

    /// Puts the bytes of the payload at the front of a buffer that has room for them, and returns
    /// how many they are. What is left over is left out.
    pub fn put_bytes(&self, buffer: &mut [u8]) -> usize
        requires { length (bytes_of_share self.now) ≤ length buffer.old }
        ensures count { result ≡ length (bytes_of_share self.now) }
        ensures buffer { buffer.new ≡ bytes_of_share self.now ++ drop result buffer.old }
    {
        put_payload_bytes(self.payload.as_bytes(), buffer)
    }

    // How many characters stand behind the separator.
    pub(crate) fn size(&self) -> usize
        ensures { result ≡ length (characters_of_share self.now) }
    {
        self.data_part.len()
    }
}

impl<'s> IndexedText for Share<'s> {
    ghost use Rattle.codex32.specs.Share.{characters_of_share as characters, index_of_share as index};

    ghost index_of = { index };

    ghost characters_of = { characters };

    fn index(&self) -> Fe32 {
        self.header.share_index()
    }

    fn characters(&self) -> &[u8] {
        self.data_part
    }
}
