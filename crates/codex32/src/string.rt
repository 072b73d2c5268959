//! Codex32 strings in their parts.

ghost use Rattle.std.specs.Prelude.{◌≡◌, ◌↔◌, ◌≤◌, ◌-◌, length, take, drop, slice_index, IfOk, IfErr, IsOk};
ghost use Rattle.std.specs.Str.{IsAscii};
ghost use Rattle.codex32.specs.Strings.{IsCodex32, IsStringRefusal};
ghost use Rattle.codex32.specs.Code.{min_length};

use crate::frame::data_part_of;
use crate::lengths::Lengths;
use crate::{Codex32, Codex32Error, validate_header};
use codex32_steady::texts::residue::validate_data_part;

/// A codex32 string in its parts, in the case of the text, which it borrows (BIP-93, codex32): the
/// human-readable part `ms`, 48 to 93 characters, and the checksum of 13 characters.
#[derive(Clone, Copy, Debug)]
pub struct Codex32Str<'s> {
    threshold: char,
    identifier: &'s str,
    share_index: char,
    payload: &'s str,
}

impl<'s> Codex32Str<'s> {
    ghost use Rattle.codex32.specs.Parts.{IsStringOf, threshold_of, identifier_of, share_index_of, payload_of};

    // The parts of a text with two characters before its separator.
    fn cut(text: &'s str) -> Self
        requires ascii { IsAscii text.now }
        requires long { min_length ≤ length text.now }
        ensures threshold { threshold_of result ≡ slice_index text.now 3 }
        ensures identifier { identifier_of result ≡ take 4 (drop 4 text.now) }
        ensures share_index { share_index_of result ≡ slice_index text.now 8 }
        ensures payload { payload_of result ≡ take (length text.now - 22) (drop 9 text.now) }
    {
        let bytes = text.as_bytes();
        Codex32Str {
            threshold: char::from(bytes[3]),
            identifier: &text[4..8],
            share_index: char::from(bytes[8]),
            payload: &text[9..text.len() - 13],
        }
    }

    /// Reads a codex32 string. It allocates nothing.
    ///
    /// # Errors
    ///
    /// The first of: the text is not in the grammar; it has less than 48 characters or more than
    /// 93; its human-readable part is not `ms` in either case; its checksum is wrong; its threshold
    /// is neither 0 nor a digit from 2 to 9; its threshold is 0 and its share index not `s`.
    pub fn parse(text: &'s str) -> Result<Self, Codex32Error>
        ensures parts { IfOk result (λ s. IsStringOf text.now s) }
        ensures accepts { IsOk result ↔ IsCodex32 text.now }
        ensures refused { IfErr result (λ e. IsStringRefusal text.now e) }
    {
        let data_part = data_part_of(Lengths::Short, text)?;
        validate_data_part::<Codex32>(text.len(), &text.as_bytes()[..2], data_part)?;
        validate_header(data_part)?;
        Ok(Self::cut(text))
    }

    /// How many shares give the secret: 2 to 9, or 0 for the secret itself.
    pub fn threshold(&self) -> char
        ensures { result ≡ threshold_of self.now }
    {
        self.threshold
    }

    /// The four characters that name the secret, the same in all its shares.
    pub fn identifier(&self) -> &'s str
        ensures { result.now ≡ identifier_of self.now }
    {
        self.identifier
    }

    /// Which share it is; `s` is the secret.
    pub fn share_index(&self) -> char
        ensures { result ≡ share_index_of self.now }
    {
        self.share_index
    }

    /// The characters between the share index and the checksum.
    pub fn payload(&self) -> &'s str
        ensures { result.now ≡ payload_of self.now }
    {
        self.payload
    }
}
