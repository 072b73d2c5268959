//! Strings of a set, as they are kept.

ghost use Rattle.std.specs.Prelude.{◌≡◌, ◌+◌, true, length, take};
ghost use Rattle.bech32_gf.specs.Alphabet.{is_data};
ghost use Rattle.bech32_gf.specs.Fe32.{elements_of};
ghost use Rattle.codex32.specs.Header.{header_elements};
ghost use Rattle.codex32.specs.ShareParts.{HasTarget};
ghost use Rattle.codex32.specs.Strings.{is_within_either};

use bech32_gf::gf32::Fe32;
use codex32::Header;
use codex32_steady::shares::text::IndexedText;

/// A string of a set: the characters of its data part, and its header.
#[derive(Clone, Copy)]
pub(crate) struct Part<'t> {
    pub(crate) header: Header,
    pub(crate) characters: &'t [u8],
    pub ghost of_alphabet: { is_data characters.now ≡ true },
    pub ghost within: { is_within_either (3 + length characters.now) ≡ true },
    pub ghost has_target: { HasTarget characters.now },
    pub ghost header_is: { elements_of (take 6 characters.now) ≡ header_elements header },
}

impl<'t> IndexedText for Part<'t> {
    ghost use Rattle.codex32.specs.Share.{characters_of_share, index_of_share};
    ghost use Rattle.codex32_small.specs.Parts.{share_of_part};

    ghost index_of = { λ p. index_of_share (share_of_part p) };

    ghost characters_of = { λ p. characters_of_share (share_of_part p) };

    fn index(&self) -> Fe32 {
        self.header.share_index()
    }

    fn characters(&self) -> &[u8] {
        self.characters
    }
}
