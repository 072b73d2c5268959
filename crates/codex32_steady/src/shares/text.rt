//! Texts at indices.

ghost use Rattle.std.specs.Prelude.{◌≡◌, ℕ, true, List};
ghost use Rattle.bech32_gf.specs.Alphabet.{is_data};
ghost use Rattle.bech32_gf.specs.declared.gf32.Fe32.{Fe32 as Element};

use bech32_gf::gf32::Fe32;

/// Characters of the alphabet at an index, which is an element: what polynomials through shares see
/// of a share.
pub trait IndexedText {
    ghost index_of: { Self → Element };

    ghost characters_of: { Self → List ℕ };

    /// Where the text stands.
    fn index(&self) -> Fe32
        ensures { result ≡ index_of self.now };

    /// Its characters, in either case.
    fn characters(&self) -> &[u8]
        ensures value { result.now ≡ characters_of self.now }
        ensures of_alphabet { is_data (characters_of self.now) ≡ true };
}
