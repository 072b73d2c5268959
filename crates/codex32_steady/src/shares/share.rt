//! The share of an index, from shares, with the weights in place.

ghost use Rattle.std.specs.Prelude.{◌≡◌, ◌≤◌, length, map};
ghost use Rattle.bech32_gf.specs.Fe32 as fe32;
ghost use Rattle.bech32_gf.specs.Fe32.{elements_of};
ghost use Rattle.codex32_steady.specs.shares.Shares.{AreShares, IsDerived};

use crate::shares::derive::derive;
use crate::shares::text::IndexedText;
use crate::shares::weights::weights;
use bech32_gf::gf32::Fe32;

// Writes the indices of texts.
fn put_indices<T: IndexedText>(indices: &mut [Fe32], texts: &[T])
    requires { length indices.old ≡ length texts.now }
    ensures { indices.new ≡ map T.index_of texts.now }
{
    for i in 0..texts.len() {
        indices[i] = texts[i].index();
    }
}

/// Writes the elements of the text of the index x, which is what BIP-93 derives from shares.
pub fn share_at<T: IndexedText>(target: &mut [Fe32], shares: &[T], x: Fe32)
    requires few { length shares.now ≤ 9 }
    requires shares { AreShares (map T.index_of shares.now)
        (map (λ t. elements_of (T.characters_of t)) shares.now) (length target.old) }
    ensures { IsDerived fe32.ops (map T.index_of shares.now)
        (map (λ t. elements_of (T.characters_of t)) shares.now) (length target.old) x target.new }
{
    let (mut indices, mut room) = ([Fe32::Q; 9], [Fe32::Q; 9]);
    let places = &mut indices[..shares.len()];
    put_indices(places, shares);
    let weights_at_x = &mut room[..shares.len()];
    weights(weights_at_x, places, x);
    derive(target, weights_at_x, shares);
}
