//! The text of an index, from shares.

ghost use Rattle.std.specs.Prelude.{◌≡◌, ◌≤◌, ◌<◌, ◌+◌, ◌-◌, true, length, map, List};
ghost use Rattle.std.specs.List.{AllByRecursion};
ghost use Rattle.bech32_gf.specs.Alphabet.{is_data};
ghost use Rattle.bech32_gf.specs.Fe32 as fe32;
ghost use Rattle.bech32_gf.specs.Fe32.{elements_of};
ghost use Rattle.bech32_gf.specs.declared.gf32.Fe32.{Fe32 as Element};
ghost use Rattle.bech32_poly.specs.Division.{zeros};
ghost use Rattle.bech32_poly.specs.Polynomial.{add, scale};
ghost use Rattle.codex32_steady.specs.shares.Points.{AreWeights};
ghost use Rattle.codex32_steady.specs.shares.Shares.{combined, AreShares, IsDerived};

use crate::multiple_of_character;
use crate::shares::text::IndexedText;
use bech32_gf::gf32::Fe32;
use bech32_poly::arithmetic::Arithmetic;

// Makes all elements zero.
fn clear<F: Arithmetic>(target: &mut [F])
    ensures { target.new ≡ zeros F.ops (length target.old) }
{
    for i in 0..target.len() {
        target[i] = F::zero();
    }
}

// Adds a multiple of the elements of characters.
fn add_multiple(target: &mut [Fe32], factor: Fe32, characters: &[u8])
    requires size { length characters.now ≡ length target.old }
    requires of_alphabet { is_data characters.now ≡ true }
    ensures { target.new
        ≡ add fe32.ops target.old (scale fe32.ops factor (elements_of characters.now)) }
{
    for i in 0..characters.len() {
        target[i] = target[i].plus(multiple_of_character(factor, characters[i]));
    }
}

/// Writes the sum of weight times text: where the weights are those of the texts' indices at x, the
/// text of the index x.
pub fn derive<T: IndexedText>(target: &mut [Fe32], weights: &[Fe32], texts: &[T])
    requires count { length weights.now ≡ length texts.now }
    requires alike { AllByRecursion (λ t. length t ≡ length target.old)
        (map (λ t. elements_of (T.characters_of t)) texts.now) }
    ensures sum { target.new ≡ combined fe32.ops (length target.old) weights.now
        (map (λ t. elements_of (T.characters_of t)) texts.now) }
    ensures derived { (indices : List Element) (x : Element)
        → AreShares indices (map (λ t. elements_of (T.characters_of t)) texts.now)
        (length target.old) → AreWeights fe32.ops indices x weights.now
        → IsDerived fe32.ops indices (map (λ t. elements_of (T.characters_of t)) texts.now)
        (length target.old) x target.new }
{
    clear(target);
    let mut i = weights.len();
    while i > 0 {
        i -= 1;
        add_multiple(target, weights[i], texts[i].characters());
    }
}
