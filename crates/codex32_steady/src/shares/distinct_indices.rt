//! Whether each share stands at an index of its own.

ghost use Rattle.std.specs.Prelude.{◌≡◌, ◌≤◌, ◌<◌, ◌↔◌, length, map, drop, IsTrue};
ghost use Rattle.bech32_gf.specs.declared.gf32.Fe32.{Fe32 as Element};
ghost use Rattle.bech32_poly.specs.Distinct.{IsNotAmong, IsOnce};

use crate::shares::text::IndexedText;
use bech32_gf::gf32::Fe32;

// Whether none of the texts stands at an index.
fn is_free<T: IndexedText>(texts: &[T], index: Fe32) -> bool
    ensures { IsTrue result ↔ IsNotAmong index (map T.index_of texts.now) }
{
    let mut i = texts.len();
    while i > 0 {
        i -= 1;
        if texts[i].index() == index {
            return false;
        }
    }
    true
}

/// Whether the indices of texts all differ.
pub fn are_indices_distinct<T: IndexedText>(texts: &[T]) -> bool
    ensures { IsTrue result ↔ IsOnce (map T.index_of texts.now) }
{
    let mut i = texts.len();
    while i > 0 {
        i -= 1;
        if !is_free(&texts[i + 1..], texts[i].index()) {
            return false;
        }
    }
    true
}
