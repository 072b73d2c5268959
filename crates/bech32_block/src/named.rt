//! The names of the fields.

ghost use Rattle.std.specs.Prelude.{◌≡◌, ℕ, List, codes};

use bech32_gf::field::Bech32Field;
use bech32_gf::gf32::Fe32;
use bech32_gf_ext::{Fe1024, Fe32768};

/// A field whose name contracts know: each that checksums are corrected over.
pub trait NamedField: Bech32Field {
    // The name of the type.
    ghost field_name: { List ℕ };

    /// The name of the type: [`NAME`](Bech32Field::NAME).
    fn field_name() -> &'static str
        ensures { result.now ≡ field_name };
}

impl NamedField for Fe32 {
    ghost field_name = { codes "Fe32" };

    fn field_name() -> &'static str {
        Fe32::NAME
    }
}

impl NamedField for Fe1024 {
    ghost field_name = { codes "Fe1024" };

    fn field_name() -> &'static str {
        Fe1024::NAME
    }
}

impl NamedField for Fe32768 {
    ghost field_name = { codes "Fe32768" };

    fn field_name() -> &'static str {
        Fe32768::NAME
    }
}
