//! Elements displayed as Rust code.

ghost use Rattle.std.specs.Prelude.{Some};

use bech32_gf::field::Bech32Field;
use std::fmt;

/// Displays the Rust code of an element.
#[derive(Drop)]
pub struct Code<E>(pub E);

impl<E: Bech32Field> fmt::Display for Code<E> {
    ghost output = { λ x. Some (E.rust_code x.0) };

    fn fmt<W: fmt::Write>(&self, f: &mut fmt::Formatter<W>) -> fmt::Result {
        self.0.format_as_rust_code(f)
    }
}
