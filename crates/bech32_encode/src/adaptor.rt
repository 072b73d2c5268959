//! What contracts say of an adaptor.

ghost use Rattle.std.specs.Prelude.{ℕ, List};
ghost use Rattle.std.specs.declared.iter.Fuse.{Fuse};
ghost use Rattle.bech32_gf.specs.declared.gf32.Fe32.{Fe32 as Element};

/// An iterator over one of elements. Contracts speak of it by these words; no code does.
pub trait Adaptor {
    type Source;

    type Given;

    // The iterator inside, and whether it has ended.
    ghost source: { Self → Fuse Self.Source };

    // The list that is given from here on, where the iterator inside goes on to give these
    // elements.
    ghost gives: { Self → List Element → List Self.Given };

    // How many items that list has beyond those of the iterator inside.
    ghost more: { Self → ℕ };
}
