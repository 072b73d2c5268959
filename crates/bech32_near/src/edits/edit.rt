//! What is done to a text, and where.

use bech32_gf::gf32::Fe32;

/// What is done to the data part of a text.
#[derive(Clone, Copy, Debug, PartialEq, Eq, Drop)]
pub enum Change {
    /// Two neighbours are swapped: that at the location above, and that at the location.
    Swapped(Fe32, Fe32),
    /// The character at the location is left out.
    LeftOut(Fe32),
    /// A character is put in, and then stands at the location.
    PutIn(Fe32),
}

/// What is done to a text, and where.
#[derive(Clone, Copy, Debug, PartialEq, Eq, Drop)]
pub struct Edit {
    /// How many characters stand behind: of two that are swapped, behind both.
    pub location: usize,
    /// What is done there.
    pub change: Change,
}

/// An edit, and the text that it makes.
#[derive(Drop)]
pub struct NearEdit<S> {
    /// The edit.
    pub edit: Edit,
    /// The text, in lower case.
    pub text: S,
}
