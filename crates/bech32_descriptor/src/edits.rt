//! What is done to a text, and where.

/// What is done to a text at a place.
#[derive(Clone, Copy, Debug, PartialEq, Eq, Drop)]
pub enum Change {
    /// The character at the place is changed to this one.
    Changed(u8),
    /// The characters at the place and behind it are swapped.
    Swapped,
    /// The character at the place is left out.
    LeftOut,
    /// This character is put in, and then stands at the place.
    PutIn(u8),
}

/// What is done to a text, and where.
#[derive(Clone, Copy, Debug, PartialEq, Eq, Drop)]
pub struct Edit {
    /// How many characters stand before: of two that are swapped, before both.
    pub place: usize,
    /// What is done there.
    pub change: Change,
}

/// Two edits, at two places.
#[derive(Clone, Copy, Debug, PartialEq, Eq, Drop)]
pub struct TwoEdits {
    /// The one nearer to the front.
    pub first: Edit,
    /// The other one.
    pub second: Edit,
}

/// An edit, and the text that it makes.
#[derive(Drop)]
pub struct Mended<T> {
    /// The edit.
    pub edit: Edit,
    /// The text.
    pub text: T,
}

/// Two edits, and the text that they make.
#[derive(Drop)]
pub struct MendedTwice<T> {
    /// The edits.
    pub edits: TwoEdits,
    /// The text.
    pub text: T,
}
