//! What is found in the tables of a checksum.

/// What a checksum looks up for an error residue.
#[derive(Clone, Copy, Debug, PartialEq, Eq, Drop)]
pub enum Lookup<T> {
    /// The checksum has no table, or none for this residue. Correctors then search.
    NoTable,
    /// A table shows that nothing leaves the residue.
    Absent,
    /// This leaves the residue.
    Found(T),
}
