//! How many characters codex32 strings have.

ghost use Rattle.std.specs.Prelude.{◌≡◌};
ghost use Rattle.codex32.specs.Lengths.{may_have};

/// The fewest characters of a string (BIP-93, codex32).
pub const MIN_LENGTH: usize = 48;

/// The most characters of a string (BIP-93, codex32).
pub const MAX_LENGTH: usize = 93;

/// The fewest characters of a long string (BIP-93, Long codex32 Strings).
pub const MIN_LONG_LENGTH: usize = 125;

/// The most characters of a long string (BIP-93, Long codex32 Strings).
pub const MAX_LONG_LENGTH: usize = 127;

/// Which strings are meant.
#[derive(Clone, Copy)]
pub enum Lengths {
    /// Those with the checksum of 13 characters.
    Short,
    /// Those with the checksum of 15 characters.
    Long,
    /// Both.
    Either,
}

impl Lengths {
    /// Whether a text may have this many characters.
    pub fn allows(self, count: usize) -> bool
        ensures { result ≡ may_have self count }
    {
        let short = MIN_LENGTH <= count && count <= MAX_LENGTH;
        let long = MIN_LONG_LENGTH <= count && count <= MAX_LONG_LENGTH;
        match self {
            Lengths::Short => short,
            Lengths::Long => long,
            Lengths::Either => short || long,
        }
    }
}
