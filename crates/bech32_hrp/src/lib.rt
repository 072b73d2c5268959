//! Human-readable parts: what stands before the separator of a text.
//!
//! Below it: no crate of this repository.
//! Standard: BIP-173, Bech32.
#![tactic(auto)]

ghost use Rattle.std.specs.Prelude.{◌≡◌, ℕ, ◌+◌, ◌-◌, ◌≤◌, ◌<◌, ◌++◌, [], ◌∷◌, true, false, ◌&&◌, ◌||◌, ◌↔◌, ◌⊎◌};
ghost use Rattle.std.specs.Prelude.{List, length, take, replicate, map, string_bytes, codes};
ghost use Rattle.std.specs.Prelude.{IsTrue, IsOk, IfOk, MatchResult};
ghost use Rattle.std.specs.Prelude.{Option, Some, None};
ghost use Rattle.std.specs.List.{list_all};
ghost use Rattle.std.specs.Str.{chars};
ghost use Rattle.bech32_hrp.specs.Hrp.{is_graphic, is_lower, is_upper, padded, first_bad, IsHrp, graphic_or_x};

mod cases;
mod iter;
mod lowercase;
mod sink;

pub use cases::{Cases, cases_of, is_part};
pub use iter::{ByteIter, CharIter};
pub use lowercase::{LowercaseByteIter, LowercaseCharIter};
pub use sink::HrpSink;
use std::alloc::{AllocError, Allocator, Global};
use std::cmp::Ordering;
use std::fmt;
use std::hash::{Hash, Hasher};

/// The most bytes that a human-readable part has (BIP-173, Bech32).
const MAX_HRP_LEN: usize = 83;

/// Why a text is not a human-readable part.
#[derive(Clone, Copy, PartialEq, Eq, Debug, Drop, thiserror::Error)]
pub enum Error {
    /// The text has more than 83 bytes: how many.
    #[error("hrp is too long, found {0} characters, must be <= 83")]
    TooLong(usize),
    /// The text is empty.
    #[error("hrp is empty, must have at least 1 character")]
    Empty,
    /// The text has this character, which is not ASCII.
    #[error("found non-ASCII character: {0}")]
    NonAsciiChar(char),
    /// The text has this byte, which is ASCII and not from 33 to 126.
    #[error("byte value is not valid US-ASCII: \'{0:x}\'")]
    InvalidAsciiByte(u8),
    /// The text has a lower-case letter and an upper-case one.
    #[error("hrp cannot mix upper and lower case")]
    MixedCase,
    /// The value that was to print the text did not print.
    #[error("formatting failed")]
    Fmt,
}

/// A human-readable part: at most 83 bytes from 33 to 126, in the case that they were parsed in.
///
/// Two of them are equal where they differ in case alone: equality, order and hash go by the
/// lower-cased bytes.
#[derive(Clone, Copy, Debug)]
pub struct Hrp {
    // The bytes, and zeros behind them.
    buf: [u8; MAX_HRP_LEN],
    // The number of bytes.
    size: usize,
    pub ghost size_fits: { size ≤ 83 },
    pub ghost zeros_behind: { buf ≡ padded (take size buf) },
    pub ghost all_graphic: { list_all is_graphic (take size buf) ≡ true },
}

/// The human-readable part of the Bitcoin network: `bc`.
pub const BC: Hrp = Hrp {
    buf: [
        98, 99, 0, 0, 0, 0, 0, 0, 0, 0, 0, 0, 0, 0, 0, 0, 0, 0, 0, 0, 0, 0, 0, 0, 0, 0, 0, 0, 0, 0,
        0, 0, 0, 0, 0, 0, 0, 0, 0, 0, 0, 0, 0, 0, 0, 0, 0, 0, 0, 0, 0, 0, 0, 0, 0, 0, 0, 0, 0, 0,
        0, 0, 0, 0, 0, 0, 0, 0, 0, 0, 0, 0, 0, 0, 0, 0, 0, 0, 0, 0, 0, 0, 0,
    ],
    size: 2,
};

/// The human-readable part of the Bitcoin test networks: `tb`.
pub const TB: Hrp = Hrp {
    buf: [
        116, 98, 0, 0, 0, 0, 0, 0, 0, 0, 0, 0, 0, 0, 0, 0, 0, 0, 0, 0, 0, 0, 0, 0, 0, 0, 0, 0, 0,
        0, 0, 0, 0, 0, 0, 0, 0, 0, 0, 0, 0, 0, 0, 0, 0, 0, 0, 0, 0, 0, 0, 0, 0, 0, 0, 0, 0, 0, 0,
        0, 0, 0, 0, 0, 0, 0, 0, 0, 0, 0, 0, 0, 0, 0, 0, 0, 0, 0, 0, 0, 0, 0, 0,
    ],
    size: 2,
};

/// The human-readable part of the Bitcoin regtest network: `bcrt`.
pub const BCRT: Hrp = Hrp {
    buf: [
        98, 99, 114, 116, 0, 0, 0, 0, 0, 0, 0, 0, 0, 0, 0, 0, 0, 0, 0, 0, 0, 0, 0, 0, 0, 0, 0, 0,
        0, 0, 0, 0, 0, 0, 0, 0, 0, 0, 0, 0, 0, 0, 0, 0, 0, 0, 0, 0, 0, 0, 0, 0, 0, 0, 0, 0, 0, 0,
        0, 0, 0, 0, 0, 0, 0, 0, 0, 0, 0, 0, 0, 0, 0, 0, 0, 0, 0, 0, 0, 0, 0, 0, 0,
    ],
    size: 4,
};

/// Whether the byte may stand in a human-readable part (BIP-173, Bech32).
#[inline]
fn is_graphic_byte(b: u8) -> bool
    ensures { result ≡ is_graphic b }
{
    (33..=126).contains(&b)
}

/// Whether the byte is a letter of the other case than one before it.
fn is_of_other_case(b: u8, has_lower: bool, has_upper: bool) -> bool
    ensures { result ≡ ((is_lower b && has_upper) || (is_upper b && has_lower)) }
{
    b.is_ascii_lowercase() && has_upper || b.is_ascii_uppercase() && has_lower
}

/// Looks for the first bad character.
fn check(text: &str) -> Result<(), Error>
    ensures { MatchResult result
        (λ _. (first_bad [] (chars text.now) ≡ None) × (list_all is_graphic text.now ≡ true))
        (λ e. first_bad [] (chars text.now) ≡ Some e) }
{
    let mut has_lower = false;
    let mut has_upper = false;
    'characters: for c in text.chars() {
        if !c.is_ascii() {
            return Err(Error::NonAsciiChar(c));
        }
        let b = c as u8;
        if !is_graphic_byte(b) {
            return Err(Error::InvalidAsciiByte(b));
        }
        if is_of_other_case(b, has_lower, has_upper) {
            return Err(Error::MixedCase);
        }
        has_lower |= b.is_ascii_lowercase();
        has_upper |= b.is_ascii_uppercase();
    }
    Ok(())
}

/// The bytes with zeros behind them.
fn pad(bytes: &[u8]) -> [u8; MAX_HRP_LEN]
    requires { length bytes.now ≤ 83 }
    ensures { result ≡ padded bytes.now }
{
    let mut buf = [0; 83];
    buf[..bytes.len()].copy_from_slice(bytes);
    buf
}

/// The byte, or `X` where it may not stand in a human-readable part.
fn graphic_or_x(b: u8) -> u8
    ensures { result ≡ graphic_or_x b }
{
    if is_graphic_byte(b) { b } else { b'X' }
}

/// Puts `X` for each byte that may not stand in a human-readable part.
fn put_x(bytes: &mut [u8])
    ensures { bytes.new ≡ map graphic_or_x bytes.old }
{
    for b in bytes.iter_mut() {
        *b = graphic_or_x(*b);
    }
}

impl Hrp {
    ghost use Rattle.bech32_hrp.specs.HrpBytes.{hrp_bytes, lowered_bytes, IsParsed};

    /// What `parse` returns.
    fn read(text: &str) -> Result<Hrp, Error>
        ensures { IsParsed text.now result }
    {
        if text.is_empty() {
            return Err(Error::Empty);
        }
        if text.len() > MAX_HRP_LEN {
            return Err(Error::TooLong(text.len()));
        }
        check(text)?;
        Ok(Hrp {
            buf: pad(text.as_bytes()),
            size: text.len(),
        })
    }

    /// Reads a human-readable part: 1 to 83 bytes from 33 to 126, without letters of both cases
    /// (BIP-173, Bech32).
    ///
    /// # Errors
    ///
    /// The first of these that applies: `Empty`; `TooLong`; then at the first bad character from
    /// the front `NonAsciiChar`, `InvalidAsciiByte` or, for a letter whose case differs from that
    /// of a letter before it, `MixedCase`.
    pub fn parse(text: &str) -> Result<Hrp, Error>
        ensures outcome { IsParsed text.now result }
        ensures accepts { IsOk result ↔ IsHrp text.now }
    {
        Self::read(text)
    }

    /// The part of bytes that are known to be one: what [`Hrp::parse`] reads of them.
    #[inline]
    pub fn of_bytes(part: &[u8]) -> Hrp
        requires { IsHrp part.now }
        ensures { hrp_bytes result ≡ part.now }
    {
        Hrp {
            buf: pad(part),
            size: part.len(),
        }
    }

    /// The part of the bytes of a text of at most 83 bytes, with `X` for each that is not from 33
    /// to
    /// 126. It may be empty, and have letters of both cases.
    pub fn parse_unchecked(hrp: &str) -> Hrp
        requires { length hrp.now ≤ 83 }
        ensures { hrp_bytes result ≡ map graphic_or_x hrp.now }
    {
        let mut buf = pad(hrp.as_bytes());
        put_x(&mut buf[..hrp.len()]);
        Hrp {
            buf,
            size: hrp.len(),
        }
    }

    /// The text in lower case, with memory from `alloc`.
    ///
    /// # Errors
    ///
    /// When out of memory.
    pub fn to_lowercase_in<A: Allocator>(&self, alloc: A) -> Result<String<A>, AllocError>
        ensures { IfOk result (λ s. string_bytes s ≡ lowered_bytes self.now) }
    {
        self.as_str().to_ascii_lowercase(alloc)
    }

    /// The text in lower case, with memory of the global allocator.
    ///
    /// # Errors
    ///
    /// When out of memory.
    pub fn to_lowercase(&self, alloc: Global) -> Result<String, AllocError>
        ensures { IfOk result (λ s. string_bytes s ≡ lowered_bytes self.now) }
    {
        self.to_lowercase_in(alloc)
    }

    /// The bytes, in the case that they were parsed in.
    pub fn as_bytes(&self) -> &[u8]
        ensures { result.now ≡ hrp_bytes self.now }
    {
        &self.buf[..self.size]
    }

    /// The text, in the case that it was parsed in.
    pub fn as_str(&self) -> &str
        ensures { result.now ≡ hrp_bytes self.now }
    {
        match str::from_utf8(self.as_bytes()) {
            Ok(text) => text,
            Err(_) => unreachable!(),
        }
    }

    /// The number of bytes: at most 83, and at least 1 in a part that was parsed.
    pub const fn len(&self) -> usize
        ensures value { result ≡ length (hrp_bytes self.now) }
        ensures small { result ≤ 83 }
    {
        self.size
    }

    /// [`BC`]: a clause cannot name a constant of this type, so its text is said here.
    fn mainnet() -> Hrp
        ensures { hrp_bytes result ≡ codes "bc" }
    {
        BC
    }

    /// [`TB`], in the same way.
    fn testnet() -> Hrp
        ensures { hrp_bytes result ≡ codes "tb" }
    {
        TB
    }

    /// [`BCRT`], in the same way.
    fn regtest() -> Hrp
        ensures { hrp_bytes result ≡ codes "bcrt" }
    {
        BCRT
    }

    /// The part in lower case.
    fn lower(&self) -> Hrp
        ensures { hrp_bytes result ≡ lowered_bytes self.now }
    {
        let mut buf = self.buf;
        buf[..self.size].make_ascii_lowercase();
        Hrp {
            buf,
            size: self.size,
        }
    }

    /// Whether it is that of segregated witness addresses of the Bitcoin network or of a test
    /// network: `bc` or `tb` (BIP-173, Segwit address format).
    pub fn is_valid_segwit(&self) -> bool
        ensures { IsTrue result
            ↔ ((lowered_bytes self.now ≡ codes "bc") ⊎ (lowered_bytes self.now ≡ codes "tb")) }
    {
        self.is_valid_on_mainnet() || self.is_valid_on_testnet()
    }

    /// Whether it is that of the Bitcoin network: `bc`, the text of [`BC`].
    pub fn is_valid_on_mainnet(&self) -> bool
        ensures { IsTrue result ↔ (lowered_bytes self.now ≡ codes "bc") }
    {
        *self == Self::mainnet()
    }

    /// Whether it is that of the Bitcoin testnet: `tb`, the text of [`TB`].
    pub fn is_valid_on_testnet(&self) -> bool
        ensures { IsTrue result ↔ (lowered_bytes self.now ≡ codes "tb") }
    {
        *self == Self::testnet()
    }

    /// Whether it is that of the Bitcoin signet: `tb`.
    pub fn is_valid_on_signet(&self) -> bool
        ensures { IsTrue result ↔ (lowered_bytes self.now ≡ codes "tb") }
    {
        self.is_valid_on_testnet()
    }

    /// Whether it is that of the Bitcoin regtest network: `bcrt`, the text of [`BCRT`].
    pub fn is_valid_on_regtest(&self) -> bool
        ensures { IsTrue result ↔ (lowered_bytes self.now ≡ codes "bcrt") }
    {
        *self == Self::regtest()
    }
}

impl PartialEq for Hrp {
    ghost use Rattle.std.specs.Prelude.{◌==◌};
    ghost use Rattle.std.specs.Cmp.Lexicographic.{pointwise};
    ghost use Rattle.std.specs.Ordering.{on};
    ghost use Rattle.std.specs.Cmp.Rules.{comparing};
    ghost use Rattle.std.proofs.Common.{rules};
    ghost use Rattle.bech32_hrp.specs.HrpBytes.{lowered_bytes};

    ghost eq = { on lowered_bytes (pointwise ◌==◌) };

    ghost laws = { Prim.search (comparing, rules) };

    fn eq(&self, other: &Hrp) -> bool {
        self.as_bytes().eq_ignore_ascii_case(other.as_bytes())
    }
}

impl Eq for Hrp {
    ghost use Rattle.std.specs.Cmp.Rules.{comparing};
    ghost use Rattle.std.proofs.Common.{rules};

    ghost laws = { Prim.search (comparing, rules) };
}

impl Ord for Hrp {
    ghost use Rattle.std.specs.Cmp.Lexicographic.{slice_cmp};
    ghost use Rattle.std.specs.Ordering.{on, nat_cmp};
    ghost use Rattle.std.specs.Cmp.Rules.{comparing};
    ghost use Rattle.std.proofs.Common.{rules};
    ghost use Rattle.bech32_hrp.specs.HrpBytes.{lowered_bytes};

    ghost cmp = { on lowered_bytes (slice_cmp nat_cmp) };

    ghost total = { Prim.search (comparing, rules) };

    ghost matches_partial_cmp = { Prim.search (comparing, rules) };

    ghost matches_eq = { Prim.search (comparing, rules) };

    fn cmp(&self, other: &Hrp) -> Ordering {
        self.lower().as_bytes().cmp(other.lower().as_bytes())
    }
}

impl PartialOrd for Hrp {
    ghost use Rattle.std.specs.Cmp.{partial_order_from_own_ties};
    ghost use Rattle.std.specs.Cmp.Lexicographic.{slice_cmp};
    ghost use Rattle.std.specs.Ordering.{on, nat_cmp, as_partial_cmp};
    ghost use Rattle.std.specs.Cmp.Rules.{comparing};
    ghost use Rattle.std.proofs.Common.{rules};
    ghost use Rattle.bech32_hrp.specs.HrpBytes.{lowered_bytes};

    ghost partial_cmp = { as_partial_cmp (on lowered_bytes (slice_cmp nat_cmp)) };

    ghost laws = { partial_order_from_own_ties (Prim.search (comparing, rules))
        (Prim.search (comparing, rules)) };

    fn partial_cmp(&self, other: &Hrp) -> Option<Ordering> {
        Some(self.cmp(other))
    }
}

impl Hash for Hrp {
    ghost use Rattle.std.specs.Prelude.{[], ◌∷◌};
    ghost use Rattle.std.specs.Cmp.Rules.{comparing, hashing};
    ghost use Rattle.std.proofs.Common.{rules};
    ghost use Rattle.bech32_hrp.specs.HrpBytes.{lowered_bytes};

    ghost hash_input = { λ h. lowered_bytes h ∷ [] };

    ghost respects_eq = { Prim.search (hashing, rules) };

    fn hash<H: Hasher>(&self, state: &mut H) {
        state.write(self.lower().as_bytes());
    }
}

/// Writes the text, in the case that it was parsed in. A width and a precision change nothing.
impl fmt::Display for Hrp {
    ghost use Rattle.std.specs.Prelude.{Some};
    ghost use Rattle.bech32_hrp.specs.HrpBytes.{hrp_bytes};

    ghost output = { λ h. Some (hrp_bytes h) };

    ghost styled_output = { λ h spec. Some (hrp_bytes h) };

    fn fmt<W: fmt::Write>(&self, f: &mut fmt::Formatter<W>) -> fmt::Result {
        f.write_str(self.as_str())
    }
}
