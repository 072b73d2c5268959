use crate::tests::compare::each_prints;
use bech32_refusals::{CharError, ChecksumError, UncheckedHrpstringError};
use codex32::{Codex32Error, DeriveError, EncodeError, HeaderError, PayloadError, SplitError};

const OF_TEXTS: [(Codex32Error, &str); 7] = [
    (
        Codex32Error::Text(UncheckedHrpstringError::Char(CharError::MixedCase)),
        "no text of the grammar: character error: mixed-case strings not allowed",
    ),
    (
        Codex32Error::Length,
        "a codex32 string has 48 to 93 characters, a long one 125 to 127",
    ),
    (Codex32Error::Hrp, "the human-readable part is not \"ms\""),
    (
        Codex32Error::Checksum(ChecksumError::InvalidLength),
        "invalid checksum: the checksummed string is not a valid length",
    ),
    (
        Codex32Error::Threshold,
        "the threshold is neither 0 nor a digit from 2 to 9",
    ),
    (
        Codex32Error::ShareIndex,
        "the threshold is 0, and the share index is not \"s\"",
    ),
    (Codex32Error::Memory, "out of memory"),
];

const OF_HEADERS: &[(HeaderError, &str)] = &[
    (
        HeaderError::Threshold,
        "the threshold is neither 0 nor a digit from 2 to 9",
    ),
    (
        HeaderError::Identifier,
        "the identifier is not four characters of the alphabet in one case",
    ),
    (
        HeaderError::ShareIndex,
        "the share index is not one character of the alphabet",
    ),
    (
        HeaderError::Unshared,
        "the threshold is 0, and the share index is not \"s\"",
    ),
];

const OF_BYTES: &[(EncodeError, &str)] = &[
    (
        EncodeError::Size,
        "a codex32 string has 16 to 44 bytes, a long one 63 or 64",
    ),
    (EncodeError::Memory, "out of memory"),
];

const OF_PAYLOADS: &[(PayloadError, &str)] = &[(
    PayloadError::LeftOver,
    "more than four bits stand behind the bytes of the payload",
)];

const OF_SETS: &[(DeriveError, &str)] = &[
    (DeriveError::OtherSet, "the shares are not of one set"),
    (DeriveError::IndexTwice, "a share index stands twice"),
    (
        DeriveError::Unshared,
        "the threshold is 0, and the share index is not \"s\"",
    ),
    (
        DeriveError::TooFew,
        "there are fewer shares than the threshold",
    ),
    (
        DeriveError::Contradiction,
        "the shares contradict each other",
    ),
    (DeriveError::Memory, "out of memory"),
];

const OF_SPLITS: &[(SplitError, &str)] = &[
    (
        SplitError::Unshared,
        "the threshold is 0: the secret is not shared",
    ),
    (
        SplitError::Size,
        "a codex32 string has 16 to 44 bytes, a long one 63 or 64",
    ),
    (
        SplitError::Count,
        "there are fewer shares than the threshold, or more than 31",
    ),
    (
        SplitError::Random,
        "there are not as many random bytes as characters are drawn",
    ),
    (SplitError::EqualRandom, "the random bytes are all equal"),
    (SplitError::NoRoom, "the buffer is too small"),
];

#[test]
fn tells_why(rt: HostRuntime) {
    let alloc = rt.alloc();
    each_prints(&rt, alloc, &OF_TEXTS);
    each_prints(&rt, alloc, OF_HEADERS);
    each_prints(&rt, alloc, OF_BYTES);
    each_prints(&rt, alloc, OF_PAYLOADS);
    each_prints(&rt, alloc, OF_SETS);
    each_prints(&rt, alloc, OF_SPLITS);
}
