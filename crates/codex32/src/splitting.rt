//! Splits a secret into shares.

ghost use Rattle.std.specs.Prelude.{◌≡◌, ◌≤◌, ◌*◌, ◌||◌, None, Some, true, false, length, take, IfOk, MatchOption, MatchResult, OnErr};
ghost use Rattle.bech32_encode.specs.Buffers.{IsPut};
ghost use Rattle.codex32.specs.Encode.{is_byte_count, is_long_byte_count};
ghost use Rattle.codex32.specs.Split.{IsSplit, Recovers, are_all_equal, payload_count, random_size, split_refusal, text_size};
ghost use Rattle.codex32.specs.Code.{max_long_length};

use crate::dealing::{drawn_count, put_all_drawn, put_others, put_own};
use crate::error::SplitError;
use crate::identifier::Identifier;
use crate::lengths::MAX_LONG_LENGTH;
use crate::threshold::Threshold;

// The most shares: one at each index but `s`.
const MOST: usize = 31;

// Whether there are strings of `count` bytes.
fn is_size(count: usize) -> bool
    ensures { result ≡ (is_byte_count count || is_long_byte_count count) }
{
    16 <= count && count <= 44 || 63 <= count && count <= 64
}

// How many characters the payload of `count` bytes has.
fn payload_size(count: usize) -> usize
    requires { count ≤ 64 }
    ensures value { result ≡ payload_count count }
    ensures few { result ≤ 103 }
{
    (8 * count + 4) / 5
}

// How many characters the string of `count` bytes has.
fn size_of_text(count: usize) -> usize
    requires { is_byte_count count || is_long_byte_count count ≡ true }
    ensures value { result ≡ text_size count }
    ensures few { result ≤ max_long_length }
{
    let checksum = if count <= 44 { 13 } else { 15 };
    9 + payload_size(count) + checksum
}

/// How many random bytes [`split_into`] takes for a secret of `secret_length` bytes: one for each
/// character of the payloads that are drawn, which are those of one share fewer than the threshold.
/// `None` where no codex32 string has that many bytes.
pub fn random_count(threshold: Threshold, secret_length: usize) -> Option<usize>
    ensures { MatchOption result
        (is_byte_count secret_length || is_long_byte_count secret_length ≡ false)
        (λ n. (is_byte_count secret_length || is_long_byte_count secret_length ≡ true)
        × (n ≡ random_size threshold secret_length)) }
{
    if !is_size(secret_length) {
        return None;
    }
    Some(drawn_count(threshold) * payload_size(secret_length))
}

// Whether bytes, at least two, are all equal. Each is looked at, and only whether all are can be
// told. Out of line, so that timing reveals only this answer.
#[inline(never)]
fn are_equal(bytes: &[u8]) -> bool
    ensures { result ≡ are_all_equal bytes.now }
{
    if bytes.len() < 2 {
        return false;
    }
    let first = bytes[0];
    let mut equal = true;
    for b in bytes {
        equal &= *b == first;
    }
    equal
}

// Tests what is asked, and returns how many characters each share has.
fn validate_split(
    threshold: Threshold,
    secret_length: usize,
    count: usize,
    random: &[u8],
    room: usize,
) -> Result<usize, SplitError>
    ensures { MatchResult result
        (λ n. (split_refusal threshold secret_length count random.now room ≡ None)
        × (n ≡ text_size secret_length))
        (λ e. split_refusal threshold secret_length count random.now room ≡ Some e) }
{
    if threshold.number() == 0 {
        return Err(SplitError::Unshared);
    }
    let Some(drawn) = random_count(threshold, secret_length) else {
        return Err(SplitError::Size);
    };
    if count < usize::from(threshold.number()) || count > MOST {
        return Err(SplitError::Count);
    }
    if random.len() != drawn {
        return Err(SplitError::Random);
    }
    if are_equal(random) {
        return Err(SplitError::EqualRandom);
    }
    let size = size_of_text(secret_length);
    if room < count * size {
        return Err(SplitError::NoRoom);
    }
    Ok(size)
}

// Puts the shares, for which nothing is wrong with what is asked, into a buffer of their size.
fn put_split(
    texts: &mut [u8],
    threshold: Threshold,
    identifier: Identifier,
    secret: &[u8],
    count: usize,
    random: &[u8],
)
    requires fine { split_refusal threshold (length secret.now) count random.now
        (length texts.old) ≡ None }
    requires size { length texts.old ≡ count * text_size (length secret.now) }
    ensures { IsSplit threshold identifier secret.now random.now count
        (text_size (length secret.now)) texts.new }
{
    let mut room = [0u8; MAX_LONG_LENGTH];
    let size = put_own(&mut room, threshold, identifier, secret);
    put_all_drawn(
        texts,
        threshold,
        identifier,
        random,
        payload_size(secret.len()),
    );
    put_others(texts, &room[..size], drawn_count(threshold), count);
}

/// Splits a secret into `count` shares (BIP-93, Generating Shares), and returns the length of each.
/// The shares are put at the front of a buffer, one behind another, in lower case.
///
/// Share number j, counted from 0, stands at character j of `acdefghjklmnpqrtuvwxyz023456789`. The
/// first shares, one fewer than the threshold, have random payloads: the lowest five bits of each
/// random byte are one character, and the bytes are used in their order. The other shares are
/// derived from these and from the secret's own string, which [`encode_into`] makes at the index
/// `s`.
///
/// Any shares, as many as the threshold, recover the secret. Fewer reveal only its length, provided
/// that the random bytes are uniform, used for nothing else, and known to nobody: see the laws of
/// secrecy in `crate::laws`. Random bytes that are all equal were never filled in, and are refused:
/// by them the first shares would be known, and any other share would give the secret.
///
/// Each split takes a new identifier. Shares of two splits of one secret with the same identifier
/// are taken for one set, and recover other bytes: nothing tells them apart. For more shares of a
/// split, [`derive_into`] derives them from as many as the threshold.
///
/// # Errors
///
/// The first of: the threshold is 0; the secret has neither 16 to 44 bytes nor 63 or 64; there are
/// fewer shares than the threshold, or more than 31; the random bytes are not as many as
/// [`random_count`] says; they are all equal; the buffer is too small for the shares. The buffer is
/// then as it was.
///
/// [`encode_into`]: crate::encode_into
/// [`derive_into`]: crate::derive_into
pub fn split_into(
    buffer: &mut [u8],
    threshold: Threshold,
    identifier: Identifier,
    secret: &[u8],
    count: usize,
    random: &[u8],
) -> Result<usize, SplitError>
    ensures split { IfOk result (λ n. IsSplit threshold identifier secret.now random.now count n
        (take (count * n) buffer.new)) }
    ensures recovers { IfOk result (λ n. Recovers threshold identifier secret.now count n
        (take (count * n) buffer.new)) }
    ensures put { IfOk result (λ n. IsPut (take (count * n) buffer.new) buffer.old buffer.new
        (count * n)) }
    ensures refused { MatchResult result
        (λ n. (split_refusal threshold (length secret.now) count random.now
        (length buffer.old) ≡ None) × (n ≡ text_size (length secret.now)))
        (λ e. split_refusal threshold (length secret.now) count random.now
        (length buffer.old) ≡ Some e) }
    ensures same { OnErr result (buffer.new ≡ buffer.old) }
{
    let size = validate_split(threshold, secret.len(), count, random, buffer.len())?;
    let texts = &mut buffer[..count * size];
    put_split(texts, threshold, identifier, secret, count, random);
    Ok(size)
}
