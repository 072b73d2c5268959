//! Human-readable parts: read, compared, kept without a test.

use bech32_hrp::{BC, BCRT, Hrp, TB};
use std::alloc::{AllocError, Global};
use std::cmp::Ordering;
use std::hash::{DefaultHasher, Hash, Hasher};
use testing_tools::rows::{no_row, word};

// Which of the questions on networks a part answers with yes.
fn networks(hrp: &Hrp) -> [bool; 5] {
    [
        hrp.is_valid_segwit(),
        hrp.is_valid_on_mainnet(),
        hrp.is_valid_on_testnet(),
        hrp.is_valid_on_signet(),
        hrp.is_valid_on_regtest(),
    ]
}

// The letters of the networks of a part, and `-` for none.
fn letters(alloc: Global, hrp: &Hrp) -> Result<String, AllocError> {
    let [segwit, mainnet, testnet, signet, regtest] = networks(hrp);
    let mut text = String::new(alloc);
    text.push(if segwit { 's' } else { '-' })?;
    text.push(if mainnet { 'm' } else { '-' })?;
    text.push(if testnet { 't' } else { '-' })?;
    text.push(if signet { 'g' } else { '-' })?;
    text.push(if regtest { 'r' } else { '-' })?;
    Ok(text)
}

// A part as it is printed, with a width and a precision too, and read; its length, in lower case,
// and its networks.
fn shown(alloc: Global, hrp: &Hrp) -> Result<String, AllocError> {
    let lower = hrp.to_lowercase(alloc)?;
    let networks = letters(alloc, hrp)?;
    let (text, length) = (hrp.as_str(), hrp.len());
    format!(in alloc; "{hrp}|{hrp:*^99}{hrp:.2}{hrp:09.1}|{text}|{length}|{lower}|{networks}")
}

/// What a row of a text gives: its part, or why it is none.
pub fn reply(alloc: Global, words: &[&str]) -> Result<String, AllocError> {
    match Hrp::parse(word(words, 1)) {
        Ok(hrp) => shown(alloc, &hrp),
        Err(error) => format!(in alloc; "{error}"),
    }
}

/// What a row of a text gives that is kept without a test.
pub fn kept_reply(alloc: Global, words: &[&str]) -> Result<String, AllocError> {
    let text = word(words, 1);
    if text.len() > 83 {
        return no_row(alloc);
    }
    let hrp = Hrp::parse_unchecked(text);
    format!(in alloc; "{hrp}|{}", hrp.len())
}

/// The parts that are constants.
pub fn constants(alloc: Global) -> Result<String, AllocError> {
    format!(in alloc; "{BC}|{TB}|{BCRT}")
}

// The hash of a part.
fn hash_of(hrp: &Hrp) -> u64 {
    let mut state = DefaultHasher::new();
    hrp.hash(&mut state);
    state.finish()
}

// The sign of an order.
fn sign(order: Ordering) -> char {
    match order {
        Ordering::Less => '<',
        Ordering::Equal => '=',
        Ordering::Greater => '>',
    }
}

// Whether two parts are equal, whether their hashes are, and their order in both ways.
fn compared(alloc: Global, a: &Hrp, b: &Hrp) -> Result<String, AllocError> {
    let (are_equal, have_equal_hashes) = (a == b, hash_of(a) == hash_of(b));
    let order = sign(a.cmp(b));
    let is_less = a < b;
    format!(in alloc; "{are_equal} {have_equal_hashes} {order} {is_less}")
}

/// What a row of two parts gives.
pub fn compared_reply(alloc: Global, words: &[&str]) -> Result<String, AllocError> {
    match (Hrp::parse(word(words, 1)), Hrp::parse(word(words, 2))) {
        (Ok(a), Ok(b)) => compared(alloc, &a, &b),
        _ => no_row(alloc),
    }
}
