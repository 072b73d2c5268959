//! What a text is read as, or why it is refused.

use super::refusals;
use bech32::primitives::decode::{
    CheckedHrpstring, ChecksumError, SegwitHrpstring, UncheckedHrpstring,
};
use bech32::{
    Bech32, Bech32m, Checksum, CorrectableError, Hrp, NoChecksum, TextError, decode,
    decode_elements, decode_strict, segwit,
};
use bech32_gf::gf32::Fe32;
use std::alloc::{AllocError, Global};
use std::fmt::Display;
use testing_tools::rows::{no_row, shown_bytes, word};

// A human-readable part, and bytes.
fn shown_parts(alloc: Global, hrp: &Hrp, bytes: &[u8]) -> Result<String, AllocError> {
    let digits = shown_bytes(alloc, bytes)?;
    format!(in alloc; "{hrp} {digits}")
}

// A human-readable part, a witness version and a program.
fn shown_address(
    alloc: Global,
    hrp: &Hrp,
    version: Fe32,
    program: &[u8],
) -> Result<String, AllocError> {
    let digits = shown_bytes(alloc, program)?;
    let version = version.to_u8();
    format!(in alloc; "{hrp} {version} {digits}")
}

// What a text is decoded to by either checksum.
fn decoded(alloc: Global, text: &str) -> Result<String, AllocError> {
    match decode(alloc, text) {
        Ok((hrp, bytes)) => shown_parts(alloc, &hrp, &bytes),
        Err(error) => refusals::shown(alloc, &error),
    }
}

// What is decoded of the only text of its content.
fn content(alloc: Global, found: Result<(Hrp, Vec<u8>), TextError>) -> Result<String, AllocError> {
    match found {
        Ok((hrp, items)) => shown_parts(alloc, &hrp, &items),
        Err(error) => format!(in alloc; "{error}"),
    }
}

// What an address is decoded to.
fn decoded_address(alloc: Global, text: &str) -> Result<String, AllocError> {
    match segwit::decode(alloc, text) {
        Ok((hrp, version, program)) => shown_address(alloc, &hrp, version, &program),
        Err(error) => refusals::shown(alloc, &error),
    }
}

// The part and the version of an address that is read in place.
fn read_address(alloc: Global, text: &str) -> Result<String, AllocError> {
    match SegwitHrpstring::new(text) {
        Ok(address) => {
            let (hrp, version) = (address.hrp(), address.witness_version().to_u8());
            format!(in alloc; "{hrp} {version}")
        }
        Err(error) => refusals::shown(alloc, &error),
    }
}

// The part of a text, how many elements are to come by each call that says so, and the elements.
fn elements(alloc: Global, text: &CheckedHrpstring<'_>) -> Result<String, AllocError> {
    let elements = text.fe32_iter();
    let (hrp, length) = (text.hrp(), elements.len());
    let (least, most) = elements.size_hint();
    let most = most.unwrap_or(0);
    let characters: String = elements.map(Fe32::to_char).collect(alloc)?;
    format!(in alloc; "{hrp} {length} {least} {most} {characters}")
}

// What is read of a text that a checksum accepts.
fn checked<Ck: Checksum>(alloc: Global, text: &str) -> Result<String, AllocError> {
    match CheckedHrpstring::new::<Ck>(text) {
        Ok(checked) => elements(alloc, &checked),
        Err(error) => refusals::shown(alloc, &error),
    }
}

// Why a checksum refuses a text that is in the grammar.
fn checksum_error<Ck: Checksum>(text: &str) -> Option<ChecksumError> {
    match UncheckedHrpstring::new(text) {
        Ok(unchecked) => unchecked.validate_checksum::<Ck>().err(),
        Err(_) => None,
    }
}

// The refusal, and that of its residue alone.
fn refused<Ck: Checksum>(alloc: Global, text: &str) -> Result<String, AllocError> {
    let Some(error) = checksum_error::<Ck>(text) else {
        return no_row(alloc);
    };
    let refusal = refusals::shown(alloc, &error)?;
    let Some(residue) = error.residue_error() else {
        return Ok(refusal);
    };
    let alone = refusals::shown(alloc, residue)?;
    format!(in alloc; "{refusal}|{alone}")
}

/// What a row of a call and a text gives.
pub fn reply(alloc: Global, words: &[&str]) -> Result<String, AllocError> {
    let text = word(words, 2);
    match word(words, 1) {
        "decode" => decoded(alloc, text),
        "strict" => content(alloc, decode_strict::<Bech32, _>(alloc, text)),
        "elements" => content(alloc, decode_elements::<Bech32m, _>(alloc, text)),
        "address" => decoded_address(alloc, text),
        "in place" => read_address(alloc, text),
        "Bech32" => checked::<Bech32>(alloc, text),
        "Bech32m" => checked::<Bech32m>(alloc, text),
        "NoChecksum" => checked::<NoChecksum>(alloc, text),
        "refusal" => refused::<Bech32m>(alloc, text),
        "refusal by Bech32" => refused::<Bech32>(alloc, text),
        _ => no_row(alloc),
    }
}
