//! What is read of addresses.

use bech32_decode::{SegwitHrpstring, SegwitHrpstringError};
use std::alloc::{AllocError, Global};
use testing_tools::rows::{characters, shown_bytes, word};

// The bytes of a program.
fn program(alloc: Global, address: &SegwitHrpstring<'_>) -> Result<String, AllocError> {
    let bytes: Vec<u8> = address.byte_iter().collect(alloc)?;
    shown_bytes(alloc, &bytes)
}

// The parts of an address, and whether the first is one that BIP-173 asks for.
fn shown(alloc: Global, address: &SegwitHrpstring<'_>) -> Result<String, AllocError> {
    let program = program(alloc, address)?;
    let data = characters(alloc, address.data_part_ascii_no_witver_no_checksum())?;
    let (hrp, version) = (address.hrp(), address.witness_version());
    format!(in alloc;
        "{hrp}|{version}|{program}|{data}|{}",
        address.has_valid_hrp()
    )
}

/// The parts of an address, or why there is none.
pub fn outcome(
    alloc: Global,
    read: Result<SegwitHrpstring<'_>, SegwitHrpstringError>,
) -> Result<String, AllocError> {
    match read {
        Ok(address) => shown(alloc, &address),
        Err(error) => format!(in alloc; "{error}"),
    }
}

/// What a row of a text gives: as an address, or as one of the time before BIP-350.
pub fn reply(alloc: Global, words: &[&str]) -> Result<String, AllocError> {
    let text = word(words, 1);
    if word(words, 0) == "address" {
        outcome(alloc, SegwitHrpstring::new(text))
    } else {
        outcome(alloc, SegwitHrpstring::new_bech32(text))
    }
}
