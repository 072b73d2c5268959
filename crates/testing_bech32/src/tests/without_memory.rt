//! What corrects texts where there is no memory at all.

use crate::tests::compare::same;
use bech32_checksum::Bech32;
use bech32_correction::{CorrectError, Correction, NoMemory, correct};
use bech32_near::edits::{EditsError, near_edits};
use bech32_near::nearest;

// What is said of a text.
#[derive(Clone, Copy, Debug, PartialEq)]
enum Said {
    Accepted,
    None,
    Found,
    Refused,
    Memory,
}

// What an error says.
fn reply_of(error: CorrectError) -> Said {
    match error {
        CorrectError::Refused(_) => Said::Refused,
        CorrectError::Memory => Said::Memory,
    }
}

// What is said of a number of texts.
fn said_of_number(count: usize) -> Said {
    if count == 0 { Said::None } else { Said::Found }
}

// What correcting a text says.
fn corrected(text: &str, erasures: &[usize]) -> Said {
    match correct::<Bech32, NoMemory>(NoMemory, text, erasures) {
        Ok(Correction::Accepted) => Said::Accepted,
        Ok(Correction::Mended(_)) => Said::Found,
        Ok(Correction::Unexplained(_)) => Said::None,
        Err(error) => reply_of(error),
    }
}

// What the texts near one say.
fn near(text: &str, erasures: &[usize], errors: usize) -> Said {
    match nearest::<Bech32, NoMemory>(NoMemory, text, erasures, errors) {
        Ok(near) => said_of_number(near.texts.len()),
        Err(error) => reply_of(error),
    }
}

// What the edits of a text say.
fn edited(text: &str) -> Said {
    match near_edits::<Bech32, NoMemory>(NoMemory, text) {
        Ok(near) => said_of_number(near.len()),
        Err(EditsError::Refused(_)) => Said::Refused,
        Err(EditsError::Memory) => Said::Memory,
    }
}

// An address of BIP-173, and the same with two wrong characters.
const ADDRESS: &str = "bc1qw508d6qejxtdg4y5r3zarvary0c5xw7kv8f3t4";

const MISTYPED: &str = "bc1qw508q6qejxtdg4y5r3zarvary0c5xw7kv8f3t5";

// Out of memory only where there is a text.
#[test]
fn without_memory(rt: HostRuntime) {
    let said = [
        corrected("a12uel5l", &[]),
        corrected("a12uel5q", &[0, 1, 2, 3]),
        corrected("a12uelbq", &[]),
        corrected("a12uel5q", &[]),
    ];
    let want = [Said::Accepted, Said::None, Said::Refused, Said::Memory];
    same(&rt, &said, &want);
    let said = [
        near(MISTYPED, &[], 1),
        near(MISTYPED, &[39], 2),
        near("bc1b", &[], 2),
        near(MISTYPED, &[], 2),
        near(ADDRESS, &[], 0),
    ];
    let want = [
        Said::None,
        Said::None,
        Said::Refused,
        Said::Memory,
        Said::Memory,
    ];
    same(&rt, &said, &want);
    let said = [edited(ADDRESS), edited("bc1b"), edited("a12uel5")];
    same(&rt, &said, &[Said::None, Said::Refused, Said::Memory]);
}
