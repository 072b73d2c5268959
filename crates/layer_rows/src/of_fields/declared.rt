//! What checksums are declared by.

ghost use Rattle.std.specs.Prelude.{◌≢◌};

use bech32_checksum::{Bech32, Bech32m, Checksum, LocatorField, NoChecksum, PackedFe32};
use bech32_descriptor::Descriptor;
use bech32_gf::gf32::Fe32;
use std::alloc::{AllocError, Global};
use std::fmt::Display;
use testing_tools::codes::Degree13;
use testing_tools::rows::{no_row, word};

/// The characters of the elements of a packed row, that of x^0 first.
pub fn row_shown<R: PackedFe32>(alloc: Global, row: R) -> Result<String, AllocError> {
    let mut text = String::new(alloc);
    for place in 0..R::WIDTH {
        text.push(Fe32::from_low_bits(row.unpack(place)).to_char())?;
    }
    Ok(text)
}

// The order of an element that is not zero.
fn order_of<E: LocatorField>(x: E) -> usize
    requires { x ≢ E.ops.zero }
{
    x.order()
}

// The base of the roots and its order.
fn base_shown<E: LocatorField + Display>(alloc: Global, base: E) -> Result<String, AllocError> {
    if base.is_zero() {
        return String::from_str(alloc, "none");
    }
    format!(in alloc; "{base} {}", order_of(base))
}

// The words of a checksum and its target.
fn words_shown<Ck: Checksum>(alloc: Global) -> Result<String, AllocError> {
    let mut text = row_shown(alloc, Ck::TARGET_RESIDUE)?;
    for word in Ck::GENERATOR_SH {
        let row = row_shown(alloc, word)?;
        text.push(' ')?;
        text.push_str(&row)?;
    }
    Ok(text)
}

// The base and its order, the exponents of the roots and whether they are lawful, the lengths of
// texts and checksums, the target and the words.
fn declared<Ck: Checksum>(alloc: Global) -> Result<String, AllocError>
where
    Ck::CorrectionField: Display,
{
    let base = base_shown(alloc, Ck::ROOT_GENERATOR)?;
    let words = words_shown::<Ck>(alloc)?;
    let (start, end) = (Ck::ROOT_EXPONENTS_START, Ck::ROOT_EXPONENTS_END);
    let (longest, degree) = (Ck::CODE_LENGTH, Ck::CHECKSUM_LENGTH);
    let is_lawful = Ck::sanity_check();
    format!(in alloc; "{base}|{start} {end} {is_lawful}|{longest} {degree}|{words}")
}

/// What a row of a checksum gives.
pub fn reply(alloc: Global, words: &[&str]) -> Result<String, AllocError> {
    match word(words, 1) {
        "Bech32" => declared::<Bech32>(alloc),
        "Bech32m" => declared::<Bech32m>(alloc),
        "Codex32" => declared::<Degree13<93>>(alloc),
        "Descriptor" => declared::<Descriptor>(alloc),
        "NoChecksum" => declared::<NoChecksum>(alloc),
        _ => no_row(alloc),
    }
}
