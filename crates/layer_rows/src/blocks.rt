//! The block that declares a checksum.

use bech32_block::{NamedField, PrintError, PrintImpl};
use bech32_gf::field::ExtensionField;
use bech32_gf::gf32::Fe32;
use bech32_gf_ext::{Fe1024, Fe32768};
use std::alloc::{AllocError, Global};
use testing_tools::rows::{digits, no_row, word};

// The number of a refusal.
fn number(error: PrintError) -> &'static str {
    match error {
        PrintError::Degree => "71",
        PrintError::NotSplit => "72",
        PrintError::NotPowers => "73",
        PrintError::Memory => "91",
    }
}

// The block, or the number of the refusal.
fn reply_to<E: NamedField + ExtensionField<BaseField = Fe32>>(
    alloc: Global,
    name: &str,
    generator: &[Fe32],
    target: &[Fe32],
) -> Result<String, AllocError> {
    if name.is_empty()
        || generator.is_empty()
        || generator.len() > 25
        || target.len() != generator.len()
    {
        return no_row(alloc);
    }
    match PrintImpl::<E>::new(alloc, name, generator, target) {
        Ok(block) => format!(in alloc; "{block}"),
        Err(error) => String::from_str(alloc, number(error)),
    }
}

// The same over the field of a name.
fn reply_over(
    alloc: Global,
    field: &str,
    generator: &[Fe32],
    target: &[Fe32],
) -> Result<String, AllocError> {
    match field {
        "Fe32" => reply_to::<Fe32>(alloc, "T", generator, target),
        "Fe1024" => reply_to::<Fe1024>(alloc, "T", generator, target),
        "Fe32768" => reply_to::<Fe32768>(alloc, "T", generator, target),
        _ => no_row(alloc),
    }
}

/// What a row of a field, a generator and a target gives, under the name `T`.
pub fn reply(alloc: Global, words: &[&str]) -> Result<String, AllocError> {
    let generator = digits(alloc, word(words, 2))?;
    let target = digits(alloc, word(words, 3))?;
    reply_over(alloc, word(words, 1), &generator, &target)
}
