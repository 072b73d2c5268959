//! The block that the words of a command line ask for.

ghost use Rattle.std.specs.Prelude.{◌≡◌, ◌∷◌, ◌++◌, ℕ, List, [], Some, OnOk, IfOk, IfErr, option_map, string_bytes};
ghost use Rattle.std.specs.Io.KnownBytes.{Appends};
ghost use Rattle.print_block.specs.Asked.{IsBlockOver, IsRefusalOver, field_of};

use crate::error::BlockError;
use crate::words::block_of_words;
use anyhow::bail;
use bech32_gf::gf32::Fe32;
use bech32_gf_ext::{Fe1024, Fe32768};
use std::alloc::Global;
use std::io;

/// A field in which the roots of a generator are looked for.
#[derive(Clone, Copy, Debug)]
pub enum FieldName {
    Fe32,
    Fe1024,
    Fe32768,
}

/// The field that a word names; where there is no word, `Fe1024`.
fn field_named(word: Option<&str>) -> Option<FieldName>
    ensures { result ≡ field_of (option_map (λ w. w.now) word.entry) }
{
    match word {
        Some("Fe32") => Some(FieldName::Fe32),
        Some("Fe1024") | None => Some(FieldName::Fe1024),
        Some("Fe32768") => Some(FieldName::Fe32768),
        Some(_) => None,
    }
}

/// The block of words over a field.
fn block_over(
    alloc: Global,
    field: FieldName,
    words: (&str, &str, &str),
) -> Result<String, BlockError>
    ensures block { IfOk result (λ text. IsBlockOver field
        words.entry.0.now words.entry.1.now words.entry.2.now (string_bytes text)) }
    ensures refused { IfErr result (IsRefusalOver field
        words.entry.0.now words.entry.1.now words.entry.2.now) }
{
    let (name, generator, target) = words;
    match field {
        FieldName::Fe32 => block_of_words::<Fe32>(alloc, name, generator, target),
        FieldName::Fe1024 => block_of_words::<Fe1024>(alloc, name, generator, target),
        FieldName::Fe32768 => block_of_words::<Fe32768>(alloc, name, generator, target),
    }
}

/// Writes the block of a name, a generator and a target over the field that a word names, and a
/// newline.
///
/// # Errors
///
/// If the word names no field, if the words have no block, or if writing fails.
pub fn write_block<W: io::Write>(
    alloc: Global,
    words: (&str, &str, &str),
    field: Option<&str>,
    out: &mut W,
) -> anyhow::Result<()>
    ensures { OnOk result ((name : FieldName) × (text : List ℕ)
        × (field_of (option_map (λ w. w.now) field.entry) ≡ Some name)
        × IsBlockOver name words.entry.0.now words.entry.1.now words.entry.2.now text
        × Appends (W.contents out.old) (W.contents out.new) (text ++ 10 ∷ [])) }
{
    let Some(field) = field_named(field) else {
        bail!("the fields are Fe32, Fe1024 and Fe32768");
    };
    let block = block_over(alloc, field, words)?;
    writeln!(out, "{block}")?;
    Ok(())
}
