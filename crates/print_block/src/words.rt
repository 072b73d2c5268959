//! The block that words ask for.

ghost use Rattle.std.specs.Prelude.{◌≡◌, ◌<◌, length, IfOk, IfErr, string_bytes};
ghost use Rattle.bech32_block.specs.Print.{IsBlock, block_of};
ghost use Rattle.bech32_block.specs.Roots.{root_field};
ghost use Rattle.print_block.specs.Words.{AreElementsOf, IsBlockOfWords};
ghost use Rattle.print_block.specs.Refusals.{IsElementsRefusal, IsWordRefusal, IsWordsRefusal};

use crate::error::BlockError;
use bech32_block::{NamedField, PrintImpl};
use bech32_gf::field::{Bech32Field, ExtensionField};
use bech32_gf::gf32::Fe32;
use std::alloc::{AllocError, Global};

// The elements whose characters these are.
fn elements_of(alloc: Global, word: &[u8]) -> Result<Vec<Fe32>, BlockError>
    ensures value { IfOk result (λ v. AreElementsOf word.now v.items) }
    ensures refused { IfErr result (IsWordRefusal word.now) }
{
    let mut elements = Vec::new(alloc);
    for character in word {
        let element = match Fe32::from_char(*character as char) {
            Ok(element) => element,
            Err(e) => return Err(BlockError::Character(e)),
        };
        if elements.push(element).is_err() {
            return Err(BlockError::Memory);
        }
    }
    Ok(elements)
}

// The text that a block is shown as.
fn text_of<E: Bech32Field>(alloc: Global, block: &PrintImpl<'_, E>) -> Result<String, AllocError>
    ensures { IfOk result (λ text. string_bytes text ≡ block_of E.rust_code block.now) }
{
    format!(in alloc; "{block}")
}

// The block of a generator and a target, where they have one.
fn block_of_elements<E: NamedField + ExtensionField<BaseField = Fe32>>(
    alloc: Global,
    name: &str,
    generator: &[Fe32],
    target: &[Fe32],
) -> Result<String, BlockError>
    requires { 0 < length name.now }
    ensures block { IfOk result (λ text. IsBlock
        (root_field E.ops E.eq E.embed E.GENERATOR E.MULTIPLICATIVE_ORDER) E.rust_code E.field_name
        name.now generator.now target.now (string_bytes text)) }
    ensures refused { IfErr result (IsElementsRefusal
        (root_field E.ops E.eq E.embed E.GENERATOR E.MULTIPLICATIVE_ORDER)
        generator.now target.now) }
{
    if generator.is_empty() || generator.len() > 25 {
        return Err(BlockError::Generator);
    }
    if target.len() != generator.len() {
        return Err(BlockError::Target);
    }
    let block = match PrintImpl::<E>::new(alloc, name, generator, target) {
        Ok(block) => block,
        Err(e) => return Err(BlockError::Print(e)),
    };
    match text_of(alloc, &block) {
        Ok(text) => Ok(text),
        Err(_) => Err(BlockError::Memory),
    }
}

/// The block of the checksum of this name, with the generator and the target whose coefficients
/// these characters are, from the highest down.
///
/// # Errors
///
/// The first of: the name is empty; a character of the generator, and then of the target, stands
/// for no element; the generator does not have 1 to 25 coefficients; the target does not have as
/// many; there is no block; or memory runs out.
pub fn block_of_words<E: NamedField + ExtensionField<BaseField = Fe32>>(
    alloc: Global,
    name: &str,
    generator: &str,
    target: &str,
) -> Result<String, BlockError>
    ensures block { IfOk result (λ text. IsBlockOfWords
        (root_field E.ops E.eq E.embed E.GENERATOR E.MULTIPLICATIVE_ORDER) E.rust_code E.field_name
        name.now generator.now target.now (string_bytes text)) }
    ensures refused { IfErr result (IsWordsRefusal
        (root_field E.ops E.eq E.embed E.GENERATOR E.MULTIPLICATIVE_ORDER)
        name.now generator.now target.now) }
{
    if name.is_empty() {
        return Err(BlockError::Name);
    }
    let generator = elements_of(alloc, generator.as_bytes())?;
    let target = elements_of(alloc, target.as_bytes())?;
    block_of_elements::<E>(alloc, name, &generator, &target)
}
