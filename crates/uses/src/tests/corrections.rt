//! Corrections: location 0 is the last character, and each element is to be added to the one there.

ghost use Rattle.std.specs.Prelude.{◌≡◌, IfSome};

use crate::tests::compare::{same, same_items};
use bech32::primitives::correction::{Corrector, NO_ALLOC_MAX_LENGTH};
use bech32::primitives::decode::CheckedHrpstring;
use bech32::{
    Bech32, CorrectableError, CorrectingChecksum, Correction, Fe32, Mended, correct, nearest,
    segwit,
};
use std::alloc::Global;
use std::process::Abort;
use std::test::Fail;

// The corrector of what a checksum refuses by this error, where the error carries a residue.
fn corrector_by<Ck: CorrectingChecksum, E: CorrectableError>(
    alloc: Global,
    error: &E,
) -> Option<Corrector<Ck, Global>>
    ensures { IfSome result (λ c. c.window ≡ Ck.CODE_LENGTH) }
{
    error.correction_context::<Ck, Global>(alloc)
}

fn corrector_of_text(alloc: Global, text: &str) -> Option<Corrector<Bech32, Global>>
    ensures { IfSome result (λ c. c.window ≡ 1023) }
{
    let error = CheckedHrpstring::new::<Bech32>(text).err()?;
    corrector_by::<Bech32, _>(alloc, &error)
}

fn corrector_of_address(alloc: Global, address: &str) -> Option<Corrector<Bech32, Global>>
    ensures { IfSome result (λ c. c.window ≡ 1023) }
{
    let error = segwit::decode(alloc, address).err()?;
    corrector_by::<Bech32, _>(alloc, &error)
}

// Fails where a corrector lists other than these: the erasures, and then the errors.
fn lists(
    rt: &impl Abort,
    alloc: Global,
    corrector: &Corrector<Bech32, Global>,
    want: &[(usize, Fe32)],
) -> Result<(), Fail> {
    let errors = corrector.bch_errors()?.ok_or("no pattern")?;
    let listing: Vec<(usize, Fe32)> = errors.collect(alloc)?;
    same_items(rt, &listing, want);
    Ok(())
}

fn without_and_with_an_erasure(rt: &impl Abort, alloc: Global) -> Result<(), Fail> {
    let mut corrector = corrector_of_text(alloc, "a12uel5q").ok_or("no residue")?;
    lists(rt, alloc, &corrector, &[(0, Fe32::L)])?;
    corrector.add_erasures(&[3])?;
    lists(rt, alloc, &corrector, &[(3, Fe32::Q), (0, Fe32::L)])
}

fn corrects_an_address(rt: &impl Abort, alloc: Global) -> Result<(), Fail> {
    let mistyped = "bc1qar0srrr7xfkvy5l64qlydnw9re59gtzzwf5mdx";
    let mut corrector = corrector_of_address(alloc, mistyped).ok_or("no residue")?;
    same(rt, &(corrector.window(), NO_ALLOC_MAX_LENGTH), &(1023, 7));
    corrector.add_erasures(&[0])?;
    lists(rt, alloc, &corrector, &[(0, Fe32::X), (20, Fe32::_3)])
}

// How Bech32 corrects a text.
fn corrected(alloc: Global, text: &str, erasures: &[usize]) -> Option<Mended> {
    match correct::<Bech32, _>(alloc, text, erasures) {
        Ok(Correction::Mended(mended)) => Some(mended),
        _ => None,
    }
}

fn corrects_by_one_call(rt: &impl Abort, alloc: Global) {
    let mistyped = "BC1QAR0SRRR7XFKVY5L64QLYDNW9RE59GTZZWF5MDX";
    let mended = corrected(alloc, mistyped, &[0]).expect(rt, "a correction");
    let right = "bc1qar0srrr7xfkvy5l643lydnw9re59gtzzwf5mdq";
    same(rt, &mended.text.as_str(), &right);
    same_items(
        rt,
        mended.listing.as_slice(),
        &[(0, Fe32::X), (20, Fe32::_3)],
    );
}

// Whether this is the only text that Bech32 accepts with at most two other characters.
fn is_only_near(alloc: Global, mistyped: &str, text: &str) -> bool {
    match nearest::<Bech32, _>(alloc, mistyped, &[], 2) {
        Ok(near) => near.texts.len() == 1 && near.texts[0].text.as_str() == text,
        Err(_) => false,
    }
}

fn finds_two_wrong_characters(rt: &impl Abort, alloc: Global) {
    let mistyped = "bc1qar0srrr7xfkvy5l64qlydnw9re59gtzzwf5mdx";
    let right = "bc1qar0srrr7xfkvy5l643lydnw9re59gtzzwf5mdq";
    same(rt, &is_only_near(alloc, mistyped, right), &true);
}

#[test]
fn corrections_of_texts(rt: HostRuntime) -> Result<(), Fail> {
    without_and_with_an_erasure(&rt, rt.alloc())?;
    corrects_an_address(&rt, rt.alloc())?;
    corrects_by_one_call(&rt, rt.alloc());
    finds_two_wrong_characters(&rt, rt.alloc());
    Ok(())
}
