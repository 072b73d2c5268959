//! All texts that one edit makes of a text, and that a checksum accepts.

ghost use Rattle.std.specs.Prelude.{◌≡◌, ◌<◌, ◌≤◌, ◌+◌, ◌-◌, ◌++◌, ℕ, List, ◌∷◌, [], length, map, take, drop, IfErr, IfOk, MatchResult, IsTrue, string_bytes};
ghost use Rattle.std.specs.List.{AllByRecursion};
ghost use Rattle.std.specs.Str.{IsAscii};
ghost use Rattle.bech32_gf.specs.Fe32.{elements_of};
ghost use Rattle.bech32_gf.specs.declared.gf32.Fe32.{Fe32 as Element};
ghost use Rattle.bech32_checksum.specs.Encoded.{spelled};
ghost use Rattle.bech32_decode.specs.Text.{IsText};
ghost use Rattle.bech32_hrp.specs.Hrp.{lowered};
ghost use Rattle.bech32_hrp.specs.HrpBytes.{hrp_bytes};
ghost use Rattle.bech32_poly.specs.Distinct.{IsAmong};
ghost use Rattle.bech32_near.specs.edits.Edits.{AreAllOf, IsEdit};
ghost use Rattle.bech32_near.specs.declared.edits.edit.Edit.{Edit as AnEdit};
ghost use Rattle.bech32_near.specs.edits.NearEdits.{AreNearEdits, HasNearEdit, IsEditsRefusal};
ghost use Rattle.bech32_near.specs.edits.Walks.{HasAcceptedEdit, IsAcceptedEdit, IsEditOf, IsMadeText};

use crate::edits::edit::{Change, Edit, NearEdit};
use crate::edits::error::EditsError;
use crate::edits::walks::Original;
use bech32_checksum::Checksum;
use bech32_decode::Reading;
use bech32_hrp::Hrp;
use std::alloc::{AllocError, Allocator};

// All edits that make a text that the checksum accepts.
fn edits_of<Ck: Checksum, A: Allocator>(
    alloc: A,
    text: &Original<'_, Ck>,
) -> Result<Vec<Edit, A>, AllocError>
    ensures { MatchResult result
        (λ edits. AreAllOf (IsAcceptedEdit Ck.code (hrp_bytes text.now.hrp)
        (elements_of text.now.characters.now)) edits.items)
        (λ _. HasAcceptedEdit Ck.code (hrp_bytes text.now.hrp)
        (elements_of text.now.characters.now)) }
{
    let mut found = Vec::new(alloc);
    text.push_swapped(&mut found)?;
    text.push_left_out(&mut found)?;
    text.push_put_in(&mut found)?;
    Ok(found)
}

// A text in lower case with some bytes in place of those from one place to another.
fn text_with<A: Allocator>(
    alloc: A,
    text: &[u8],
    start: usize,
    middle: &[u8],
    end: usize,
) -> Result<String<A>, AllocError>
    requires within { (start ≤ length text.now) × (end ≤ length text.now) }
    requires ascii { IsAscii text.now × IsAscii middle.now }
    ensures { IfOk result (λ s.
        string_bytes s ≡ lowered (take start text.now ++ middle.now ++ drop end text.now)) }
{
    let mut new = Vec::with_capacity(alloc, text.len() + 1)?;
    new.extend_from_slice(&text[..start])?;
    new.extend_from_slice(middle)?;
    new.extend_from_slice(&text[end..])?;
    // All of it is ASCII: what the call requires is proved.
    let mut made = unsafe { String::from_utf8_unchecked(new) };
    made.make_ascii_lowercase();
    Ok(made)
}

// The text that an edit makes, in lower case.
fn edited_text<A: Allocator>(alloc: A, text: &[u8], edit: Edit) -> Result<String<A>, AllocError>
    requires { IsEditOf text.now edit }
    ensures { IfOk result (λ s. (hrp : List ℕ) (data_part : List ℕ) (new : List Element)
        → IsText text.now hrp data_part → IsEdit edit (elements_of data_part) new
        → string_bytes s ≡ spelled hrp new) }
{
    let end = text.len() - edit.location;
    match edit.change {
        Change::Swapped(higher, lower) => {
            let middle = [lower.to_char() as u8, higher.to_char() as u8];
            text_with(alloc, text, end - 2, &middle, end)
        }
        Change::LeftOut(_) => text_with(alloc, text, end - 1, &[], end),
        Change::PutIn(element) => text_with(alloc, text, end, &[element.to_char() as u8], end),
    }
}

// Each edit with the text that it makes.
fn edited_all<A: Allocator + Copy>(
    alloc: A,
    text: &[u8],
    edits: Vec<Edit, A>,
) -> Result<Vec<NearEdit<String<A>>, A>, AllocError>
    requires { AllByRecursion (IsEditOf text.now) edits.items }
    ensures same { IfOk result (λ texts. map (λ m. m.edit) texts.items ≡ edits.items) }
    ensures each { IfOk result (λ texts.
        AllByRecursion (λ m. IsMadeText m.edit text.now (string_bytes m.text)) texts.items) }
    ensures some { IfErr result (λ _. (edit : AnEdit) × IsAmong edit edits.items) }
{
    let mut texts = Vec::new(alloc);
    for edit in edits {
        let text = edited_text(alloc, text, edit)?;
        texts.push(NearEdit { edit, text })?;
    }
    Ok(texts)
}

/// The texts that one edit makes of a text that was read, as [`near_edits`] has them, with memory
/// from `alloc`.
///
/// # Errors
///
/// Out of memory, as of [`near_edits`].
pub fn near_edits_of_reading<Ck: Checksum, A: Allocator + Copy>(
    alloc: A,
    reading: &Reading<'_, Ck>,
) -> Result<Vec<NearEdit<String<A>>, A>, AllocError>
    ensures { MatchResult result
        (λ found. AreNearEdits Ck.code reading.now.text.now
        (map (λ m. (m.edit, string_bytes m.text)) found.items))
        (λ _. HasNearEdit Ck.code reading.now.text.now) }
{
    let original = Original::<Ck>::new(Hrp::of_bytes(reading.hrp), reading.data_part);
    let edits = edits_of::<Ck, A>(alloc, &original)?;
    edited_all(alloc, reading.text, edits)
}

/// All texts other than this one that one edit makes of it, and that the checksum accepts, with
/// memory from `alloc`. An edit swaps two neighbours of the data part, leaves one of its characters
/// out, or puts one in; the human-readable part stays as it is. Each text stands once, in lower
/// case, with its edit.
///
/// The text need only be in the grammar: one that is longer than the code by a character, or too
/// short for the checksum by one, can be mended so.
///
/// Swaps come first, then what leaves a character out, then what puts one in; within a kind the
/// locations rise. Where several edits make one text, that with the lowest location is told: of a
/// run of equal characters the last is left out, and a character is put in behind a run of the
/// same.
///
/// A text that is found is a guess: compare it with the source before it is used. By
/// [`Bech32`](bech32_checksum::Bech32) a text that ends in `p` is accepted as well with any number
/// of `q` before that (BIP-350), so that an edit of its last two characters may be another than was
/// meant.
///
/// # Errors
///
/// That of [`Reading::new`], where the text is not in the grammar. Out of memory is
/// returned only where there is such a text.
pub fn near_edits<Ck: Checksum, A: Allocator + Copy>(
    alloc: A,
    text: &str,
) -> Result<Vec<NearEdit<String<A>>, A>, EditsError>
    ensures { MatchResult result
        (λ found. AreNearEdits Ck.code text.now
        (map (λ m. (m.edit, string_bytes m.text)) found.items))
        (λ e. IsEditsRefusal Ck.code text.now e) }
{
    let reading = Reading::<Ck>::new(text)?;
    Ok(near_edits_of_reading::<Ck, A>(alloc, &reading)?)
}
