//! What a text is decoded to: its human-readable part, and its bytes or its elements.

ghost use Rattle.std.specs.Prelude.{◌≡◌, length, IfOk, IfErr, MatchResult};
ghost use Rattle.bech32_gf.specs.Fe32.{elements_of};
ghost use Rattle.bech32_hrp.specs.HrpBytes.{hrp_bytes};
ghost use Rattle.bech32_decode.specs.Checked.{IsAcceptedAs};
ghost use Rattle.bech32_decode.specs.Parts.{checked_data};
ghost use Rattle.bech32_decode.specs.SegwitPadding.{IsPadded};
ghost use Rattle.bech32.specs.Contents.{IsContentOf, IsContentRefusal, IsTested, content_of};
ghost use Rattle.bech32.specs.Spelling.{IsStrictRefusal};

use crate::elements::put_elements;
use bech32_checksum::Checksum;
use bech32_decode::CheckedHrpstring;
use bech32_hrp::Hrp;
use bech32_refusals::TextError;
use std::alloc::{AllocError, Allocator};

/// What a data part without its checksum is decoded to.
#[derive(Clone, Copy)]
pub enum Content {
    /// Its bytes. Bits behind the last whole one are dropped.
    Bytes,
    /// Its elements, a byte from 0 to 31 each.
    Elements,
}

// How many bytes that is.
#[inline]
fn size_of_content(checked: &CheckedHrpstring<'_>, content: Content) -> usize
    ensures { result ≡ length (content_of content (checked_data checked.now)) }
{
    match content {
        Content::Bytes => checked.byte_iter().len(),
        Content::Elements => checked.data_part_ascii_no_checksum().len(),
    }
}

// Puts it into a buffer of its size.
#[inline]
fn put_content(checked: &CheckedHrpstring<'_>, content: Content, buffer: &mut [u8])
    requires { length buffer.old ≡ length (content_of content (checked_data checked.now)) }
    ensures { buffer.new ≡ content_of content (checked_data checked.now) }
{
    match content {
        Content::Bytes => {
            checked.put_bytes(buffer);
        }
        Content::Elements => {
            put_elements(checked.data_part_ascii_no_checksum(), buffer);
        }
    }
}

// The content of a text without its checksum.
#[inline]
pub(crate) fn items_in<A: Allocator>(
    alloc: A,
    checked: &CheckedHrpstring<'_>,
    content: Content,
) -> Result<Vec<u8, A>, AllocError>
    ensures { IfOk result (λ v. v.items ≡ content_of content (checked_data checked.now)) }
{
    let mut items = vec![in alloc; 0u8; size_of_content(checked, content)]?;
    put_content(checked, content, items.as_mut_slice());
    Ok(items)
}

// A text without its checksum, where the checksum accepts it and its padding is that of bytes.
fn padded<Ck: Checksum>(s: &str) -> Result<CheckedHrpstring<'_>, TextError>
    ensures { MatchResult result
        (λ c. IsAcceptedAs Ck.code s.now c × IsPadded (elements_of (checked_data c)))
        (λ e. IsStrictRefusal Ck.code s.now e) }
{
    let checked = CheckedHrpstring::new::<Ck>(s)?;
    checked.validate_segwit_padding()?;
    Ok(checked)
}

// The same where the text may have this content: that of elements asks for no padding.
#[inline(always)]
fn tested<Ck: Checksum>(s: &str, content: Content) -> Result<CheckedHrpstring<'_>, TextError>
    ensures { MatchResult result
        (λ c. IsAcceptedAs Ck.code s.now c × IsTested content (elements_of (checked_data c)))
        (λ e. IsContentRefusal content Ck.code s.now e) }
{
    match content {
        Content::Bytes => padded::<Ck>(s),
        Content::Elements => Ok(CheckedHrpstring::new::<Ck>(s)?),
    }
}

// What a text that is the only one of it is decoded to, or why it is not.
#[inline]
pub(crate) fn content_in<Ck: Checksum, A: Allocator>(
    alloc: A,
    s: &str,
    content: Content,
) -> Result<(Hrp, Vec<u8, A>), TextError>
    ensures value { IfOk result
        (λ d. IsContentOf content Ck.code s.now (hrp_bytes d.0) d.1.items) }
    ensures refused { IfErr result (IsContentRefusal content Ck.code s.now) }
{
    let checked = tested::<Ck>(s, content)?;
    let items = items_in(alloc, &checked, content)?;
    Ok((checked.hrp(), items))
}
