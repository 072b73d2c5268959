//! What bech32 texts are, computed straight from the definitions (BIP-173 and BIP-350). Slow, and
//! for comparison only.

ghost use Rattle.std.specs.Prelude.{◌↔◌, IfOk, IsTrue};
ghost use Rattle.bech32_hrp.specs.HrpBytes.{hrp_bytes};
ghost use Rattle.bech32_decode.specs.Acceptance.{Accepts};
ghost use Rattle.bech32_checksum.specs.Encoded.{IsEncodedText};
ghost use Rattle.testing_tools.specs.PlainChecksum.{code_of_plain};

mod checksum;
mod grammar;
mod polynomial;
mod text;

use crate::plain::text::{accepts_at, spell};
use bech32_gf::gf32::Fe32;
use bech32_hrp::Hrp;
pub use checksum::PlainChecksum;
use std::alloc::{AllocError, Global};

/// Whether a checksum accepts a text: the text is cut at each `1` in turn, its parts are tested by
/// the grammar, and its polynomial is divided with remainder.
///
/// # Errors
///
/// If memory runs out.
pub fn accepts(alloc: Global, checksum: PlainChecksum, text: &str) -> Result<bool, AllocError>
    ensures { IfOk result (λ b. IsTrue b ↔ Accepts (code_of_plain checksum) text.now) }
{
    let bytes = text.as_bytes();
    for at in 0..bytes.len() {
        if accepts_at(alloc, checksum, bytes, at)? {
            return Ok(true);
        }
    }
    Ok(false)
}

/// The text of elements under a human-readable part: the checksum is the remainder of the
/// polynomial that has the target's coefficients in the checksum's place.
///
/// The text may be longer than the code.
///
/// # Errors
///
/// If memory runs out.
pub fn encoded_text(
    alloc: Global,
    checksum: PlainChecksum,
    hrp: &Hrp,
    elements: &[Fe32],
) -> Result<Vec<u8>, AllocError>
    ensures { IfOk result
        (λ v. IsEncodedText (code_of_plain checksum) (hrp_bytes hrp.now) elements.now v.items) }
{
    let appended = checksum.checksum_of(alloc, hrp.as_bytes(), elements)?;
    let mut all = Vec::from_slice(alloc, elements)?;
    all.extend_from_slice(&appended)?;
    spell(alloc, hrp.as_bytes(), &all)
}
