//! Bytes that may be a text.

ghost use Rattle.std.specs.Prelude.{◌≡◌, MatchResult};
ghost use Rattle.std.specs.Str.{IsUtf8};
ghost use Rattle.bech32_decode.specs.Bytes.{IsBytesFault};
ghost use Rattle.bech32_decode.specs.Text.{IsText};

use crate::characters::Quick;
use crate::parts::parts_by;
use bech32_refusals::UncheckedHrpstringError;

/// Bytes are not UTF-8. It is small, unlike a refusal, so that a text is returned quickly.
#[derive(Clone, Copy)]
pub struct NotText;

/// Why bytes are not read as a text.
#[derive(Clone, Copy)]
pub enum BytesError {
    /// They are not UTF-8.
    NotUtf8,
    /// The first fault of their text.
    Text(UncheckedHrpstringError),
}

impl From<NotText> for BytesError {
    ghost use Rattle.bech32_decode.specs.declared.bytes.BytesError.TheVariants.{NotUtf8};

    ghost from_gives = { λ _ r. r ≡ NotUtf8 };

    fn from(_: NotText) -> BytesError {
        BytesError::NotUtf8
    }
}

impl From<UncheckedHrpstringError> for BytesError {
    ghost use Rattle.bech32_decode.specs.declared.bytes.BytesError.TheVariants.{Text};

    ghost from_gives = { λ e r. r ≡ Text e };

    fn from(e: UncheckedHrpstringError) -> BytesError {
        BytesError::Text(e)
    }
}

/// The text of bytes.
///
/// # Errors
///
/// Bytes that are not UTF-8.
#[inline]
pub fn text_of(bytes: &[u8]) -> Result<&str, NotText>
    ensures { MatchResult result
        (λ text. (text.now ≡ bytes.now) × IsUtf8 bytes.now)
        (λ _. ¬ (IsUtf8 bytes.now)) }
{
    if bytes.is_ascii() {
        // ASCII is UTF-8: what the call requires is proved.
        return Ok(unsafe { str::from_utf8_unchecked(bytes) });
    }
    match str::from_utf8(bytes) {
        Ok(text) => Ok(text),
        Err(_) => Err(NotText),
    }
}

// The parts of the text of bytes, or why they have none. Out of line: its result is small, and what
// is read of the parts is not. Most texts are walked over, without a test whether they are UTF-8.
#[cold]
#[inline(never)]
pub(crate) fn parts_of_bytes(bytes: &[u8]) -> Result<(&[u8], &[u8]), BytesError>
    ensures { MatchResult result
        (λ p. IsUtf8 bytes.now × IsText bytes.now p.0.now p.1.now)
        (λ e. IsBytesFault bytes.now e) }
{
    let text = text_of(bytes)?;
    let parts = parts_by::<Quick>(text)?;
    Ok(parts)
}
