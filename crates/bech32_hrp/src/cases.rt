//! Tests of bytes that may be a human-readable part, without reading it.

ghost use Rattle.std.specs.Prelude.{◌≡◌, ◌↔◌, IsTrue};
ghost use Rattle.std.specs.List.{list_any, list_all};
ghost use Rattle.bech32_hrp.specs.Hrp.{IsHrp, is_graphic, is_lower, is_upper};

use crate::{MAX_HRP_LEN, is_graphic_byte};

/// In which cases bytes have letters.
#[derive(Clone, Copy)]
pub struct Cases {
    pub lower: bool,
    pub upper: bool,
}

/// In which cases bytes have letters. Each is looked at, so that many can be at a time.
#[inline]
pub fn cases_of(bytes: &[u8]) -> Cases
    ensures lower { result.lower ≡ list_any is_lower bytes.now }
    ensures upper { result.upper ≡ list_any is_upper bytes.now }
{
    let mut lower = false;
    let mut upper = false;
    for b in bytes {
        lower |= b.is_ascii_lowercase();
        upper |= b.is_ascii_uppercase();
    }
    Cases { lower, upper }
}

// Whether all bytes may stand in a part.
#[inline]
fn are_graphic(bytes: &[u8]) -> bool
    ensures { result ≡ list_all is_graphic bytes.now }
{
    let mut graphic = true;
    for b in bytes {
        graphic &= is_graphic_byte(*b);
    }
    graphic
}

/// Whether bytes are a human-readable part: those that [`Hrp::parse`](crate::Hrp::parse) reads.
#[inline]
pub fn is_part(bytes: &[u8]) -> bool
    ensures { IsTrue result ↔ IsHrp bytes.now }
{
    if bytes.is_empty() || bytes.len() > MAX_HRP_LEN || !are_graphic(bytes) {
        return false;
    }
    let cases = cases_of(bytes);
    !(cases.lower && cases.upper)
}
