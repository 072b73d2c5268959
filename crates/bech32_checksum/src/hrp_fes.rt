//! The elements of a human-readable part, one at a time.

ghost use Rattle.std.specs.Prelude.{◌≡◌, ◌*◌, ◌+◌, ◌≤◌, ◌<◌, length, slice_get, IfSome, Some};
ghost use Rattle.bech32_checksum.specs.TextPolynomial.{hrp_elements};

use bech32_gf::gf32::Fe32;
use bech32_hrp::Hrp;

/// The elements of a human-readable part: the high bits of each byte, a zero, the low bits of each
/// (BIP-173, Checksum). The case of its letters does not count.
#[derive(Drop)]
pub struct HrpFe32Iter<'hrp> {
    // The bytes of the part, and how many elements have come.
    bytes: &'hrp [u8],
    place: usize,
    ghost short: { length bytes.now ≤ 83 },
}

// The element at a place, where there is one.
#[inline]
fn element_at(bytes: &[u8], place: usize) -> Option<Fe32>
    requires { length bytes.now ≤ 83 }
    ensures { result ≡ slice_get (hrp_elements bytes.now) place }
{
    let count = bytes.len();
    if place < count {
        Some(Fe32::from_low_bits(bytes[place].to_ascii_lowercase() / 32))
    } else if place == count {
        Some(Fe32::Q)
    } else if place <= 2 * count {
        Some(Fe32::from_low_bits(bytes[place - count - 1].to_ascii_lowercase()))
    } else {
        None
    }
}

impl<'hrp> HrpFe32Iter<'hrp> {
    ghost use Rattle.bech32_hrp.specs.HrpBytes.{hrp_bytes};
    ghost use Rattle.bech32_checksum.specs.HrpFes.{hrp_fes_rest};

    /// The elements of the part, as a checksum takes them.
    #[inline]
    pub fn new(hrp: &'hrp Hrp) -> Self
        ensures { hrp_fes_rest result ≡ hrp_elements (hrp_bytes hrp.now) }
    {
        HrpFe32Iter {
            bytes: hrp.as_bytes(),
            place: 0,
        }
    }
}

impl Iterator for HrpFe32Iter<'_> {
    type Item = Fe32;

    ghost use Rattle.std.specs.Iterator.{YieldsFirst, item_count, UpTo};
    ghost use Rattle.std.specs.Iterator.SizeHint.{IsWithinCount};
    ghost use Rattle.bech32_checksum.specs.HrpFes.{hrp_fes_rest};

    ghost next_gives = { YieldsFirst hrp_fes_rest };

    ghost remaining = { item_count hrp_fes_rest };

    #[inline]
    fn next(&mut self) -> Option<Fe32> {
        let fe = element_at(self.bytes, self.place)?;
        self.place += 1;
        Some(fe)
    }

    /// Both bounds are the number of elements to come.
    fn size_hint(&self) -> (usize, Option<usize>)
        ensures lower { IsWithinCount result.0 (item_count hrp_fes_rest self.now) }
        ensures upper { IfSome result.1 (UpTo (item_count hrp_fes_rest self.now)) }
        ensures exact { result
            ≡ (length (hrp_fes_rest self.now), Some (length (hrp_fes_rest self.now))) }
    {
        let left = (2 * self.bytes.len() + 1).saturating_sub(self.place);
        (left, Some(left))
    }
}
