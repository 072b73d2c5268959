//! Comparisons of what adaptors give, for any iterator of elements: proved once, and cheap to call.

ghost use Rattle.std.specs.Prelude.{◌≡◌};
ghost use Rattle.std.specs.Iterator.{IsFinite};
ghost use Rattle.bech32_encode.specs.Encoder.{encoder_elements};

use crate::tests::compare::same;
use bech32_checksum::Checksum;
use bech32_encode::{Checksummed, Encoder};
use bech32_gf::gf32::Fe32;
use bech32_hrp::Hrp;
use std::process::Abort;
use testing_tools::compare::first_difference;

/// The bounds on how many more items come.
pub type Hint = (usize, Option<usize>);

/// What stands in front of elements: the human-readable part, and a version where there is one.
pub type Front<'a> = (&'a Hrp, Option<Fe32>);

/// The encoder of elements behind such a front.
pub fn encoder_behind<'a, I: Iterator<Item = Fe32>, Ck: Checksum>(
    front: Front<'a>,
    elements: I,
) -> Encoder<'a, I, Ck>
    ensures { encoder_elements result ≡ elements }
{
    let (hrp, version) = front;
    let encoder = Encoder::new(elements, hrp);
    match version {
        Some(version) => encoder.with_witness_version(version),
        None => encoder,
    }
}

/// Fails where the elements of a text are other ones.
pub fn elements_are<I: Iterator<Item = Fe32>, Ck: Checksum>(
    rt: &impl Abort,
    front: Front<'_>,
    elements: I,
    want: &[Fe32],
)
    requires can { I.can_next elements }
    requires finite { IsFinite (I.remaining elements) }
{
    same(
        rt,
        &first_difference(encoder_behind::<I, Ck>(front, elements).fes(), want),
        &None,
    );
}

/// Fails where the characters of a text are other ones.
pub fn characters_are<I: Iterator<Item = Fe32>, Ck: Checksum>(
    rt: &impl Abort,
    front: Front<'_>,
    elements: I,
    want: &[char],
)
    requires can { I.can_next elements }
    requires finite { IsFinite (I.remaining elements) }
{
    same(
        rt,
        &first_difference(encoder_behind::<I, Ck>(front, elements).chars(), want),
        &None,
    );
}

/// Fails where the bytes of a text are other ones.
pub fn bytes_are<I: Iterator<Item = Fe32>, Ck: Checksum>(
    rt: &impl Abort,
    front: Front<'_>,
    elements: I,
    want: &[u8],
)
    requires can { I.can_next elements }
    requires finite { IsFinite (I.remaining elements) }
{
    same(
        rt,
        &first_difference(encoder_behind::<I, Ck>(front, elements).bytes(), want),
        &None,
    );
}

/// Fails where elements, with their checksum behind them, are other ones.
pub fn checksummed_are<I: Iterator<Item = Fe32>, Ck: Checksum>(
    rt: &impl Abort,
    elements: I,
    want: &[Fe32],
)
    requires can { I.can_next elements }
    requires finite { IsFinite (I.remaining elements) }
{
    same(
        rt,
        &first_difference(Checksummed::<I, Ck>::new(elements), want),
        &None,
    );
}

/// Fails where the bounds on elements with their checksum behind them are other ones.
pub fn hint_of_checksummed<I: Iterator<Item = Fe32> + Drop, Ck: Checksum>(
    rt: &impl Abort,
    elements: I,
    hint: Hint,
) {
    same(rt, &Checksummed::<I, Ck>::new(elements).size_hint(), &hint);
}
