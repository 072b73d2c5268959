//! The remainders of single terms, each packed into a number.

ghost use Rattle.std.specs.Prelude.{◌≡◌, ◌≢◌, ◌<◌, IfOk, length};
ghost use Rattle.bech32_gf.specs.Fe32 as fe32;
ghost use Rattle.bech32_checksum.specs.Packed.{HasDigits};
ghost use Rattle.bech32_detect.specs.Rows.{AreTermRows, HasTermsAdded};

use bech32_checksum::{Checksum, Engine, PackedFe32};
use bech32_gf::gf32::Fe32;
use std::alloc::{AllocError, Allocator};

/// A packed remainder as a number of its own: the widest one of any checksum has 125 bits.
pub(super) fn row_of<Ck: Checksum>(residue: &Ck::MidstateRepr) -> u128
    requires { HasDigits Ck.CHECKSUM_LENGTH (Ck.MidstateRepr.number residue.now) }
    ensures { result ≡ Ck.MidstateRepr.number residue.now }
{
    let mut row = 0;
    for i in 0..Ck::CHECKSUM_LENGTH {
        let place = Ck::CHECKSUM_LENGTH - 1 - i;
        row = row * 32 + u128::from(residue.unpack(place));
    }
    row
}

// Puts in the rows of a value times each power of x from the first to below the n-th.
fn push_terms<Ck: Checksum, A: Allocator>(
    rows: &mut Vec<u128, A>,
    value: Fe32,
    n: usize,
) -> Result<(), AllocError>
    ensures { IfOk result
        (λ _. HasTermsAdded Ck.code.generator n value rows.old.items rows.new.items) }
{
    let mut engine = Engine::<Ck>::zero();
    engine.input_fe(value);
    for _ in 1..n {
        engine.input_fe(Fe32::Q);
        rows.push(row_of::<Ck>(engine.residue()))?;
    }
    Ok(())
}

/// The rows of zero and of each value that is not zero times each of these powers of x.
pub(super) fn term_rows<Ck: Checksum, A: Allocator>(
    alloc: A,
    n: usize,
) -> Result<Vec<u128, A>, AllocError>
    ensures { IfOk result (λ rows. AreTermRows Ck.code.generator n rows.items) }
{
    let mut rows = Vec::new(alloc);
    rows.push(0)?;
    for value in 1..32u8 {
        push_terms::<Ck, A>(&mut rows, Fe32::from_low_bits(value), n)?;
    }
    Ok(rows)
}
