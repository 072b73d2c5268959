//! The polynomial of a text as the whole list of its coefficients.

ghost use Rattle.std.specs.Prelude.{◌≡◌, ◌/◌, IfOk, map};
ghost use Rattle.bech32_gf.specs.Fe32.{element};
ghost use Rattle.bech32_hrp.specs.Hrp.{lowered};
ghost use Rattle.bech32_checksum.specs.TextPolynomial.{text_polynomial};

use bech32_gf::gf32::Fe32;
use std::alloc::{AllocError, Global};

// Bytes with each letter in lower case.
pub(crate) fn lower_case(alloc: Global, bytes: &[u8]) -> Result<Vec<u8>, AllocError>
    ensures { IfOk result (λ v. v.items ≡ lowered bytes.now) }
{
    bytes.iter().map(|b| b.to_ascii_lowercase()).collect(alloc)
}

// The elements of the high bits of bytes.
fn high_bits(alloc: Global, bytes: &[u8]) -> Result<Vec<Fe32>, AllocError>
    ensures { IfOk result (λ v. v.items ≡ map (λ b. element (b / 32)) bytes.now) }
{
    bytes
        .iter()
        .map(|b| Fe32::from_low_bits(*b / 32))
        .collect(alloc)
}

// The elements of the low bits of bytes.
fn low_bits(alloc: Global, bytes: &[u8]) -> Result<Vec<Fe32>, AllocError>
    ensures { IfOk result (λ v. v.items ≡ map element bytes.now) }
{
    bytes.iter().map(|b| Fe32::from_low_bits(*b)).collect(alloc)
}

// The coefficients of a text's polynomial, the constant term first: from the highest they are one,
// the elements of the human-readable part, and the elements behind it.
pub(crate) fn polynomial_of_text(
    alloc: Global,
    hrp: &[u8],
    elements: &[Fe32],
) -> Result<Vec<Fe32>, AllocError>
    ensures { IfOk result (λ v. v.items ≡ text_polynomial hrp.now elements.now) }
{
    let hrp = lower_case(alloc, hrp)?;
    let mut coefficients = Vec::new(alloc);
    coefficients.push(Fe32::from_low_bits(1))?;
    coefficients.extend_from_slice(&high_bits(alloc, &hrp)?)?;
    coefficients.push(Fe32::from_low_bits(0))?;
    coefficients.extend_from_slice(&low_bits(alloc, &hrp)?)?;
    coefficients.extend_from_slice(elements)?;
    coefficients.reverse();
    Ok(coefficients)
}
