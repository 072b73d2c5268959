//! Regrouping of bits word by word as it is defined: the whole list of bits first, and then its
//! parts. Slow, and for comparison only.

ghost use Rattle.std.specs.Prelude.{IfOk, OnOk, length, slice_index, ◌≡◌, ◌++◌, ◌+◌, ◌*◌, ◌%◌, ◌<◌, ◌≤◌, nat_lt, true};
ghost use Rattle.std.specs.List.{list_all};
ghost use Rattle.bech32_gf.specs.Fe32.{element};
ghost use Rattle.bech32_bits.specs.Bits.{bits, byte_bits, fe_bits, cut_in_fives, cut_in_eights, to_fes, to_bytes};

use bech32_gf::gf32::Fe32;
use std::alloc::{AllocError, Global};

/// The elements that stand for bytes, with zero bits added at the end.
///
/// # Errors
///
/// If memory runs out.
pub fn plain_to_fes(alloc: Global, bytes: &[u8]) -> Result<Vec<Fe32>, AllocError>
    ensures { IfOk result (λ v. v.items ≡ to_fes bytes.now) }
{
    let all = bits_of_bytes(alloc, bytes)?;
    let all = padded_to_fives(all)?;
    fives(alloc, &all)
}

/// The bytes that elements stand for, with a last part shorter than eight bits dropped.
///
/// # Errors
///
/// If memory runs out.
pub fn plain_to_bytes(alloc: Global, fes: &[Fe32]) -> Result<Vec<u8>, AllocError>
    ensures { IfOk result (λ v. v.items ≡ to_bytes fes.now) }
{
    let all = bits_of_fes(alloc, fes)?;
    eights(alloc, &all)
}

// Appends this many lowest bits of a number, highest first.
fn push_bits(out: &mut Vec<u8>, number: u8, count: u8) -> Result<(), AllocError>
    requires { count ≤ 8 }
    ensures { OnOk result (out.new.items ≡ out.old.items ++ bits count number) }
{
    for place in (0..count).rev() {
        out.push(number >> place & 1)?;
    }
    Ok(())
}

fn bits_of_bytes(alloc: Global, bytes: &[u8]) -> Result<Vec<u8>, AllocError>
    ensures { IfOk result (λ v. v.items ≡ byte_bits bytes.now) }
{
    let mut all = Vec::new(alloc);
    for byte in bytes {
        push_bits(&mut all, *byte, 8)?;
    }
    Ok(all)
}

fn bits_of_fes(alloc: Global, fes: &[Fe32]) -> Result<Vec<u8>, AllocError>
    ensures { IfOk result (λ v. v.items ≡ fe_bits fes.now) }
{
    let mut all = Vec::new(alloc);
    for fe in fes {
        push_bits(&mut all, fe.to_u8(), 5)?;
    }
    Ok(all)
}

// Appends zeros until five divides the number of bits.
fn padded_to_fives(mut all: Vec<u8>) -> Result<Vec<u8>, AllocError>
    ensures cut { IfOk result (λ v. cut_in_fives v.items ≡ cut_in_fives all.items) }
    ensures whole { IfOk result (λ v. length v.items % 5 ≡ 0) }
{
    while all.len() % 5 != 0 {
        all.push(0)?;
    }
    Ok(all)
}

// The element of the five bits from a place on.
fn five_at(all: &[u8], at: usize) -> Fe32
    requires { at + 5 ≤ length all.now }
    ensures { let bit = slice_index all.now in
        result ≡ element
        (16 * bit at + 8 * bit (at + 1) + 4 * bit (at + 2) + 2 * bit (at + 3) + bit (at + 4)) }
{
    let mut number = 16 * all[at] as u16;
    number += 8 * all[at + 1] as u16;
    number += 4 * all[at + 2] as u16;
    number += 2 * all[at + 3] as u16;
    number += all[at + 4] as u16;
    Fe32::from_low_bits((number % 32) as u8)
}

fn fives(alloc: Global, all: &[u8]) -> Result<Vec<Fe32>, AllocError>
    requires { length all.now % 5 ≡ 0 }
    ensures { IfOk result (λ v. v.items ≡ cut_in_fives all.now) }
{
    let mut fes = Vec::new(alloc);
    let mut at = 0;
    while at < all.len() {
        fes.push(five_at(all, at))?;
        at += 5;
    }
    Ok(fes)
}

// The byte of the eight bits from a place on.
fn eight_at(all: &[u8], at: usize) -> u8
    requires { at + 8 ≤ length all.now }
    ensures { let bit = slice_index all.now in
        result ≡ (128 * bit at + 64 * bit (at + 1) + 32 * bit (at + 2) + 16 * bit (at + 3)
        + 8 * bit (at + 4) + 4 * bit (at + 5) + 2 * bit (at + 6) + bit (at + 7)) % 256 }
{
    let mut number = 128 * all[at] as u16;
    number += 64 * all[at + 1] as u16;
    number += 32 * all[at + 2] as u16;
    number += 16 * all[at + 3] as u16;
    number += 8 * all[at + 4] as u16;
    number += 4 * all[at + 5] as u16;
    number += 2 * all[at + 6] as u16;
    number += all[at + 7] as u16;
    (number % 256) as u8
}

fn eights(alloc: Global, all: &[u8]) -> Result<Vec<u8>, AllocError>
    requires { list_all (λ b. nat_lt b 2) all.now ≡ true }
    ensures { IfOk result (λ v. v.items ≡ cut_in_eights all.now) }
{
    let mut bytes = Vec::new(alloc);
    let mut at = 0;
    while all.len() - at >= 8 {
        bytes.push(eight_at(all, at))?;
        at += 8;
    }
    Ok(bytes)
}
