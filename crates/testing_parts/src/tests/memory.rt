//! Calls that return what they should, or are out of memory.

ghost use Rattle.std.specs.Prelude.{◌≡◌, ◌<◌, ◌≤◌, length};

use bech32_block::{PrintError, PrintImpl};
use bech32_gf::gf32::Fe32;
use bech32_hrp::Hrp;
use bech32_poly::polynomial::remainder;
use linked_list_allocator::LocalHeap;
use std::alloc::Global;
use std::process::Abort;
use testing_tools::compare::shown;
use testing_tools::heaps::{InHeap, right_or_wants_memory};

// What the block of a generator and the target one displays.
fn block(
    alloc: Global,
    heap: &LocalHeap,
    generator: &[Fe32],
    target: &[Fe32],
) -> Result<String, PrintError>
    requires some { 0 < length generator.now }
    requires few { length generator.now ≤ 25 }
    requires as_many { length target.now ≡ length generator.now }
{
    match PrintImpl::<Fe32>::new_in(heap, "Tiny", generator, target) {
        Ok(block) => Ok(shown(alloc, &block)),
        Err(error) => Err(error),
    }
}

// Whether a generator of degree 1 is refused as such.
fn refuses_degree_1(alloc: Global, heap: &LocalHeap) -> bool {
    match block(alloc, heap, &[Fe32::P], &[Fe32::P]) {
        Ok(_) => false,
        Err(error) => error == PrintError::Degree,
    }
}

// The block of a generator and a target, with memory that does not run out.
fn block_of(alloc: Global, generator: &[Fe32; 2], target: &[Fe32; 2]) -> Option<String> {
    match PrintImpl::<Fe32>::new(alloc, "Tiny", generator, target) {
        Ok(block) => Some(shown(alloc, &block)),
        Err(_) => None,
    }
}

// Whether a generator of degree 1 is refused, and the block of a small one is printed as ever.
fn prints_a_block(alloc: Global, heap: &LocalHeap) -> Option<bool> {
    let (generator, target) = ([Fe32::X, Fe32::G], [Fe32::Q, Fe32::P]);
    if !refuses_degree_1(alloc, heap) {
        return Some(false);
    }
    match block(alloc, heap, &generator, &target) {
        Ok(text) => Some(block_of(alloc, &generator, &target) == Some(text)),
        Err(PrintError::Memory) => None,
        Err(_) => Some(false),
    }
}

// The coefficients of x^0 to x^8 below the degree 40.
fn nine() -> [Fe32; 40] {
    let mut coefficients = [Fe32::Q; 40];
    coefficients[..9].copy_from_slice(&[Fe32::P; 9]);
    coefficients
}

// Whether x^0 to x^49 leave x^0 to x^8. The divisor, the sum of x^0 to x^40, divides x^41 - 1: so
// x^41 to x^49 leave x^0 to x^8, and the powers below cancel.
fn leaves_nine(heap: &LocalHeap) -> Option<bool> {
    let want = nine();
    match remainder(heap, &[Fe32::P; 50], &[Fe32::P; 40]) {
        Ok(rest) => Some(rest.as_slice() == want.as_slice()),
        Err(_) => None,
    }
}

// Whether a part of 36 characters is returned in lower case.
fn lowers(heap: &LocalHeap) -> Option<bool> {
    let Ok(hrp) = Hrp::parse("ABCDEFGHIJKLMNOPQRSTUVWXYZ0123456789") else {
        return Some(false);
    };
    match hrp.to_lowercase_in(heap) {
        Ok(text) => Some(text.as_str() == "abcdefghijklmnopqrstuvwxyz0123456789"),
        Err(_) => None,
    }
}

enum Call {
    Block,
    Remainder,
    LowerCase,
}

impl InHeap for Call {
    fn is_right(&self, alloc: Global, heap: &LocalHeap) -> Option<bool> {
        match self {
            Call::Block => prints_a_block(alloc, heap),
            Call::Remainder => leaves_nine(heap),
            Call::LowerCase => lowers(heap),
        }
    }
}

fn are_right_or_out_of_memory(rt: &impl Abort, alloc: Global) {
    right_or_wants_memory(alloc, &Call::Block, (64, 16)).expect(rt, "right, or out of memory");
    right_or_wants_memory(alloc, &Call::LowerCase, (16, 16)).expect(rt, "right, or out of memory");
}

fn a_remainder_wants_little(rt: &impl Abort, alloc: Global) {
    let wanting = right_or_wants_memory(alloc, &Call::Remainder, (16, 16));
    assert!(rt; wanting.expect(rt, "right, or out of memory") < 8);
}

#[test]
fn calls_or_out_of_memory(rt: HostRuntime) {
    are_right_or_out_of_memory(&rt, rt.alloc());
    a_remainder_wants_little(&rt, rt.alloc());
}
