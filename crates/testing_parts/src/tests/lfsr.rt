ghost use Rattle.std.specs.Prelude.{◌<◌, length};

use crate::tests::compare::same;
use bech32_gf::gf32::Fe32;
use bech32_poly::lfsr::LfsrIter;
use linked_list_allocator::LocalHeap;
use std::alloc::{AllocError, Global};
use std::process::Abort;
use testing_tools::known::ELEMENTS;

// Eight items.
fn eight() -> [Fe32; 8] {
    [
        Fe32::P,
        Fe32::Q,
        Fe32::Q,
        Fe32::P,
        Fe32::Z,
        Fe32::X,
        Fe32::R,
        Fe32::Y,
    ]
}

// Whether a register was made that has these coefficients; `None` where there is no memory for it.
fn has(
    made: Result<LfsrIter<Fe32, &LocalHeap>, AllocError>,
    coefficients: &[Fe32],
) -> Option<bool> {
    match made {
        Ok(register) => Some(register.coefficients() == coefficients),
        Err(_) => None,
    }
}

// Whether there is memory for a register of these items, and what comes of its clone then: whether
// this has the same coefficients.
fn made(heap: &LocalHeap, items: &[Fe32]) -> (bool, Option<bool>)
    requires { 0 < length items.now }
{
    match LfsrIter::berlekamp_massey_in(heap, items) {
        Ok(register) => (true, has(register.clone(), register.coefficients())),
        Err(_) => (false, None),
    }
}

// The same on a heap of this many bytes, and how much memory the two use.
fn made_with(
    rt: &impl Abort,
    alloc: Global,
    bytes: usize,
    items: &[Fe32],
) -> (bool, Option<bool>, usize) {
    assert!(rt; !items.is_empty());
    let heap = LocalHeap::new(alloc, bytes).expect(rt, "memory");
    let (is_made, is_cloned) = made(&heap, items);
    (is_made, is_cloned, heap.used())
}

fn six_items_take_no_memory(rt: &impl Abort, alloc: Global) {
    let eight = eight();
    for count in 1..=6usize {
        let items = eight.get(..count).expect(rt, "too many");
        let made = made_with(rt, alloc, 1 << 10, items);
        same(rt, &(count, made), &(count, (true, Some(true), 0)));
    }
}

fn twenty_items_or_out_of_memory(rt: &impl Abort, alloc: Global) {
    let (mut refused, mut cloned) = (0u32, 0u32);
    for size in 0..64usize {
        match made_with(rt, alloc, 16 * size, &ELEMENTS[1..21]) {
            (false, _, _) => refused = refused.saturating_add(1),
            (true, Some(is_cloned), _) => {
                same(rt, &(size, is_cloned), &(size, true));
                cloned = cloned.saturating_add(1);
            }
            (true, None, _) => {}
        }
    }
    assert!(rt; 1 <= refused && refused < 64 && 1 <= cloned);
}

#[test]
fn registers_in_place_or_out_of_memory(rt: HostRuntime) {
    six_items_take_no_memory(&rt, rt.alloc());
    twenty_items_or_out_of_memory(&rt, rt.alloc());
}
