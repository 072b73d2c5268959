use crate::tests::compare::same;
use bech32_gf::gf32::Fe32;
use bech32_poly::fieldvec::{FieldVec, NO_ALLOC_MAX_LENGTH};
use linked_list_allocator::LocalHeap;
use std::alloc::{AllocError, Global};
use std::process::Abort;

// How many elements a vector has that could be cloned.
fn length_of(made: Result<FieldVec<Fe32, &LocalHeap>, AllocError>) -> Option<usize> {
    match made {
        Ok(vector) => Some(vector.len()),
        Err(_) => None,
    }
}

// Appends this many elements to a vector, as far as there is memory.
fn fill(vector: &mut FieldVec<Fe32, &LocalHeap>, count: usize) {
    for _ in 0..count {
        if vector.push(Fe32::P).is_err() {
            return;
        }
    }
}

// Appends this many elements to a vector, as far as there is memory: how many fit, how many its
// clone has where that fits too, and how much memory the two use.
fn filled(heap: &LocalHeap, count: usize) -> (usize, Option<usize>, usize) {
    let mut vector = FieldVec::new(heap);
    fill(&mut vector, count);
    let copy: Result<_, _> = vector.clone();
    let used = heap.used();
    (vector.len(), length_of(copy), used)
}

// The same on a heap of this many bytes.
fn fitting(
    alloc: Global,
    bytes: usize,
    count: usize,
) -> Result<(usize, Option<usize>, usize), AllocError> {
    let heap = LocalHeap::new(alloc, bytes)?;
    Ok(filled(&heap, count))
}

fn seven_in_place(rt: &impl Abort, alloc: Global) {
    same(rt, &NO_ALLOC_MAX_LENGTH, &7);
    same(
        rt,
        &fitting(alloc, 1 << 10, 7).expect(rt, "memory"),
        &(7, Some(7), 0),
    );
    let (length, of_clone, used) = fitting(alloc, 1 << 10, 8).expect(rt, "memory");
    same(rt, &(length, of_clone, used > 0), &(8, Some(8), true));
}

fn twenty_or_out_of_memory(rt: &impl Abort, alloc: Global) {
    let mut seen = [0u32; 3];
    for size in 0..64usize {
        let kind = match fitting(alloc, 16 * size, 20).expect(rt, "memory") {
            (20, Some(_), _) => 0,
            (20, None, _) => 1,
            _ => 2,
        };
        seen[kind] = seen[kind].saturating_add(1);
    }
    let [whole, without_clone, less] = seen;
    assert!(rt; 1 <= whole && 1 <= without_clone && 1 <= less);
}

#[test]
fn vectors_in_place_or_out_of_memory(rt: HostRuntime) {
    seven_in_place(&rt, rt.alloc());
    twenty_or_out_of_memory(&rt, rt.alloc());
}
