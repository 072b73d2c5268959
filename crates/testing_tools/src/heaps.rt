//! Calls on heaps of more and more memory.

use linked_list_allocator::LocalHeap;
use std::alloc::Global;

/// A call that takes memory.
pub trait InHeap {
    /// Whether it returns what it should with the memory of a heap; `None` where that does not
    /// suffice.
    fn is_right(&self, alloc: Global, heap: &LocalHeap) -> Option<bool>;
}

/// What is wrong with a call on heaps of more and more memory.
#[derive(Clone, Copy, Debug, PartialEq, Eq)]
pub enum HeapFault {
    /// It returns something else on a heap of this many bytes.
    WrongWith(usize),
    /// It is out of memory on no heap.
    NeverOut,
    /// It is out of memory on each heap.
    AlwaysOut,
    /// There is no memory for a heap.
    NoHeap,
}

// What a call returns on a heap of this many bytes.
fn with_bytes<C: InHeap>(alloc: Global, call: &C, bytes: usize) -> Result<Option<bool>, HeapFault> {
    match LocalHeap::new(alloc, bytes) {
        Ok(heap) => Ok(call.is_right(alloc, &heap)),
        Err(_) => Err(HeapFault::NoHeap),
    }
}

/// On how many of `heaps` heaps, each of `step` bytes more than the one before, a call is out of
/// memory, where it is right on the others. A call that is out of memory on none or on each is
/// refused.
pub fn right_or_wants_memory<C: InHeap>(
    alloc: Global,
    call: &C,
    (heaps, step): (usize, usize),
) -> Result<usize, HeapFault> {
    let mut wanting = 0usize;
    for i in 0..heaps {
        let bytes = step.saturating_mul(i);
        match with_bytes(alloc, call, bytes)? {
            None => wanting = wanting.saturating_add(1),
            Some(true) => {}
            Some(false) => return Err(HeapFault::WrongWith(bytes)),
        }
    }
    if wanting == 0 {
        return Err(HeapFault::NeverOut);
    }
    if wanting >= heaps {
        return Err(HeapFault::AlwaysOut);
    }
    Ok(wanting)
}
