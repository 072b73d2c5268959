//! Memory for tests: an allocator that refuses one request, whichever a test names.

use std::alloc::{AllocError, Allocator};
use std::cell::Cell;

/// Hands each request on to another allocator but one, which it refuses.
pub struct Refusing<B: Allocator> {
    inner: B,
    // The number, from 1 on, that the request to refuse has among those to come; 0 behind it.
    left: Cell<u64>,
}

impl<B: Allocator> Refusing<B> {
    /// One that refuses the request of this number, from 1 on.
    pub fn new(inner: B, number: u64) -> Refusing<B> {
        Refusing {
            inner,
            left: Cell::new(number),
        }
    }

    /// Whether that request came.
    pub fn has_refused(&self) -> bool {
        self.left.get() == 0
    }
}

impl<B: Allocator> Drop for Refusing<B> {
    fn drop(self) {
        let Self { inner: _, left: _ } = self;
    }
}

// Whether the request that comes now is the one to refuse.
fn is_turn(left: &Cell<u64>) -> bool {
    let number = left.get();
    if number == 0 {
        return false;
    }
    left.set(number - 1);
    number == 1
}

unsafe impl<B: Allocator> Allocator for Refusing<B> {
    ghost dealloc_token = { λ heap ty ptr. B.dealloc_token heap.inner ty ptr };

    fn allocate(&self, size: usize, align: usize) -> Result<*mut u8, AllocError> {
        if is_turn(&self.left) {
            return Err(AllocError);
        }
        self.inner.allocate(size, align)
    }

    unsafe fn deallocate(&self, ptr: *mut u8, size: usize, align: usize) {
        self.inner.deallocate(ptr, size, align);
    }
}
