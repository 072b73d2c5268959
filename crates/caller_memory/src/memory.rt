//! Memory as a C program describes it.

ghost use Rattle.std.specs.Prelude.{◌≡◌, ◌<◌, ◌≤◌, ◌%◌, ◌^◌, IfOk, IfSome};
ghost use Rattle.caller_memory.specs.Ownership.{bytes_at};
ghost use Rattle.caller_memory.specs.declared.memory.Memory.{Memory as Whole};
ghost use Rattle.caller_memory.specs.Memory.{memory_size};

use core::mem::replace_with;
use std::alloc::{AllocError, Allocator, Global};
use std::marker::Model;

// The number of bytes to which memory is aligned.
pub(crate) const ALIGN: usize = 16;

/// `size` bytes from `start` on, in which nothing lies, aligned to 16 bytes. What is more than a
/// multiple of 16 bytes is not used.
#[repr(C)]
#[derive(Drop)]
pub struct Memory {
    pub(crate) start: *mut u8,
    pub(crate) size: usize,
}

impl Model for Memory {
    ghost also_owns = { λ m. bytes_at m.start m.size };
}

impl Memory {
    /// `size` bytes that an allocator gives, and never gets back.
    pub fn leaked(alloc: Global, size: usize) -> Result<Memory, AllocError>
        ensures { IfOk result (λ m. memory_size m ≡ size) }
    {
        if size > isize::MAX as usize - ALIGN {
            return Err(AllocError);
        }
        match Memory::within(&alloc, size, size.next_multiple_of(ALIGN)) {
            Some(memory) => Ok(memory),
            None => Err(AllocError),
        }
    }

    // `size` bytes at the front of a block of `whole` bytes.
    fn within<A: Allocator>(alloc: &A, size: usize, whole: usize) -> Option<Memory>
        requires { (size ≤ whole) × (whole % 16 ≡ 0) × (whole < 2 ^ 63) }
        ensures { IfSome result (λ m. memory_size m ≡ size) }
    {
        match alloc.allocate(whole, ALIGN) {
            Ok(start) => Some(Memory { start, size }),
            Err(_) => None,
        }
    }

    // The number of bytes, the memory again, and memory of no bytes.
    fn parts(self) -> (usize, (Memory, Memory))
        ensures { (result.0 ≡ memory_size self) × (result.1.0 ≡ self)
            × (memory_size result.1.1 ≡ 0) × (memory_size self ≡ 0 → result.1.1 ≡ self) }
    {
        let Memory { start, size } = self;
        (size, (Memory { start, size }, Memory { start, size: 0 }))
    }

    /// The number of bytes, and the memory again.
    pub fn with_size(self) -> (usize, Memory)
        ensures { (result.0 ≡ memory_size self) × (result.1 ≡ self) }
    {
        let (size, (whole, _none)) = self.parts();
        (size, whole)
    }

    // Memory of no bytes, and the memory again.
    fn parted(self, _unused: ()) -> (Memory, Memory)
        ensures { (memory_size result.0 ≡ 0) × (memory_size self ≡ 0 → result.0 ≡ self)
            × (result.1 ≡ self) }
    {
        let (_size, (whole, none)) = self.parts();
        (none, whole)
    }

    /// The memory, which leaves memory of no bytes behind: the same where it had none.
    pub fn take(&mut self) -> Memory
        ensures { (result ≡ self.old) × (memory_size self.new ≡ 0)
            × (memory_size self.old ≡ 0 → self.new ≡ self.old) }
    {
        replace_with(self, (), Memory::parted)
    }
}

/// A block that comes back: all of a caller's memory.
pub(crate) struct Returned {
    pub(crate) start: *mut u8,
    pub ghost memory: { Whole },
    ghost begins: { start ≡ memory.start },
}

impl Model for Returned {
    ghost also_owns = { λ r. bytes_at r.start r.memory.size };
}

impl Returned {
    /// The memory, which has this many bytes.
    pub(crate) fn into_memory(self, size: usize) -> Memory
        requires { size ≡ memory_size self.memory }
        ensures { result ≡ self.memory }
    {
        let Returned { start } = self;
        Memory { start, size }
    }
}
