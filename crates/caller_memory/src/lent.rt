//! A caller's memory as an allocator, which gives all of it as one block.

ghost use Rattle.std.specs.Prelude.{◌≡◌, ◌<◌, true, false, IfSome};
ghost use Rattle.caller_memory.specs.Memory.{memory_size};
ghost use Rattle.caller_memory.specs.Ownership.{block_token};

use crate::memory::{ALIGN, Memory, Returned};
use crate::slot::Slot;
use bumpalo::Bump;
use std::alloc::{AllocError, Allocator};

// An arena asks for whole pages, without what it keeps beside them.
const PAGE: usize = 4096;

const BESIDE: usize = 64;

/// An allocator that has one block to give: all of a caller's memory.
pub struct Lent {
    slot: Slot,
    size: usize,
    ghost whole: { size ≡ memory_size slot },
}

impl Lent {
    ghost use Rattle.caller_memory.specs.Lent.{FitsIn, lent_memory};

    /// Takes a caller's memory over.
    pub fn new(memory: Memory) -> Lent
        ensures { lent_memory result ≡ memory }
    {
        let (size, memory) = memory.with_size();
        let slot = Slot::new(memory);
        Lent { slot, size }
    }

    /// The memory, where the block is not out.
    pub fn into_memory(self) -> Option<Memory>
        ensures { IfSome result (λ m. m ≡ lent_memory self) }
    {
        let Lent { slot, size: _ } = self;
        slot.into_inner()
    }

    /// Puts the memory back, where the block is not out, and tells whether it is whole again:
    /// memory of no bytes always is.
    pub fn put_back(self, memory: &mut Memory) -> bool
        requires { memory_size (lent_memory self) ≡ 0 → memory.old ≡ lent_memory self }
        ensures whole { result ≡ true → memory.new ≡ lent_memory self }
        ensures kept { result ≡ false
            → (0 < memory_size (lent_memory self)) × (memory.new ≡ memory.old) }
    {
        let size = self.size;
        match self.into_memory() {
            Some(whole) => {
                *memory = whole;
                true
            }
            None => size == 0,
        }
    }

    /// An arena over all pages of the memory; where there are none, or the block is out, an arena
    /// that asks for memory later.
    pub fn arena(&self) -> Bump<&Lent> {
        let pages = self.size.saturating_add(16) / PAGE;
        match Bump::try_with_capacity(self, (pages * PAGE).saturating_sub(BESIDE)) {
            Ok(arena) => arena,
            Err(_) => Bump::new(self),
        }
    }

    // Whether this many bytes, with this alignment, are at most the memory.
    fn fits(&self, size: usize, align: usize) -> bool
        ensures yes { result ≡ true → FitsIn (lent_memory self.now) size align }
        ensures no { FitsIn (lent_memory self.now) size align → result ≡ true }
    {
        align <= ALIGN && size <= isize::MAX as usize && size <= self.size / ALIGN * ALIGN
    }

    // The memory, where that many bytes fit in it and it is not out.
    fn take(&self, size: usize, align: usize) -> Option<Memory>
        ensures { IfSome result (λ m. (m ≡ lent_memory self.now)
            × FitsIn (lent_memory self.now) size align) }
    {
        if !self.fits(size, align) {
            return None;
        }
        self.slot.replace(None)
    }

    fn give(&self, block: Returned)
        requires { block.memory ≡ lent_memory self.now }
    {
        drop(self.slot.replace(Some(block.into_memory(self.size))));
    }
}

unsafe impl Allocator for Lent {
    ghost dealloc_token = { λ lent. block_token lent.slot };

    fn allocate(&self, size: usize, align: usize) -> Result<*mut u8, AllocError> {
        match self.take(size, align) {
            Some(Memory { start, size: _ }) => Ok(start),
            None => Err(AllocError),
        }
    }

    unsafe fn deallocate(&self, ptr: *mut u8, _size: usize, _align: usize) {
        self.give(Returned { start: ptr });
    }
}

impl Drop for Lent {
    fn drop(self) {
        let Lent { slot, size: _ } = self;
        drop(slot.into_inner());
    }
}
