//! Out of memory where errors are detected.

use bech32_detect::detects_four;
use linked_list_allocator::LocalHeap;
use std::alloc::Global;
use std::process::Abort;
use testing_tools::codes::Tiny;
use testing_tools::heaps::{InHeap, right_or_wants_memory};

// A checksum of degree 2 does not detect all four errors.
struct FourErrors;

impl InHeap for FourErrors {
    fn is_right(&self, _alloc: Global, heap: &LocalHeap) -> Option<bool> {
        match detects_four::<Tiny<2>>(heap, 3) {
            Ok(detects) => Some(!detects),
            Err(_) => None,
        }
    }
}

#[test]
fn an_answer_or_out_of_memory(rt: HostRuntime) {
    right_or_wants_memory(rt.alloc(), &FourErrors, (64, 64)).expect(&rt, "right, or out of memory");
}
