//! Calls whose requests for memory are refused, one at a time.

use crate::tests::compare::same;
use std::alloc::Global;
use std::process::Abort;
use testing_tools::memory::Refusing;

/// What a call returns, beside its answer where memory is ample.
#[derive(Clone, Copy, PartialEq, Eq, Debug)]
pub enum Answer {
    /// That very answer.
    Undisturbed,
    /// Out of memory.
    NoMemory,
    /// Anything else.
    Other,
}

impl Answer {
    /// What is returned where it is told whether that is the undisturbed answer.
    pub fn of(is_undisturbed: bool) -> Answer {
        if is_undisturbed {
            Answer::Undisturbed
        } else {
            Answer::Other
        }
    }
}

/// Memory of which one request is refused.
pub type Heap<'h> = &'h Refusing<Global>;

/// Calls that allocate.
pub trait Call {
    /// What one of them returns with memory of a heap.
    fn answer(&self, heap: Heap<'_>) -> Answer;
}

// What a call returns where the request of this number is refused, and whether that request came.
fn turn<C: Call>(alloc: Global, call: &C, number: u64) -> (Answer, bool) {
    let heap = Refusing::new(alloc, number);
    let answer = call.answer(&heap);
    (answer, heap.has_refused())
}

/// Refuses each request of a call in turn, until all are granted: it returns out of memory or the
/// undisturbed answer, and the latter in the end. It says how often it answered out of memory.
pub fn wants_of<C: Call>(rt: &impl Abort, alloc: Global, call: &C) -> u32 {
    let mut wants = 0u32;
    for number in 1..1000u64 {
        let (answer, has_refused) = turn(alloc, call, number);
        same(rt, &(number, answer == Answer::Other), &(number, false));
        if !has_refused {
            same(rt, &(number > 1, answer), &(true, Answer::Undisturbed));
            return wants;
        }
        if answer == Answer::NoMemory {
            wants = wants.saturating_add(1);
        }
    }
    panic!(rt; "there are more requests")
}

/// The same of calls that run out of memory where one of their requests is refused.
pub fn each_refused<C: Call>(rt: &impl Abort, alloc: Global, calls: &[C]) {
    for call in calls {
        same(rt, &(wants_of(rt, alloc, call) > 0), &true);
    }
}
