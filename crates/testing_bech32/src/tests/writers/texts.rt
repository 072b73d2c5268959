use super::forms::{Form, Given, to_fmt, written};
use super::given::part;
use super::known::{PROGRAM, TEXT, UPPER_TEXT};
use crate::tests::compare::same;
use bech32::{Bech32, Checksum, EncodeError, Hrp, encode_in, encode_lower_in, encode_upper_in};
use linked_list_allocator::LocalHeap;
use std::alloc::Global;
use std::fmt;
use std::process::Abort;
use testing_tools::heaps::{InHeap, right_or_wants_memory};

// Takes as many pieces as `left`, fails at the next one, and would take all from then on.
#[derive(Drop)]
struct Budget {
    text: String,
    left: usize,
    calls: usize,
}

impl fmt::Write for Budget {
    fn write_str(&mut self, s: &str) -> fmt::Result {
        self.calls = self.calls.saturating_add(1);
        if self.calls > self.left && self.calls - self.left == 1 {
            return Err(fmt::Error);
        }
        self.text.push_str(s)?;
        Ok(())
    }
}

// Whether this text was made; `None` where there is too little memory.
fn is_text(made: &Result<String<&LocalHeap>, EncodeError>, want: &str) -> Option<bool> {
    match made {
        Ok(text) => Some(text.as_str() == want),
        Err(EncodeError::Memory) => None,
        Err(_) => Some(false),
    }
}

// A known text, by the call for either case, for lower or for upper case.
#[derive(Drop)]
enum Known {
    Either(Hrp),
    Lower(Hrp),
    Upper(Hrp),
}

// What a call by a checksum makes.
fn made<'a, Ck: Checksum>(
    call: &Known,
    heap: &'a LocalHeap,
) -> Result<String<&'a LocalHeap>, EncodeError> {
    match call {
        Known::Either(hrp) => encode_in::<Ck, &LocalHeap>(heap, *hrp, &PROGRAM),
        Known::Lower(hrp) => encode_lower_in::<Ck, &LocalHeap>(heap, *hrp, &PROGRAM),
        Known::Upper(hrp) => encode_upper_in::<Ck, &LocalHeap>(heap, *hrp, &PROGRAM),
    }
}

impl InHeap for Known {
    fn is_right(&self, _alloc: Global, heap: &LocalHeap) -> Option<bool> {
        let want = match self {
            Known::Upper(_) => UPPER_TEXT,
            _ => TEXT,
        };
        is_text(&made::<Bech32>(self, heap), want)
    }
}

// On how many heaps a call is out of memory; fails where it is not right on the others.
fn wants(rt: &impl Abort, alloc: Global, call: &Known) -> usize {
    right_or_wants_memory(alloc, call, (16, 16)).expect(rt, "right, or out of memory")
}

#[test]
fn encodes_or_wants_memory(rt: HostRuntime) {
    let (alloc, hrp) = (rt.alloc(), part(&rt, "test"));
    wants(&rt, alloc, &Known::Either(hrp));
    let lower = wants(&rt, alloc, &Known::Lower(hrp));
    same(&rt, &wants(&rt, alloc, &Known::Upper(hrp)), &lower);
}

// What comes of a text at a writer: the outcome, how many calls were made, and whether what they
// took begins the text, and is all of it.
type Cut = (Result<(), EncodeError>, usize, (bool, bool));

// The same of what a form writes.
fn cut(form: Form, given: &Given<'_>, whole: &[u8], w: &mut Budget) -> Cut {
    let outcome = to_fmt(form, w, given);
    let begins = whole.starts_with(w.text.as_bytes());
    (outcome, w.calls, (begins, w.text.len() == whole.len()))
}

// The same at a writer that fails at the call behind `left` others.
fn cut_at(alloc: Global, form: Form, given: &Given<'_>, whole: &[u8], left: usize) -> Cut {
    let mut w = Budget {
        text: String::new(alloc),
        left,
        calls: 0,
    };
    cut(form, given, whole, &mut w)
}

// What has to come of a text in so many calls at most, where the call behind `left` others fails.
fn wanted(calls: usize, left: usize) -> Cut {
    if left < calls {
        let error = EncodeError::Fmt(fmt::Error);
        (Err(error), left.saturating_add(1), (true, false))
    } else {
        (Ok(()), calls, (true, true))
    }
}

// Fails where a form does not write all that it is given, or goes on or tells otherwise where the
// call behind `left` others fails. Whether that call was made.
fn is_cut(
    rt: &impl Abort,
    alloc: Global,
    (form, given): (Form, &Given<'_>),
    whole: &[u8],
    left: usize,
) -> bool {
    let found = cut_at(alloc, form, given, whole, left);
    let (_, calls, _) = found;
    same(rt, &(form, left, found), &(form, left, wanted(calls, left)));
    left < calls
}

// Fails each call of a form in turn, and then none: how many there are, or ten if there are more.
fn calls_of(rt: &impl Abort, alloc: Global, form: (Form, &Given<'_>), whole: &[u8]) -> usize {
    for left in 0..10usize {
        if !is_cut(rt, alloc, form, whole, left) {
            return left;
        }
    }
    10
}

/// Fails each call of a form in turn, and then none. There is one, and there are less than ten.
pub fn each_call_fails(rt: &impl Abort, alloc: Global, form: Form, given: &Given<'_>) {
    let whole = written(rt, alloc, form, given);
    let calls = calls_of(rt, alloc, (form, given), &whole);
    same(rt, &(form, 1 <= calls && calls < 10), &(form, true));
}
