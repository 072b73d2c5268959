//! The corrector and the register: what they are after a request for memory was refused.

use crate::tests::turns::{Answer, Call, Heap, each_refused};
use bech32::primitives::LfsrIter;
use bech32::primitives::correction::{Corrector, ErrorIterator, Listing, Question};
use bech32::primitives::decode::CheckedHrpstring;
use bech32::{Checksum, CorrectableError, Fe32};
use codex32::Codex32;
use std::alloc::{AllocError, Allocator};
use testing_tools::known::{EIGHT, EIGHT_ERRORS, ELEMENTS, FOUR, FOUR_ERRORS};

// The eight errors, and where they are.
fn eight() -> [(usize, Fe32); 8] {
    EIGHT
}

const LAST_EIGHT: &[usize] = &[0, 1, 2, 3, 4, 5, 6, 7];

/// The corrector of a text that the checksum refuses.
pub fn corrector_of<Ck: Checksum, A: Allocator + Copy>(
    heap: A,
    text: &str,
) -> Option<Corrector<Ck, A>> {
    if !Ck::sanity_check() {
        return None;
    }
    match CheckedHrpstring::new::<Ck>(text) {
        Ok(_) => None,
        Err(error) => error.correction_context::<Ck, A>(heap),
    }
}

// What a corrector returns that is given erasures below its window.
fn add<Ck: Checksum>(corrector: &mut Corrector<Ck, Heap<'_>>, erasures: &[usize]) -> Answer {
    if corrector.are_within(erasures) {
        match corrector.add_erasures(erasures) {
            Ok(()) => Answer::Undisturbed,
            Err(_) => Answer::NoMemory,
        }
    } else {
        Answer::Other
    }
}

// Whether a listing is just this.
fn is_listing(listing: ErrorIterator<Heap<'_>>, want: &[(usize, Fe32)]) -> bool {
    let mut errors = listing;
    let mut is_same = true;
    for pair in want {
        is_same = errors.next() == Some(*pair) && is_same;
    }
    errors.next().is_none() && is_same
}

// What a corrector returns that should list just this.
fn lists<Ck: Checksum>(corrector: &Corrector<Ck, Heap<'_>>, want: &[(usize, Fe32)]) -> Answer {
    match corrector.bch_errors() {
        Ok(Some(errors)) => Answer::of(is_listing(errors, want)),
        Ok(None) => Answer::Other,
        Err(_) => Answer::NoMemory,
    }
}

// Out of memory, where the corrector still lists just this.
fn wants_memory<Ck: Checksum>(
    corrector: &Corrector<Ck, Heap<'_>>,
    want: &[(usize, Fe32)],
) -> Answer {
    match lists(corrector, want) {
        Answer::Undisturbed => Answer::NoMemory,
        _ => Answer::Other,
    }
}

// What another corrector lists, or this one if there was no memory for the other.
fn other_lists<Ck: Checksum>(
    other: Result<Corrector<Ck, Heap<'_>>, AllocError>,
    want: &[(usize, Fe32)],
    corrector: &Corrector<Ck, Heap<'_>>,
) -> Answer {
    match other {
        Ok(other) => lists(&other, want),
        Err(_) => wants_memory(corrector, &eight()),
    }
}

// Whether nothing is listed.
fn lists_nothing<Ck: Checksum>(corrector: &Corrector<Ck, Heap<'_>>) -> bool {
    match corrector.bch_errors() {
        Ok(listing) => listing.is_none(),
        Err(_) => false,
    }
}

// Seven erasures allocate nothing. The eighth does, and with it the eight characters are found;
// where its request is refused there are the seven still, by which nothing is listed.
fn add_seven_and_one<Ck: Checksum>(corrector: &mut Corrector<Ck, Heap<'_>>) -> Answer {
    if add(corrector, &[0, 1, 2, 3, 4, 5, 6]) != Answer::Undisturbed {
        return Answer::Other;
    }
    match add(corrector, &[7]) {
        Answer::Undisturbed => lists(corrector, &eight()),
        Answer::NoMemory if !lists_nothing(corrector) => Answer::Other,
        answer => answer,
    }
}

// What is said of a listing that should be just this.
fn says(listing: Option<Listing<Heap<'_>>>, want: &[(usize, Fe32)]) -> Answer {
    match listing {
        Some(items) => Answer::of(items.as_slice() == want),
        None => Answer::Other,
    }
}

// What a corrector returns that is asked for a listing with these erasures, which should be this.
fn lists_with<Ck: Checksum>(
    corrector: &Corrector<Ck, Heap<'_>>,
    erasures: &[usize],
    want: &[(usize, Fe32)],
) -> Answer {
    let question = Question {
        erasures,
        highest: None,
    };
    match corrector.listing(question) {
        Ok(listing) => says(listing, want),
        Err(_) => Answer::NoMemory,
    }
}

// What another corrector returns that has these erasures.
fn lists_when_given<Ck: Checksum>(
    corrector: &Corrector<Ck, Heap<'_>>,
    erasures: &[usize],
    want: &[(usize, Fe32)],
) -> Answer {
    match corrector.with(erasures) {
        Ok(Some(erased)) => lists(&erased, want),
        Ok(None) => Answer::Other,
        Err(_) => Answer::NoMemory,
    }
}

// The eight errors without the first.
fn seven_errors() -> [(usize, Fe32); 8] {
    let mut seven = eight();
    seven[0] = (0, Fe32::Q);
    seven
}

// What a corrector is asked: the first three that of the four errors, the others that of the eight.
#[derive(Clone, Copy)]
enum Asked {
    AddErasures,
    BchErrors,
    ListingWith,
    EighthErasure,
    WithErasures,
    WithoutError,
    Clone,
}

// The text that it refuses.
fn text_of(asked: Asked) -> &'static str {
    match asked {
        Asked::AddErasures | Asked::BchErrors | Asked::ListingWith => FOUR_ERRORS,
        _ => EIGHT_ERRORS,
    }
}

// What a corrector returns that has the first two of the four errors as erasures: it is given six
// more, or asked for what it lists, and asked again where it was out of memory.
fn ask_with_two<Ck: Checksum>(corrector: &mut Corrector<Ck, Heap<'_>>, asked: Asked) -> Answer {
    if add(corrector, &[44, 0]) != Answer::Undisturbed {
        return Answer::Other;
    }
    let answer = match asked {
        Asked::AddErasures => add(corrector, &[1, 2, 3, 4, 5, 6]),
        _ => lists(corrector, &FOUR),
    };
    match answer {
        Answer::NoMemory => wants_memory(corrector, &FOUR),
        answer => answer,
    }
}

// What another one lists where a corrector has the eight erasures: one of whose residue the first
// error is taken off, or its clone.
fn ask_with_eight<Ck: Checksum>(corrector: &mut Corrector<Ck, Heap<'_>>, asked: Asked) -> Answer {
    let answer = add(corrector, LAST_EIGHT);
    if answer != Answer::Undisturbed {
        return answer;
    }
    match asked {
        Asked::WithoutError => other_lists(
            corrector.without_error(eight()[0]),
            &seven_errors(),
            corrector,
        ),
        _ => other_lists(corrector.clone(), &eight(), corrector),
    }
}

fn ask<Ck: Checksum>(corrector: &mut Corrector<Ck, Heap<'_>>, asked: Asked) -> Answer {
    match asked {
        Asked::AddErasures | Asked::BchErrors => ask_with_two(corrector, asked),
        Asked::ListingWith => lists_with(corrector, &[44, 0], &FOUR),
        Asked::EighthErasure => add_seven_and_one(corrector),
        Asked::WithErasures => lists_when_given(corrector, LAST_EIGHT, &eight()),
        Asked::WithoutError | Asked::Clone => ask_with_eight(corrector, asked),
    }
}

// What the corrector of a text answers.
fn answer_of<Ck: Checksum>(corrector: Option<Corrector<Ck, Heap<'_>>>, asked: Asked) -> Answer {
    match corrector {
        Some(mut corrector) => ask(&mut corrector, asked),
        None => Answer::Other,
    }
}

impl Call for Asked {
    fn answer(&self, heap: Heap<'_>) -> Answer {
        answer_of(corrector_of::<Codex32, _>(heap, text_of(*self)), *self)
    }
}

type Register<'h> = LfsrIter<Fe32, Heap<'h>>;

// Whether this item comes next.
fn is_next(register: &mut Register<'_>, item: &Fe32) -> bool {
    register.next() == Some(*item)
}

// Whether these items come next.
fn goes_on(register: &mut Register<'_>, items: &[Fe32]) -> bool {
    let mut is_same = true;
    for item in items {
        is_same = is_next(register, item) && is_same;
    }
    is_same
}

// What a copy answers, which should go on so.
fn copy_goes_on(copy: Result<Register<'_>, AllocError>, items: &[Fe32]) -> Answer {
    match copy {
        Ok(mut other) => Answer::of(goes_on(&mut other, items)),
        Err(_) => Answer::NoMemory,
    }
}

// What a register and its clone answer, each of which should go on so.
fn both_go_on(register: &mut Register<'_>, items: &[Fe32]) -> Answer {
    let answer = copy_goes_on(register.clone(), items);
    if goes_on(register, items) {
        answer
    } else {
        Answer::Other
    }
}

// What the shortest register of twenty elements is asked, which is longer than seven; the clone is
// one after its first two items.
#[derive(Clone, Copy)]
enum OfRegister {
    Massey,
    Clone,
}

fn elements() -> [Fe32; 32] {
    ELEMENTS
}

fn ask_register(register: &mut Register<'_>, asked: OfRegister) -> Answer {
    match asked {
        OfRegister::Massey => Answer::of(goes_on(register, &elements()[1..21])),
        OfRegister::Clone if goes_on(register, &elements()[1..3]) => {
            both_go_on(register, &elements()[3..21])
        }
        OfRegister::Clone => Answer::Other,
    }
}

impl Call for OfRegister {
    fn answer(&self, heap: Heap<'_>) -> Answer {
        match Register::berlekamp_massey_in(heap, &elements()[1..21]) {
            Ok(mut register) => ask_register(&mut register, *self),
            Err(_) => Answer::NoMemory,
        }
    }
}

#[test]
fn correctors_and_registers_as_they_were(rt: HostRuntime) {
    let calls = [
        Asked::AddErasures,
        Asked::EighthErasure,
        Asked::BchErrors,
        Asked::ListingWith,
        Asked::WithErasures,
        Asked::WithoutError,
        Asked::Clone,
    ];
    each_refused(&rt, rt.alloc(), &calls);
    each_refused(&rt, rt.alloc(), &[OfRegister::Massey, OfRegister::Clone]);
}
