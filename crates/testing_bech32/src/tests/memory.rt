//! Out of memory.

use super::listed::{Listing, corrector_for, is_found};
use crate::tests::compare::same;
use bech32_checksum::{Bech32, Checksum};
use bech32_correction::Corrector;
use bech32_gf::gf32::Fe32;
use linked_list_allocator::LocalHeap;
use std::alloc::Global;
use std::process::Abort;
use testing_tools::codes::Degree13;
use testing_tools::heaps::{InHeap, right_or_wants_memory};
use testing_tools::known::{FOUR, FOUR_ERRORS};

// Whether just this is listed, or nothing is; `None` if there is too little memory.
fn lists<Ck: Checksum>(
    corrector: &Corrector<Ck, &LocalHeap>,
    want: Option<Listing>,
) -> Option<bool> {
    match corrector.bch_errors() {
        Ok(found) => Some(is_found(found, want)),
        Err(_) => None,
    }
}

// Like `lists`, for a clone.
fn clone_lists<Ck: Checksum>(
    corrector: &Corrector<Ck, &LocalHeap>,
    want: Option<Listing>,
) -> Option<bool> {
    let copied: Result<_, _> = corrector.clone();
    match copied {
        Ok(copy) => lists(&copy, want),
        Err(_) => None,
    }
}

// The same of another corrector with these erasures; there is none where they are too many.
fn with_lists<Ck: Checksum>(
    corrector: &Corrector<Ck, &LocalHeap>,
    erasures: &[usize],
    want: Option<Listing>,
) -> Option<bool> {
    match corrector.with(erasures) {
        Ok(Some(erased)) => lists(&erased, want),
        Ok(None) => Some(want.is_none()),
        Err(_) => None,
    }
}

// Whether a corrector lists just this with these erasures, or nothing, in two ways to give them,
// and its clone does.
fn lists_each_way<Ck: Checksum>(
    corrector: &mut Corrector<Ck, &LocalHeap>,
    erasures: &[usize],
    want: Option<Listing>,
) -> Option<bool> {
    if !corrector.are_within(erasures) {
        return Some(false);
    }
    let is_first = with_lists(corrector, erasures, want)?;
    match corrector.add_erasures(erasures) {
        Ok(()) => Some(is_first && lists(corrector, want)? && clone_lists(corrector, want)?),
        Err(_) => None,
    }
}

// The same of the corrector of a text; not where there is none.
fn is_listed_by<Ck: Checksum>(
    found: Option<Corrector<Ck, &LocalHeap>>,
    erasures: &[usize],
    want: Option<Listing>,
) -> Option<bool> {
    match found {
        Some(mut corrector) => lists_each_way(&mut corrector, erasures, want),
        None => Some(false),
    }
}

// Just the four errors are listed with two of them as erasures.
struct FourErrors;

impl InHeap for FourErrors {
    fn is_right(&self, _alloc: Global, heap: &LocalHeap) -> Option<bool> {
        let found = corrector_for::<Degree13<93>, &LocalHeap>(heap, FOUR_ERRORS, None);
        is_listed_by(found, &[44, 0], Some(&FOUR))
    }
}

fn a_listing_or_out_of_memory(rt: &impl Abort, alloc: Global) {
    right_or_wants_memory(alloc, &FourErrors, (64, 16)).expect(rt, "right, or out of memory");
}

// Whether Bech32 lists just this for a text that it refuses, or nothing.
fn is_listed(
    heap: &LocalHeap,
    text: &str,
    erasures: &[usize],
    want: Option<Listing>,
) -> Option<bool> {
    let found = corrector_for::<Bech32, &LocalHeap>(heap, text, None);
    is_listed_by(found, erasures, want)
}

// An address with three wrong characters.
const ADDRESS: &str = "bc1q9r0srrr7xfkvy5l64qlydnw9re59gtzzwf5mdx";

// A single error, alone and beside an erasure; values at three erasures; and seven erasures, for
// which nothing is listed.
fn six_coefficients_take_no_memory(rt: &impl Abort, alloc: Global) {
    let heap = LocalHeap::new(alloc, 0).expect(rt, "memory");
    let three = [(37, Fe32::C), (0, Fe32::X), (20, Fe32::_3)];
    let found = [
        is_listed(&heap, ADDRESS, &[], None),
        is_listed(&heap, "b12uel5l", &[], Some(&[(6, Fe32::R)])),
        is_listed(&heap, "a12uel5q", &[3], Some(&[(3, Fe32::Q), (0, Fe32::L)])),
        is_listed(&heap, ADDRESS, &[37, 0, 20], Some(&three)),
        is_listed(&heap, "a12uel5q", &[0, 1, 2, 3, 4, 5, 6], None),
    ];
    same(rt, &found, &[Some(true); 5]);
}

#[test]
fn listings_in_place_or_out_of_memory(rt: HostRuntime) {
    a_listing_or_out_of_memory(&rt, rt.alloc());
    six_coefficients_take_no_memory(&rt, rt.alloc());
}
