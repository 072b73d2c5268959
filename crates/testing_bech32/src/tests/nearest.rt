//! Out of memory where all patterns of few errors are listed.

use super::listed::{Listing, corrector_for};
use bech32_checksum::{Bech32, Checksum};
use bech32_correction::Corrector;
use bech32_gf::gf32::Fe32;
use bech32_near::nearest_listings;
use bech32_near::search::Listings;
use linked_list_allocator::LocalHeap;
use std::alloc::Global;
use testing_tools::heaps::{InHeap, right_or_wants_memory};

// Whether these are the listings, in their order.
fn are(listings: &Listings<&LocalHeap>, want: &[Listing]) -> bool {
    for (listing, want) in listings.iter().zip(want) {
        if listing.as_slice() != *want {
            return false;
        }
    }
    listings.len() == want.len()
}

// Whether these are all listings of this many errors outside the erasures of a corrector; `None`
// where there is too little memory.
fn are_nearest_of<Ck: Checksum>(
    corrector: &Corrector<Ck, &LocalHeap>,
    errors: usize,
    want: &[Listing],
) -> Option<bool> {
    match nearest_listings(corrector, errors) {
        Ok(listings) => Some(are(&listings, want)),
        Err(_) => None,
    }
}

// The same with these erasures, if they are below the window.
fn are_nearest_with<Ck: Checksum>(
    corrector: &mut Corrector<Ck, &LocalHeap>,
    erasures: &[usize],
    errors: usize,
    want: &[Listing],
) -> Option<bool> {
    if !corrector.are_within(erasures) {
        return Some(false);
    }
    match corrector.add_erasures(erasures) {
        Ok(()) => are_nearest_of(corrector, errors, want),
        Err(_) => None,
    }
}

// The same of the corrector of a text; not where there is none.
fn are_nearest<Ck: Checksum>(
    found: Option<Corrector<Ck, &LocalHeap>>,
    erasures: &[usize],
    errors: usize,
    want: &[Listing],
) -> Option<bool> {
    match found {
        Some(mut corrector) => are_nearest_with(&mut corrector, erasures, errors, want),
        None => Some(false),
    }
}

// The same of a text that Bech32 refuses, below the window.
fn says(
    heap: &LocalHeap,
    (text, window): (&str, usize),
    erasures: &[usize],
    errors: usize,
    want: &[Listing],
) -> Option<bool> {
    let found = corrector_for::<Bech32, &LocalHeap>(heap, text, Some(window));
    are_nearest(found, erasures, errors, want)
}

// A short text whose last character is wrong.
const SHORT: (&str, usize) = ("a12uel5q", 6);

// An address with two wrong characters.
const ADDRESS: (&str, usize) = ("bc1qar0srrr7xfkvy5l64qlydnw9re59gtzzwf5mdx", 39);

// Two errors of an address, and two of a short text beside as many erasures.
#[derive(Drop)]
enum TwoErrors {
    Alone,
    BesideErasures,
}

impl InHeap for TwoErrors {
    fn is_right(&self, _alloc: Global, heap: &LocalHeap) -> Option<bool> {
        let two: Listing = &[(0, Fe32::X), (20, Fe32::_3)];
        let erased: Listing = &[(1, Fe32::Q), (2, Fe32::Q), (0, Fe32::L)];
        match self {
            TwoErrors::Alone => says(heap, ADDRESS, &[], 2, &[two]),
            TwoErrors::BesideErasures => says(heap, SHORT, &[1, 2], 2, &[erased]),
        }
    }
}

#[test]
fn listings_or_out_of_memory(rt: HostRuntime) {
    let alloc = rt.alloc();
    let alone = right_or_wants_memory(alloc, &TwoErrors::Alone, (32, 64));
    alone.expect(&rt, "right, or out of memory");
    let beside = right_or_wants_memory(alloc, &TwoErrors::BesideErasures, (80, 64));
    beside.expect(&rt, "right, or out of memory");
}
