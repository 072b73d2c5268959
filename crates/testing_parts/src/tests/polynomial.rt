use crate::tests::compare::same;
use bech32_gf::field::Field;
use bech32_gf::gf32::Fe32;
use bech32_gf_ext::Fe1024;
use bech32_poly::polynomial::{Polynomial, RootIter, remainder};
use linked_list_allocator::LocalHeap;
use std::alloc::{AllocError, Global};
use std::process::Abort;

// Whether a call is refused memory, and whether the heap is used then.
fn outcome<T: Drop>(heap: &LocalHeap, made: Result<T, AllocError>) -> (bool, bool) {
    (made.is_err(), heap.used() > 0)
}

// The same of a call that makes a polynomial.
fn of_polynomial(
    heap: &LocalHeap,
    made: Result<Polynomial<Fe32, &LocalHeap>, AllocError>,
) -> (bool, bool) {
    outcome(heap, made)
}

// The same of the products with itself.
fn of_products(
    heap: &LocalHeap,
    polynomial: &Polynomial<Fe32, &LocalHeap>,
    end: usize,
) -> [(bool, bool); 2] {
    [
        of_polynomial(heap, polynomial.multiply(polynomial)),
        of_polynomial(heap, polynomial.multiply_below(polynomial, end)),
    ]
}

// The same of the walk over its roots.
fn of_roots(heap: &LocalHeap, polynomial: &Polynomial<Fe32, &LocalHeap>) -> (bool, bool) {
    outcome(heap, RootIter::new(polynomial, Fe1024::GENERATOR, 0, 9))
}

// The same of each call that allocates, for a polynomial and a list.
fn outcomes(
    heap: &LocalHeap,
    polynomial: &Polynomial<Fe32, &LocalHeap>,
    list: &[Fe32],
) -> [(bool, bool); 6] {
    let [product, below] = of_products(heap, polynomial, list.len());
    [
        of_polynomial(heap, polynomial.clone()),
        of_polynomial(heap, polynomial.reversed()),
        product,
        below,
        of_polynomial(heap, polynomial.remainder(list)),
        of_roots(heap, polynomial),
    ]
}

// The same of a polynomial of ones, `None` where there is no memory for itself.
fn outcomes_of_ones(heap: &LocalHeap, ones: &[Fe32]) -> Option<[(bool, bool); 6]> {
    match Polynomial::from_slice(heap, ones) {
        Ok(polynomial) => Some(outcomes(heap, &polynomial, ones)),
        Err(_) => None,
    }
}

// The same on a heap of this many bytes, and behind it whether `remainder` is refused memory there.
fn on_a_heap(
    rt: &impl Abort,
    alloc: Global,
    bytes: usize,
    ones: &[Fe32],
) -> (Option<[(bool, bool); 6]>, bool) {
    let heap = LocalHeap::new(alloc, bytes).expect(rt, "memory");
    let (vector, _) = outcome(&heap, remainder(&heap, ones, ones));
    (outcomes_of_ones(&heap, ones), vector)
}

// Of the calls only the product of seven coefficients, which has thirteen, takes memory.
fn seven_coefficients_take_no_memory(rt: &impl Abort, alloc: Global) {
    let (of_four, _) = on_a_heap(rt, alloc, 1 << 10, &[Fe32::P; 4]);
    let (of_seven, _) = on_a_heap(rt, alloc, 1 << 10, &[Fe32::P; 7]);
    let none = [(false, false); 6];
    let mut product = none;
    product[2] = (false, true);
    same(rt, &[of_four, of_seven], &[Some(none), Some(product)]);
}

const ONES: [Fe32; 20] = [Fe32::P; 20];

// Counts the calls that are refused memory.
fn add(counts: &mut [u32; 6], calls: &[(bool, bool); 6]) {
    for i in 0..6usize {
        let (is_refused, _) = calls[i];
        counts[i] = counts[i].saturating_add(u32::from(is_refused));
    }
}

// Fails where a call is refused memory never, or as often as this.
fn are_some(rt: &impl Abort, counts: [u32; 6], most: u32) {
    for count in counts {
        assert!(rt; 1 <= count && count < most);
    }
}

fn twenty_coefficients_or_out_of_memory(rt: &impl Abort, alloc: Global) {
    let (mut calls, mut itself, mut vectors) = ([0u32; 6], 0u32, 0u32);
    for size in 0..64usize {
        match on_a_heap(rt, alloc, 16 * size, &ONES) {
            (Some(outcomes), vector) => {
                add(&mut calls, &outcomes);
                vectors = vectors.saturating_add(u32::from(vector));
            }
            (None, _) => itself = itself.saturating_add(1),
        }
    }
    are_some(rt, calls, 32);
    assert!(rt; 1 <= itself && itself < 32 && vectors < 32);
}

#[test]
fn polynomials_in_place_or_out_of_memory(rt: HostRuntime) {
    seven_coefficients_take_no_memory(&rt, rt.alloc());
    twenty_coefficients_or_out_of_memory(&rt, rt.alloc());
}
