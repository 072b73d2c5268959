//! Memory that a caller lends.

use crate::tests::compare::same;
use caller_memory::{Lent, Memory};
use std::alloc::{AllocError, Global};
use std::mem::forget;
use std::process::Abort;

// How many bytes there are where memory came back.
fn size_of_memory(memory: Option<Memory>) -> Option<usize> {
    Some(memory?.with_size().0)
}

// Memory of a size, lent.
fn lent(rt: &impl Abort, alloc: Global, size: usize) -> Lent {
    Lent::new(Memory::leaked(alloc, size).expect(rt, "memory"))
}

// Fails where the memory does not come back, or has another size.
fn comes_back(rt: &impl Abort, lent: Lent, size: usize) {
    same(rt, &size_of_memory(lent.into_memory()), &Some(size));
}

// Whether the memory gives no block.
fn is_out(lent: &Lent) -> bool {
    Box::new(lent, 0u8).is_err()
}

// Whether the memory holds 96 bytes, which count up from the first, and no more meanwhile.
fn is_filled(lent: &Lent, first: u8) -> Result<bool, AllocError> {
    let mut whole: Vec<u8, &Lent> = Vec::with_capacity(lent, 96)?;
    for count in 0..96u8 {
        whole.push(first.wrapping_add(count))?;
    }
    Ok(is_out(lent) && counts_up(&whole, first))
}

// Whether bytes count up from the first.
fn counts_up(bytes: &[u8], first: u8) -> bool {
    let mut want = first;
    for byte in bytes {
        if *byte != want {
            return false;
        }
        want = want.wrapping_add(1);
    }
    true
}

// Fails where the memory is not filled again and again.
fn is_filled_again(rt: &impl Abort, lent: &Lent) {
    for round in 0..5u8 {
        let is_filled = is_filled(lent, round).ok();
        same(rt, &(round, is_filled), &(round, Some(true)));
    }
}

// Whether there is memory for this many bytes.
fn has_bytes(lent: &Lent, count: usize) -> bool {
    Vec::<u8, &Lent>::with_capacity(lent, count).is_ok()
}

// Whether there is memory for this many numbers of 16 bytes.
fn has_numbers(lent: &Lent, count: usize) -> bool {
    Vec::<u128, &Lent>::with_capacity(lent, count).is_ok()
}

// Whether there is memory for each number of bytes up to a greatest one, and it comes back.
fn has_all_up_to(lent: &Lent, most: usize) -> bool {
    for count in 0..=most {
        if !has_bytes(lent, count) {
            return false;
        }
    }
    true
}

// Of bytes and of whole numbers each block that fits is given, and no other one.
fn gives_what_fits(rt: &impl Abort, alloc: Global) {
    let small = lent(rt, alloc, 100);
    let given = [
        has_bytes(&small, 97),
        has_numbers(&small, 7),
        has_numbers(&small, 6),
    ];
    same(rt, &given, &[false, false, true]);
    comes_back(rt, small, 100);
    let large = lent(rt, alloc, 65536);
    let given = [has_all_up_to(&large, 65536), has_bytes(&large, 65537)];
    same(rt, &given, &[true, false]);
    comes_back(rt, large, 65536);
}

// Takes a block that never comes back.
fn keep_block(rt: &impl Abort, lent: &Lent) {
    forget(Box::new(lent, 0u8).expect(rt, "memory"));
}

// The bytes that an arena over memory has to give.
fn arena_size(lent: &Lent) -> usize {
    lent.arena().chunk_capacity()
}

// The same while a block of it is out.
fn arena_size_beside_block(rt: &impl Abort, lent: &Lent) -> usize {
    let _block = Box::new(lent, 0u8).expect(rt, "memory");
    arena_size(lent)
}

// Memory of which a block is out has nothing for an arena, and is kept if the block never comes
// back.
fn is_kept_with_its_block(rt: &impl Abort, alloc: Global) {
    let whole = lent(rt, alloc, 8192);
    same(rt, &arena_size_beside_block(rt, &whole), &0);
    comes_back(rt, whole, 8192);
    let kept = lent(rt, alloc, 100);
    keep_block(rt, &kept);
    let is_refused = is_out(&kept);
    let back = size_of_memory(kept.into_memory());
    same(rt, &(is_refused, back), &(true, None));
}

#[test]
fn gives_one_block_at_a_time_and_takes_it_back(rt: HostRuntime) {
    let lent = lent(&rt, rt.alloc(), 100);
    is_filled_again(&rt, &lent);
    comes_back(&rt, lent, 100);
    gives_what_fits(&rt, rt.alloc());
    is_kept_with_its_block(&rt, rt.alloc());
}

// Memory that was not asked for comes back; what is taken leaves none; memory that there is not is
// refused.
fn leaks_and_is_taken(rt: &impl Abort, alloc: Global) {
    comes_back(rt, lent(rt, alloc, 100), 100);
    let mut memory = Memory::leaked(alloc, 100).expect(rt, "memory");
    let taken = memory.take().with_size().0;
    same(rt, &[taken, memory.with_size().0], &[100, 0]);
    same(
        rt,
        &size_of_memory(Memory::leaked(alloc, usize::MAX).ok()),
        &None,
    );
}

// An arena has all whole pages, but for 64 bytes; the last page is whole without its last 16.
fn arena_size_of(size: usize) -> usize {
    let pages = size.saturating_add(16) / 4096;
    (pages * 4096).saturating_sub(64)
}

// Fails where memory of a size does not give all of it as a block, and an arena over its pages, or
// does not come back.
fn gives_all(rt: &impl Abort, alloc: Global, size: usize) {
    let lent = lent(rt, alloc, size);
    let has_whole = has_numbers(&lent, size / 16);
    let in_arena = arena_size(&lent);
    let found = (has_whole, in_arena, size_of_memory(lent.into_memory()));
    let want = (true, arena_size_of(size), Some(size));
    same(rt, &(size, found), &(size, want));
}

// Sizes around those of blocks and of pages, and large ones.
const SIZES: [usize; 15] = [
    1, 15, 16, 17, 4079, 4080, 8175, 8176, 12272, 65520, 100_000, 131_072, 1_048_576, 8_388_608,
    67_108_864,
];

#[test]
fn memory_of_many_sizes_gives_all_and_comes_back(rt: HostRuntime) {
    leaks_and_is_taken(&rt, rt.alloc());
    for i in 0..=256usize {
        gives_all(&rt, rt.alloc(), i * 256 + i % 16);
    }
    for size in SIZES {
        gives_all(&rt, rt.alloc(), size);
    }
}
