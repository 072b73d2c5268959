//! Replies where memory is refused. Known replies stand in the files `stdin` and `stdout` of the
//! programs `b32` and `c32`: the gate gives a program the one, and compares what it writes with the
//! other.
//!
//! 3,025 rows of `b32` were made twice over and equal: by a reference model written from the
//! definitions alone (remainders as sums of the remainders of powers of x, the grammar by cases,
//! bits as whole lists), and by the Rust crate bech32 0.12.0 with the differences of
//! docs/rust/DIFFERENCES.md applied to it. The others come from BIP-173 and BIP-350, or show one
//! refusal each. Those of `c32` were made so too, by a model that tries every pattern.

use crate::tests::compare::same;
use line_program::{REPLY_ROOM, Replies};
use linked_list_allocator::LocalHeap;
use std::alloc::{AllocError, Global};
use std::process::Abort;

const REFUSED: &[u8] = b"err 91\n";

// Programs, each with the step between two sizes of memory.
#[derive(Clone, Copy, PartialEq, Eq, Debug)]
enum Program {
    B32,
    C32,
}

impl Program {
    fn step(self) -> usize {
        match self {
            Program::B32 => 16,
            Program::C32 => 64,
        }
    }
}

// A line of a program, and its reply.
type Row = (Program, &'static [u8], &'static [u8]);

// Whether the reply to a line with this much memory is out of memory, and whether it is the wanted
// one.
fn replies_with(alloc: Global, size: usize, row: Row) -> Result<(bool, bool), AllocError> {
    let (program, line, want) = row;
    let mut out = Vec::with_capacity(alloc, REPLY_ROOM)?;
    let heap = LocalHeap::new(alloc, size)?;
    match program {
        Program::B32 => b32_replies::reply::Commands { alloc: &heap }.reply(line, &mut out),
        Program::C32 => c32_replies::reply::Commands { alloc: &heap }.reply(line, &mut out),
    }
    Ok((out.as_slice() == REFUSED, out.as_slice() == want))
}

// Asks for a reply with more and more memory: at first there is none for it, in the end there is,
// and nothing else is said.
fn refused_at_first(rt: &impl Abort, alloc: Global, row: Row) -> Result<(), AllocError> {
    let mut refused = 0u32;
    for count in 0..64usize {
        let size = count.saturating_mul(row.0.step());
        let (is_refused, is_answered) = replies_with(alloc, size, row)?;
        same(rt, &(row, size, is_answered), &(row, size, !is_refused));
        refused = refused.saturating_add(u32::from(is_refused));
    }
    let found = (0 < refused, refused < 64);
    same(rt, &(row, found), &(row, (true, true)));
    Ok(())
}

#[test]
fn each_request_refused(rt: HostRuntime) {
    // Each takes more memory than the smallest heap has.
    let rows: [Row; 4] = [
        (
            Program::B32,
            b"decode-strict long-bech32m test1lu08d6qejxtdg4y5r3zarvary0c5xw7kmz4lky",
            b"ok test ff1e76e8199196d454941c45d1b3a323f1433bd6\n",
        ),
        (
            Program::B32,
            b"decode TB1VT82HPZY9SWH27Q5PSTZQKDGR02GN8F9CJJL2L",
            b"ok tb 62ceab84442c1d7578140c162059a81bd4899d25\n",
        ),
        (
            Program::B32,
            b"segwit-decode BC1QW508D6QEJXTDG4Y5R3ZARVARY0C5XW7KV8F3T4",
            b"ok bc 0 751e76e8199196d454941c45d1b3a323f1433bd6\n",
        ),
        (
            Program::C32,
            b"propose ms1qtestsqxxxxxxxxxxxxxxxxxxxxxxxxq4nzvca9cmczlq",
            b"some ms10testsxxxxxxxxxxxxxxxxxxxxxxxxxx4nzvca9cmczlw\n",
        ),
    ];
    for row in rows {
        refused_at_first(&rt, rt.alloc(), row).expect(&rt, "memory");
    }
}

#[test]
fn texts_corrections_and_strings_take_no_memory(rt: HostRuntime) {
    let rows: [Row; 11] = [
        (
            Program::B32,
            b"liquid-decode lq1qqf8er278e6nyvuwtgf39e6ewvdcnjupn9a86rzpx655y5lhkt0walu3djf9cklkxd3ryl\
d97hu8h3xepw7sh2rlu7q45dcew5",
            b"ok lq 0 024f91abc7cea64671cb42625ceb2e63713970332f4fa18826d5284a7ef65bdddf \
f22d924b8b7ec66c464fb4bebf0f789b2177a175\n",
        ),
        (
            Program::B32,
            b"encode bech32m test ff1e76e8199196d454941c45d1b3a323f1433bd6",
            b"ok test1lu08d6qejxtdg4y5r3zarvary0c5xw7kmz4lky\n",
        ),
        (
            Program::B32,
            b"segwit-encode bc 0 751e76e8199196d454941c45d1b3a323f1433bd6",
            b"ok bc1qw508d6qejxtdg4y5r3zarvary0c5xw7kv8f3t4\n",
        ),
        (
            Program::B32,
            b"segwit-encode bc 1 00000000000000000000000000000000000000000000000000000000000000\
00000000000000000000",
            b"err 47\n",
        ),
        (Program::B32, b"encode-elements bech32 a 20", b"err 67\n"),
        (
            Program::B32,
            b"encode-elements long-bech32 a 001f",
            b"ok a1ql2pu6jt\n",
        ),
        (
            Program::B32,
            b"encode-elements long-bech32 A!a 00",
            b"err 15\n",
        ),
        (
            Program::B32,
            b"correct bech32 a12uel5q",
            b"ok 0:l a12uel5l\n",
        ),
        (
            Program::B32,
            b"correct bech32 a12uel5q 3",
            b"ok 3:q 0:l a12uel5l\n",
        ),
        (
            Program::B32,
            b"correct bech32 a12uel5q 0,1,2,3,4,5,6,7,8,9,10",
            b"none\n",
        ),
        (
            Program::C32,
            b"parse ms10testsxxxxxxxxxxxxxxxxxxxxxxxxxx4nzvca9cmczlw",
            b"ok 0 test s xxxxxxxxxxxxxxxxxxxxxxxxxx\n",
        ),
    ];
    for row in rows {
        let (_, is_answered) = replies_with(rt.alloc(), 0, row).expect(&rt, "memory");
        same(&rt, &(row, is_answered), &(row, true));
    }
}
