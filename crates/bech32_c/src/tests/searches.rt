//! Calls that list texts in lent memory: those near to one, those that one edit makes of it, those
//! that may have been meant, and what descriptors are mended to.

use crate::confidential::bech32_liquid_nearest;
use crate::descriptor::{bech32_descriptor_mend, bech32_descriptor_mend_two};
use crate::near_edits::bech32_near_edits;
use crate::nearest::bech32_nearest;
use crate::suggest::bech32_suggest;
use crate::tests::confidential::ADDRESS as CONFIDENTIAL;
use crate::tests::{ADDRESS, BEFORE, LENGTH_BEFORE, TAPROOT_ADDRESS, has_front, has_places, same};
use caller_memory::Memory;
use std::alloc::Global;
use std::process::Abort;

// A call without its text, its memory and its buffers.
#[derive(Clone, Copy)]
pub(crate) enum Search {
    // The checksum, the erasures, and how many errors are looked for.
    Near(u32, &'static [usize], usize),
    // Of a confidential address: the erasures, and how many errors are looked for.
    Liquid(&'static [usize], usize),
    // The checksum.
    Edits(u32),
    // The human-readable part.
    Suggestions(&'static [u8]),
    // How many characters of a descriptor may be changed.
    Descriptors(usize),
    DescriptorsOfTwo,
}

// The bytes of memory that `include/bech32.h` states for a call, or fewer.
fn stated(search: Search, text: &[u8]) -> usize {
    match search {
        Search::Near(_, _, _) => 16384 + 8 * text.len().min(1023),
        Search::Liquid(_, _) => 24576 + 1024 * text.len().min(1024),
        Search::Edits(_) => 4096 + 16 * text.len().min(1024),
        Search::Suggestions(_) => 196_608,
        Search::Descriptors(_) => 16384 + 400 * text.len().min(1024),
        Search::DescriptorsOfTwo => 65536 + 4608 * text.len().min(1024),
    }
}

// Makes the call, and returns its number. Some calls have no kinds, or no places.
fn number_of(
    search: Search,
    text: &[u8],
    memory: &mut Memory,
    kinds: &mut [u8],
    places: &mut [usize],
    texts: &mut [u8],
    count: &mut usize,
) -> u32 {
    match search {
        Search::Near(checksum, erasures, errors) => {
            bech32_nearest(checksum, text, erasures, errors, memory, texts, count)
        }
        Search::Liquid(erasures, errors) => {
            bech32_liquid_nearest(text, erasures, errors, memory, texts, count)
        }
        Search::Edits(checksum) => {
            bech32_near_edits(checksum, text, memory, kinds, places, texts, count)
        }
        Search::Suggestions(hrp) => bech32_suggest(text, hrp, memory, kinds, places, texts, count),
        Search::Descriptors(changed) => {
            bech32_descriptor_mend(text, changed, memory, kinds, places, texts, count)
        }
        Search::DescriptorsOfTwo => bech32_descriptor_mend_two(text, memory, places, texts, count),
    }
}

// How many items there is room for in each buffer.
pub(crate) type Rooms = (usize, usize, usize);

pub(crate) const AMPLE: Rooms = (4, 4, 512);

const NO_ROOM: Rooms = (0, 0, 0);

// What is listed: how many texts there are, and of those that are put the kinds, the places, and
// they themselves, one behind another.
pub(crate) type Listed<'a> = (usize, &'a [u8], &'a [usize], &'a [u8]);

pub(crate) const NONE: Listed<'static> = (0, b"", &[], b"");

// A text that is counted, and not put.
pub(crate) const NOT_PUT: Listed<'static> = (1, b"", &[], b"");

// Fails where a count and buffers are not what they are to be: where the number is 0 or 92, what is
// listed, and else as they were.
fn lists(rt: &impl Abort, number: u32, found: Listed<'_>, listed: Listed<'_>) {
    let want = match number {
        0 | 92 => listed,
        _ => (LENGTH_BEFORE, NONE.1, NONE.2, NONE.3),
    };
    let are_put = has_front(found.1, want.1) && has_places(found.2, want.2);
    let holds = (found.0, are_put, has_front(found.3, want.3));
    same(rt, &holds, &(want.0, true, true));
}

// Makes the call with these rooms, and returns its number. Where that is 0 or 92, this is listed.
fn searched(
    rt: &impl Abort,
    memory: &mut Memory,
    (search, text): (Search, &[u8]),
    (rooms, listed): (Rooms, Listed<'_>),
) -> u32 {
    let (mut kinds, mut places, mut texts) = ([BEFORE; 4], [LENGTH_BEFORE; 4], [BEFORE; 512]);
    let mut count = LENGTH_BEFORE;
    let number = number_of(
        search,
        text,
        memory,
        kinds.split_at_mut(rooms.0.min(4)).0,
        places.split_at_mut(rooms.1.min(4)).0,
        texts.split_at_mut(rooms.2.min(512)).0,
        &mut count,
    );
    lists(rt, number, (count, &kinds, &places, &texts), listed);
    number
}

// The same with `size` bytes of memory, twice; all of them come back.
fn searched_within(
    rt: &impl Abort,
    alloc: Global,
    size: usize,
    asked: (Search, &[u8]),
    want: (Rooms, Listed<'_>),
) -> u32 {
    let mut memory = Memory::leaked(alloc, size).expect(rt, "memory");
    let first = searched(rt, &mut memory, asked, want);
    let again = searched(rt, &mut memory, asked, want);
    same(rt, &(again, memory.with_size().0), &(first, size));
    first
}

// A call and its text; the rooms; the number that it returns, and what it lists.
pub(crate) type Row<'a> = ((Search, &'a [u8]), Rooms, u32, Listed<'a>);

// Makes each call with the stated memory.
pub(crate) fn list_each(rt: &impl Abort, alloc: Global, rows: &[Row<'_>]) {
    for &(asked, rooms, want, listed) in rows {
        let size = stated(asked.0, asked.1);
        let number = searched_within(rt, alloc, size, asked, (rooms, listed));
        same(rt, &number, &want);
    }
}

// A call and its text, and the number that it returns without memory. Where it is 0, there are no
// texts.
pub(crate) type Refused<'a> = ((Search, &'a [u8]), u32);

pub(crate) fn refuse_each(rt: &impl Abort, alloc: Global, rows: &[Refused<'_>]) {
    for &(asked, want) in rows {
        let number = searched_within(rt, alloc, 0, asked, (AMPLE, NONE));
        same(rt, &number, &want);
    }
}

// A text with two wrong characters, near to one; and one that is near to three.
const TWO_WRONG: &[u8] = b"BC1QW5Q8D6QEJXTDG4Y5R3ZARVARY0C5XW7KV8F3T5";

const NEAR: (Search, &[u8]) = (Search::Near(1, &[], 2), TWO_WRONG);

const NEAR_THREE: (Search, &[u8]) = (Search::Near(1, &[3, 8, 1], 2), b"split1checkupstagehan");

const FIRST_TWO: &[u8] = b"split1checkuysyvg6h8nsplit1czecku5stag5hnn";

const THREE: &[u8] = b"split1checkuysyvg6h8nsplit1czecku5stag5hnnsplit15hecku0atag7hzn";

// The first two texts are of BIP-173. What is near was found by going through all patterns. Where
// the texts do not fit, all are counted, and the first ones are put.
const NEAR_ROWS: &[Row<'static>] = &[
    (NEAR, (0, 0, 42), 0, (1, b"", &[], ADDRESS)),
    (NEAR, (0, 0, 41), 92, NOT_PUT),
    (NEAR, NO_ROOM, 92, NOT_PUT),
    (
        (
            Search::Near(1, &[], 2),
            b"tb1qrp33g0q5c5txsp9arysrx4k6zdkfs4nce4xj0gdcccefvpysxf3q0sl5q8",
        ),
        AMPLE,
        0,
        (
            1,
            b"",
            &[],
            b"tb1qrp33g0q5c5txsp9arysrx4k6zdkfs4nce4xj0gdcccefvpysxf3q0sl5k7",
        ),
    ),
    (
        (Search::Near(1, &[], 0), b"A12UEL5L"),
        AMPLE,
        0,
        (1, b"", &[], b"a12uel5l"),
    ),
    ((Search::Near(1, &[], 0), b"a12uel5q"), NO_ROOM, 0, NONE),
    (
        (Search::Near(1, &[0], 0), b"a12uel5q"),
        AMPLE,
        0,
        (1, b"", &[], b"a12uel5l"),
    ),
    (
        (Search::Near(1, &[0, 1, 2, 3], 2), b"a12uel5q"),
        AMPLE,
        0,
        NONE,
    ),
    ((Search::Near(1, &[6], 2), b"a12uel5q"), AMPLE, 0, NONE),
    (
        (Search::Near(2, &[2, 2], 1), b"a1lqfn3a"),
        AMPLE,
        0,
        (1, b"", &[], b"a1lqfn3a"),
    ),
    (NEAR_THREE, AMPLE, 0, (3, b"", &[], THREE)),
    (NEAR_THREE, (0, 0, 63), 0, (3, b"", &[], THREE)),
    (NEAR_THREE, (0, 0, 62), 92, (3, b"", &[], FIRST_TWO)),
    (
        NEAR_THREE,
        (0, 0, 41),
        92,
        (3, b"", &[], b"split1checkuysyvg6h8n"),
    ),
    (NEAR_THREE, (0, 0, 20), 92, (3, b"", &[], b"")),
];

// No memory is needed for a refusal of a number or of the text; nor where no text is near, within
// the bound on errors, for two errors without erasures, and where there is nothing to search. A
// near text needs memory: a mistyped one's, and one's own.
const NEAR_REFUSED: &[Refused<'static>] = &[
    ((Search::Near(0, &[0], 2), b"\xff"), 4),
    ((Search::Near(3, &[0], 0), b"a12uel5l"), 4),
    ((Search::Near(1, &[0], 3), b"a12uel5l"), 4),
    ((Search::Near(2, &[0], usize::MAX), b"\xff"), 4),
    ((Search::Near(1, &[0], 2), b"\xff"), 2),
    ((Search::Near(1, &[0], 2), b"1qqqqqq"), 11),
    ((Search::Near(1, &[0], 2), b" 1nwldj5"), 14),
    ((Search::Near(1, &[0], 2), b"a12uel5l\r"), 21),
    ((Search::Near(2, &[0], 2), b"pQ"), 22),
    ((Search::Near(2, &[0], 2), b"qpzry"), 23),
    ((Search::Near(1, &[0], 2), b"a1"), 32),
    ((Search::Near(2, &[0], 0), b"a1qqqqq"), 32),
    ((Search::Near(1, &[], 0), b"a12uel5q"), 0),
    ((Search::Near(2, &[], 0), b"a12uel5l"), 0),
    ((Search::Near(1, &[], 1), TWO_WRONG), 0),
    ((Search::Near(1, &[1], 1), TWO_WRONG), 0),
    ((Search::Near(2, &[0, 1, 2], 0), TWO_WRONG), 0),
    ((Search::Near(2, &[], 2), TWO_WRONG), 0),
    ((Search::Near(2, &[0, 1, 2, 3], 2), b"a1lqfn3a"), 0),
    ((Search::Near(1, &[6], 0), b"a12uel5l"), 0),
    ((Search::Near(1, &[0, 0, 7], 2), b"a12uel5l"), 0),
    ((Search::Near(1, &[], 0), b"a12uel5l"), 91),
    ((Search::Near(1, &[0], 0), b"a12uel5q"), 91),
    ((Search::Near(2, &[], 1), b"a1lqfn3q"), 91),
];

const RIGHT: Listed<'static> = (1, b"", &[], CONFIDENTIAL);

// A text that Blech32 accepts. Any seven columns of its code that are 33 locations apart add up to
// zero, with factors: beside five of them an error at the sixth has another text.
const LONG: &[u8] =
    b"a1kevx6n6kf6mjuq6v6l54td7zasyq3qlju9w622ualy2cdk590z2guzagknhxfkv48lncz8za3v8yfx09pthzj3cnc7kclkpz4ymqfq72wa5nwv6qne3fm5fcku83rpzcx5y4un7kwthlw5799ayzlzd3aezedfz8vfzkk36mfa6ecqdxy9nt953p7jjwg2j3uycdpyv";

const RIGHT_LONG: Listed<'static> = (1, b"", &[], LONG);

// Both texts.
const TWO_LONG: &[u8] =
    b"a1kevx6n6kf6mjuq6v6l54td7zasyq3qlju9w622ualy2cdk590z2guzagknhxfkv48lncz8za3v8yfx09pthzj3cnc7kclkpz4ymqfq72wa5nwv6qne3fm5fcku83rpzcx5y4un7kwthlw5799ayzlzd3aezedfz8vfzkk36mfa6ecqdxy9nt953p7jjwg2j3uycdpyva1hevx6n6kf6mjuq6v6l54td7zasyq3qljuqw622ualy2cdk590z2guzagknhxfkv48lucz8za3v8yfx09pthzj3cnc7kclkpz4ymgfq72wa5nwv6qne3fm5fcku83rpzcx5y4sn7kwthlw5799ayzlzd3aezedfz8vfzkku6mfa6ecqdxy9nt953p7jjwg2j3uycdpy2";

// The address, and the long text, with other characters at some of the erasures, and at others; in
// just the memory that `include/bech32.h` states.
const LIQUID_ROWS: &[Row<'static>] = &[
    ((Search::Liquid(&[], 0), CONFIDENTIAL), AMPLE, 0, RIGHT),
    (
        (Search::Liquid(&[], 0), CONFIDENTIAL),
        (0, 0, 100),
        92,
        NOT_PUT,
    ),
    (
        (
            Search::Liquid(&[], 3),
            b"lq1pqf8er278e6nyvuwtgf39e6ewvdcnjupn9a86rzpx655y5lqkt0walu3djf9cklkxd3ryld97hu8h3xepw7sh2rlu7q45dqew5",
        ),
        (0, 0, 101),
        0,
        RIGHT,
    ),
    (
        (
            Search::Liquid(&[3, 4, 5, 6, 50, 97], 0),
            b"lq1pqf8er278e6nyvuwtgf39e6ewvdcnjupn9a86rzpx655y5lqkt0walu3djf9cklkxd3ryld97hu8h3xepw7sh2rlu7qqqqqew5",
        ),
        (0, 0, 101),
        0,
        RIGHT,
    ),
    (
        (
            Search::Liquid(&[3, 4, 5], 2),
            b"lq1pqf8er278e6nyvuwtgf39e6ewvdcnjupn9a86rzpx655y5lqkt0walu3djf9cklkxd3ryld97hu8h3xepw7sh2rlu7q4qqqew5",
        ),
        (0, 0, 101),
        0,
        RIGHT,
    ),
    (
        (
            Search::Liquid(&[3, 4, 5, 6, 7], 1),
            b"lq1pqf8er278e6nyvuwtgf39e6ewvdcnjupn9a86rzpx655y5lhkt0walu3djf9cklkxd3ryld97hu8h3xepw7sh2rlu7pqqqqew5",
        ),
        (0, 0, 101),
        0,
        RIGHT,
    ),
    (
        (
            Search::Liquid(&[3, 3, 4, 4, 3], 2),
            b"lq1pqf8er278e6nyvuwtgf39e6ewvdcnjupn9a86rzpx655y5lqkt0walu3djf9cklkxd3ryld97hu8h3xepw7sh2rlu7q45qqew5",
        ),
        (0, 0, 101),
        0,
        RIGHT,
    ),
    (
        (
            Search::Liquid(&[97], 3),
            b"lq1pqf8er278e6nyvuwtgf39e6ewvdcnjupn9a86rzpx655y5lqkt0walu3djf9cklkxd3ryld97hu8h3xepw7sh2rlu7q45dcew5",
        ),
        (0, 0, 101),
        0,
        RIGHT,
    ),
    (
        (
            Search::Liquid(&[0, 33, 66, 99, 132, 165], 0),
            b"a1kevx6n6kf6mjuq6v6l54td7zasyq3qljuqw622ualy2cdk590z2guzagknhxfkv48lqcz8za3v8yfx09pthzj3cnc7kclkpz4ympfq72wa5nwv6qne3fm5fcku83rpzcx5y4qn7kwthlw5799ayzlzd3aezedfz8vfzkkq6mfa6ecqdxy9nt953p7jjwg2j3uycdpyq",
        ),
        AMPLE,
        0,
        RIGHT_LONG,
    ),
    (
        (
            Search::Liquid(&[0, 33, 66, 99, 132], 1),
            b"a1kevx6n6kf6mjuq6v6l54td7zasyq3qljuqw622ualy2cdk590z2guzagknhxfkv48lqcz8za3v8yfx09pthzj3cnc7kclkpz4ympfq72wa5nwv6qne3fm5fcku83rpzcx5y4qn7kwthlw5799ayzlzd3aezedfz8vfzkkq6mfa6ecqdxy9nt953p7jjwg2j3uycdpyq",
        ),
        AMPLE,
        0,
        (2, b"", &[], TWO_LONG),
    ),
    (
        (
            Search::Liquid(&[0, 33, 66, 99], 1),
            b"a1kevx6n6kf6mjuq6v6l54td7zasyq3qlju9w622ualy2cdk590z2guzagknhxfkv48lqcz8za3v8yfx09pthzj3cnc7kclkpz4ympfq72wa5nwv6qne3fm5fcku83rpzcx5y4qn7kwthlw5799ayzlzd3aezedfz8vfzkkq6mfa6ecqdxy9nt953p7jjwg2j3uycdpyq",
        ),
        AMPLE,
        0,
        RIGHT_LONG,
    ),
    (
        (
            Search::Liquid(&[0, 33, 66], 2),
            b"a1kevx6n6kf6mjuq6v6l54td7zasyq3qlju9w622ualy2cdk590z2guzagknhxfkv48lqcz8za3v8yfx09pthzj3cnc7kclkpz4ympfq72wa5nwv6qne3fm5fcku83rpzcx5y4qn7kwthlw5799ayzlzd3aezedfz8vfzkkq6mfa6ecqdxy9nt953p7jjwg2j3uycdpyq",
        ),
        AMPLE,
        0,
        RIGHT_LONG,
    ),
    (
        (
            Search::Liquid(&[0], 3),
            b"a1kevx6n6kf6mjuq6v6l54td7zasyq3qlju9w622ualy2cdk590z2guzagknhxfkv48lncz8za3v8yfx09pthzj3cnc7kclkpz4ympfq72wa5nwv6qne3fm5fcku83rpzcx5y4qn7kwthlw5799ayzlzd3aezedfz8vfzkkq6mfa6ecqdxy9nt953p7jjwg2j3uycdpyq",
        ),
        AMPLE,
        0,
        RIGHT_LONG,
    ),
    (
        (
            Search::Liquid(&[], 3),
            b"a1kevx6n6kf6mjuq6v6l54td7zasyq3qlju9w622ualy2cdk590z2guzagknhxfkv48lncz8za3v8yfx09pthzj3cnc7kclkpz4ymqfq72wa5nwv6qne3fm5fcku83rpzcx5y4qn7kwthlw5799ayzlzd3aezedfz8vfzkkq6mfa6ecqdxy9nt953p7jjwg2j3uycdpyq",
        ),
        AMPLE,
        0,
        RIGHT_LONG,
    ),
];

// Without memory: twice the errors and the different erasures are eight or more, or at most seven;
// and where there is nothing to search, there are no texts.
const LIQUID_REFUSED: &[Refused<'static>] = &[
    ((Search::Liquid(&[], 4), b"\xff"), 4),
    ((Search::Liquid(&[], usize::MAX), b"\xff"), 4),
    ((Search::Liquid(&[], 3), b"\xff"), 2),
    ((Search::Liquid(&[], 0), b"Lq1q"), 22),
    ((Search::Liquid(&[], 0), b"lq1qqqqqqqqqqq"), 32),
    ((Search::Liquid(&[], 3), CONFIDENTIAL), 91),
    ((Search::Liquid(&[5, 6], 3), CONFIDENTIAL), 4),
    ((Search::Liquid(&[5, 6, 7, 8], 2), CONFIDENTIAL), 4),
    ((Search::Liquid(&[5, 6, 7, 8, 9, 10], 1), CONFIDENTIAL), 4),
    (
        (Search::Liquid(&[5, 6, 7, 8, 9, 10, 11], 4), CONFIDENTIAL),
        4,
    ),
    ((Search::Liquid(&[98, 99], 3), CONFIDENTIAL), 4),
    ((Search::Liquid(&[5, 6, 5, 6, 7], 2), CONFIDENTIAL), 91),
    ((Search::Liquid(&[5, 6, 7, 8, 9], 1), CONFIDENTIAL), 91),
    (
        (Search::Liquid(&[5, 6, 7, 8, 9, 10, 11], 0), CONFIDENTIAL),
        0,
    ),
    (
        (
            Search::Liquid(&[5, 6, 7, 8, 9, 10, 11, 12], 3),
            CONFIDENTIAL,
        ),
        0,
    ),
    ((Search::Liquid(&[98], 0), CONFIDENTIAL), 0),
    ((Search::Liquid(&[98], 3), CONFIDENTIAL), 0),
    ((Search::Liquid(&[5, 6, usize::MAX], 2), CONFIDENTIAL), 0),
];

#[test]
fn lists_near_texts(rt: HostRuntime) {
    list_each(&rt, rt.alloc(), NEAR_ROWS);
    refuse_each(&rt, rt.alloc(), NEAR_REFUSED);
    list_each(&rt, rt.alloc(), LIQUID_ROWS);
    refuse_each(&rt, rt.alloc(), LIQUID_REFUSED);
}

// A text with two edits, of 17 and of 19 characters.
const TWO: (Search, &[u8]) = (Search::Edits(1), b"ii2134hk2xmat79tqp");

const BOTH: Listed<'static> = (2, &[2, 3], &[1, 1], b"ii2134hk2xmat79tpii2134hk2xmat79tqqp");

// The first of them alone, and neither.
const ONE_OF_TWO: Listed<'static> = (2, &[2], &[1], b"ii2134hk2xmat79tp");

const NONE_OF_TWO: Listed<'static> = (2, b"", &[], b"");

// The address with two characters swapped, one left out, and one doubled.
const SWAPPED: &[u8] = b"bc1qw508d6qejxtdg4y5r3zravary0c5xw7kv8f3t4";

const LEFT_OUT: &[u8] = b"BC1QW508D6QEJXTDG4Y5R3ZRVARY0C5XW7KV8F3T4";

const DOUBLED: &[u8] = b"bc1qw508d6qejxtdg4y5r33zarvary0c5xw7kv8f3t4";

// Where the edits do not fit in one of the buffers, as many stand in all as fit in each.
const EDIT_ROWS: &[Row<'static>] = &[
    (
        (Search::Edits(1), SWAPPED),
        AMPLE,
        0,
        (1, &[1], &[17], ADDRESS),
    ),
    (
        (Search::Edits(1), LEFT_OUT),
        AMPLE,
        0,
        (1, &[3], &[18], ADDRESS),
    ),
    (
        (Search::Edits(1), DOUBLED),
        AMPLE,
        0,
        (1, &[2], &[20], ADDRESS),
    ),
    (
        (Search::Edits(2), b"a1lqfn3"),
        AMPLE,
        0,
        (1, &[3], &[0], b"a1lqfn3a"),
    ),
    (TWO, AMPLE, 0, BOTH),
    (TWO, (2, 2, 36), 0, BOTH),
    (TWO, (4, 4, 35), 92, ONE_OF_TWO),
    (TWO, (4, 4, 17), 92, ONE_OF_TWO),
    (TWO, (4, 4, 16), 92, NONE_OF_TWO),
    (TWO, (1, 4, 128), 92, ONE_OF_TWO),
    (TWO, (4, 1, 128), 92, ONE_OF_TWO),
    (TWO, (0, 4, 128), 92, NONE_OF_TWO),
    (TWO, (4, 0, 128), 92, NONE_OF_TWO),
];

// A refusal of a number or of the text needs no memory, nor does a text of which there is no edit.
const EDIT_REFUSED: &[Refused<'static>] = &[
    ((Search::Edits(0), b"\xff"), 4),
    ((Search::Edits(3), b"a12uel5"), 4),
    ((Search::Edits(1), b"\xff"), 2),
    ((Search::Edits(1), b"1qqqqqq"), 11),
    ((Search::Edits(1), b" 1nwldj5"), 14),
    ((Search::Edits(1), b"a12uel5l\r"), 21),
    ((Search::Edits(2), b"pQ"), 22),
    ((Search::Edits(2), b"qpzry"), 23),
    ((Search::Edits(1), b""), 23),
    ((Search::Edits(1), ADDRESS), 0),
    ((Search::Edits(2), SWAPPED), 0),
    ((Search::Edits(2), b"a12uel5"), 0),
    ((Search::Edits(1), b"bc1"), 0),
    (TWO, 91),
];

const TYPED: &[u8] = b"bc1qw508d6qejxtdg4y5r3zarvary0c5xw7kv8f3tq";

const ONE_WRONG: (Search, &[u8]) = (Search::Suggestions(b"bc"), TYPED);

const ONE_REPLACED: Listed<'static> = (1, &[4], &[41], ADDRESS);

// Version 1 with 33 bytes, which is not in use: no guess, but an address.
const OTHER_FORM: &[u8] = b"bc1paek6qccmuwpjh9cyknjdedcyr06lgvh83edqsvtpmaaahwx2cszk7d0t7tv";

const SUGGESTION_ROWS: &[Row<'static>] = &[
    (
        (Search::Suggestions(b"bc"), ADDRESS),
        AMPLE,
        0,
        (1, &[0], &[42], ADDRESS),
    ),
    (ONE_WRONG, AMPLE, 0, ONE_REPLACED),
    (ONE_WRONG, (1, 1, 42), 0, ONE_REPLACED),
    (ONE_WRONG, (2, 2, 41), 92, NOT_PUT),
    (ONE_WRONG, (0, 2, 64), 92, NOT_PUT),
    (ONE_WRONG, (2, 0, 64), 92, NOT_PUT),
    (
        (
            Search::Suggestions(b"BC"),
            b"BC1QW508D6QEJXTDG4Y5R3ZAQVARY0C5XW7KV8F3TQ",
        ),
        AMPLE,
        0,
        (1, &[4], &[24], ADDRESS),
    ),
    (
        (Search::Suggestions(b"bc"), SWAPPED),
        AMPLE,
        0,
        (1, &[1], &[23], ADDRESS),
    ),
    (
        (Search::Suggestions(b"bc"), DOUBLED),
        AMPLE,
        0,
        (1, &[2], &[22], ADDRESS),
    ),
    (
        (Search::Suggestions(b"bc"), LEFT_OUT),
        AMPLE,
        0,
        (1, &[3], &[23], ADDRESS),
    ),
    (
        (
            Search::Suggestions(b"bc"),
            b"bc1qw5?8d6qejxtdg4y5r3zarvary?c5xw7kv8f3t4",
        ),
        AMPLE,
        0,
        (1, &[4], &[6], ADDRESS),
    ),
    (
        (
            Search::Suggestions(b"bc"),
            b"bc1p0xlxvlhemja6c4dqv22uapctqupfhlxm9h8z3k2e72q4k9hcz7vqzk5?jz",
        ),
        AMPLE,
        0,
        (1, &[4], &[59], TAPROOT_ADDRESS),
    ),
    ((Search::Suggestions(b"tb"), TYPED), AMPLE, 0, NONE),
    (
        (
            Search::Suggestions(b"bc"),
            b"bc1qw?08d6q?jxtdg4y5r3z?rvary0c5xw7?v8f3t4",
        ),
        AMPLE,
        0,
        NONE,
    ),
    (
        (Search::Suggestions(b"bc"), OTHER_FORM),
        AMPLE,
        0,
        (1, &[0], &[63], OTHER_FORM),
    ),
    (
        (
            Search::Suggestions(b"bc"),
            b"bc1paek6qccmuwpjh9cyknjdedcyr06lgvh83edqsvtpmaaahwx2cszk7d0t7tw",
        ),
        AMPLE,
        0,
        NONE,
    ),
    ((Search::Suggestions(b"a"), b"a12uel5l"), AMPLE, 0, NONE),
];

// A refusal of a part or of a text needs no memory, nor does a text for which nothing is tried.
const SUGGESTION_REFUSED: &[Refused<'static>] = &[
    ((Search::Suggestions(b""), b"\xff"), 11),
    ((Search::Suggestions(b"\xff"), b"q"), 2),
    ((Search::Suggestions(b"Bc"), b"q"), 15),
    ((Search::Suggestions(b"bc"), b"bc1\xff"), 2),
    ((Search::Suggestions(b"bc"), b"bc1qbqqqqqqqqqqqqqqq"), 21),
    ((Search::Suggestions(b"bc"), b"bc1Q?qqqqqqqqqqqqqqq"), 22),
    ((Search::Suggestions(b"bc"), b"qqqq?"), 23),
    ((Search::Suggestions(b"bc"), &[b'b'; 92]), 0),
    ((Search::Suggestions(b"bc"), b"bc1qqqqqqqqq"), 0),
    (ONE_WRONG, 91),
];

#[test]
fn lists_edits_and_suggestions(rt: HostRuntime) {
    list_each(&rt, rt.alloc(), EDIT_ROWS);
    refuse_each(&rt, rt.alloc(), EDIT_REFUSED);
    list_each(&rt, rt.alloc(), SUGGESTION_ROWS);
    refuse_each(&rt, rt.alloc(), SUGGESTION_REFUSED);
}

// From some size on memory suffices, at the latest from the stated one, which the last round has.
fn lists_from_some_size_on(
    rt: &impl Abort,
    alloc: Global,
    asked: (Search, &[u8]),
    step: usize,
    listed: Listed<'_>,
) {
    let enough = stated(asked.0, asked.1);
    let mut before = 91;
    for round in 0..67usize {
        let size = enough.min(round.saturating_mul(step));
        let number = searched_within(rt, alloc, size, asked, (AMPLE, listed));
        assert!(rt; number == 0 || number == before);
        before = number;
    }
    same(rt, &before, &0);
}

#[test]
fn lists_or_wants_memory(rt: HostRuntime) {
    const TOO_LITTLE: &[usize] = &[16, 41];
    for &size in TOO_LITTLE {
        let number = searched_within(&rt, rt.alloc(), size, NEAR, (AMPLE, NONE));
        same(&rt, &number, &91);
    }
    const ROWS: &[((Search, &[u8]), usize, Listed<'static>)] = &[
        (NEAR, 256, (1, b"", &[], ADDRESS)),
        (TWO, 128, BOTH),
        (ONE_WRONG, 8192, ONE_REPLACED),
    ];
    for &(asked, step, listed) in ROWS {
        lists_from_some_size_on(&rt, rt.alloc(), asked, step, listed);
    }
}
