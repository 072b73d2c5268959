ghost use Rattle.std.specs.Prelude.{ℕ, ◌≤◌, length, take, OnOk, OnErr};
ghost use Rattle.std.specs.Io.KnownBytes.{Appends};

use crate::tests::compare::{same, same_items};
use io_traits::{ByteSink, ByteSource, Watched, write_all};
use std::alloc::Global;
use std::io;
use std::process::Abort;
use testing_tools::writers::Narrow;

// Takes at most `most` bytes a call, or returns `Ok(0)`, and fails at its first flush.
#[derive(Drop)]
struct Clogged {
    most: usize,
    flushes: u8,
}

impl io::Write for Clogged {
    fn write(&mut self, buf: &[u8]) -> io::Result<usize> {
        Ok(buf.len().min(self.most))
    }

    fn flush(&mut self) -> io::Result<()> {
        self.flushes = self.flushes.saturating_add(1);
        if self.flushes == 1 {
            return Err(io::Error::from(io::ErrorKind::StorageFull));
        }
        Ok(())
    }
}

// Gives a byte a call, and fails once, after `good` calls.
#[derive(Drop)]
struct Hiccup<'a> {
    left: &'a [u8],
    good: Option<u8>,
}

impl<'a> io::Read for Hiccup<'a> {
    ghost use Rattle.std.specs.Prelude.{Some};

    ghost remaining = { λ r. Some r.left.now };

    fn read(&mut self, buf: &mut [u8]) -> io::Result<usize> {
        if let Some(good) = self.good {
            self.good = good.checked_sub(1);
            if good == 0 {
                return Err(io::Error::from(io::ErrorKind::Interrupted));
            }
        }
        let n = buf.len().min(self.left.len()).min(1);
        buf[..n].copy_from_slice(&self.left[..n]);
        self.left = &self.left[n..];
        Ok(n)
    }
}

// What a call returned, `None` for an error, and the mark after it; or that the device had failed
// before and was asked nothing more.
type Answer<T> = Option<(Option<T>, bool)>;

// A read of at most four bytes, and the first of them.
fn read_once<S: ByteSource>(source: &mut S) -> (Answer<usize>, u8) {
    let mut buf = [0u8; 4];
    if source.failed() {
        return (None, 0);
    }
    let outcome = source.read(&mut buf).ok();
    (Some((outcome, source.failed())), buf[0])
}

fn write_once<K: ByteSink>(sink: &mut K, buf: &[u8]) -> Answer<usize> {
    if sink.failed() {
        return None;
    }
    let outcome = sink.write(buf).ok();
    Some((outcome, sink.failed()))
}

// The same of a flush, which takes no bytes.
fn flush_once<K: ByteSink>(sink: &mut K) -> Answer<usize> {
    if sink.failed() {
        return None;
    }
    let outcome = match sink.flush() {
        Ok(()) => Some(0),
        Err(_) => None,
    };
    Some((outcome, sink.failed()))
}

// What writing all to a new sink over a writer returned, where an error is told by its kind, and
// the mark before and after it.
fn write_all_once<W: io::Write>(
    writer: &mut W,
    bytes: &[u8],
) -> (bool, Result<(), io::ErrorKind>, bool) {
    let mut sink = Watched::new(writer);
    let marked_at_first = sink.failed();
    let outcome = match write_all(&mut sink, bytes) {
        Ok(()) => Ok(()),
        Err(error) => Err(error.kind()),
    };
    (marked_at_first, outcome, sink.failed())
}

// What is proved of a sink is known of the writer that it watched.
fn write_to<W: io::Write>(writer: &mut W, bytes: &[u8]) -> io::Result<()>
    ensures ok { OnOk result (Appends (W.contents writer.old) (W.contents writer.new) bytes.now) }
    ensures beginning { OnErr result ((n : ℕ) × (n ≤ length bytes.now)
        × Appends (W.contents writer.old) (W.contents writer.new) (take n bytes.now)) }
{
    let mut sink = Watched::new(writer);
    write_all(&mut sink, bytes)
}

fn write_all_to_a_writer_that_fails(rt: &impl Abort, alloc: Global) {
    for room in 0..8usize {
        let mut writer = Narrow {
            got: Vec::new(alloc),
            room,
            step: 3,
            stuck: false,
        };
        let found = write_all_once(&mut writer, b"hello");
        let want = if room < 5 {
            (false, Err(io::ErrorKind::StorageFull), true)
        } else {
            (false, Ok(()), false)
        };
        same(rt, &(room, found), &(room, want));
        same_items(rt, &writer.got, &b"hello"[..room.min(5)]);
    }
    // And to one that does not fail.
    let mut bytes = Vec::new(alloc);
    write_to(&mut bytes, b"hello").expect(rt, "it is written");
    same_items(rt, &bytes, b"hello");
}

fn write_that_fails_marks(rt: &impl Abort, alloc: Global) {
    let mut writer = Narrow {
        got: Vec::new(alloc),
        room: 4,
        step: 3,
        stuck: false,
    };
    let first = write_five(&mut writer);
    writer.room = 5;
    let again = write_once(&mut Watched::new(&mut writer), b"o");
    let want = [
        Some((Some(3), false)),
        Some((Some(1), false)),
        Some((None, true)),
        None,
        None,
    ];
    same(rt, &(first, again), &(want, Some((Some(1), false))));
    same_items(rt, &writer.got, b"hello");
}

// Four writes and a flush of a new sink over a writer.
fn write_five(writer: &mut Narrow) -> [Answer<usize>; 5] {
    let mut sink = Watched::new(writer);
    [
        write_once(&mut sink, b"hello"),
        write_once(&mut sink, b"lo"),
        write_once(&mut sink, b"o"),
        write_once(&mut sink, b"o"),
        flush_once(&mut sink),
    ]
}

fn write_that_takes_nothing_marks(rt: &impl Abort) {
    let mut writer = Clogged {
        most: 0,
        flushes: 0,
    };
    let mut sink = Watched::new(&mut writer);
    let writes = [
        write_once(&mut sink, b""),
        write_once(&mut sink, b"a"),
        write_once(&mut sink, b""),
    ];
    same_items(
        rt,
        &writes,
        &[Some((Some(0), false)), Some((Some(0), true)), None],
    );
    let found = [
        write_all_once(&mut writer, b""),
        write_all_once(&mut writer, b"a"),
    ];
    let want = [
        (false, Ok(()), false),
        (false, Err(io::ErrorKind::WriteZero), true),
    ];
    same_items(rt, &found, &want);
}

fn flush_that_fails_marks(rt: &impl Abort) {
    let mut writer = Clogged {
        most: usize::MAX,
        flushes: 0,
    };
    let mut sink = Watched::new(&mut writer);
    let first = [
        write_once(&mut sink, b"ab"),
        flush_once(&mut sink),
        flush_once(&mut sink),
        write_once(&mut sink, b"c"),
    ];
    let mut again = Watched::new(&mut writer);
    let last = [flush_once(&mut again), write_once(&mut again, b"c")];
    let want = [Some((Some(2), false)), Some((None, true)), None, None];
    same_items(rt, &first, &want);
    same_items(rt, &last, &[Some((Some(0), false)), Some((Some(1), false))]);
    same(rt, &writer.flushes, &2);
}

fn read_that_fails_marks(rt: &impl Abort) {
    let mut reader = Hiccup {
        left: b"abc",
        good: Some(1),
    };
    let found = [read_thrice(&mut reader), read_thrice(&mut reader)];
    let first = [byte(b'a'), (Some((None, true)), 0), (None, 0)];
    let then = [byte(b'b'), byte(b'c'), (Some((Some(0), false)), 0)];
    same_items(rt, &found, &[(false, first), (false, then)]);
}

// A read that gave a byte.
fn byte(b: u8) -> (Answer<usize>, u8) {
    (Some((Some(1), false)), b)
}

// The mark of a new source over a reader, and three reads of it.
fn read_thrice(reader: &mut Hiccup<'_>) -> (bool, [(Answer<usize>, u8); 3]) {
    let mut source = Watched::new(reader);
    let marked_at_first = source.failed();
    let reads = [
        read_once(&mut source),
        read_once(&mut source),
        read_once(&mut source),
    ];
    (marked_at_first, reads)
}

#[test]
fn devices_that_fail_are_marked(rt: HostRuntime) {
    write_all_to_a_writer_that_fails(&rt, rt.alloc());
    write_that_fails_marks(&rt, rt.alloc());
    write_that_takes_nothing_marks(&rt);
    flush_that_fails_marks(&rt);
    read_that_fails_marks(&rt);
}
