ghost use Rattle.std.specs.Prelude.{◌<◌};

use crate::tests::compare::{prints, same};
use b32_replies::error::RunError;
use b32_replies::run::run;
use line_program::{Reason, exit_code};
use std::alloc::Global;
use std::cell::Cell;
use std::io;
use std::process::{Abort, ExitCode};
use testing_tools::writers::Narrow;

// Gives `left`, `step` bytes a call, and fails in place of the byte at `room`.
#[derive(Drop)]
struct Faulty<'a> {
    left: &'a [u8],
    room: usize,
    step: usize,
    ghost moves: { 0 < step },
}

impl<'a> io::Read for Faulty<'a> {
    ghost use Rattle.std.specs.Prelude.{Some};

    ghost remaining = { λ r. Some r.left.now };

    fn read(&mut self, buf: &mut [u8]) -> io::Result<usize> {
        let n = buf.len().min(self.step).min(self.left.len());
        if n == 0 {
            return Ok(0);
        }
        if self.room < n {
            return Err(io::Error::from(io::ErrorKind::Other));
        }
        self.room -= n;
        buf[..n].copy_from_slice(&self.left[..n]);
        self.left = &self.left[n..];
        Ok(n)
    }
}

// Lines of all commands, and some that are none; the last has no end.
const INPUT: &[u8] = b"encode bech32 a -\nencode bech32m a 880000\ndecode a12uel5l\n\
segwit-encode bc 16 751e\nsegwit-decode BC1SW50QGDZ25J\ncorrect bech32 a12uel5q 3\nx\n\ndecode";

// The replies to them.
const OUTPUT: &[u8] = b"ok a12uel5l\nok a13qqqq9qz88s\nok a -\n\
ok bc1sw50qgdz25j\nok bc 16 751e\nok 3:q 0:l a12uel5l\nerr 3\nerr 3\nerr 3\n";

// The replies to the lines that end in a front of the input.
fn answered(front: &[u8]) -> &'static [u8] {
    let mut lines = 0usize;
    for b in front {
        if *b == b'\n' {
            lines = lines.saturating_add(1);
        }
    }
    for i in 0..OUTPUT.len() {
        if lines == 0 {
            return &OUTPUT[..i];
        }
        if OUTPUT[i] == b'\n' {
            lines = lines.saturating_sub(1);
        }
    }
    OUTPUT
}

fn ends_are_printed(rt: &impl Abort, alloc: Global) {
    prints(rt, alloc, &RunError::Read, "b32: reading failed");
    prints(rt, alloc, &RunError::Write, "b32: writing failed");
    prints(rt, alloc, &RunError::Memory, "b32: no memory");
    prints(rt, alloc, &line_program::RunError::Read, "reading failed");
    prints(rt, alloc, &line_program::RunError::Write, "writing failed");
    prints(rt, alloc, &line_program::RunError::Memory, "out of memory");
}

// Fails where the end of a run has another status, or is told by another line.
fn ends<E: Reason + Copy>(
    rt: &impl Abort,
    alloc: Global,
    ended: (&str, Result<(), E>),
    want: (ExitCode, &str),
) {
    let (name, outcome) = ended;
    let mut told = Vec::new(alloc);
    let code = exit_code(name, outcome, &mut told);
    same(rt, &(code, told.as_slice()), &(want.0, want.1.as_bytes()));
}

#[test]
fn ends_are_told(rt: HostRuntime) {
    let alloc = rt.alloc();
    ends_are_printed(&rt, alloc);
    ends(
        &rt,
        alloc,
        ("b32", Err(RunError::Memory)),
        (ExitCode::FAILURE, "b32: no memory\n"),
    );
    ends(
        &rt,
        alloc,
        ("c32", Err(line_program::RunError::Memory)),
        (ExitCode::FAILURE, "c32: out of memory\n"),
    );
    ends(
        &rt,
        alloc,
        ("mend", Err(line_program::RunError::Write)),
        (ExitCode::FAILURE, "mend: writing failed\n"),
    );
    ends(
        &rt,
        alloc,
        ("c32", Ok::<(), RunError>(())),
        (ExitCode::SUCCESS, ""),
    );
}

// How a run ends, and what it writes.
type End<'a> = (Result<(), RunError>, &'a [u8]);

// Fails where a run over a reader ends otherwise, or writes other bytes. The writer has room for
// this many, and may be stuck.
fn ends_so(
    rt: &impl Abort,
    alloc: Global,
    mut reader: Faulty<'_>,
    (room, stuck): (usize, bool),
    want: End<'_>,
) {
    let rooms = (reader.room, room);
    let mut writer = Narrow {
        got: Vec::new(alloc),
        room,
        step: 4,
        stuck,
    };
    let outcome = run(alloc, &mut reader, &mut writer);
    same(
        rt,
        &(rooms, (outcome, writer.got.as_slice())),
        &(rooms, want),
    );
}

// Gives the input, a byte a call, up to the one at `room`.
fn reader_up_to(room: usize) -> Faulty<'static> {
    Faulty {
        left: INPUT,
        room,
        step: 1,
    }
}

// Gives the whole input.
fn whole_reader() -> Faulty<'static> {
    Faulty {
        left: INPUT,
        room: 1000,
        step: 1000,
    }
}

// The end of a run whose read of the byte at `room` fails.
fn after_reading(room: usize) -> End<'static> {
    if room < INPUT.len() {
        (Err(RunError::Read), answered(&INPUT[..room]))
    } else {
        (Ok(()), OUTPUT)
    }
}

// The end of a run that can write no more than `room` bytes.
fn after_writing(room: usize) -> End<'static> {
    if room < OUTPUT.len() {
        (Err(RunError::Write), &OUTPUT[..room])
    } else {
        (Ok(()), OUTPUT)
    }
}

#[test]
fn devices_that_fail(rt: HostRuntime) {
    let alloc = rt.alloc();
    let nothing = Faulty {
        left: b"",
        room: 0,
        step: 1,
    };
    ends_so(&rt, alloc, nothing, (0, false), (Ok(()), b""));
    for room in 0..=INPUT.len() {
        let want = after_reading(room);
        ends_so(&rt, alloc, reader_up_to(room), (1000, false), want);
    }
    for room in 0..=OUTPUT.len() {
        let want = after_writing(room);
        ends_so(&rt, alloc, whole_reader(), (room, false), want);
    }
    // A flush that fails is told, whether reading fails or not.
    for room in [0, 30, 1000] {
        let want = (Err(RunError::Write), after_reading(room).1);
        ends_so(&rt, alloc, reader_up_to(room), (1000, true), want);
    }
}

// Gives `left`, a few bytes a call, and notes a read before which the replies to all lines that
// ended were not written.
#[derive(Drop)]
struct Looking<'a> {
    left: &'a [u8],
    written: &'a Cell<usize>,
    is_late: &'a Cell<bool>,
}

impl<'a> io::Read for Looking<'a> {
    fn read(&mut self, buf: &mut [u8]) -> io::Result<usize> {
        let given = INPUT.len().saturating_sub(self.left.len());
        let front = INPUT.get(..given).unwrap_or(INPUT);
        if self.written.get() != answered(front).len() {
            self.is_late.set(true);
        }
        let n = buf.len().min(7).min(self.left.len());
        buf[..n].copy_from_slice(&self.left[..n]);
        self.left = &self.left[n..];
        Ok(n)
    }
}

// Counts the bytes that are written.
#[derive(Drop)]
struct Counted<'a> {
    written: &'a Cell<usize>,
}

impl<'a> io::Write for Counted<'a> {
    fn write(&mut self, buf: &[u8]) -> io::Result<usize> {
        self.written
            .set(self.written.get().saturating_add(buf.len()));
        Ok(buf.len())
    }

    fn flush(&mut self) -> io::Result<()> {
        Ok(())
    }
}

#[test]
fn replies_before_each_further_read(rt: HostRuntime) {
    let written = Cell::new(0usize);
    let is_late = Cell::new(false);
    let mut reader = Looking {
        left: INPUT,
        written: &written,
        is_late: &is_late,
    };
    let mut writer = Counted { written: &written };
    let outcome = run(rt.alloc(), &mut reader, &mut writer);
    same(
        &rt,
        &(outcome, is_late.get(), written.get()),
        &(Ok(()), false, OUTPUT.len()),
    );
}
