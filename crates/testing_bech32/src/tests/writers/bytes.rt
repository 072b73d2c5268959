use super::forms::{FORMS, Form, Given, to_writer, written};
use super::given::{known_address, long_address, part};
use super::known::{data, kinds};
use crate::tests::compare::same;
use bech32::EncodeIoError;
use bech32::segwit::VERSION_0;
use std::alloc::Global;
use std::io;
use std::process::Abort;

// Takes at most `step` bytes a call and `room` in all, and then fails, by `Ok(0)` where it has no
// error to return: from then on, or once, and would take all after that. Counts the calls, those of
// them that failed, and the flushes.
#[derive(Drop)]
struct Narrow {
    got: Vec<u8>,
    room: usize,
    step: usize,
    error: Option<io::Error>,
    fails_once: bool,
    calls: usize,
    failures: usize,
    flushes: usize,
}

impl Narrow {
    fn new(alloc: Global, room: usize, step: usize, error: Option<io::Error>) -> Narrow {
        Narrow {
            got: Vec::new(alloc),
            room,
            step,
            error,
            fails_once: false,
            calls: 0,
            failures: 0,
            flushes: 0,
        }
    }
}

impl io::Write for Narrow {
    fn write(&mut self, buf: &[u8]) -> io::Result<usize> {
        self.calls = self.calls.saturating_add(1);
        if self.got.len() >= self.room {
            self.failures = self.failures.saturating_add(1);
            if self.fails_once {
                self.room = usize::MAX;
            }
            return match self.error {
                Some(error) => Err(error),
                None => Ok(0),
            };
        }
        let left = self.room - self.got.len();
        let n = buf.len().min(self.step).min(left);
        self.got.extend_from_slice(&buf[..n])?;
        Ok(n)
    }

    fn flush(&mut self) -> io::Result<()> {
        self.flushes = self.flushes.saturating_add(1);
        Ok(())
    }
}

/// What a call told: the kind of the writer's error, `None` for a text that is too long.
pub type Told = Result<(), Option<io::ErrorKind>>;

/// The same of its outcome.
pub fn told(outcome: &Result<(), EncodeIoError>) -> Told {
    match outcome {
        Ok(()) => Ok(()),
        Err(EncodeIoError::TooLong(_)) => Err(None),
        Err(EncodeIoError::Write(e)) => Err(Some(e.kind())),
    }
}

// The outcome at a writer that has room for the text, or has not.
fn outcome_at(w: &Narrow, is_cut: bool) -> Told {
    match w.error {
        _ if !is_cut => Ok(()),
        Some(error) => Err(Some(error.kind())),
        None => Err(Some(io::ErrorKind::WriteZero)),
    }
}

// What came of a call at a writer: the outcome, how many bytes were taken, failures and flushes,
// whether those bytes begin the text, and whether no call was for nothing.
type Came = (Told, (usize, usize, usize), (bool, bool));

// The same where this much should be taken.
fn came(outcome: Told, w: &Narrow, whole: &[u8], count: usize) -> Came {
    let begins = whole.starts_with(w.got.as_slice());
    let are_few = w.calls <= count.saturating_add(w.failures);
    let counts = (w.got.len(), w.failures, w.flushes);
    (outcome, counts, (begins, are_few))
}

// Writes a form to such a writer.
fn to_narrow(form: Form, w: &mut Narrow, given: &Given<'_>) -> Result<(), EncodeIoError> {
    to_writer(form, w, given)
}

// Fails where a form does not write as far as a writer has room, goes on when it failed, tells
// another error, flushes it, or makes a call that is for nothing.
fn fails_behind(rt: &impl Abort, (form, given): (Form, &Given<'_>), whole: &[u8], w: &mut Narrow) {
    let outcome = told(&to_narrow(form, w, given));
    let is_cut = w.room < whole.len();
    let count = w.room.min(whole.len());
    let found = came(outcome, w, whole, count);
    let want = (
        outcome_at(w, is_cut),
        (count, usize::from(is_cut), 0),
        (true, true),
    );
    let writer = (form, w.room, w.step);
    same(rt, &(writer, found), &(writer, want));
}

// The same of a writer with this room, which takes so many bytes a call.
fn fails_at(
    rt: &impl Abort,
    alloc: Global,
    form: (Form, &Given<'_>),
    whole: &[u8],
    (room, step): (usize, usize),
    error: Option<io::Error>,
) {
    let mut w = Narrow::new(alloc, room, step, error);
    fails_behind(rt, form, whole, &mut w);
}

/// A writer that has room for all of it takes what a form writes, byte by byte and at once.
pub fn is_taken(rt: &impl Abort, alloc: Global, form: Form, given: &Given<'_>) {
    let whole = written(rt, alloc, form, given);
    let room = whole.len();
    fails_at(rt, alloc, (form, given), &whole, (room, 1), None);
    fails_at(rt, alloc, (form, given), &whole, (room, 2000), None);
}

// Each byte of a text that a form writes fails in turn.
fn bytes_fail(rt: &impl Abort, alloc: Global, form: (Form, &Given<'_>), whole: &[u8]) {
    let full = Some(io::Error::from(io::ErrorKind::StorageFull));
    for room in 0..=whole.len() {
        fails_at(rt, alloc, form, whole, (room, 1), full);
        fails_at(rt, alloc, form, whole, (room, 7), full);
        fails_at(rt, alloc, form, whole, (room, 100), full);
    }
}

// Each byte of what a form writes fails in turn.
fn each_byte_fails(rt: &impl Abort, alloc: Global, form: Form, given: &Given<'_>) {
    let whole = written(rt, alloc, form, given);
    bytes_fail(rt, alloc, (form, given), &whole);
}

// Each byte of what each form writes fails in turn.
fn each_byte_of_each_form_fails(rt: &impl Abort, alloc: Global, given: &Given<'_>) {
    for form in FORMS {
        each_byte_fails(rt, alloc, form, given);
    }
}

fn every_byte_may_fail(rt: &impl Abort, alloc: Global) {
    let (hrp, data) = (part(rt, "test"), data());
    for size in 0..41usize {
        let given = Given {
            hrp,
            version: VERSION_0,
            data: &data[..size],
        };
        each_byte_of_each_form_fails(rt, alloc, &given);
    }
    each_byte_of_each_form_fails(rt, alloc, &long_address(rt));
}

// Fails where a writer that takes nothing at its first call is called again, or another error is
// told.
fn ends_at(
    rt: &impl Abort,
    alloc: Global,
    form: Form,
    first: Option<io::Error>,
    want: io::ErrorKind,
) {
    let mut w = Narrow::new(alloc, 0, usize::MAX, first);
    w.fails_once = true;
    let outcome = told(&to_narrow(form, &mut w, &known_address()));
    same(
        rt,
        &(form, outcome, w.calls, w.flushes),
        &(form, Err(Some(want)), 1, 0),
    );
}

// The same of a writer that takes nothing, and of one with an error of each kind.
fn ends_at_each(rt: &impl Abort, alloc: Global, form: Form) {
    ends_at(rt, alloc, form, None, io::ErrorKind::WriteZero);
    for kind in kinds() {
        ends_at(rt, alloc, form, Some(io::Error::from(kind)), kind);
    }
}

fn the_first_error_ends_the_call(rt: &impl Abort, alloc: Global) {
    for form in FORMS {
        ends_at_each(rt, alloc, form);
    }
}

// The writer's error.
fn error_of(outcome: Result<(), EncodeIoError>) -> Option<io::Error> {
    match outcome {
        Err(EncodeIoError::Write(e)) => Some(e),
        _ => None,
    }
}

// The error that a form tells where its writer returns this one.
fn told_by(alloc: Global, form: Form, error: io::Error) -> Option<io::Error> {
    let mut w = Narrow::new(alloc, 5, 7, Some(error));
    error_of(to_narrow(form, &mut w, &known_address()))
}

// What debugging an error prints.
fn debugged(rt: &impl Abort, alloc: Global, error: io::Error) -> String {
    format!(in alloc; "{error:?}").expect(rt, "memory")
}

// Fails where a form tells another error than the one that its writer returned.
fn tells(rt: &impl Abort, alloc: Global, form: Form, error: io::Error) {
    let got = told_by(alloc, form, error).expect(rt, "it fails");
    let (got, want) = (debugged(rt, alloc, got), debugged(rt, alloc, error));
    same(rt, &got.as_str(), &want.as_str());
}

// A kind alone, the system's number of an error, and an error with words.
fn tells_each(rt: &impl Abort, alloc: Global, form: Form) {
    let kind = io::ErrorKind::StorageFull;
    tells(rt, alloc, form, io::Error::from(kind));
    tells(rt, alloc, form, io::Error::from_raw_os_error(28));
    tells(rt, alloc, form, io::Error::new(kind, "the tape is full"));
}

fn the_error_is_the_writers_own(rt: &impl Abort, alloc: Global) {
    for form in FORMS {
        tells_each(rt, alloc, form);
    }
}

#[test]
fn writers_that_fail(rt: HostRuntime) {
    every_byte_may_fail(&rt, rt.alloc());
    the_first_error_ends_the_call(&rt, rt.alloc());
    the_error_is_the_writers_own(&rt, rt.alloc());
}
