//! Refusals of damaged texts, with no memory.

use crate::tests::compare::same;
use bech32_hrp::Error as HrpError;
use bech32_refusals::CharError::{InvalidChar, MissingSeparator, MixedCase};
use bech32_refusals::UncheckedHrpstringError::{self, Char, Hrp};
use codex32::{Codex32Error, Codex32Str, propose, validate_damaged};
use linked_list_allocator::LocalHeap;
use std::alloc::Global;
use std::process::Abort;

// Why nothing is proposed for a text where there is no memory.
fn refusal(alloc: Global, text: &str) -> Option<Codex32Error> {
    match LocalHeap::new(alloc, 0) {
        Ok(heap) => propose(&heap, text).err(),
        Err(_) => None,
    }
}

// Fails where a text has another fault by either call. One without a fault is refused by the second
// all the same: memory runs out.
fn has_fault(rt: &impl Abort, alloc: Global, text: &str, fault: Option<Codex32Error>) {
    let refusals = (validate_damaged(text).err(), refusal(alloc, text));
    let without_memory = fault.unwrap_or(Codex32Error::Memory);
    same(
        rt,
        &(text, refusals),
        &(text, (fault, Some(without_memory))),
    );
}

// Where there is no `1`, a `?` is a character as others are.
const OUTSIDE_THE_GRAMMAR: &[(&str, UncheckedHrpstringError)] = &[
    ("ms1?b", Char(InvalidChar('b'))),
    ("ms1b?i?", Char(InvalidChar('i'))),
    ("Ms1?\u{e9}q", Char(InvalidChar('\u{e9}'))),
    (
        "ms10testsxxxxxxxxxxxxxxxxxxxxxxxxxx4nzvca9cmczlb",
        Char(InvalidChar('b')),
    ),
    ("ms?q", Char(InvalidChar('?'))),
    ("ms?b", Char(InvalidChar('b'))),
    ("Ms1?", Char(MixedCase)),
    ("ms1?Q", Char(MixedCase)),
    ("Msq", Char(MixedCase)),
    ("msq", Char(MissingSeparator)),
    ("", Char(MissingSeparator)),
    ("1?qqqqq", Hrp(HrpError::Empty)),
    ("\u{e9}1?qqqqq", Hrp(HrpError::NonAsciiChar('\u{e9}'))),
    (" 1?qqqqq", Hrp(HrpError::InvalidAsciiByte(b' '))),
    (
        "aaaaaaaaaaaaaaaaaaaaaaaaaaaaaaaaaaaaaaaaaaaaaaaaaaaaaaaaaaaaaaaaaaaaaaaaaaaaaaaaaaaa1?",
        Hrp(HrpError::TooLong(84)),
    ),
];

// Fails where a text outside the grammar has another fault.
fn are_outside_the_grammar(rt: &impl Abort, alloc: Global) {
    for &(text, error) in OUTSIDE_THE_GRAMMAR {
        has_fault(rt, alloc, text, Some(Codex32Error::Text(error)));
    }
}

// The third has 94 characters, and a part that is another besides. The last three have no fault.
const OUTLINES: [(&str, Option<Codex32Error>); 8] = [
    ("ms1?", Some(Codex32Error::Length)),
    (
        "ms10testsxxxxxxxxxxxxxxxxxxxxxxxxxx4nzvca9cmcz?",
        Some(Codex32Error::Length),
    ),
    (
        "mt10testsxxxxxxxxxxxxxxxxxxxxxxxxxx4nzvca9cmczlwqqqqqqqqqqqqqqqqqqqqqqqqqqqqqqqqqqqqqqqqqqqqq?",
        Some(Codex32Error::Length),
    ),
    (
        "mt10testsxxxxxxxxxxxxxxxxxxxxxxxxxx4nzvca9cmczl?",
        Some(Codex32Error::Hrp),
    ),
    (
        "m?10testsxxxxxxxxxxxxxxxxxxxxxxxxxx4nzvca9cmczl?",
        Some(Codex32Error::Hrp),
    ),
    ("ms10testsxxxxxxxxxxxxxxxxxxxxxxxxxx4nzvca9cmczlw", None),
    ("MS10TESTSXXXXXXXXXXXXXXXXXXXXXXXXXX4NZVC????????", None),
    ("ms1?????????????????????????????????????????????", None),
];

// A text without marks has the same fault as a string.
#[test]
fn faults_of_damaged_texts(rt: HostRuntime) {
    are_outside_the_grammar(&rt, rt.alloc());
    let text = "ms10testsxxxxxxxxxxxxxxxxxxxxxxxxxx4nzvca9cmczlb";
    let fault = Some(Codex32Error::Text(Char(InvalidChar('b'))));
    same(&rt, &Codex32Str::parse(text).err(), &fault);
    for &(text, fault) in OUTLINES.iter() {
        has_fault(&rt, rt.alloc(), text, fault);
    }
}
