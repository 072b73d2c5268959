//! Messages of refusals that no row of `vector_rows` gives: out of memory, a writer that fails, and
//! a refusal that no call returns.

use crate::tests::compare::prints;
use bech32::primitives::decode::{CharError, SegwitHrpstringError};
use bech32::{
    CorrectError, DecodeError, EditsError, ElementsError, EncodeError, EncodeIoError, TextError,
    segwit,
};
use std::{fmt, io};

const OUT: &str = "out of memory";

#[test]
fn tells_of_memory_and_of_writers(rt: HostRuntime) {
    let alloc = rt.alloc();
    let after = "invalid data - no characters after the separator";
    prints(&rt, alloc, &CharError::NothingAfterSeparator, after);
    prints(&rt, alloc, &DecodeError::Memory, OUT);
    prints(&rt, alloc, &TextError::Memory, OUT);
    prints(&rt, alloc, &ElementsError::Memory, OUT);
    prints(&rt, alloc, &EncodeError::Memory, OUT);
    prints(&rt, alloc, &CorrectError::Memory, OUT);
    prints(&rt, alloc, &EditsError::Memory, OUT);
    prints(&rt, alloc, &segwit::EncodeError::Memory, OUT);
    let memory = segwit::DecodeError(SegwitHrpstringError::Memory);
    prints(
        &rt,
        alloc,
        &memory,
        "decoding segwit address failed: out of memory",
    );
    let text = "encode to formatter failed: an error occurred when formatting an argument";
    prints(&rt, alloc, &EncodeError::Fmt(fmt::Error), text);
    let text = "writing to formatter failed: an error occurred when formatting an argument";
    prints(&rt, alloc, &segwit::EncodeError::from(fmt::Error), text);
    let failed = io::Error::from(io::ErrorKind::WriteZero);
    let text = "encode to writer failed: write zero";
    prints(&rt, alloc, &EncodeIoError::Write(failed), text);
}
