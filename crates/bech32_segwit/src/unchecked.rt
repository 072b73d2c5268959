//! Segwit addresses written without any test.

ghost use Rattle.std.specs.Prelude.{◌≡◌, ◌≤◌, ◌∷◌, ℕ, List, true, false, length, take, OnOk, OnErr, IfErr};
ghost use Rattle.std.specs.Fmt.{WritesInCalls};
ghost use Rattle.std.specs.Io.KnownBytes.{Appends};
ghost use Rattle.bech32_hrp.specs.HrpBytes.{hrp_bytes};
ghost use Rattle.bech32_segwit.specs.Unchecked.{IsFrontOfText, WritesFront, AppendsFront, AppendsPartOfFront, IsErrorOfFront};
ghost use Rattle.bech32_refusals.specs.SegwitRules.{max_address_length};

use crate::VERSION_0;
use bech32_checksum::{Bech32, Bech32m};
use bech32_decode::segwit::MAX_STRING_LENGTH;
use bech32_encode::put_front_of_text;
use bech32_gf::gf32::Fe32;
use bech32_hrp::Hrp;
use io_traits::{ByteSink, FmtSink, Watched, write_all};
use std::{fmt, io};

// Puts the first `MAX_STRING_LENGTH` characters of the text by the checksum of the version, and
// returns how many there are.
fn put_front(hrp: Hrp, version: Fe32, program: &[u8], upper: bool, buffer: &mut [u8]) -> usize
    requires { length buffer.old ≡ max_address_length }
    ensures front { IsFrontOfText upper (hrp_bytes hrp)
        version «program».now (take result buffer.new) }
    ensures bound { result ≤ max_address_length }
{
    if version == VERSION_0 {
        put_front_of_text::<Bech32>(&hrp, Some(version), program, upper, buffer)
    } else {
        put_front_of_text::<Bech32m>(&hrp, Some(version), program, upper, buffer)
    }
}

/// Writes the first [`MAX_STRING_LENGTH`] characters of the text of a witness version and a program
/// into a sink of text, in upper case or in lower case: by Bech32 for version 0, else by Bech32m
/// (BIP-350). Nothing is tested.
///
/// # Errors
///
/// Where the sink failed, and only there; its mark is set.
pub fn encode_into_fmt_unchecked<S: FmtSink>(
    sink: &mut S,
    hrp: Hrp,
    witness_version: Fe32,
    witness_program: &[u8],
    upper: bool,
) -> fmt::Result
    requires { S.has_failed sink.old ≡ false }
    ensures ok { OnOk result
        (WritesFront S.takes sink.old sink.new upper
        (hrp_bytes hrp) witness_version «witness_program».now) }
    ensures ok_mark { OnOk result (S.has_failed sink.new ≡ false) }
    ensures err_mark { OnErr result (S.has_failed sink.new ≡ true) }
    ensures same { S.is_same sink.old sink.new }
{
    let mut buffer = [0u8; MAX_STRING_LENGTH];
    let count = put_front(hrp, witness_version, witness_program, upper, &mut buffer);
    // All of it is ASCII: what the call requires is proved.
    let front = unsafe { str::from_utf8_unchecked(&buffer[..count]) };
    sink.write_str(front)
}

/// Writes the first [`MAX_STRING_LENGTH`] characters of the text of a witness version and a program
/// into a sink of bytes, as [`encode_into_fmt_unchecked`] does into a sink of text. Nothing is
/// tested.
///
/// # Errors
///
/// Where the sink failed, and only there, as [`write_all`] says: its mark is set, and it took a
/// beginning of those characters.
pub fn encode_into_bytes_unchecked<S: ByteSink>(
    sink: &mut S,
    hrp: Hrp,
    witness_version: Fe32,
    witness_program: &[u8],
    upper: bool,
) -> io::Result<()>
    requires { S.has_failed sink.old ≡ false }
    ensures ok { OnOk result
        (AppendsFront (S.contents sink.old) (S.contents sink.new)
        upper (hrp_bytes hrp) witness_version «witness_program».now) }
    ensures ok_mark { OnOk result (S.has_failed sink.new ≡ false) }
    ensures err_mark { OnErr result (S.has_failed sink.new ≡ true) }
    ensures beginning { OnErr result
        (AppendsPartOfFront (S.contents sink.old) (S.contents sink.new)
        upper (hrp_bytes hrp) witness_version «witness_program».now) }
    ensures error { IfErr result (λ e. IsErrorOfFront S.write_gives
        upper (hrp_bytes hrp) witness_version «witness_program».now sink.new e) }
    ensures uncounted { S.flushes sink.new ≡ S.flushes sink.old }
    ensures same { S.is_same sink.old sink.new }
{
    let mut buffer = [0u8; MAX_STRING_LENGTH];
    let count = put_front(hrp, witness_version, witness_program, upper, &mut buffer);
    write_all(sink, &buffer[..count])
}

fn front_to_fmt<W: fmt::Write>(
    fmt: &mut W,
    hrp: Hrp,
    version: Fe32,
    program: &[u8],
    upper: bool,
) -> fmt::Result
    ensures { OnOk result
        (WritesFront W.write_str_gives fmt.old fmt.new upper
        (hrp_bytes hrp) version «program».now) }
{
    let mut sink = Watched::new(fmt);
    encode_into_fmt_unchecked(&mut sink, hrp, version, program, upper)
}

fn front_to_writer<W: io::Write>(
    w: &mut W,
    hrp: Hrp,
    version: Fe32,
    program: &[u8],
    upper: bool,
) -> io::Result<()>
    ensures ok { OnOk result
        (AppendsFront (W.contents w.old) (W.contents w.new)
        upper (hrp_bytes hrp) version «program».now) }
    ensures beginning { OnErr result
        (AppendsPartOfFront (W.contents w.old) (W.contents w.new)
        upper (hrp_bytes hrp) version «program».now) }
{
    let mut sink = Watched::new(w);
    encode_into_bytes_unchecked(&mut sink, hrp, version, program, upper)
}

/// Writes as [`encode_lower_to_fmt_unchecked`] does.
pub fn encode_to_fmt_unchecked<W: fmt::Write>(
    fmt: &mut W,
    hrp: Hrp,
    witness_version: Fe32,
    witness_program: &[u8],
) -> fmt::Result
    ensures { OnOk result
        (WritesFront W.write_str_gives fmt.old fmt.new false
        (hrp_bytes hrp) witness_version «witness_program».now) }
{
    encode_lower_to_fmt_unchecked(fmt, hrp, witness_version, witness_program)
}

/// Writes the first [`MAX_STRING_LENGTH`] characters of the text of a witness version and a program
/// to a `fmt::Write`, in lower case: by Bech32 for version 0, else by Bech32m (BIP-350). Nothing is
/// tested.
///
/// # Errors
///
/// Where the writer failed.
pub fn encode_lower_to_fmt_unchecked<W: fmt::Write>(
    fmt: &mut W,
    hrp: Hrp,
    witness_version: Fe32,
    witness_program: &[u8],
) -> fmt::Result
    ensures { OnOk result
        (WritesFront W.write_str_gives fmt.old fmt.new false
        (hrp_bytes hrp) witness_version «witness_program».now) }
{
    front_to_fmt(fmt, hrp, witness_version, witness_program, false)
}

/// Writes the first [`MAX_STRING_LENGTH`] characters of the text of a witness version and a program
/// to a `fmt::Write`, in upper case: by Bech32 for version 0, else by Bech32m (BIP-350). Nothing is
/// tested.
///
/// # Errors
///
/// Where the writer failed.
pub fn encode_upper_to_fmt_unchecked<W: fmt::Write>(
    fmt: &mut W,
    hrp: Hrp,
    witness_version: Fe32,
    witness_program: &[u8],
) -> fmt::Result
    ensures { OnOk result
        (WritesFront W.write_str_gives fmt.old fmt.new true
        (hrp_bytes hrp) witness_version «witness_program».now) }
{
    front_to_fmt(fmt, hrp, witness_version, witness_program, true)
}

/// Writes as [`encode_lower_to_writer_unchecked`] does.
pub fn encode_to_writer_unchecked<W: io::Write>(
    w: &mut W,
    hrp: Hrp,
    witness_version: Fe32,
    witness_program: &[u8],
) -> io::Result<()>
    ensures ok { OnOk result (AppendsFront (W.contents w.old) (W.contents w.new)
        false (hrp_bytes hrp) witness_version «witness_program».now) }
    ensures beginning { OnErr result (AppendsPartOfFront (W.contents w.old) (W.contents w.new)
        false (hrp_bytes hrp) witness_version «witness_program».now) }
{
    encode_lower_to_writer_unchecked(w, hrp, witness_version, witness_program)
}

/// Writes the first [`MAX_STRING_LENGTH`] characters of the text of a witness version and a program
/// to an `io::Write`, in lower case: by Bech32 for version 0, else by Bech32m (BIP-350). Nothing is
/// tested.
///
/// # Errors
///
/// Where the writer failed, a write that takes nothing included. A beginning of those characters
/// went out. The first error of any kind ends the call, [`io::ErrorKind::Interrupted`] too.
pub fn encode_lower_to_writer_unchecked<W: io::Write>(
    w: &mut W,
    hrp: Hrp,
    witness_version: Fe32,
    witness_program: &[u8],
) -> io::Result<()>
    ensures ok { OnOk result (AppendsFront (W.contents w.old) (W.contents w.new)
        false (hrp_bytes hrp) witness_version «witness_program».now) }
    ensures beginning { OnErr result (AppendsPartOfFront (W.contents w.old) (W.contents w.new)
        false (hrp_bytes hrp) witness_version «witness_program».now) }
{
    front_to_writer(w, hrp, witness_version, witness_program, false)
}

/// Writes the first [`MAX_STRING_LENGTH`] characters of the text of a witness version and a program
/// to an `io::Write`, in upper case: by Bech32 for version 0, else by Bech32m (BIP-350). Nothing is
/// tested.
///
/// # Errors
///
/// Where the writer failed, a write that takes nothing included. A beginning of those characters
/// went out. The first error of any kind ends the call, [`io::ErrorKind::Interrupted`] too.
pub fn encode_upper_to_writer_unchecked<W: io::Write>(
    w: &mut W,
    hrp: Hrp,
    witness_version: Fe32,
    witness_program: &[u8],
) -> io::Result<()>
    ensures ok { OnOk result (AppendsFront (W.contents w.old) (W.contents w.new)
        true (hrp_bytes hrp) witness_version «witness_program».now) }
    ensures beginning { OnErr result (AppendsPartOfFront (W.contents w.old) (W.contents w.new)
        true (hrp_bytes hrp) witness_version «witness_program».now) }
{
    front_to_writer(w, hrp, witness_version, witness_program, true)
}
