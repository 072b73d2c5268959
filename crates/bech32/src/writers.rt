//! Texts written to a `fmt::Write` or an `io::Write`, in either case.

ghost use Rattle.std.specs.Prelude.{◌≡◌, ◌≤◌, ⊤, true, false, IsOk, IfErr, OnOk};
ghost use Rattle.bech32_bits.specs.Bits.{to_fes};
ghost use Rattle.bech32_encode.specs.TextLength.{encoded_length_of};
ghost use Rattle.bech32_hrp.specs.HrpBytes.{hrp_bytes};
ghost use Rattle.bech32.specs.Writing.{WritesText, AppendsText, AppendsBeginning, IsFmtRefusal, IsIoRefusal, IsWriteError, FailsWith};

use crate::{EncodeError, EncodeIoError, encoded_length};
use bech32_checksum::Checksum;
use bech32_encode::TextInPieces;
use bech32_hrp::Hrp;
use io_traits::{ByteSink, FmtSink, Watched, pieces_into_bytes, pieces_into_fmt};
use std::{fmt, io};

/// Encodes bytes under a human-readable part into a sink of text, in upper case or in lower case.
///
/// The text goes out in pieces of up to 256 characters, from a buffer in place.
///
/// # Errors
///
/// [`EncodeError::TooLong`] exactly where the text would have more characters than the code length
/// of the checksum: nothing of it was written. [`EncodeError::Fmt`] where the sink failed, and only
/// there; its mark is set.
pub fn encode_into_fmt<Ck: Checksum, S: FmtSink>(
    sink: &mut S,
    hrp: Hrp,
    data: &[u8],
    upper: bool,
) -> Result<(), EncodeError>
    requires { S.has_failed sink.old ≡ false }
    ensures ok { OnOk result
        (WritesText S.takes sink.old sink.new upper Ck.code (hrp_bytes hrp) «data».now) }
    ensures ok_mark { OnOk result (S.has_failed sink.new ≡ false) }
    ensures fits { IsOk result
        → encoded_length_of Ck.code (hrp_bytes hrp) (to_fes «data».now) ≤ Ck.code.code_length }
    ensures refused { IfErr result
        (λ e. IsFmtRefusal (sink.new ≡ sink.old) (S.has_failed sink.new ≡ true)
        Ck.code (hrp_bytes hrp) (to_fes «data».now) e) }
    ensures same { S.is_same sink.old sink.new }
{
    encoded_length::<Ck>(hrp, data)?;
    let mut pieces = TextInPieces::<Ck>::new(&hrp, None, data, upper);
    pieces_into_fmt(&mut pieces, sink)?;
    Ok(())
}

/// Encodes bytes under a human-readable part into a sink of bytes, in upper case or in lower case,
/// as [`encode_into_fmt`] does into a sink of text.
///
/// # Errors
///
/// [`EncodeIoError::TooLong`] exactly where the text would have more characters than the code
/// length of the checksum: nothing of it was written. [`EncodeIoError::Write`] where the sink
/// failed, and only there, as [`pieces_into_bytes`] says: its mark is set, and it took a beginning
/// of the text.
pub fn encode_into_bytes<Ck: Checksum, S: ByteSink>(
    sink: &mut S,
    hrp: Hrp,
    data: &[u8],
    upper: bool,
) -> Result<(), EncodeIoError>
    requires { S.has_failed sink.old ≡ false }
    ensures ok { OnOk result
        (AppendsText (S.contents sink.old) (S.contents sink.new)
        upper Ck.code (hrp_bytes hrp) «data».now) }
    ensures ok_mark { OnOk result (S.has_failed sink.new ≡ false) }
    ensures fits { IsOk result
        → encoded_length_of Ck.code (hrp_bytes hrp) (to_fes «data».now) ≤ Ck.code.code_length }
    ensures refused { IfErr result (λ e. IsIoRefusal (sink.new ≡ sink.old)
        (FailsWith (S.has_failed sink.new)
        (AppendsBeginning (S.contents sink.old) (S.contents sink.new)
        upper Ck.code (hrp_bytes hrp) «data».now))
        Ck.code (hrp_bytes hrp) (to_fes «data».now) e) }
    ensures error { IfErr result (λ e. IsWriteError S.write_gives
        upper Ck.code (hrp_bytes hrp) «data».now sink.new e) }
    ensures uncounted { S.flushes sink.new ≡ S.flushes sink.old }
    ensures same { S.is_same sink.old sink.new }
{
    encoded_length::<Ck>(hrp, data)?;
    let mut pieces = TextInPieces::<Ck>::new(&hrp, None, data, upper);
    pieces_into_bytes(&mut pieces, sink)?;
    Ok(())
}

/// Encodes bytes under a human-readable part to a `fmt::Write`, in lower case, and allocates
/// nothing.
///
/// # Errors
///
/// Those of [`encode_into_fmt`] over the writer in a [`Watched`].
pub fn encode_lower_to_fmt<Ck: Checksum, W: fmt::Write>(
    fmt: &mut W,
    hrp: Hrp,
    data: &[u8],
) -> Result<(), EncodeError>
    ensures ok { OnOk result
        (WritesText W.write_str_gives fmt.old fmt.new false Ck.code (hrp_bytes hrp) «data».now) }
    ensures fits { IsOk result
        → encoded_length_of Ck.code (hrp_bytes hrp) (to_fes «data».now) ≤ Ck.code.code_length }
    ensures refused { IfErr result (λ e. IsFmtRefusal (fmt.new ≡ fmt.old) ⊤
        Ck.code (hrp_bytes hrp) (to_fes «data».now) e) }
{
    let mut sink = Watched::new(fmt);
    encode_into_fmt::<Ck, _>(&mut sink, hrp, data, false)
}

/// Encodes as [`encode_lower_to_fmt`] does.
///
/// # Errors
///
/// Those of [`encode_lower_to_fmt`].
pub fn encode_to_fmt<Ck: Checksum, W: fmt::Write>(
    fmt: &mut W,
    hrp: Hrp,
    data: &[u8],
) -> Result<(), EncodeError>
    ensures ok { OnOk result
        (WritesText W.write_str_gives fmt.old fmt.new false Ck.code (hrp_bytes hrp) «data».now) }
    ensures fits { IsOk result
        → encoded_length_of Ck.code (hrp_bytes hrp) (to_fes «data».now) ≤ Ck.code.code_length }
    ensures refused { IfErr result (λ e. IsFmtRefusal (fmt.new ≡ fmt.old) ⊤
        Ck.code (hrp_bytes hrp) (to_fes «data».now) e) }
{
    encode_lower_to_fmt::<Ck, W>(fmt, hrp, data)
}

/// Encodes bytes under a human-readable part to a `fmt::Write`, in upper case, and allocates
/// nothing.
///
/// # Errors
///
/// Those of [`encode_into_fmt`] over the writer in a [`Watched`].
pub fn encode_upper_to_fmt<Ck: Checksum, W: fmt::Write>(
    fmt: &mut W,
    hrp: Hrp,
    data: &[u8],
) -> Result<(), EncodeError>
    ensures ok { OnOk result
        (WritesText W.write_str_gives fmt.old fmt.new true Ck.code (hrp_bytes hrp) «data».now) }
    ensures fits { IsOk result
        → encoded_length_of Ck.code (hrp_bytes hrp) (to_fes «data».now) ≤ Ck.code.code_length }
    ensures refused { IfErr result (λ e. IsFmtRefusal (fmt.new ≡ fmt.old) ⊤
        Ck.code (hrp_bytes hrp) (to_fes «data».now) e) }
{
    let mut sink = Watched::new(fmt);
    encode_into_fmt::<Ck, _>(&mut sink, hrp, data, true)
}

/// Encodes bytes under a human-readable part to an `io::Write`, in lower case, and allocates
/// nothing.
///
/// # Errors
///
/// Those of [`encode_into_bytes`] over the writer in a [`Watched`]. The first error of any kind
/// ends the call, [`io::ErrorKind::Interrupted`] too.
pub fn encode_lower_to_writer<Ck: Checksum, W: io::Write>(
    w: &mut W,
    hrp: Hrp,
    data: &[u8],
) -> Result<(), EncodeIoError>
    ensures ok { OnOk result
        (AppendsText (W.contents w.old) (W.contents w.new)
        false Ck.code (hrp_bytes hrp) «data».now) }
    ensures fits { IsOk result
        → encoded_length_of Ck.code (hrp_bytes hrp) (to_fes «data».now) ≤ Ck.code.code_length }
    ensures refused { IfErr result (λ e. IsIoRefusal (w.new ≡ w.old)
        (AppendsBeginning (W.contents w.old) (W.contents w.new)
        false Ck.code (hrp_bytes hrp) «data».now)
        Ck.code (hrp_bytes hrp) (to_fes «data».now) e) }
{
    let mut sink = Watched::new(w);
    encode_into_bytes::<Ck, _>(&mut sink, hrp, data, false)
}

/// Encodes as [`encode_lower_to_writer`] does.
///
/// # Errors
///
/// Those of [`encode_lower_to_writer`].
pub fn encode_to_writer<Ck: Checksum, W: io::Write>(
    w: &mut W,
    hrp: Hrp,
    data: &[u8],
) -> Result<(), EncodeIoError>
    ensures ok { OnOk result
        (AppendsText (W.contents w.old) (W.contents w.new)
        false Ck.code (hrp_bytes hrp) «data».now) }
    ensures fits { IsOk result
        → encoded_length_of Ck.code (hrp_bytes hrp) (to_fes «data».now) ≤ Ck.code.code_length }
    ensures refused { IfErr result (λ e. IsIoRefusal (w.new ≡ w.old)
        (AppendsBeginning (W.contents w.old) (W.contents w.new)
        false Ck.code (hrp_bytes hrp) «data».now)
        Ck.code (hrp_bytes hrp) (to_fes «data».now) e) }
{
    encode_lower_to_writer::<Ck, W>(w, hrp, data)
}

/// Encodes bytes under a human-readable part to an `io::Write`, in upper case, and allocates
/// nothing.
///
/// # Errors
///
/// Those of [`encode_into_bytes`] over the writer in a [`Watched`]. The first error of any kind
/// ends the call, [`io::ErrorKind::Interrupted`] too.
pub fn encode_upper_to_writer<Ck: Checksum, W: io::Write>(
    w: &mut W,
    hrp: Hrp,
    data: &[u8],
) -> Result<(), EncodeIoError>
    ensures ok { OnOk result
        (AppendsText (W.contents w.old) (W.contents w.new)
        true Ck.code (hrp_bytes hrp) «data».now) }
    ensures fits { IsOk result
        → encoded_length_of Ck.code (hrp_bytes hrp) (to_fes «data».now) ≤ Ck.code.code_length }
    ensures refused { IfErr result (λ e. IsIoRefusal (w.new ≡ w.old)
        (AppendsBeginning (W.contents w.old) (W.contents w.new)
        true Ck.code (hrp_bytes hrp) «data».now)
        Ck.code (hrp_bytes hrp) (to_fes «data».now) e) }
{
    let mut sink = Watched::new(w);
    encode_into_bytes::<Ck, _>(&mut sink, hrp, data, true)
}
