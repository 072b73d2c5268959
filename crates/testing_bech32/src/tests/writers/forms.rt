//! The forms of a call that writes a text, and what each writes.

use bech32::primitives::encode::text_in;
use bech32::primitives::segwit::MAX_STRING_LENGTH;
use bech32::segwit::{
    encode_lower_to_fmt_unchecked, encode_lower_to_writer_unchecked, encode_to_fmt_unchecked,
    encode_to_writer_unchecked, encode_upper_to_fmt_unchecked, encode_upper_to_writer_unchecked,
};
use bech32::{
    Bech32, Bech32m, Checksum, EncodeError, EncodeIoError, Fe32, Hrp, encode, encode_lower_to_fmt,
    encode_lower_to_writer, encode_to_fmt, encode_to_writer, encode_upper_to_fmt,
    encode_upper_to_writer,
};
use std::alloc::Global;
use std::process::Abort;
use std::{fmt, io};

/// What is written: a text by Bech32, or an address without any test.
#[derive(Clone, Copy, Debug, PartialEq)]
pub enum Form {
    Text,
    LowerText,
    UpperText,
    Address,
    LowerAddress,
    UpperAddress,
}

pub const FORMS: [Form; 6] = [
    Form::Text,
    Form::LowerText,
    Form::UpperText,
    Form::Address,
    Form::LowerAddress,
    Form::UpperAddress,
];

/// What a call is given. A text has no version.
#[derive(Drop)]
pub struct Given<'a> {
    pub hrp: Hrp,
    pub version: Fe32,
    pub data: &'a [u8],
}

// Writes a text by a checksum to a `fmt::Write`.
fn text_to_fmt<Ck: Checksum, W: fmt::Write>(
    form: Form,
    w: &mut W,
    hrp: Hrp,
    data: &[u8],
) -> Result<(), EncodeError> {
    match form {
        Form::LowerText => encode_lower_to_fmt::<Ck, W>(w, hrp, data),
        Form::UpperText => encode_upper_to_fmt::<Ck, W>(w, hrp, data),
        _ => encode_to_fmt::<Ck, W>(w, hrp, data),
    }
}

/// Writes to a `fmt::Write`.
pub fn to_fmt<W: fmt::Write>(form: Form, w: &mut W, given: &Given<'_>) -> Result<(), EncodeError> {
    let (hrp, version, data) = (given.hrp, given.version, given.data);
    let outcome = match form {
        Form::Address => encode_to_fmt_unchecked(w, hrp, version, data),
        Form::LowerAddress => encode_lower_to_fmt_unchecked(w, hrp, version, data),
        Form::UpperAddress => encode_upper_to_fmt_unchecked(w, hrp, version, data),
        _ => return text_to_fmt::<Bech32, W>(form, w, hrp, data),
    };
    match outcome {
        Ok(()) => Ok(()),
        Err(error) => Err(EncodeError::Fmt(error)),
    }
}

// Writes a text by a checksum to an `io::Write`.
fn text_to_writer<Ck: Checksum, W: io::Write>(
    form: Form,
    w: &mut W,
    hrp: Hrp,
    data: &[u8],
) -> Result<(), EncodeIoError> {
    match form {
        Form::LowerText => encode_lower_to_writer::<Ck, W>(w, hrp, data),
        Form::UpperText => encode_upper_to_writer::<Ck, W>(w, hrp, data),
        _ => encode_to_writer::<Ck, W>(w, hrp, data),
    }
}

/// Writes to an `io::Write`.
pub fn to_writer<W: io::Write>(
    form: Form,
    w: &mut W,
    given: &Given<'_>,
) -> Result<(), EncodeIoError> {
    let (hrp, version, data) = (given.hrp, given.version, given.data);
    let outcome = match form {
        Form::Address => encode_to_writer_unchecked(w, hrp, version, data),
        Form::LowerAddress => encode_lower_to_writer_unchecked(w, hrp, version, data),
        Form::UpperAddress => encode_upper_to_writer_unchecked(w, hrp, version, data),
        _ => return text_to_writer::<Bech32, W>(form, w, hrp, data),
    };
    match outcome {
        Ok(()) => Ok(()),
        Err(error) => Err(EncodeIoError::Write(error)),
    }
}

// The address by a checksum, whatever its length.
fn address_by<Ck: Checksum>(rt: &impl Abort, alloc: Global, given: &Given<'_>) -> String {
    let text = text_in::<Ck, Global>(alloc, given.hrp, Some(given.version), given.data);
    text.expect(rt, "memory")
}

// The text in lower case, of which an address has at most `MAX_STRING_LENGTH` characters.
fn lower_text(rt: &impl Abort, alloc: Global, form: Form, given: &Given<'_>) -> String {
    match form {
        Form::Text | Form::LowerText | Form::UpperText => {
            let text = encode::<Bech32>(alloc, given.hrp, given.data);
            text.expect(rt, "a text")
        }
        _ if given.version == Fe32::Q => address_by::<Bech32>(rt, alloc, given),
        _ => address_by::<Bech32m>(rt, alloc, given),
    }
}

/// The bytes that a form writes.
pub fn written(rt: &impl Abort, alloc: Global, form: Form, given: &Given<'_>) -> Vec<u8> {
    let mut text = lower_text(rt, alloc, form, given).into_bytes();
    match form {
        Form::UpperText => text.make_ascii_uppercase(),
        Form::Address | Form::LowerAddress => text.truncate(MAX_STRING_LENGTH),
        Form::UpperAddress => {
            text.make_ascii_uppercase();
            text.truncate(MAX_STRING_LENGTH);
        }
        _ => {}
    }
    text
}
