use crate::tests::compare::same;
use bech32_hrp::{Error, Hrp};
use std::fmt;

// Prints these pieces, and then fails.
#[derive(Drop)]
struct Broken<'a> {
    pieces: &'a [&'a str],
}

impl fmt::Display for Broken<'_> {
    fn fmt<W: fmt::Write>(&self, f: &mut fmt::Formatter<W>) -> fmt::Result {
        for piece in self.pieces {
            f.write_str(piece)?;
        }
        Err(fmt::Error)
    }
}

// 84 letters.
const LONGER: &str =
    "aaaaaaaaaaaaaaaaaaaaaaaaaaaaaaaaaaaaaaaaaaaaaaaaaaaaaaaaaaaaaaaaaaaaaaaaaaaaaaaaaaaa";

const BROKEN: &[&[&str]] = &[&[], &["ab"], &["a", "B"], &["é"], &[LONGER]];

// A value that prints these pieces and then fails is no part.
#[test]
fn tells_that_a_value_does_not_print(rt: HostRuntime) {
    for &pieces in BROKEN {
        let read = Hrp::parse_display(Broken { pieces });
        same(&rt, &read.err(), &Some(Error::Fmt));
    }
}
