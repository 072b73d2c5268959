//! Strings that share a secret: those that are made, and those that others give.

use crate::tests::calls::nearest_is;
use crate::tests::turns::{Answer, Call, Heap, each_refused};
use bech32::Fe32;
use codex32::{
    DeriveError, EncodeError, Header, Share, derive, encode, encode_payload, propose_long, recover,
};
use std::alloc::Allocator;

// Two shares of BIP-93, the one derived from them, and the secret.
const A: &str = "MS12NAMEA320ZYXWVUTSRQPNMLKJHGFEDCAXRPP870HKKQRM";

const C: &str = "MS12NAMECACDEFGHJKLMNPQRSTUVWXYZ023FTR2GDZMPY6PN";

const D: &str = "ms12namedll4f8jlh4e5vdvuldlfxu2jhdnlsm97xvenrxeg";

const SECRET: &str = "ms12names6xqguzttxkeqnjsjzv4jv3nz5k3kwgsphuh6evw";

// What a call returned that derives this text.
fn derived_is<A: Allocator>(outcome: Result<String<A>, DeriveError>, text: &str) -> Answer {
    match outcome {
        Ok(found) => Answer::of(found.as_str() == text),
        Err(DeriveError::Memory) => Answer::NoMemory,
        Err(_) => Answer::Other,
    }
}

// What two shares give, what a header gives with bytes or with elements, and the string nearest to
// a long one.
#[derive(Clone, Copy)]
enum Made {
    Derived,
    Recovered,
    OfBytes,
    OfElements,
    NearestLong,
}

// The text that the two shares give.
fn text_of(call: Made) -> &'static str {
    match call {
        Made::Derived => D,
        _ => SECRET,
    }
}

// What is returned of them.
fn of_shares(heap: Heap<'_>, call: Made) -> Option<Answer> {
    let shares = [Share::parse(A).ok()?, Share::parse(C).ok()?];
    let outcome = match call {
        Made::Derived => derive(heap, &shares, Fe32::D),
        _ => recover(heap, &shares),
    };
    Some(derived_is(outcome, text_of(call)))
}

// What a call returned whose text begins so.
fn begins<A: Allocator>(outcome: Result<String<A>, EncodeError>, front: &str) -> Answer {
    match outcome {
        Ok(found) => Answer::of(found.as_str().starts_with(front)),
        Err(EncodeError::Memory) => Answer::NoMemory,
        Err(_) => Answer::Other,
    }
}

// What is returned of a header.
fn of_header(heap: Heap<'_>, call: Made) -> Answer {
    let Ok(header) = Header::parse("0", "test", "s") else {
        return Answer::Other;
    };
    let front = "ms10testsqqqqqqqqqqqqqqqqqqqqqqqqqq";
    match call {
        Made::OfBytes => begins(encode(heap, &header, &[0u8; 16]), front),
        _ => begins(encode_payload(heap, &header, &[Fe32::Q; 26]), front),
    }
}

// A long secret of BIP-93, in lower case, and the same with four wrong characters.
const LONG: &str =
    "ms100c8vsm32zxfguhpchtlupzry9x8gf2tvdw0s3jn54khce6mua7lqpzygsfjd6an074rxvcemlh8wu3tk925acdefghjklmnpqrstuvwxy06fhpv80undvarhrak";

const DAMAGED: &str =
    "ms100c8vsm32zxfguhpchtlupzqqqq8gf2tvdw0s3jn54khce6mua7lqpzygsfjd6an074rxvcemlh8wu3tk925acdefghjklmnpqrstuvwxy06fhpv80undvarhrak";

impl Call for Made {
    fn answer(&self, heap: Heap<'_>) -> Answer {
        match self {
            Made::OfBytes | Made::OfElements => of_header(heap, *self),
            Made::NearestLong => nearest_is(propose_long(heap, DAMAGED), LONG),
            _ => of_shares(heap, *self).unwrap_or(Answer::Other),
        }
    }
}

#[test]
fn strings_or_out_of_memory(rt: HostRuntime) {
    let calls = [
        Made::Derived,
        Made::Recovered,
        Made::OfBytes,
        Made::OfElements,
        Made::NearestLong,
    ];
    each_refused(&rt, rt.alloc(), &calls);
}
