//! The calls that answer a text, a human-readable part, a block or a decision.

use crate::tests::turns::{Answer, Call, Heap, each_refused, wants_of};
use bech32::hrp::{BC, TB};
use bech32::primitives::checksum::{PrintError, detects_four};
use bech32::primitives::decode::SegwitHrpstringError;
use bech32::segwit::{self, VERSION_0, VERSION_1};
use bech32::{
    Bech32, Bech32m, Checksum, DecodeError, EncodeError, Fe32, Hrp, PrintImpl, decode_in,
    encode_in, encode_lower_in, encode_upper_in,
};
use codex32::{Codex32Error, propose};
use std::alloc::{AllocError, Allocator};

// The program of the first address in BIP-173's examples, and the address; a program of version 1.
const PROGRAM: &[u8] = &[
    0x75, 0x1e, 0x76, 0xe8, 0x19, 0x91, 0x96, 0xd4, 0x54, 0x94, 0x1c, 0x45, 0xd1, 0xb3, 0xa3, 0x23,
    0xf1, 0x43, 0x3b, 0xd6,
];

const ADDRESS: &str = "bc1qw508d6qejxtdg4y5r3zarvary0c5xw7kv8f3t4";

const TAPROOT: &str = "bc1p4w46h2at4w46h2at4w46h2at4w46h2at5kreae";

// The text of twenty bytes under `abc` by Bech32m, and in upper case.
const TEXT: &str = "abc14w46h2at4w46h2at4w46h2at4w46h2at958ngu";

const UPPER_TEXT: &str = "ABC14W46H2AT4W46H2AT4W46H2AT4W46H2AT958NGU";

const BYTES: &[u8] = &[0xab; 20];

// What a call returned whose text this is.
fn text_is<A: Allocator>(outcome: Result<String<A>, EncodeError>, text: &str) -> Answer {
    match outcome {
        Ok(found) => Answer::of(found.as_str() == text),
        Err(EncodeError::Memory) => Answer::NoMemory,
        Err(_) => Answer::Other,
    }
}

// What a call returned whose address this is.
fn address_is<A: Allocator>(outcome: Result<String<A>, segwit::EncodeError>, text: &str) -> Answer {
    match outcome {
        Ok(found) => Answer::of(found.as_str() == text),
        Err(segwit::EncodeError::Memory) => Answer::NoMemory,
        Err(_) => Answer::Other,
    }
}

// A call, by its name.
#[derive(Clone, Copy)]
enum Named {
    Encode,
    EncodeLower,
    EncodeUpper,
    Decode,
    ToLowercase,
    EncodeAddress,
    EncodeV0,
    EncodeV1,
    DecodeAddress,
    DetectsFour,
    Block,
    Propose,
}

// The text of the bytes, in the case of the human-readable part or in a given one.
fn encodes_under<Ck: Checksum, A: Allocator + Copy>(heap: A, call: Named, hrp: Hrp) -> Answer {
    match call {
        Named::EncodeLower => text_is(encode_lower_in::<Ck, A>(heap, hrp, BYTES), TEXT),
        Named::EncodeUpper => text_is(encode_upper_in::<Ck, A>(heap, hrp, BYTES), UPPER_TEXT),
        _ => text_is(encode_in::<Ck, A>(heap, hrp, BYTES), TEXT),
    }
}

// The human-readable part that it is given.
fn part_of(call: Named) -> &'static str {
    match call {
        Named::EncodeLower => "ABC",
        _ => "abc",
    }
}

fn encodes(heap: Heap<'_>, call: Named) -> Answer {
    match Hrp::parse(part_of(call)) {
        Ok(hrp) => encodes_under::<Bech32m, _>(heap, call, hrp),
        Err(_) => Answer::Other,
    }
}

fn decodes(heap: Heap<'_>) -> Answer {
    match decode_in(heap, UPPER_TEXT) {
        Ok((hrp, bytes)) => {
            let is_same = hrp.as_str() == "ABC" && bytes.as_slice() == BYTES;
            Answer::of(is_same)
        }
        Err(DecodeError::Memory) => Answer::NoMemory,
        Err(_) => Answer::Other,
    }
}

// What a call returned whose text is this, and that fails for lack of memory alone.
fn lowered_is<A: Allocator>(outcome: Result<String<A>, AllocError>, text: &str) -> Answer {
    match outcome {
        Ok(found) => Answer::of(found.as_str() == text),
        Err(_) => Answer::NoMemory,
    }
}

fn lowers(heap: Heap<'_>) -> Answer {
    let Ok(hrp) = Hrp::parse("TB") else {
        return Answer::Other;
    };
    let answer = lowered_is(hrp.to_lowercase_in(heap), "tb");
    if hrp == TB && hrp.as_str() == "TB" {
        answer
    } else {
        Answer::Other
    }
}

fn encodes_address(heap: Heap<'_>, call: Named) -> Answer {
    match call {
        Named::EncodeV0 => address_is(segwit::encode_v0_in(heap, BC, PROGRAM), ADDRESS),
        Named::EncodeV1 => address_is(segwit::encode_v1_in(heap, BC, BYTES), TAPROOT),
        _ => address_is(segwit::encode_in(heap, BC, VERSION_1, BYTES), TAPROOT),
    }
}

fn decodes_address(heap: Heap<'_>) -> Answer {
    match segwit::decode_in(heap, ADDRESS) {
        Ok((hrp, version, program)) => {
            let is_same = hrp == BC && version == VERSION_0;
            Answer::of(is_same && program.as_slice() == PROGRAM)
        }
        Err(segwit::DecodeError(SegwitHrpstringError::Memory)) => Answer::NoMemory,
        Err(_) => Answer::Other,
    }
}

fn detects(heap: Heap<'_>) -> Answer {
    match detects_four::<Bech32>(heap, 12) {
        Ok(answer) => Answer::of(answer),
        Err(_) => Answer::NoMemory,
    }
}

fn makes_block(heap: Heap<'_>) -> Answer {
    let generator = [Fe32::X, Fe32::G];
    match PrintImpl::<Fe32>::new_in(heap, "Tiny", &generator, &[Fe32::Q, Fe32::P]) {
        Ok(_) => Answer::Undisturbed,
        Err(PrintError::Memory) => Answer::NoMemory,
        Err(_) => Answer::Other,
    }
}

/// What a call returned whose nearest text this is.
pub fn nearest_is<A: Allocator>(
    outcome: Result<Option<String<A>>, Codex32Error>,
    text: &str,
) -> Answer {
    match outcome {
        Ok(Some(nearest)) => Answer::of(nearest.as_str() == text),
        Ok(None) => Answer::Other,
        Err(Codex32Error::Memory) => Answer::NoMemory,
        Err(_) => Answer::Other,
    }
}

fn proposes(heap: Heap<'_>) -> Answer {
    let right = "ms10testsxxxxxxxxxxxxxxxxxxxxxxxxxx4nzvca9cmczlw";
    let nearest = propose(heap, "ms1qtestsqxxxxxxxxxxxxxxxxxxxxxxxxq4nzvca9cmczlq");
    nearest_is(nearest, right)
}

impl Call for Named {
    fn answer(&self, heap: Heap<'_>) -> Answer {
        match self {
            Named::Encode | Named::EncodeLower | Named::EncodeUpper => encodes(heap, *self),
            Named::Decode => decodes(heap),
            Named::ToLowercase => lowers(heap),
            Named::DecodeAddress => decodes_address(heap),
            Named::DetectsFour => detects(heap),
            Named::Block => makes_block(heap),
            Named::Propose => proposes(heap),
            _ => encodes_address(heap, *self),
        }
    }
}

#[test]
fn calls_or_out_of_memory(rt: HostRuntime) {
    let calls = [
        Named::Encode,
        Named::EncodeLower,
        Named::EncodeUpper,
        Named::ToLowercase,
        Named::EncodeAddress,
        Named::EncodeV0,
        Named::EncodeV1,
        Named::DetectsFour,
        Named::Block,
        Named::Propose,
    ];
    each_refused(&rt, rt.alloc(), &calls);
    // The bytes are gathered in memory that is taken at first or as they come.
    for call in [Named::Decode, Named::DecodeAddress] {
        wants_of(&rt, rt.alloc(), &call);
    }
}
