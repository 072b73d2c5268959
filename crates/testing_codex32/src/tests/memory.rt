//! Out of memory.

use bech32_gf::gf32::Fe32;
use codex32::{
    Codex32Error, DeriveError, EncodeError, Header, Share, derive, encode, encode_payload, propose,
    propose_long, recover,
};
use linked_list_allocator::LocalHeap;
use std::alloc::Global;
use testing_tools::heaps::{InHeap, right_or_wants_memory};
use testing_tools::known::FOUR_ERRORS;

// Calls that make a text.
#[derive(Clone, Copy)]
enum Call {
    // The nearest text to a given one, and the nearest long one.
    Propose,
    ProposeLong,
    // The string of two shares of BIP-93 at the index `d`, and their secret.
    Derive,
    Recover,
    // The string of 16 bytes, and that of this many elements.
    Encode,
    EncodePayload(usize),
}

// A call, the text that it is given, if any, and how the text begins that it makes.
#[derive(Clone, Copy)]
struct Made {
    call: Call,
    text: &'static str,
    front: &'static str,
}

// Whether the nearest text was found.
fn is_nearest(
    nearest: Result<Option<String<&LocalHeap>>, Codex32Error>,
    want: &str,
) -> Option<bool> {
    match nearest {
        Ok(Some(text)) => Some(text.as_str() == want),
        Err(Codex32Error::Memory) => None,
        _ => Some(false),
    }
}

// Whether the two shares give a string at an index.
fn is_derived(heap: &LocalHeap, index: Fe32, want: &str) -> Option<bool> {
    let shares = [
        Share::parse("MS12NAMEA320ZYXWVUTSRQPNMLKJHGFEDCAXRPP870HKKQRM").ok()?,
        Share::parse("MS12NAMECACDEFGHJKLMNPQRSTUVWXYZ023FTR2GDZMPY6PN").ok()?,
    ];
    let derived = if index == Fe32::S {
        recover(heap, &shares)
    } else {
        derive(heap, &shares, index)
    };
    match derived {
        Ok(text) => Some(text.as_str() == want),
        Err(DeriveError::Memory) => None,
        Err(_) => Some(false),
    }
}

// Whether a string was made that begins so.
fn is_encoded(made: Result<String<&LocalHeap>, EncodeError>, front: &str) -> Option<bool> {
    match made {
        Ok(text) => Some(text.as_str().starts_with(front)),
        Err(EncodeError::Memory) => None,
        Err(_) => Some(false),
    }
}

impl InHeap for Made {
    fn is_right(&self, _alloc: Global, heap: &LocalHeap) -> Option<bool> {
        let header = Header::parse("0", "test", "s").ok()?;
        match self.call {
            Call::Propose => is_nearest(propose(heap, self.text), self.front),
            Call::ProposeLong => is_nearest(propose_long(heap, self.text), self.front),
            Call::Derive => is_derived(heap, Fe32::D, self.front),
            Call::Recover => is_derived(heap, Fe32::S, self.front),
            Call::Encode => is_encoded(encode(heap, &header, &[0u8; 16]), self.front),
            Call::EncodePayload(count) => {
                let elements = [Fe32::Q; 103];
                let payload = elements.get(..count)?;
                is_encoded(encode_payload(heap, &header, payload), self.front)
            }
        }
    }
}

const TEXT: &str = "ms10testsxxxxxxxxxxxxxxxxxxxxxxxxxx4nzvca9cmczlw";

const LONG: &str =
    "ms100c8vsm32zxfguhpchtlupzry9x8gf2tvdw0s3jn54khce6mua7lqpzygsfjd6an074rxvcemlh8wu3tk925acdefghjklmnpqrstuvwxy06fhpv80undvarhrak";

// The text itself and damaged ones, each with the text that is proposed and with a number of heaps;
// then calls that are given no text.
const MADE: &[(Call, &str, &str, usize)] = &[
    (Call::Propose, TEXT, TEXT, 96),
    (Call::Propose, FOUR_ERRORS, TEXT, 96),
    (
        Call::Propose,
        "ms10testsxxxxxxxxxxxxxxxxxxxxxxxxxx4nzvc????????",
        TEXT,
        96,
    ),
    (Call::ProposeLong, LONG, LONG, 96),
    (
        Call::ProposeLong,
        "ms100c8vsm32zxfguhpchtlupzqqqq8gf2tvdw0s3jn54khce6mua7lqpzygsfjd6an074rxvcemlh8wu3tk925acdefghjklmnpqrstuvwxy06fhpv80undvarhrak",
        LONG,
        96,
    ),
    (
        Call::ProposeLong,
        "ms100c8vsm32zxfguhpchtlupzry9x8gf2tvdw0s3jn54khce6mua7lqpzygsfjd6an074rxvcemlh8wu3tk925acdefghjklmnpqrstuvwxy06fhpv80un????????",
        LONG,
        96,
    ),
    (
        Call::Derive,
        "",
        "ms12namedll4f8jlh4e5vdvuldlfxu2jhdnlsm97xvenrxeg",
        32,
    ),
    (
        Call::Recover,
        "",
        "ms12names6xqguzttxkeqnjsjzv4jv3nz5k3kwgsphuh6evw",
        32,
    ),
    (Call::Encode, "", "ms10testsqqqqqqqqqqqqqqqqqqqqqqqqqq", 32),
    (
        Call::EncodePayload(26),
        "",
        "ms10testsqqqqqqqqqqqqqqqqqqqqqqqqqq",
        32,
    ),
    (
        Call::EncodePayload(103),
        "",
        "ms10testsqqqqqqqqqqqqqqqqqqqqqqqqqq",
        32,
    ),
];

#[test]
fn the_text_or_out_of_memory(rt: HostRuntime) {
    for &(call, text, front, heaps) in MADE {
        let made = Made { call, text, front };
        right_or_wants_memory(rt.alloc(), &made, (heaps, 16)).expect(&rt, front);
    }
}
