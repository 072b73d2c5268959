//! Mistyped texts, and the texts near to them.

use crate::tests::turns::{Answer, Call, Heap, each_refused};
use bech32::{
    Bech32, Checksum, CorrectError, Correction, EditsError, Mended, NearEdit, NearTexts, correct,
    near_edits, nearest,
};
use codex32::Codex32;
use std::alloc::Allocator;

// An address of BIP-173, and the same with one and with two wrong characters.
const ADDRESS: &str = "bc1qw508d6qejxtdg4y5r3zarvary0c5xw7kv8f3t4";

const MISTYPED: &str = "bc1qw508d6qejxtdg4y5r3zarvary0c5xw7kv8f3t5";

const TWICE_MISTYPED: &str = "bc1qw508q6qejxtdg4y5r3zarvary0c5xw7kv8f3t5";

// Whether a text is the only one of these.
fn is_only(text: &str, texts: &[&str]) -> bool {
    texts.len() == 1 && texts[0] == text
}

// What a call returned that mends a text to the only one of these.
fn mends<A: Allocator + Copy, C: Drop>(
    said: Result<Correction<Mended<A>, C>, CorrectError>,
    texts: &[&str],
) -> Answer {
    match said {
        Ok(Correction::Mended(mended)) => Answer::of(is_only(mended.text.as_str(), texts)),
        Ok(Correction::Accepted) => Answer::Other,
        Ok(Correction::Unexplained(_)) => Answer::Other,
        Err(CorrectError::Memory) => Answer::NoMemory,
        Err(CorrectError::Refused(_)) => Answer::Other,
    }
}

// Whether the texts of these mended ones are just these, in their order.
fn are_mended<A: Allocator + Copy>(found: &[Mended<A>], texts: &[&str]) -> bool {
    if found.len() != texts.len() {
        return false;
    }
    for i in 0..texts.len() {
        if found[i].text.as_str() != texts[i] {
            return false;
        }
    }
    true
}

// What a call returned to which just these texts are near, in their order.
fn lists<A: Allocator + Copy, C: Drop>(
    said: Result<NearTexts<Vec<Mended<A>, A>, C>, CorrectError>,
    texts: &[&str],
) -> Answer {
    match said {
        Ok(near) => Answer::of(are_mended(near.texts.as_slice(), texts)),
        Err(CorrectError::Memory) => Answer::NoMemory,
        Err(CorrectError::Refused(_)) => Answer::Other,
    }
}

// Whether the texts of these edits are just these, in their order.
fn are_edited<A: Allocator + Copy>(found: &[NearEdit<String<A>>], texts: &[&str]) -> bool {
    if found.len() != texts.len() {
        return false;
    }
    for i in 0..texts.len() {
        if found[i].text.as_str() != texts[i] {
            return false;
        }
    }
    true
}

// What a call returned that makes just these texts by one edit, in their order.
fn makes<A: Allocator + Copy>(
    said: Result<Vec<NearEdit<String<A>>, A>, EditsError>,
    texts: &[&str],
) -> Answer {
    match said {
        Ok(near) => Answer::of(are_edited(near.as_slice(), texts)),
        Err(EditsError::Memory) => Answer::NoMemory,
        Err(EditsError::Refused(_)) => Answer::Other,
    }
}

// What is asked of a text.
#[derive(Clone, Copy)]
enum Asked {
    Corrected,
    CorrectedByCodex32,
    Nearest,
    Edits,
}

// A text, its erasures, and the texts that it is mended to or that are near to it.
#[derive(Clone, Copy)]
struct Mistyped {
    asked: Asked,
    text: &'static str,
    erasures: &'static [usize],
    near: &'static [&'static str],
}

// What is said of the text that a mistyped one is corrected to.
fn corrects(heap: Heap<'_>, given: &Mistyped) -> Answer {
    mends(
        correct::<Bech32, _>(heap, given.text, given.erasures),
        given.near,
    )
}

// The same by codex32.
fn corrects_codex32(heap: Heap<'_>, given: &Mistyped) -> Answer {
    mends(
        correct::<Codex32, _>(heap, given.text, given.erasures),
        given.near,
    )
}

// What is said of the texts nearest to one, which should be just these.
fn lists_nearest(heap: Heap<'_>, given: &Mistyped) -> Answer {
    lists(
        nearest::<Bech32, _>(heap, given.text, given.erasures, 2),
        given.near,
    )
}

// What is said of the texts that one edit makes of one, which should be just these.
fn makes_by_edit<Ck: Checksum, A: Allocator + Copy>(heap: A, given: &Mistyped) -> Answer {
    makes(near_edits::<Ck, A>(heap, given.text), given.near)
}

impl Call for Mistyped {
    fn answer(&self, heap: Heap<'_>) -> Answer {
        match self.asked {
            Asked::Corrected => corrects(heap, self),
            Asked::CorrectedByCodex32 => corrects_codex32(heap, self),
            Asked::Nearest => lists_nearest(heap, self),
            Asked::Edits => makes_by_edit::<Bech32, _>(heap, self),
        }
    }
}

// Corrected by Bech32, and by codex32 with two of its four errors as erasures.
const CORRECTED: &[Mistyped] = &[
    Mistyped {
        asked: Asked::Corrected,
        text: MISTYPED,
        erasures: &[],
        near: &[ADDRESS],
    },
    Mistyped {
        asked: Asked::CorrectedByCodex32,
        text: "ms1qtestsqxxxxxxxxxxxxxxxxxxxxxxxxq4nzvca9cmczlq",
        erasures: &[44, 0],
        near: &["ms10testsxxxxxxxxxxxxxxxxxxxxxxxxxx4nzvca9cmczlw"],
    },
];

// The address, one with two wrong characters, and one that three are near to.
const NEAREST: &[Mistyped] = &[
    Mistyped {
        asked: Asked::Nearest,
        text: ADDRESS,
        erasures: &[],
        near: &[ADDRESS],
    },
    Mistyped {
        asked: Asked::Nearest,
        text: TWICE_MISTYPED,
        erasures: &[],
        near: &[ADDRESS],
    },
    Mistyped {
        asked: Asked::Nearest,
        text: "bc1qar0srrr7xfkvy5l64qlydnw9re59gtzzwf5mdx",
        erasures: &[1, 38],
        near: &[
            "bc1qar0srrr7xfkvy5l643lydnw9re59gtzzwf5mdq",
            "bc1kar0sr3r7xfkvy5l64qlydqw9re59gtzzwf5mlx",
            "bc1dar3srrr7xfkvy7l64qlydnw9re59gtzzwf5mux",
        ],
    },
];

// The address without a character, and one with two neighbours swapped. A text that ends in `qp`
// has two texts more: Bech32 accepts it with any number of `q` there.
const EDITED: &[Mistyped] = &[
    Mistyped {
        asked: Asked::Edits,
        text: "bc1qw508d6qejxtdg4y53zarvary0c5xw7kv8f3t4",
        erasures: &[],
        near: &[ADDRESS],
    },
    Mistyped {
        asked: Asked::Edits,
        text: "bc1qw508d6qejxtdg4y5r3zravary0c5xw7kv8f3t4",
        erasures: &[],
        near: &[ADDRESS],
    },
    Mistyped {
        asked: Asked::Edits,
        text: "ii2134hk2xmat79tqp",
        erasures: &[],
        near: &["ii2134hk2xmat79tp", "ii2134hk2xmat79tqqp"],
    },
];

#[test]
fn near_texts_or_out_of_memory(rt: HostRuntime) {
    for calls in [CORRECTED, NEAREST, EDITED] {
        each_refused(&rt, rt.alloc(), calls);
    }
}
