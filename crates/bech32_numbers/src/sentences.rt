//! The sentences of refusals, by their numbers in `include/bech32.h` and `include/codex32.h`.
//!
//! Made by tools/make from docs/refusals.tsv; do not edit.

ghost use Rattle.bech32_numbers.specs.Sentences.{IsSentence, bech32_sentence, codex32_sentence};
ghost use Rattle.bech32_numbers.specs.Sentences.{common_sentence};

// What a number means that both headers have in the same words; nothing for any other.
fn common_sentence_of(number: u32) -> &'static str
    ensures { IsSentence common_sentence number result }
{
    match number {
        2 => "a text or a human-readable part is not UTF-8",
        11 => "the human-readable part is empty",
        12 => "the human-readable part has more than 83 bytes",
        13 => "the human-readable part has a character that is not ASCII",
        14 => "the human-readable part has a byte that is not from 33 to 126",
        15 => "the human-readable part has letters of both cases",
        21 => "a character behind the separator may not stand there",
        22 => "the text has letters of both cases",
        23 => "the text has no separator, `1`",
        33 => "the checksum is wrong",
        91 => "the lent memory did not suffice",
        92 => "a buffer is too small",
        _ => "",
    }
}

/// What a number of `include/bech32.h` means, in ASCII, at most 100 characters; nothing for a
/// number that is none of it.
pub fn bech32_sentence_of(number: u32) -> &'static str
    ensures { IsSentence bech32_sentence number result }
{
    match number {
        1 => "the row is null",
        4 => "the number of no checksum, an element above 31, too many errors, or no such rows",
        31 => "the text has more than 1023 characters (7089 by a long checksum)",
        32 => "too few characters for a checksum stand behind the separator",
        34 => "no correction of the data part mends the text",
        41 => "the text has more than 90 characters",
        42 => "the address has no witness version",
        43 => "its witness version is above 16",
        44 => "more than four bits stand behind the last whole byte",
        45 => "the bits behind the last whole byte are not all zero",
        46 => "the program has less than 2 bytes",
        47 => "the program has more than 40 bytes",
        48 => "in version 0 the program has neither 20 nor 32 bytes",
        49 => "the address has another human-readable part than is wanted",
        51 => "the text would have more than 1023 characters (7089 by a long checksum)",
        52 => "the witness version is above 16",
        53 => "the address would have more than 90 characters",
        67 => "an element is above 31",
        70 => "a confidential address of another witness version than 0 is not supported",
        79 => "a confidential address has less than 33 bytes behind its version",
        80 => "a character may not stand in a descriptor, or not in its checksum",
        88 => "the text does not end in `#` and eight characters",
        89 =>
            "the text has more than 7500 characters (1400 for two changes), too many to be mended",
        _ => common_sentence_of(number),
    }
}

/// What a number of `include/codex32.h` means, in ASCII, at most 100 characters; nothing for a
/// number that is none of it.
pub fn codex32_sentence_of(number: u32) -> &'static str
    ensures { IsSentence codex32_sentence number result }
{
    match number {
        4 => "there are more than 32 texts, or their lengths do not add up to that of all",
        34 => "there is no nearest text",
        56 => "there are neither 16 to 44 bytes nor 63 or 64",
        66 => "there are not as many random bytes as characters are drawn",
        68 => "the random bytes are all equal",
        74 => "there are fewer shares than the threshold",
        75 => "a share has another threshold, identifier or length than the first",
        76 => "two shares have one index",
        77 => "the shares contradict each other",
        78 => "there are fewer shares than the threshold, or more than 31",
        81 => "the human-readable part is not `ms`",
        82 => "a codex32 string has 48 to 93 characters, a long one 125 to 127",
        83 => "the threshold is neither 0 nor a digit from 2 to 9",
        84 => "the threshold is 0, and the share index is not `s`",
        85 => "the identifier is not four characters of the alphabet in one case",
        86 => "the share index is not one character of the alphabet",
        87 => "more than four bits stand behind the bytes of the payload",
        _ => common_sentence_of(number),
    }
}
