//! Codex32 strings, the nearest one to a damaged one, and the laws of shares.

use crate::callers::proposal;
use crate::tests::compare::{same, same_items};
use codex32::{Codex32Str, laws, propose};
use std::alloc::Global;
use std::process::Abort;

// The secret of the first test vector of BIP-93.
const TEXT: &str = "ms10testsxxxxxxxxxxxxxxxxxxxxxxxxxx4nzvca9cmczlw";

fn parts_of_a_codex32_string(rt: &impl Abort) {
    let string = Codex32Str::parse(TEXT).expect(rt, "string");
    let found = (string.threshold(), string.share_index());
    same(rt, &found, &('0', 's'));
    let found = [string.identifier(), string.payload()];
    same_items(rt, &found, &["test", "xxxxxxxxxxxxxxxxxxxxxxxxxx"]);
}

// Three characters of it are wrong, and one cannot be read.
const DAMAGED: &str = "ms1?testsqxxxxxxxxxxxxxxxxxxxxxxxxq4nzvca9cmczlq";

fn the_nearest_string(rt: &impl Abort, alloc: Global) {
    let nearest = propose(alloc, DAMAGED).expect(rt, "damaged");
    same(rt, &nearest.expect(rt, "none").as_str(), &TEXT);
}

fn what_to_propose(rt: &impl Abort, alloc: Global) {
    let proposed = proposal(alloc, DAMAGED).expect(rt, "damaged");
    same(rt, &proposed.expect(rt, "none").as_str(), &TEXT);
    // Nothing where it is a string.
    let proposed = proposal(alloc, TEXT).expect(rt, "string");
    same(rt, &proposed.is_none(), &true);
}

// They do nothing: what they prove holds where they are called.
fn laws_of_shares() {
    laws::one_value_through_points();
    laws::weights_sum_to_one();
    laws::one_text_is_derived();
    laws::derived_texts_are_accepted();
    laws::derived_texts_give_back_the_shares();
    laws::further_texts_agree_where_they_are_derived();
    laws::fewer_shares_say_nothing();
    laws::derived_strings_are_strings();
    laws::fewer_strings_say_nothing();
    laws::fewer_shares_of_a_split_say_nothing();
}

#[test]
fn codex32_strings(rt: HostRuntime) {
    parts_of_a_codex32_string(&rt);
    the_nearest_string(&rt, rt.alloc());
    what_to_propose(&rt, rt.alloc());
    laws_of_shares();
}
