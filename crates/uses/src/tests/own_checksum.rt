//! A checksum of one's own, with the calls for any checksum.

use crate::tests::compare::{same, same_text};
use bech32::primitives::decode::CheckedHrpstring;
use bech32::{Checksum, Fe32IterExt};
use blech32::Blech32;
use codex32::LongCodex32;
use std::alloc::{AllocError, Global};
use std::process::Abort;

// A confidential address of Liquid, of witness version 0.
const ADDRESS: &str =
    "lq1qqf8er278e6nyvuwtgf39e6ewvdcnjupn9a86rzpx655y5lhkt0walu3djf9cklkxd3ryld97hu8h3xepw7sh2rlu7q45dcew5";

// A long codex32 string of BIP-93, in lower case.
const LONG: &str =
    "ms100c8vsm32zxfguhpchtlupzry9x8gf2tvdw0s3jn54khce6mua7lqpzygsfjd6an074rxvcemlh8wu3tk925acdefghjklmnpqrstuvwxy06fhpv80undvarhrak";

// The characters that a text of a checksum is written with once more.
fn written_again<Ck: Checksum>(
    alloc: Global,
    checked: &CheckedHrpstring,
) -> Result<Vec<char>, AllocError> {
    let hrp = checked.hrp();
    let chars = checked.fe32_iter().with_checksum::<Ck>(&hrp).chars();
    chars.collect(alloc)
}

// Fails where the roots of a checksum are not lawful, or a text is not read, or not written again.
fn comes_again<Ck: Checksum>(rt: &impl Abort, alloc: Global, text: &str) {
    same(rt, &Ck::sanity_check(), &true);
    let checked = CheckedHrpstring::new::<Ck>(text).expect(rt, "a text");
    let again = written_again::<Ck>(alloc, &checked).expect(rt, "memory");
    same_text(rt, alloc, &again, text);
}

fn addresses_of_liquid(rt: &impl Abort, alloc: Global) {
    comes_again::<Blech32>(rt, alloc, ADDRESS);
}

fn long_codex32_strings(rt: &impl Abort) {
    same(rt, &LongCodex32::sanity_check(), &true);
    let checked = CheckedHrpstring::new::<LongCodex32>(LONG).expect(rt, "a long string");
    same(rt, &checked.hrp().as_str(), &"ms");
}

#[test]
fn checksums_of_ones_own(rt: HostRuntime) {
    addresses_of_liquid(&rt, rt.alloc());
    long_codex32_strings(&rt);
}
