//! Readers, which borrow the text and allocate nothing.

use crate::tests::compare::{same, same_items};
use bech32::hrp::BC;
use bech32::primitives::decode::{CheckedHrpstring, SegwitHrpstring, UncheckedHrpstring};
use bech32::segwit::VERSION_1;
use bech32::{Bech32, Fe32};
use std::process::Abort;

fn parts_of_an_address(rt: &impl Abort) {
    let address = "bc1pdp43hj65vxw49rts6kcw35u6r6tgzguyr03vvveeewjqpn05efzq7un9w0";
    let segwit = SegwitHrpstring::new(address).expect(rt, "an address");
    let found = (segwit.hrp(), segwit.witness_version());
    same(rt, &found, &(BC, VERSION_1));
    same(rt, &segwit.byte_iter().len(), &32);
}

fn ascii_of_an_address(rt: &impl Abort) {
    let addr = "bc1qar0srrr7xfkvy5l643lydnw9re59gtzzwf5mdq";
    let mut unchecked = UncheckedHrpstring::new(addr).expect(rt, "a text");
    same(rt, &unchecked.remove_witness_version(), &Some(Fe32::Q));
    let ascii = b"ar0srrr7xfkvy5l643lydnw9re59gtzzwf5mdq";
    same_items(rt, unchecked.data_part_ascii(), ascii.as_slice());
    let checked = CheckedHrpstring::new::<Bech32>(addr).expect(rt, "a text");
    let ascii = b"qar0srrr7xfkvy5l643lydnw9re59gtzz";
    same_items(rt, checked.data_part_ascii_no_checksum(), ascii.as_slice());
}

#[test]
fn readers_of_addresses(rt: HostRuntime) {
    parts_of_an_address(&rt);
    ascii_of_an_address(&rt);
}
