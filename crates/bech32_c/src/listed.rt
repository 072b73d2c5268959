//! What a call that lists texts tells.

ghost use Rattle.std.specs.Prelude.{◌≡◌, ◌⊎◌, true, false};

use bech32_calls::listed::Listed;
use bech32_calls::refusal::Refusal;

// Tells how many texts there are, and returns the number of the call: 92 where not all were put.
pub(crate) fn counted(listed: Listed, count: &mut usize) -> u32
    ensures count { count.new ≡ listed.count }
    ensures number { ((result ≡ 0) × (listed.fit ≡ true))
        ⊎ ((result ≡ 92) × (listed.fit ≡ false)) }
{
    *count = listed.count;
    if listed.fit {
        return 0;
    }
    Refusal::NoRoom.number()
}
