//! Adds text to bytes that have room for it.

ghost use Rattle.std.specs.Prelude.{◌≡◌, ◌+◌, ◌*◌, ◌<◌, ◌≤◌, ◌++◌, ◌∷◌, [], length, codes};
ghost use Rattle.std.specs.Prelude.{vec_len, vec_capacity};
ghost use Rattle.std.specs.Fmt.{decimal};
ghost use Rattle.bech32_hrp.specs.Hrp.{lowered};
ghost use Rattle.bech32_hrp.specs.HrpBytes.{hrp_bytes};
ghost use Rattle.b32_replies.specs.Hex.{hex_of};

use crate::hex_word::append_hex;
use bech32::Hrp;
use line_program::{append, append_number};

/// Adds bytes, each ASCII letter in lower case.
pub fn append_lowered(out: &mut Vec<u8>, bytes: &[u8])
    requires { vec_len out.old + length bytes.now ≤ vec_capacity out.old }
    ensures items { out.new.items ≡ out.old.items ++ lowered bytes.now }
    ensures capacity { vec_capacity out.old ≤ vec_capacity out.new }
{
    let front = out.len();
    append(out, bytes);
    out.as_mut_slice()[front..].make_ascii_lowercase();
}

/// Adds `ok`, a human-readable part in lower case, and a space.
pub fn append_part(out: &mut Vec<u8>, hrp: &Hrp)
    requires { vec_len out.old + (length (hrp_bytes hrp.now) + 4) ≤ vec_capacity out.old }
    ensures items { out.new.items
        ≡ out.old.items ++ (codes "ok " ++ (lowered (hrp_bytes hrp.now) ++ 32 ∷ [])) }
    ensures capacity { vec_capacity out.old ≤ vec_capacity out.new }
{
    append(out, b"ok ");
    append_lowered(out, hrp.as_bytes());
    append(out, b" ");
}

/// Adds `ok`, a human-readable part in lower case, and the word for bytes.
pub fn append_decoded(out: &mut Vec<u8>, hrp: &Hrp, bytes: &[u8])
    requires { vec_len out.old + (length (hrp_bytes hrp.now) + 2 * length bytes.now + 5)
        ≤ vec_capacity out.old }
    ensures items { out.new.items
        ≡ out.old.items
        ++ (codes "ok " ++ (lowered (hrp_bytes hrp.now) ++ (32 ∷ hex_of bytes.now))) }
    ensures capacity { vec_capacity out.old ≤ vec_capacity out.new }
{
    append_part(out, hrp);
    append_hex(out, bytes);
}

/// Adds a location, which is 1022 at most, in decimal.
pub fn append_location(out: &mut Vec<u8>, location: usize)
    requires small { location ≤ 1022 }
    requires room { vec_len out.old + 4 ≤ vec_capacity out.old }
    ensures items { out.new.items ≡ out.old.items ++ decimal location }
    ensures size { vec_len out.new ≤ vec_len out.old + 4 }
    ensures capacity { vec_capacity out.old ≤ vec_capacity out.new }
{
    if location < 100 {
        append_number(out, location as u8);
    } else {
        append_number(out, (location / 100) as u8);
        append(
            out,
            &[
                b'0' + (location / 10 % 10) as u8,
                b'0' + (location % 10) as u8,
            ],
        );
    }
}
